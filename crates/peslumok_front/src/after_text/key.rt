//! The key of a value of `--after`.
ghost use Rattle.std.specs.Prelude.{◌≡◌, ◌≢◌, IfErr, IfOk, IfSome, MatchResult, None, OnOk, Some};
ghost use Rattle.std.specs.Prelude.{option_map};
ghost use Rattle.agg_values.specs.KeyText.{IsKeyText};
ghost use Rattle.agg_values.specs.Nothing.{NoneIs};
ghost use Rattle.agg_values.specs.TypedKey.{CompositeIntermediateKey as Key};
ghost use Rattle.agg_segment.specs.storage.Document.{said_key};
ghost use Rattle.peslumok_texts.specs.fields.Types.{type_of};
ghost use Rattle.peslumok_front.specs.after_text.After.{IsUnreadKey, ReadsAs, refusal_of};

use crate::grouping::GroupingError;
use agg_segment::storage::FieldValue;
use agg_values::{AfterKey, CompositeIntermediateKey, KeyTextError, OutOfMemory, Text};
use peslumok_texts::fields::{FieldTypes, ValueError, value_of_text};
use peslumok_texts::words::BySpec;
use std::alloc::Global;

/// The key of a source that a value is read as.
pub fn key_of(
    alloc: Global,
    value: &str,
    by: &BySpec<'_>,
    types: &FieldTypes,
) -> Result<AfterKey, GroupingError>
    ensures ok { IfOk result
        (λ key. ReadsAs (type_of types.now by.now.field.now) value.now key.0) }
    ensures each { (key : Key) → ReadsAs (type_of types.now by.now.field.now) value.now key
        → MatchResult result (λ read. read.0 ≡ key)
        (λ error. error ≡ GroupingError.OutOfMemory) }
    ensures cause { IfErr result (IsUnreadKey types.now by.now value.now) }
{
    match prefixed_key(alloc, value)? {
        Some(key) => Ok(key),
        None => value_key(alloc, value, by, types),
    }
}

// The key of a value that has no kind in front.
fn value_key(
    alloc: Global,
    value: &str,
    by: &BySpec<'_>,
    types: &FieldTypes,
) -> Result<AfterKey, GroupingError>
    requires { NoneIs (IsKeyText value.now) }
    ensures ok { IfOk result
        (λ key. ReadsAs (type_of types.now by.now.field.now) value.now key.0) }
    ensures each { (key : Key) → ReadsAs (type_of types.now by.now.field.now) value.now key
        → MatchResult result (λ read. read.0 ≡ key)
        (λ error. error ≡ GroupingError.OutOfMemory) }
    ensures cause { IfErr result (IsUnreadKey types.now by.now value.now) }
{
    let field = Text::copy_of(alloc, by.field)?;
    match value_of_text(alloc, value, types.get(&field)) {
        Ok(value) => Ok(AfterKey(typed_key(value))),
        Err(error) => Err(refusal_of(field, error)),
    }
}

// The refusal of a value of a field.
fn refusal_of(field: Text, error: ValueError) -> GroupingError
    ensures { result ≡ refusal_of field error }
{
    match error {
        ValueError::OutOfMemory => GroupingError::OutOfMemory,
        why => GroupingError::AfterValue { field, why },
    }
}

/// The key of a value with its kind in front, if it has one.
pub fn prefixed_key(alloc: Global, value: &str) -> Result<Option<AfterKey>, OutOfMemory>
    ensures some { IfOk result (λ found. IfSome found (λ key. IsKeyText value.now key.0)) }
    ensures each { (key : Key) → IsKeyText value.now key
        → IfOk result (λ found. option_map (λ k. k.0) found ≡ Some key) }
{
    let value = Text::copy_of(alloc, value)?;
    match AfterKey::read(alloc, &value) {
        Ok(key) => Ok(Some(key)),
        Err(error) => no_key(error),
    }
}

// No key, unless memory ran out.
fn no_key(error: KeyTextError) -> Result<Option<AfterKey>, OutOfMemory>
    ensures none { IfOk result (λ found. found ≡ None) }
    ensures error { OnOk result (error ≢ KeyTextError.OutOfMemory) }
{
    match error {
        KeyTextError::OutOfMemory => Err(OutOfMemory),
        _ => Ok(None),
    }
}

/// The key of a value, as it was given.
pub fn typed_key(value: FieldValue) -> CompositeIntermediateKey
    ensures { result ≡ said_key value }
{
    match value {
        FieldValue::Bool(truth) => CompositeIntermediateKey::Bool(truth),
        FieldValue::Str(text) => CompositeIntermediateKey::Str(text),
        FieldValue::I64(number) => CompositeIntermediateKey::I64(number),
        FieldValue::U64(number) => CompositeIntermediateKey::U64(number),
        FieldValue::Ip(address) => CompositeIntermediateKey::IpAddr(address),
        FieldValue::Date(nanos) => CompositeIntermediateKey::DateTime(nanos),
    }
}
