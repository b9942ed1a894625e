//! Filters with no filters inside.
ghost use Rattle.std.specs.Prelude.{◌≡◌, IfOk, OnOk, false};
ghost use Rattle.serde_json.specs.Data.{object, put as with_member};
ghost use Rattle.serde_json.specs.View.{members_view, view};
ghost use Rattle.agg_values.specs.KeyText.{key_text};
ghost use Rattle.agg_segment.specs.storage.Document.{said_key};
ghost use Rattle.agg_segment.specs.declared.query.QueryTree.TheVariants as of_tree;
ghost use Rattle.agg_request.specs.json_values.Query.{IsExists, IsRange, IsTerm};
ghost use Rattle.agg_request.specs.ReadBack.{IsBoundReadBack, IsReadBack};
ghost use Rattle.agg_request.specs.WrittenJson.{data_of_value, field_members, range_members};
ghost use Rattle.agg_request.specs.WrittenJson.{term_members, with_bound};

use crate::writer::objects::field_member;
use agg_segment::{FieldValue, RangeBound};
use agg_values::{AfterKey, CompositeIntermediateKey, OutOfMemory, Text};
use serde_json::{Map, Value, put};
use std::alloc::Global;

/// The body of a query for a value.
pub fn write_term(alloc: Global, field: &Text, value: &FieldValue) -> Result<Value, OutOfMemory>
    ensures written { IfOk result
        (λ body. view body ≡ object (term_members field.now value.now)) }
    ensures says { IfOk result
        (λ body. IsTerm false (view body) (of_tree.Term field.now value.now)) }
{
    let mut body = field_member(alloc, field)?;
    put_value(alloc, &mut body, "value", value)?;
    Ok(Value::from(body))
}

/// The body of a query for values between bounds.
pub fn write_range(
    alloc: Global,
    field: &Text,
    lower: &RangeBound,
    upper: &RangeBound,
) -> Result<Value, OutOfMemory>
    ensures written { IfOk result
        (λ body. view body ≡ object (range_members field.now lower.now upper.now)) }
    ensures says { IfOk result
        (λ body. IsRange false (view body) (of_tree.Range field.now lower.now upper.now)) }
{
    let mut body = field_member(alloc, field)?;
    put_bound(alloc, &mut body, lower, "gte", "gt")?;
    put_bound(alloc, &mut body, upper, "lte", "lt")?;
    Ok(Value::from(body))
}

/// The body of a query for any value.
pub fn write_exists(alloc: Global, field: &Text) -> Result<Value, OutOfMemory>
    ensures written { IfOk result (λ body. view body ≡ object (field_members field.now)) }
    ensures says { IfOk result (λ body. IsExists (view body) (of_tree.Exists field.now)) }
{
    Ok(Value::from(field_member(alloc, field)?))
}

// Adds a bound at its one of two names, where there is one.
fn put_bound(
    alloc: Global,
    body: &mut Map<String, Value>,
    bound: &RangeBound,
    including: &str,
    excluding: &str,
) -> Result<(), OutOfMemory>
    ensures written { OnOk result (members_view body.new.entries
        ≡ with_bound including.now excluding.now bound.now (members_view body.old.entries)) }
    ensures says { OnOk result (IsBoundReadBack bound.now) }
{
    match bound {
        RangeBound::Unbounded => Ok(()),
        RangeBound::Included(value) => put_value(alloc, body, including, value),
        RangeBound::Excluded(value) => put_value(alloc, body, excluding, value),
    }
}

// Adds the text of a value at a name.
fn put_value(
    alloc: Global,
    body: &mut Map<String, Value>,
    name: &str,
    value: &FieldValue,
) -> Result<(), OutOfMemory>
    ensures written { OnOk result (members_view body.new.entries
        ≡ with_member name.now (data_of_value value.now) (members_view body.old.entries)) }
    ensures says { OnOk result (IsReadBack value.now) }
{
    let text = write_value(alloc, value)?;
    put(
        body,
        alloc,
        name,
        Value::try_from_str(alloc, text.as_str())?,
    )?;
    Ok(())
}

// The text that says a value.
fn write_value(alloc: Global, value: &FieldValue) -> Result<Text, OutOfMemory>
    ensures written { IfOk result (λ text. text ≡ key_text (said_key value.now)) }
    ensures says { OnOk result (IsReadBack value.now) }
{
    AfterKey::from(key_of(alloc, value)?).write(alloc)
}

// The key that is written for a value.
fn key_of(alloc: Global, value: &FieldValue) -> Result<CompositeIntermediateKey, OutOfMemory>
    ensures { IfOk result (λ key. key ≡ said_key value.now) }
{
    Ok(match value {
        FieldValue::Bool(b) => CompositeIntermediateKey::Bool(*b),
        FieldValue::Str(text) => CompositeIntermediateKey::Str(text.try_clone(alloc)?),
        FieldValue::I64(n) => CompositeIntermediateKey::I64(*n),
        FieldValue::U64(n) => CompositeIntermediateKey::U64(*n),
        FieldValue::Ip(address) => CompositeIntermediateKey::IpAddr(*address),
        FieldValue::Date(ns) => CompositeIntermediateKey::DateTime(*ns),
    })
}
