//! The least values of sources.
ghost use Rattle.std.specs.Prelude.{◌≡◌, ◌⊎◌, Ok, Err, IfOk, IfErr, option_map};
ghost use Rattle.peslumok_front.specs.grouping.Mins.{least_asked, least_key, least_value};

use crate::after_text::key::typed_key;
use crate::grouping::by_fault::ByFault;
use crate::grouping::condition::truth_of;
use agg_segment::storage::FieldValue;
use agg_values::{AfterKey, OutOfMemory};
use peslumok_texts::fields::{FieldType, ValueError, value_of_text};
use std::alloc::Global;

/// The least value that is asked for, if there is one, for a field of that type.
pub(crate) fn least_of(
    alloc: Global,
    min: Option<&str>,
    of: FieldType,
) -> Result<Result<Option<AfterKey>, ByFault>, OutOfMemory>
    ensures { IfOk result (λ least. least
        ≡ least_asked of (option_map (λ text. text.now) min.entry)) }
{
    match min {
        Some(text) => key_of(alloc, text, of),
        None => Ok(Ok(None)),
    }
}

// The key of the value that a text is in a field of that type.
fn key_of(
    alloc: Global,
    text: &str,
    of: FieldType,
) -> Result<Result<Option<AfterKey>, ByFault>, OutOfMemory>
    ensures { IfOk result (λ key. key ≡ least_key (least_value of text.now)) }
{
    match value_of(alloc, text, of) {
        Ok(value) => Ok(Ok(Some(AfterKey(typed_key(value))))),
        Err(ValueError::OutOfMemory) => Err(OutOfMemory),
        Err(why) => Ok(Err(ByFault::Min(why))),
    }
}

// The value that a text is in a field of that type.
fn value_of(alloc: Global, text: &str, of: FieldType) -> Result<FieldValue, ValueError>
    ensures value { IfOk result (λ value. least_value of text.now ≡ Ok value) }
    ensures error { IfErr result (λ error.
        (error ≡ ValueError.OutOfMemory) ⊎ (least_value of text.now ≡ Err error)) }
{
    match of {
        FieldType::Plain => plain_value(alloc, text),
        _ => value_of_text(alloc, text, of),
    }
}

// The value that a text is in a plain field: a truth value, a number or the text.
fn plain_value(alloc: Global, text: &str) -> Result<FieldValue, ValueError>
    ensures value { IfOk result (λ value. least_value FieldType.Plain text.now ≡ Ok value) }
    ensures error { IfErr result (λ error.
        (error ≡ ValueError.OutOfMemory) ⊎ (least_value FieldType.Plain text.now ≡ Err error)) }
{
    match truth_of(text) {
        Some(truth) => Ok(FieldValue::Bool(truth)),
        None => value_of_text(alloc, text, FieldType::Plain),
    }
}
