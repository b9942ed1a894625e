//! The value that a JSON value is, by the type of its field.
ghost use Rattle.std.specs.Prelude.{◌≡◌, Some, None, IfOk, IfErr, false, true};
ghost use Rattle.std.specs.Prelude.{option_map, option_to_list};
ghost use Rattle.json.specs.Value.{value_view};
ghost use Rattle.peslumok_texts.specs.fields.Values as spec;
ghost use Rattle.peslumok_records.specs.held.Causes.{is_encoding, is_fault};
ghost use Rattle.peslumok_records.specs.held.Values.{alone, value_read};
ghost use Rattle.peslumok_records.specs.objects.Objects.{bool_value as value_of_bool};
ghost use Rattle.peslumok_records.specs.objects.Objects.{single_values, bool_word as word_of_bool};

use crate::held::{RecordCause, value_or_cause};
use agg_segment::storage::FieldValue;
use json::Value;
use peslumok_texts::fields::{FieldType, value_of_number, value_of_string};
use std::alloc::Global;

/// The value of a JSON value that is no array. `null` is none.
pub fn value_of_item(
    alloc: Global,
    item: &Value<'_>,
    of: FieldType,
) -> Result<Option<FieldValue>, RecordCause>
    ensures ok { IfOk result
        (λ found. single_values of (value_view item.now) ≡ Some (option_to_list found)) }
    ensures cause { IfErr result (λ cause. is_encoding cause ≡ false) }
    ensures none { IfErr result (λ cause. is_fault cause ≡ true
        → single_values of (value_view item.now) ≡ None) }
{
    match item {
        Value::Null => Ok(None),
        Value::Bool(b) => bool_value(alloc, *b, of),
        Value::Number(text) => value_or_cause(alloc, text, value_of_number(alloc, text, of)),
        Value::String(text) => string_value(alloc, text, of),
        Value::Array(_) => Err(RecordCause::HoldsArray),
        Value::Object(_) => Err(RecordCause::HoldsObject),
    }
}

// A plain field holds `true` and `false` as they are, and a field of texts their words.
fn bool_value(alloc: Global, b: bool, of: FieldType) -> Result<Option<FieldValue>, RecordCause>
    ensures ok { IfOk result
        (λ found. option_map alone (value_of_bool of b) ≡ Some (option_to_list found)) }
    ensures cause { IfErr result (λ cause. is_encoding cause ≡ false) }
    ensures none { IfErr result (λ cause. is_fault cause ≡ true → value_of_bool of b ≡ None) }
{
    if let FieldType::Plain = of {
        return Ok(Some(FieldValue::Bool(b)));
    }
    string_value(alloc, bool_word(b), of)
}

// The word of a truth value.
fn bool_word(b: bool) -> &'static str
    ensures { result.now ≡ word_of_bool b }
{
    if b { "true" } else { "false" }
}

// The value of a JSON string.
fn string_value(alloc: Global, text: &str, of: FieldType) -> Result<Option<FieldValue>, RecordCause>
    ensures ok { IfOk result (λ found. option_map alone (value_read (spec.string_value of text.now))
        ≡ Some (option_to_list found)) }
    ensures cause { IfErr result (λ cause. is_encoding cause ≡ false) }
    ensures none { IfErr result (λ cause. is_fault cause ≡ true
        → value_read (spec.string_value of text.now) ≡ None) }
{
    value_or_cause(alloc, text, value_of_string(alloc, text, of))
}
