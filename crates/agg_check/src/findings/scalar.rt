//! What is wrong with a value that has no members or items, or shouldn't have.

use crate::findings::findings::Findings;
use crate::findings::grammar::Form;
use crate::findings::path::Path;
use crate::findings::words::word_fault;
use agg_calendar::interval_faults::{write_interval_fault, write_offset_fault};
use agg_calendar::{PrecomputedDateInterval, parse_offset_into_milliseconds};
use agg_values::{
    Address, AfterKey, CompositeIntermediateKey, KeyTextError, OutOfMemory, RequestError, Text,
};
use json::Value;
use std::alloc::Global;

// How many bytes of a value a message shows.
const LONGEST_SHOWN: usize = 40;

// The numbers of documents.
const LEAST_NUMBER: i128 = -9_223_372_036_854_775_808;

const GREATEST_NUMBER: i128 = 18_446_744_073_709_551_615;

/// Tells what is wrong with a value that has to be of a form.
pub fn check_scalar(
    found: &mut Findings,
    line: &str,
    path: &Path<'_>,
    value: &Value<'_>,
    form: Form,
) -> Result<(), OutOfMemory> {
    if let (Form::Field, Value::String(name)) = (form, value) {
        return found.read_field(line, path, name);
    }
    match scalar_fault(found.alloc, value, form)? {
        Some(what) => found.mistake(line, path, what),
        None => Ok(()),
    }
}

// What is wrong with such a value, if anything is.
fn scalar_fault(
    alloc: Global,
    value: &Value<'_>,
    form: Form,
) -> Result<Option<String>, OutOfMemory> {
    match (form, value) {
        (Form::Word(words), Value::String(word)) | (Form::WordOrNull(words), Value::String(word)) =>
            word_fault(alloc, word, words),
        (Form::Key, Value::String(text)) => key_fault(alloc, text, true),
        (Form::KeyOfValue, Value::String(text)) => key_fault(alloc, text, false),
        (Form::KeyOfValueOrNull, Value::String(text)) => key_fault(alloc, text, false),
        (Form::FixedInterval, Value::String(text)) => interval_fault(alloc, text),
        (Form::Offset, Value::String(text)) => offset_fault(alloc, text),
        (Form::Address, Value::String(text)) => address_fault(alloc, text),
        _ if is_of_form(value, form) => Ok(None),
        _ => Ok(Some(expected_words(alloc, value, form)?)),
    }
}

// Whether a value is of a form of which no text has to be read.
fn is_of_form(value: &Value<'_>, form: Form) -> bool {
    match (form, value) {
        (Form::Text, Value::String(_))
        | (Form::Flag, Value::Bool(_))
        | (Form::Null, Value::Null)
        | (Form::FixedInterval, Value::Null)
        | (Form::Offset, Value::Null)
        | (Form::KeyOfValueOrNull, Value::Null)
        | (Form::WordOrNull(_), Value::Null) => true,
        (Form::Whole(least, most), Value::Number(text)) => is_whole(text, least, most),
        (Form::Value, Value::Number(text)) | (Form::Values, Value::Number(text)) => {
            is_whole(text, LEAST_NUMBER, GREATEST_NUMBER)
        }
        (Form::Value, Value::Array(_)) | (Form::Value, Value::Object(_)) => false,
        (Form::Value, _) | (Form::Values, _) => true,
        _ => false,
    }
}

// Whether the text of a number is a whole one within these. `-0` isn't.
fn is_whole(text: &str, least: i128, most: i128) -> bool {
    match text.parse::<i128>() {
        Ok(number) => text != "-0" && least <= number && number <= most,
        Err(_) => false,
    }
}

// The fault of the text of a key.
fn key_fault(alloc: Global, text: &str, may_be_null: bool) -> Result<Option<String>, OutOfMemory> {
    let why = match AfterKey::read(alloc, &Text::copy_of(alloc, text)?) {
        Ok(key) if may_be_null || !is_null(&key) => return Ok(None),
        Ok(_) => "null is no value here",
        Err(KeyTextError::OutOfMemory) => return Err(OutOfMemory),
        Err(KeyTextError::NoColon) => "expected a type and a colon in front, as i64:7 or str:red",
        Err(KeyTextError::UnknownType) => {
            "expected one of the types bool, str, i64, u64, dt, ip or null before the colon"
        }
        Err(KeyTextError::BadValue) => "the value after the colon isn't of that type",
        Err(KeyTextError::Unsupported) => "floats are not read",
    };
    let shown = cut(text);
    Ok(Some(format!(in alloc; "'{shown}': {why}")?))
}

fn is_null(key: &AfterKey) -> bool {
    matches!(key.0, CompositeIntermediateKey::Null)
}

// The fault of the text of an interval.
fn interval_fault(alloc: Global, text: &str) -> Result<Option<String>, OutOfMemory> {
    let text = Text::copy_of(alloc, text)?;
    match PrecomputedDateInterval::from_date_histogram_source_intervals(alloc, Some(&text), None) {
        Ok(_) => Ok(None),
        Err(RequestError::OutOfMemory) => Err(OutOfMemory),
        Err(error) => {
            let mut out = String::new(alloc);
            write_interval_fault(&mut out, &text, &error)?;
            Ok(Some(out))
        }
    }
}

// The fault of the text of an offset.
fn offset_fault(alloc: Global, text: &str) -> Result<Option<String>, OutOfMemory> {
    let text = Text::copy_of(alloc, text)?;
    match parse_offset_into_milliseconds(alloc, &text) {
        Ok(_) => Ok(None),
        Err(RequestError::OutOfMemory) => Err(OutOfMemory),
        Err(error) => {
            let mut out = String::new(alloc);
            write_offset_fault(&mut out, &text, &error)?;
            Ok(Some(out))
        }
    }
}

// The fault of the text of an address.
fn address_fault(alloc: Global, text: &str) -> Result<Option<String>, OutOfMemory> {
    if Address::read(&Text::copy_of(alloc, text)?).is_some() {
        return Ok(None);
    }
    let shown = cut(text);
    Ok(Some(format!(in alloc; "'{shown}' is no address, as 1.2.3.4 or ::1")?))
}

// What was expected, and what was found.
fn expected_words(alloc: Global, value: &Value<'_>, form: Form) -> Result<String, OutOfMemory> {
    let mut out = String::new(alloc);
    match form {
        Form::LeftOut => {
            out.push_str("this kind is not supported")?;
            return Ok(out);
        }
        Form::Taken => {
            out.push_str("each bucket has a member of this name; take another")?;
            return Ok(out);
        }
        Form::Whole(least, most) => {
            write!(out, "expected a whole number from {least} to {most}")?;
        }
        _ => write!(out, "expected {}", expected(value, form))?,
    }
    write_found(&mut out, value)?;
    Ok(out)
}

fn expected(value: &Value<'_>, form: Form) -> &'static str {
    match (form, value) {
        (Form::Text, _) | (Form::Field, _) => "a text",
        (Form::Texts, _) => "an array of texts",
        (Form::Flag, _) => "true or false",
        (Form::Word(_), _) | (Form::WordOrNull(_), _) => "a word in quotes",
        (Form::FixedInterval, _) => "an interval, as \"1d\"",
        (Form::Offset, _) => "an offset, as \"6h\" or \"-1d\"",
        (Form::Key, _) | (Form::KeyOfValue, _) | (Form::KeyOfValueOrNull, _) =>
            "a typed value, as \"i64:7\" or \"str:red\"",
        (Form::Address, _) => "the text of an address",
        (Form::Null, _) => "null, as a value for documents without one is not supported",
        (Form::Object(_), _) => "an object",
        (Form::Objects(_), _) => "an array of objects",
        (_, Value::Number(_)) => {
            "a whole number from -9223372036854775808 to 18446744073709551615"
        }
        _ => "a single value in the array",
    }
}

fn write_found(out: &mut String, value: &Value<'_>) -> Result<(), OutOfMemory> {
    match value {
        Value::Null => out.push_str(", found null")?,
        Value::Bool(b) => write!(out, ", found {b}")?,
        Value::Number(text) => write!(out, ", found {}", cut(text))?,
        Value::String(text) => write!(out, ", found the text '{}'", cut(text))?,
        Value::Array(_) => out.push_str(", found an array")?,
        Value::Object(_) => out.push_str(", found an object")?,
    }
    Ok(())
}

// The first bytes of a text.
fn cut(text: &str) -> &str {
    &text[..text.floor_char_boundary(LONGEST_SHOWN)]
}
