ghost use Rattle.std.specs.Prelude.{◌≡◌, ◌++◌, ℕ, List, OnOk, string_bytes};
ghost use Rattle.std.specs.Fmt.{signed_decimal};
ghost use Rattle.peslumok_texts.specs.fields.Shown as spec;

use crate::dates::write_date;
use crate::decimals::write_decimal;
use crate::fields::FieldType;
use agg_values::{CompositeIntermediateKey, CompositeKey, OutOfMemory};
use std::fmt::Write;

/// Appends a typed key as it is shown: a number of a decimal field with its point, a date as its
/// ISO text, the rest as it is; Null as nothing.
pub fn write_value(
    out: &mut String,
    value: &CompositeIntermediateKey,
    of: FieldType,
) -> Result<(), OutOfMemory>
    ensures { OnOk result (
        (text : List ℕ)
        × (string_bytes out.new ≡ string_bytes out.old ++ text)
        × spec.IsValueText of value.now text) }
{
    match value {
        CompositeIntermediateKey::Bool(b) => Ok(write!(out, "{}", *b)?),
        CompositeIntermediateKey::Str(text) => Ok(out.push_str(text.as_str())?),
        CompositeIntermediateKey::I64(number) => write_number(out, i128::from(*number), of),
        CompositeIntermediateKey::U64(number) => write_number(out, i128::from(*number), of),
        CompositeIntermediateKey::DateTime(nanos) => Ok(write_date(out, *nanos)?),
        CompositeIntermediateKey::IpAddr(address) => Ok(write!(out, "{}", *address)?),
        CompositeIntermediateKey::Null => Ok(()),
    }
}

/// Appends a shown key, where the number of a date field is in milliseconds.
pub fn write_shown_key(
    out: &mut String,
    key: &CompositeKey,
    of: FieldType,
) -> Result<(), OutOfMemory>
    ensures { OnOk result (
        (text : List ℕ)
        × (string_bytes out.new ≡ string_bytes out.old ++ text)
        × spec.IsShownKeyText of key.now text) }
{
    match key {
        CompositeKey::Bool(b) => Ok(write!(out, "{}", *b)?),
        CompositeKey::Str(text) => Ok(out.push_str(text.as_str())?),
        CompositeKey::I64(number) => write_number(out, shown_number(*number, of), of),
        CompositeKey::U64(number) => write_number(out, i128::from(*number), of),
        CompositeKey::Null => Ok(()),
    }
}

const NANOS_PER_MILLI: i128 = 1_000_000;

// What a shown number counts: the nanoseconds of a date, which is shown in milliseconds.
fn shown_number(number: i64, of: FieldType) -> i128
    ensures { result ≡ spec.shown_number of number }
{
    match of {
        FieldType::Date | FieldType::DateNumber(_) => i128::from(number) * NANOS_PER_MILLI,
        FieldType::Plain | FieldType::Text | FieldType::Decimal(_) => i128::from(number),
    }
}

/// Appends a number of a field, as a metric: of a date field the date of its nanoseconds, of a
/// decimal field with its point.
pub fn write_number(out: &mut String, number: i128, of: FieldType) -> Result<(), OutOfMemory>
    ensures { OnOk result (
        (text : List ℕ)
        × (string_bytes out.new ≡ string_bytes out.old ++ text)
        × spec.IsNumberText of number text) }
{
    match of {
        FieldType::Date | FieldType::DateNumber(_) => write_nanos(out, number),
        FieldType::Decimal(places) => Ok(write_decimal(out, number, places)?),
        FieldType::Plain | FieldType::Text => write_whole(out, number),
    }
}

// Appends the date of nanoseconds, or the number where it has more than 64 bits.
fn write_nanos(out: &mut String, number: i128) -> Result<(), OutOfMemory>
    ensures { OnOk result (
        (text : List ℕ)
        × (string_bytes out.new ≡ string_bytes out.old ++ text)
        × spec.IsNanosText number text) }
{
    match i64::try_from(number) {
        Ok(nanos) => Ok(write_date(out, nanos)?),
        Err(_) => write_whole(out, number),
    }
}

fn write_whole(out: &mut String, number: i128) -> Result<(), OutOfMemory>
    ensures { OnOk result (string_bytes out.new ≡ string_bytes out.old ++ signed_decimal number) }
{
    write!(out, "{number}")?;
    Ok(())
}
