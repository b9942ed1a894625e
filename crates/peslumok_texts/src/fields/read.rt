ghost use Rattle.std.specs.Prelude.{◌≡◌, ◌⊎◌, ℤ, Some, Ok, Err, IsTrue, IfOk, IfErr};
ghost use Rattle.peslumok_texts.specs.dates.Dates.{date_of};
ghost use Rattle.peslumok_texts.specs.decimals.Decimal.{decimal_of};
ghost use Rattle.peslumok_texts.specs.fields.Values as spec;
ghost use Rattle.peslumok_texts.specs.fields.Wholes.{whole_of, has_64_bits};

use crate::dates::{DateError, DateUnit, read_date};
use crate::decimals::{Places, read_decimal};
use crate::fields::whole::whole_number;
use crate::fields::{FieldType, ValueError};
use agg_segment::storage::FieldValue;
use agg_values::{OutOfMemory, Text};
use std::alloc::Global;

/// The value of a text, as a CSV cell or a word has it. A plain field's is a number where the text
/// is exactly how a whole number within i64 or u64 is written, else a Str.
pub fn value_of_text(alloc: Global, text: &str, of: FieldType) -> Result<FieldValue, ValueError>
    ensures value { IfOk result (λ value. spec.text_value of text.now ≡ Ok value) }
    ensures error { IfErr result (λ error.
        (error ≡ ValueError.OutOfMemory) ⊎ (spec.text_value of text.now ≡ Err error)) }
{
    match of {
        FieldType::Plain => Ok(number_or_text(alloc, text)?),
        FieldType::Text => Ok(text_value(alloc, text)?),
        FieldType::Date => date_value(text),
        FieldType::DateNumber(unit) => unit_value(text, unit),
        FieldType::Decimal(places) => decimal_value(text, places),
    }
}

/// The value of a JSON number, by its text.
pub fn value_of_number(
    alloc: Global,
    numeral: &str,
    of: FieldType,
) -> Result<FieldValue, ValueError>
    ensures value { IfOk result (λ value. spec.numeral_value of numeral.now ≡ Ok value) }
    ensures error { IfErr result (λ error.
        (error ≡ ValueError.OutOfMemory) ⊎ (spec.numeral_value of numeral.now ≡ Err error)) }
{
    match of {
        FieldType::Plain => match whole_number(numeral) {
            Some(number) => Ok(number_value(number)),
            None => Err(ValueError::NotWhole),
        },
        FieldType::Text => Ok(text_value(alloc, numeral)?),
        FieldType::Date => Err(ValueError::NotADate(DateError::NotADate)),
        FieldType::DateNumber(unit) => unit_value(numeral, unit),
        FieldType::Decimal(places) => decimal_value(numeral, places),
    }
}

/// The value of a JSON string.
pub fn value_of_string(alloc: Global, text: &str, of: FieldType) -> Result<FieldValue, ValueError>
    ensures value { IfOk result (λ value. spec.string_value of text.now ≡ Ok value) }
    ensures error { IfErr result (λ error.
        (error ≡ ValueError.OutOfMemory) ⊎ (spec.string_value of text.now ≡ Err error)) }
{
    match of {
        FieldType::Plain | FieldType::Text => Ok(text_value(alloc, text)?),
        FieldType::Date => date_value(text),
        FieldType::DateNumber(_) => Err(ValueError::NotANumberOfUnit),
        FieldType::Decimal(places) => decimal_value(text, places),
    }
}

fn number_or_text(alloc: Global, text: &str) -> Result<FieldValue, OutOfMemory>
    ensures { IfOk result (λ value. value ≡ spec.number_or_text text.now (whole_of text.now)) }
{
    match whole_number(text) {
        Some(number) => Ok(number_value(number)),
        None => text_value(alloc, text),
    }
}

fn text_value(alloc: Global, text: &str) -> Result<FieldValue, OutOfMemory>
    ensures { IfOk result (λ value. value ≡ FieldValue.Str text.now) }
{
    Ok(FieldValue::Str(Text::copy_of(alloc, text)?))
}

// An I64 where it is one, else a U64.
fn number_value(number: i128) -> FieldValue
    requires { IsTrue (has_64_bits number) }
    ensures { result ≡ spec.number_value number }
{
    match i64::try_from(number) {
        Ok(small) => FieldValue::I64(small),
        Err(_) => FieldValue::U64(number as u64),
    }
}

fn date_value(text: &str) -> Result<FieldValue, ValueError>
    ensures { result ≡ spec.date_value (date_of text.now) }
{
    match read_date(text) {
        Ok(nanos) => Ok(FieldValue::Date(nanos)),
        Err(error) => Err(ValueError::NotADate(error)),
    }
}

fn unit_value(text: &str, unit: DateUnit) -> Result<FieldValue, ValueError>
    ensures { result ≡ spec.unit_value unit (whole_of text.now) }
{
    match whole_number(text) {
        Some(number) => date_of_number(number, unit),
        None => Err(ValueError::NotANumberOfUnit),
    }
}

fn date_of_number(number: i128, unit: DateUnit) -> Result<FieldValue, ValueError>
    requires { IsTrue (has_64_bits number) }
    ensures { result ≡ spec.unit_value unit (Some number) }
{
    let Ok(small) = i64::try_from(number) else {
        return Err(ValueError::DateTooLarge);
    };
    match unit.nanos(small) {
        Some(nanos) => Ok(FieldValue::Date(nanos)),
        None => Err(ValueError::DateTooLarge),
    }
}

fn decimal_value(text: &str, places: Places) -> Result<FieldValue, ValueError>
    ensures { result ≡ spec.decimal_value places (decimal_of places text.now) }
{
    match read_decimal(text, places) {
        Ok(number) => Ok(FieldValue::I64(number)),
        Err(error) => Err(ValueError::NotADecimal(error, places)),
    }
}
