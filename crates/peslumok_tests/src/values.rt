use agg_expect::{expect_equal, expect_equal_for};
use agg_segment::storage::FieldValue;
use agg_values::{CompositeIntermediateKey, CompositeKey, Text};
use peslumok_texts::dates::{DateError, DateUnit};
use peslumok_texts::decimals::{DecimalError, Places};
use peslumok_texts::fields::{
    FieldType, FieldTypes, ValueError, value_of_number, value_of_string, value_of_text,
    write_number, write_shown_key, write_value,
};
use std::alloc::Global;
use std::test::Fail;

// What a field holds, with two places where it holds decimals.
#[derive(Clone, Copy, Debug)]
enum Of {
    Plain,
    Text,
    Date,
    Millis,
    Cents,
}

impl Of {
    fn field_type(self) -> FieldType {
        match self {
            Of::Plain => FieldType::Plain,
            Of::Text => FieldType::Text,
            Of::Date => FieldType::Date,
            Of::Millis => FieldType::DateNumber(DateUnit::Millis),
            Of::Cents => match Places::new(2) {
                Some(places) => FieldType::Decimal(places),
                None => FieldType::Plain,
            },
        }
    }
}

// A value, or why there is none.
#[derive(Clone, Copy, Debug, PartialEq, Eq)]
enum Found {
    Str(&'static str),
    Signed(i64),
    Unsigned(u64),
    Date(i64),
    NotWhole,
    NotADate,
    NotANumberOfUnit,
    DateTooLarge,
    TooManyDecimals,
}

impl Found {
    // Whether this was found.
    fn is(self, found: &Result<FieldValue, ValueError>) -> bool {
        match (self, found) {
            (Found::Str(text), Ok(FieldValue::Str(found))) => found.as_str() == text,
            (Found::Signed(number), Ok(FieldValue::I64(found))) => *found == number,
            (Found::Unsigned(number), Ok(FieldValue::U64(found))) => *found == number,
            (Found::Date(nanos), Ok(FieldValue::Date(found))) => *found == nanos,
            (wanted, Err(error)) => wanted.is_error(*error),
            _ => false,
        }
    }

    fn is_error(self, error: ValueError) -> bool {
        match self {
            Found::NotWhole => error == ValueError::NotWhole,
            Found::NotADate => error == ValueError::NotADate(DateError::NotADate),
            Found::NotANumberOfUnit => error == ValueError::NotANumberOfUnit,
            Found::DateTooLarge => error == ValueError::DateTooLarge,
            Found::TooManyDecimals => {
                matches!(
                    error,
                    ValueError::NotADecimal(DecimalError::TooManyDecimals, _)
                )
            }
            _ => false,
        }
    }
}

// A text, what its field holds, and what it is as a cell, as a JSON number and as a JSON string.
const VALUES: &[(&str, Of, Found, Found, Found)] = &[
    (
        "7",
        Of::Plain,
        Found::Signed(7),
        Found::Signed(7),
        Found::Str("7"),
    ),
    (
        "007",
        Of::Plain,
        Found::Str("007"),
        Found::NotWhole,
        Found::Str("007"),
    ),
    (
        "7.5",
        Of::Plain,
        Found::Str("7.5"),
        Found::NotWhole,
        Found::Str("7.5"),
    ),
    (
        "-0",
        Of::Plain,
        Found::Str("-0"),
        Found::NotWhole,
        Found::Str("-0"),
    ),
    (
        "18446744073709551615",
        Of::Plain,
        Found::Unsigned(18_446_744_073_709_551_615),
        Found::Unsigned(18_446_744_073_709_551_615),
        Found::Str("18446744073709551615"),
    ),
    (
        "7",
        Of::Text,
        Found::Str("7"),
        Found::Str("7"),
        Found::Str("7"),
    ),
    (
        "1970-01-02",
        Of::Date,
        Found::Date(86_400_000_000_000),
        Found::NotADate,
        Found::Date(86_400_000_000_000),
    ),
    (
        "5",
        Of::Date,
        Found::NotADate,
        Found::NotADate,
        Found::NotADate,
    ),
    (
        "5",
        Of::Millis,
        Found::Date(5_000_000),
        Found::Date(5_000_000),
        Found::NotANumberOfUnit,
    ),
    (
        "9223372036855",
        Of::Millis,
        Found::DateTooLarge,
        Found::DateTooLarge,
        Found::NotANumberOfUnit,
    ),
    (
        "0.5",
        Of::Cents,
        Found::Signed(50),
        Found::Signed(50),
        Found::Signed(50),
    ),
    (
        "0.505",
        Of::Cents,
        Found::TooManyDecimals,
        Found::TooManyDecimals,
        Found::TooManyDecimals,
    ),
];

// Numbers, what their field holds, and how they are shown as a key and as a metric.
const SHOWN: &[(i64, Of, &str, &str)] = &[
    (7, Of::Plain, "7", "7"),
    (50, Of::Cents, "0.50", "0.50"),
    (
        86_400_000,
        Of::Millis,
        "1970-01-02",
        "1970-01-01T00:00:00.0864Z",
    ),
];

#[test]
fn reads_values(rt: HostRuntime) -> Result<(), Fail> {
    let alloc = rt.alloc();
    for &(text, of, cell, number, string) in VALUES {
        let found = (
            cell.is(&value_of_text(alloc, text, of.field_type())),
            number.is(&value_of_number(alloc, text, of.field_type())),
            string.is(&value_of_string(alloc, text, of.field_type())),
        );
        expect_equal_for((text, of), found, (true, true, true))?;
    }
    Ok(())
}

#[test]
fn shows_numbers(rt: HostRuntime) -> Result<(), Fail> {
    for &(number, of, key, metric) in SHOWN {
        let shown = shown_key(rt.alloc(), number, of)?;
        let written = shown_metric(rt.alloc(), number, of)?;
        expect_equal((shown.as_str(), written.as_str()), (key, metric))?;
    }
    Ok(())
}

fn shown_key(alloc: Global, number: i64, of: Of) -> Result<String, Fail> {
    let mut out = String::new(alloc);
    write_shown_key(&mut out, &CompositeKey::I64(number), of.field_type())?;
    Ok(out)
}

fn shown_metric(alloc: Global, number: i64, of: Of) -> Result<String, Fail> {
    let mut out = String::new(alloc);
    write_number(&mut out, i128::from(number), of.field_type())?;
    Ok(out)
}

#[test]
fn shows_typed_keys(rt: HostRuntime) -> Result<(), Fail> {
    let mut out = String::new(rt.alloc());
    let keys = [
        CompositeIntermediateKey::Bool(true),
        CompositeIntermediateKey::DateTime(0),
        CompositeIntermediateKey::Null,
    ];
    for key in keys.iter() {
        write_value(&mut out, key, FieldType::Plain)?;
        out.push(';')?;
    }
    expect_equal(out.as_str(), "true;1970-01-01;;")
}

#[test]
fn a_field_without_a_type_is_plain(rt: HostRuntime) -> Result<(), Fail> {
    let mut types = FieldTypes::new(rt.alloc());
    let day = Text::copy_of(rt.alloc(), "day")?;
    let first = types.set(day.try_clone(rt.alloc())?, FieldType::Date)?;
    let second = types.set(day.try_clone(rt.alloc())?, FieldType::Text)?;
    let held = (
        first,
        second,
        types.get(&day),
        types.get(&Text::copy_of(rt.alloc(), "shop")?),
    );
    let expected = (
        None,
        Some(FieldType::Date),
        FieldType::Text,
        FieldType::Plain,
    );
    expect_equal(held, expected)
}
