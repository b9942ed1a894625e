use agg_expect::{expect_equal, expect_equal_for};
use peslumok_texts::decimals::{DecimalError, Places, read_decimal, write_decimal};
use std::test::Fail;

// Texts in so many places, and the whole number of the last place that each one is.
const READ: &[(&str, u32, i64)] = &[
    ("12.50", 2, 1_250),
    ("12.5", 2, 1_250),
    ("12", 2, 1_200),
    ("-0.05", 2, -5),
    ("-0", 2, 0),
    ("007", 0, 7),
    ("0.000000000000000001", 18, 1),
    ("92233720368547758.07", 2, 9_223_372_036_854_775_807),
    ("-92233720368547758.07", 2, -9_223_372_036_854_775_807),
];

// Texts that are no decimals of so many places, and why.
const REFUSED: &[(&str, u32, DecimalError)] = &[
    ("", 2, DecimalError::NotANumber),
    ("-", 2, DecimalError::NotANumber),
    (".5", 2, DecimalError::NotANumber),
    ("5.", 2, DecimalError::NotANumber),
    ("+5", 2, DecimalError::NotANumber),
    ("1e3", 2, DecimalError::NotANumber),
    ("1,000", 2, DecimalError::NotANumber),
    (" 1", 2, DecimalError::NotANumber),
    ("12.505", 2, DecimalError::TooManyDecimals),
    ("12.500", 2, DecimalError::TooManyDecimals),
    ("12.0", 0, DecimalError::TooManyDecimals),
    ("92233720368547758.08", 2, DecimalError::TooLarge),
    ("-92233720368547758.08", 2, DecimalError::TooLarge),
];

// Numbers of the last of so many places, and how they are written.
const WRITTEN: &[(i128, u32, &str)] = &[
    (1_250, 2, "12.50"),
    (-5, 2, "-0.05"),
    (0, 2, "0.00"),
    (7, 0, "7"),
    (18_446_744_073_709_551_616, 2, "184467440737095516.16"),
];

#[test]
fn reads_decimals() -> Result<(), Fail> {
    for &(text, count, number) in READ {
        expect_equal_for(text, read(text, count), Some(Ok(number)))?;
    }
    Ok(())
}

#[test]
fn refuses_what_is_no_decimal() -> Result<(), Fail> {
    for &(text, count, why) in REFUSED {
        expect_equal_for(text, read(text, count), Some(Err(why)))?;
    }
    Ok(())
}

#[test]
fn writes_decimals(rt: HostRuntime) -> Result<(), Fail> {
    for &(number, count, text) in WRITTEN {
        let mut out = String::new(rt.alloc());
        if let Some(places) = Places::new(count) {
            write_decimal(&mut out, number, places)?;
        }
        expect_equal(out.as_str(), text)?;
    }
    Ok(())
}

#[test]
fn has_eighteen_places_at_most() -> Result<(), Fail> {
    let counts = (
        Places::new(18).map(Places::get),
        Places::new(19).map(Places::get),
    );
    expect_equal(counts, (Some(18), None))
}

fn read(text: &str, count: u32) -> Option<Result<i64, DecimalError>> {
    let places = Places::new(count)?;
    Some(read_decimal(text, places))
}
