use agg_expect::{expect_equal, expect_equal_for};
use peslumok_texts::dates::{DateError, DateUnit, read_date, write_date};
use std::test::Fail;

// Texts of dates, and their nanoseconds since 1970.
const READ: &[(&str, i64)] = &[
    ("1970-01-01", 0),
    ("2026-01-01", 1_767_225_600_000_000_000),
    ("20260101", 1_767_225_600_000_000_000),
    ("2026-01-01T12:30", 1_767_270_600_000_000_000),
    ("2026-01-01 12:30", 1_767_270_600_000_000_000),
    ("2026-01-01T123015Z", 1_767_270_615_000_000_000),
    ("2026-01-01T12:30:15.5Z", 1_767_270_615_500_000_000),
    ("2026-01-01T12:30:15,000000001Z", 1_767_270_615_000_000_001),
    ("2026-01-01T12:30:15+02:00", 1_767_263_415_000_000_000),
    ("2026-01-01T12:30:15-0530", 1_767_290_415_000_000_000),
    ("2024-02-29", 1_709_164_800_000_000_000),
    ("1969-12-31T23:59:59.999999999Z", -1),
    ("2262-04-11T23:47:16.854775807Z", 9_223_372_036_854_775_807),
    ("1677-09-21T00:12:43.145224192Z", -9_223_372_036_854_775_808),
];

// Texts that are no dates, and why.
const REFUSED: &[(&str, DateError)] = &[
    ("", DateError::NotADate),
    ("2026", DateError::NotADate),
    ("2026-01", DateError::NotADate),
    ("2026-W01-1", DateError::NotADate),
    ("2026-001", DateError::NotADate),
    ("2023-02-29", DateError::NotADate),
    ("2026-01-01T24:00", DateError::NotADate),
    ("2026-01-01Z", DateError::NotADate),
    ("2026-01-01+02:00", DateError::NotADate),
    ("2026-01-01T12:30:15.0000000001Z", DateError::NotADate),
    ("2026-01-01T12:30 ", DateError::NotADate),
    ("2026-01-01T12:30Z[Europe/London]", DateError::NamesAZone),
    ("2016-12-31T23:59:60Z", DateError::SecondSixty),
    ("2262-04-11T23:47:16.854775808Z", DateError::OutOfRange),
    ("1677-09-21T00:12:43.145224191Z", DateError::OutOfRange),
];

// Nanoseconds since 1970, and the texts that are written of them.
const WRITTEN: &[(i64, &str)] = &[
    (0, "1970-01-01"),
    (1_767_225_600_000_000_000, "2026-01-01"),
    (1_767_270_600_000_000_000, "2026-01-01T12:30:00Z"),
    (1_767_270_615_500_000_000, "2026-01-01T12:30:15.5Z"),
    (-1, "1969-12-31T23:59:59.999999999Z"),
];

// Units by their words, and the nanoseconds of 5 of them.
const UNITS: &[(&str, Option<i64>)] = &[
    ("seconds", Some(5_000_000_000)),
    ("millis", Some(5_000_000)),
    ("nanos", Some(5)),
    ("second", None),
];

#[test]
fn reads_dates() -> Result<(), Fail> {
    for &(text, nanos) in READ {
        expect_equal_for(text, read_date(text), Ok(nanos))?;
    }
    Ok(())
}

#[test]
fn refuses_what_is_no_date() -> Result<(), Fail> {
    for &(text, why) in REFUSED {
        expect_equal_for(text, read_date(text), Err(why))?;
    }
    Ok(())
}

#[test]
fn writes_dates(rt: HostRuntime) -> Result<(), Fail> {
    for &(nanos, text) in WRITTEN {
        let mut out = String::new(rt.alloc());
        write_date(&mut out, nanos)?;
        expect_equal(out.as_str(), text)?;
    }
    Ok(())
}

#[test]
fn knows_units() -> Result<(), Fail> {
    for &(word, nanos) in UNITS {
        expect_equal_for(word, DateUnit::read(word).and_then(nanos_of_five), nanos)?;
    }
    expect_equal(DateUnit::Seconds.nanos(i64::MAX), None)
}

fn nanos_of_five(unit: DateUnit) -> Option<i64> {
    unit.nanos(5)
}
