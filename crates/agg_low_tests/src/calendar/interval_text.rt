use agg_calendar::{parse_into_milliseconds, parse_offset_into_milliseconds};
use agg_expect::expect_equal_for;
use agg_values::{AggregationError, DateHistogramParseError, RequestError, Text};
use std::alloc::Global;
use std::test::Fail;

// Why a text is refused.
#[derive(Clone, Copy)]
enum Fault {
    UnitNotRecognized,
    NumberMissing,
    UnitMissing,
    InvalidOffset,
    OutOfBounds,
}

// The refusal for this fault, which names a text.
fn refusal(alloc: Global, fault: Fault, text: &str) -> Result<RequestError, Fail> {
    let text = Text::copy_of(alloc, text)?;
    let error = match fault {
        Fault::UnitNotRecognized => DateHistogramParseError::UnitNotRecognized(text),
        Fault::NumberMissing => DateHistogramParseError::NumberMissing(text),
        Fault::UnitMissing => DateHistogramParseError::UnitMissing(text),
        Fault::InvalidOffset => DateHistogramParseError::InvalidOffset(text),
        Fault::OutOfBounds => DateHistogramParseError::OutOfBounds(text),
    };
    Ok(RequestError::Aggregation(AggregationError::from(error)))
}

// Interval texts, and their milliseconds.
const INTERVALS: &[(&str, i64)] = &[
    ("2ms", 2),
    ("2milliseconds", 2),
    ("2s", 2_000),
    ("2seconds", 2_000),
    ("1m", 60_000),
    ("2m", 120_000),
    ("2minutes", 120_000),
    ("2h", 7_200_000),
    ("2hours", 7_200_000),
    ("2d", 172_800_000),
    ("2days", 172_800_000),
    ("0ms", 0),
    ("007s", 7_000),
    ("9223372036854ms", 9_223_372_036_854),
    ("106751d", 9_223_286_400_000),
];

#[test]
fn reads_every_unit(rt: HostRuntime) -> Result<(), Fail> {
    let alloc = rt.alloc();
    for &(text, ms) in INTERVALS {
        let read = parse_into_milliseconds(alloc, &Text::copy_of(alloc, text)?);
        expect_equal_for(text, read, Ok(ms))?;
    }
    Ok(())
}

// Texts of no interval, with the fault of each and the text that it names.
const NO_INTERVALS: &[(&str, Fault, &str)] = &[
    ("", Fault::NumberMissing, ""),
    ("ms", Fault::NumberMissing, "ms"),
    ("day", Fault::NumberMissing, "day"),
    (" 1d", Fault::NumberMissing, " 1d"),
    ("-1m", Fault::NumberMissing, "-1m"),
    ("１m", Fault::NumberMissing, "１m"),
    ("2000", Fault::UnitMissing, "2000"),
    (
        "99999999999999999999",
        Fault::UnitMissing,
        "99999999999999999999",
    ),
    (
        "99999999999999999999y",
        Fault::NumberMissing,
        "99999999999999999999y",
    ),
    (
        "9223372036854775808ms",
        Fault::NumberMissing,
        "9223372036854775808ms",
    ),
    ("2y", Fault::UnitNotRecognized, "y"),
    ("0y", Fault::UnitNotRecognized, "y"),
    ("1 m", Fault::UnitNotRecognized, " m"),
    ("1M", Fault::UnitNotRecognized, "M"),
    ("1minute", Fault::UnitNotRecognized, "minute"),
    ("1.5h", Fault::UnitNotRecognized, ".5h"),
    (
        "9223372036854775807ms",
        Fault::OutOfBounds,
        "9223372036854775807ms",
    ),
    ("9223372036855ms", Fault::OutOfBounds, "9223372036855ms"),
    ("106752d", Fault::OutOfBounds, "106752d"),
];

#[test]
fn refuses_other_texts(rt: HostRuntime) -> Result<(), Fail> {
    let alloc = rt.alloc();
    for &(input, fault, text) in NO_INTERVALS {
        let read = parse_into_milliseconds(alloc, &Text::copy_of(alloc, input)?);
        expect_equal_for(input, read, Err(refusal(alloc, fault, text)?))?;
    }
    Ok(())
}

// Offset texts, and their milliseconds.
const OFFSETS: &[(&str, i64)] = &[
    ("1m", 60_000),
    ("+1m", 60_000),
    ("-1m", -60_000),
    ("2m", 120_000),
    ("+2m", 120_000),
    ("-2m", -120_000),
    ("-2ms", -2),
    ("-0s", 0),
];

// Texts of no offset, with the fault of each and the text that it names.
const NO_OFFSETS: &[(&str, Fault, &str)] = &[
    ("", Fault::InvalidOffset, ""),
    ("+", Fault::NumberMissing, ""),
    ("-", Fault::NumberMissing, ""),
    ("+-1m", Fault::NumberMissing, "-1m"),
    ("ms", Fault::NumberMissing, "ms"),
    ("2000", Fault::UnitMissing, "2000"),
    ("-2000", Fault::UnitMissing, "2000"),
    ("2y", Fault::UnitNotRecognized, "y"),
    ("-2y", Fault::UnitNotRecognized, "y"),
    ("-9223372036855ms", Fault::OutOfBounds, "9223372036855ms"),
];

#[test]
fn reads_offsets(rt: HostRuntime) -> Result<(), Fail> {
    let alloc = rt.alloc();
    for &(text, ms) in OFFSETS {
        let read = parse_offset_into_milliseconds(alloc, &Text::copy_of(alloc, text)?);
        expect_equal_for(text, read, Ok(ms))?;
    }
    for &(input, fault, text) in NO_OFFSETS {
        let read = parse_offset_into_milliseconds(alloc, &Text::copy_of(alloc, input)?);
        expect_equal_for(input, read, Err(refusal(alloc, fault, text)?))?;
    }
    Ok(())
}
