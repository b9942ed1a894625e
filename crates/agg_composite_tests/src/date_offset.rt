//! Tests of date sources whose buckets begin later by an offset.
use crate::collector::Values;
use crate::listing::expect_composite;
use agg_calendar::CalendarInterval;
use agg_composite::CompositeSourceAccessors;
use agg_expect::expect_equal;
use agg_low_tests::segment::given::{Given, segment_of};
use agg_request_tests::request_tree::given::{GivenSource, Kind, composite_of};
use agg_segment::SegmentReader;
use agg_values::{DateHistogramParseError, OutOfMemory, RequestError, Text};
use std::alloc::Global;
use std::process::Abort;
use std::test::Fail;

const MILLISECOND: i64 = 1_000_000;

// The start of 2024-01-31, in milliseconds.
const LAST_OF_JANUARY: i64 = 1_706_659_200_000;

const DOCUMENTS: &[Values] = &[&[
    ("epoch", Given::Date(0)),
    ("january", Given::Date(LAST_OF_JANUARY * MILLISECOND)),
]];

const MONTHS: Kind = Kind::Dates(None, Some(CalendarInterval::Month));

const WEEKS: Kind = Kind::Dates(None, Some(CalendarInterval::Week));

// A field, what its dates are divided by, an offset, and the start of the one bucket in
// milliseconds.
const STARTS: &[(&str, Kind, Option<&str>, i64)] = &[
    (
        "epoch",
        Kind::Dates(Some("1d"), None),
        Some("6h"),
        -64_800_000,
    ),
    ("epoch", Kind::Dates(Some("1d"), None), None, 0),
    ("january", MONTHS, Some("-1d"), LAST_OF_JANUARY),
    ("epoch", WEEKS, Some("+1d"), -172_800_000),
];

// The bucket of a source's one date starts at this millisecond.
fn expect_start(
    rt: &(impl Abort + AllocGlobal),
    segment: &SegmentReader,
    source: GivenSource,
    start: i64,
) -> Result<(), Fail> {
    let composite = composite_of(rt.alloc(), &[source], 10)?;
    let expected = [(start.checked_mul(MILLISECOND), 1)];
    expect_composite(rt, segment, &composite, &[0], &expected)
}

// Buckets start where the table says.
fn expect_starts(rt: &(impl Abort + AllocGlobal), segment: &SegmentReader) -> Result<(), Fail> {
    for &(field, kind, offset, start) in STARTS {
        let given = GivenSource::of(field, kind, false);
        expect_start(rt, segment, GivenSource { offset, ..given }, start)?;
    }
    Ok(())
}

#[test]
fn buckets_begin_later(rt: HostRuntime) -> Result<(), Fail> {
    let segment = segment_of(rt.alloc(), DOCUMENTS)?;
    expect_starts(&rt, &segment)
}

// Why a source of days has no accessors.
fn fault(alloc: Global, segment: &SegmentReader) -> Result<Option<RequestError>, OutOfMemory> {
    let days = GivenSource::of("epoch", Kind::Dates(Some("1d"), None), false);
    let source = GivenSource {
        offset: Some(""),
        ..days
    }
    .source(alloc)?;
    let refused = CompositeSourceAccessors::build_for_source(alloc, segment, &source, None);
    Ok(refused.err())
}

// An empty offset is refused.
fn expect_fault(alloc: Global, segment: &SegmentReader) -> Result<(), Fail> {
    let fault = fault(alloc, segment)?;
    let reason = DateHistogramParseError::InvalidOffset(Text::copy_of(alloc, "")?);
    expect_equal(fault, Some(RequestError::Aggregation(reason.into())))
}

#[test]
fn an_empty_offset_is_refused(rt: HostRuntime) -> Result<(), Fail> {
    let segment = segment_of(rt.alloc(), DOCUMENTS)?;
    expect_fault(rt.alloc(), &segment)
}
