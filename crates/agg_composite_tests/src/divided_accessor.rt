//! The accessors of sources that divide values.
use crate::found::{ALL, NONE, Standing, standing, types};
use agg_composite::PrecomputedAfterKey;
use agg_expect::{expect_equal, expect_equal_for};
use agg_low_tests::segment::given::{Given, segment_of};
use agg_request_tests::request_tree::given::{GivenSource, Kind};
use agg_request_tree::CompositeAggregationSource;
use agg_segment::{ColumnType, SegmentReader};
use agg_values::{MissingOrder, Order, OutOfMemory};
use std::alloc::Global;
use std::test::Fail;

const FROM_ZERO: u64 = 9_223_372_036_854_775_808;

// A text, a signed number and a date in one field, and in others a signed number, one above those
// of an i64, and a date.
const VALUES: &[(&str, Given)] = &[
    ("mixed", Given::Text("apple")),
    ("mixed", Given::Signed(7)),
    ("mixed", Given::Date(7)),
    ("signed", Given::Signed(7)),
    ("large", Given::Unsigned(FROM_ZERO)),
    ("dates", Given::Date(7)),
];

const FIRST: MissingOrder = MissingOrder::First;

const LAST: MissingOrder = MissingOrder::Last;

const DEFAULT: MissingOrder = MissingOrder::Default;

// At the numbers of 5 and -5 in a column.
const FIVE: PrecomputedAfterKey = PrecomputedAfterKey::Exact(FROM_ZERO + 5);

const LESS_FIVE: PrecomputedAfterKey = PrecomputedAfterKey::Exact(FROM_ZERO - 5);

// The orders of a histogram that has a bucket for a missing value, an after value, and where it
// stands among the numbers of any column.
const NUMBERS: &[(Order, MissingOrder, &str, Standing)] = &[
    (Order::Asc, DEFAULT, "i64:5", (FIVE, 0, true, false)),
    (Order::Desc, DEFAULT, "i64:5", (FIVE, 0, false, false)),
    (Order::Asc, DEFAULT, "i64:-5", (LESS_FIVE, 0, true, false)),
    (
        Order::Asc,
        LAST,
        "u64:9223372036854775808",
        (ALL, 0, false, false),
    ),
    (
        Order::Desc,
        FIRST,
        "u64:9223372036854775808",
        (ALL, 0, true, false),
    ),
    (Order::Asc, FIRST, "null:", (NONE, 0, false, true)),
    (Order::Asc, LAST, "null:", (ALL, 0, false, true)),
    (Order::Desc, FIRST, "null:", (ALL, 0, false, true)),
    (Order::Desc, DEFAULT, "null:", (NONE, 0, false, true)),
];

// The order of a date source that has a bucket for a missing value, an after value, and where it
// stands.
const DATES: &[(Order, Option<&str>, Standing)] = &[
    (Order::Asc, Some("dt:5"), (FIVE, 0, true, false)),
    (Order::Desc, Some("dt:5"), (FIVE, 0, false, false)),
    (Order::Asc, Some("null:"), (NONE, 0, false, true)),
    (Order::Desc, Some("null:"), (ALL, 1, false, true)),
    (Order::Asc, None, (NONE, 0, false, false)),
    (Order::Desc, None, (ALL, 0, false, false)),
];

// A histogram of fives of a field, which has a bucket for a missing value.
fn histogram(
    alloc: Global,
    field: &'static str,
    order: Order,
    missing_order: MissingOrder,
) -> Result<CompositeAggregationSource, OutOfMemory> {
    let given = GivenSource::of(field, Kind::Histogram(5), true);
    let histogram = GivenSource {
        order,
        missing_order,
        ..given
    };
    histogram.source(alloc)
}

// A source of days of the mixed field, which has a bucket for a missing value.
fn days(alloc: Global, order: Order) -> Result<CompositeAggregationSource, OutOfMemory> {
    let given = GivenSource::of("mixed", Kind::Dates(Some("1d"), None), true);
    GivenSource { order, ..given }.source(alloc)
}

// The types of the columns that a histogram of this order reads.
fn types_by(alloc: Global, segment: &SegmentReader, order: Order) -> Result<Vec<ColumnType>, Fail> {
    let source = histogram(alloc, "mixed", order, DEFAULT)?;
    types(alloc, segment, &source)
}

// A histogram of this order reads columns of these types.
fn expect_types(
    alloc: Global,
    segment: &SegmentReader,
    order: Order,
    expected: &[ColumnType],
) -> Result<(), Fail> {
    let found = types_by(alloc, segment, order)?;
    expect_equal_for(order, found.as_slice(), expected)
}

#[test]
fn histograms_read_what_they_divide(rt: HostRuntime) -> Result<(), Fail> {
    let segment = segment_of(rt.alloc(), &[VALUES])?;
    expect_types(
        rt.alloc(),
        &segment,
        Order::Asc,
        &[ColumnType::I64, ColumnType::DateTime],
    )?;
    expect_types(
        rt.alloc(),
        &segment,
        Order::Desc,
        &[ColumnType::DateTime, ColumnType::I64],
    )
}

// The types of the columns that a source of days reads.
fn types_by_days(alloc: Global, segment: &SegmentReader) -> Result<Vec<ColumnType>, Fail> {
    let source = days(alloc, Order::Asc)?;
    types(alloc, segment, &source)
}

// A source of days reads a column of dates alone.
fn expect_dates(alloc: Global, segment: &SegmentReader) -> Result<(), Fail> {
    let found = types_by_days(alloc, segment)?;
    expect_equal(found.as_slice(), [ColumnType::DateTime].as_slice())
}

#[test]
fn date_sources_read_dates(rt: HostRuntime) -> Result<(), Fail> {
    let segment = segment_of(rt.alloc(), &[VALUES])?;
    expect_dates(rt.alloc(), &segment)
}

// Where an after value stands in a histogram of a field, which has these orders.
fn standing_in_starts(
    alloc: Global,
    segment: &SegmentReader,
    field: &'static str,
    (order, missing_order): (Order, MissingOrder),
    after: &str,
) -> Result<Standing, Fail> {
    let source = histogram(alloc, field, order, missing_order)?;
    standing(alloc, segment, &source, Some(after))
}

// After values stand among the numbers of a field where the table says.
fn expect_numbers(alloc: Global, segment: &SegmentReader, field: &'static str) -> Result<(), Fail> {
    for &(order, missing_order, after, expected) in NUMBERS {
        let orders = (order, missing_order);
        let found = standing_in_starts(alloc, segment, field, orders, after)?;
        expect_equal_for((field, order, missing_order, after), found, expected)?;
    }
    Ok(())
}

#[test]
fn after_numbers_stand_among_starts(rt: HostRuntime) -> Result<(), Fail> {
    let segment = segment_of(rt.alloc(), &[VALUES])?;
    for field in ["signed", "large", "dates"] {
        expect_numbers(rt.alloc(), &segment, field)?;
    }
    Ok(())
}

// Where an after value stands in a date source of this order.
fn standing_in_days(
    alloc: Global,
    segment: &SegmentReader,
    order: Order,
    after: Option<&str>,
) -> Result<Standing, Fail> {
    let source = days(alloc, order)?;
    standing(alloc, segment, &source, after)
}

// After values stand among dates where the table says.
fn expect_days(alloc: Global, segment: &SegmentReader) -> Result<(), Fail> {
    for &(order, after, expected) in DATES {
        let found = standing_in_days(alloc, segment, order, after)?;
        expect_equal_for((order, after), found, expected)?;
    }
    Ok(())
}

#[test]
fn after_dates_stand_among_starts(rt: HostRuntime) -> Result<(), Fail> {
    let segment = segment_of(rt.alloc(), &[VALUES])?;
    expect_days(rt.alloc(), &segment)
}
