//! The accessors of sources over a field of several classes.
use crate::found::{ALL, NONE, Standing, standing, types};
use agg_composite::{CompositeSourceAccessors, PrecomputedAfterKey};
use agg_expect::{expect_equal, expect_equal_for};
use agg_low_tests::segment::given::{Given, segment_of};
use agg_request_tree::{CompositeAggregationSource, TermCompositeAggregationSource};
use agg_segment::{ColumnType, SegmentReader};
use agg_values::{
    CompositeIntermediateKey, InvalidArgument, MissingOrder, Order, OutOfMemory, RequestError, Text,
};
use std::alloc::Global;
use std::test::Fail;

// The values of the document.
const MIXED: &[(&str, Given)] = &[
    ("a", Given::Truth(true)),
    ("a", Given::Text("apple")),
    ("a", Given::Text("cherry")),
    ("a", Given::Signed(7)),
];

const FIRST: MissingOrder = MissingOrder::First;

const LAST: MissingOrder = MissingOrder::Last;

const DEFAULT: MissingOrder = MissingOrder::Default;

// After the lowest number of a column.
const LOWEST: PrecomputedAfterKey = PrecomputedAfterKey::Next(1);

// The orders of a source that has a bucket for a missing value, an after value, and where this one
// stands.
const STANDINGS: &[(Order, MissingOrder, Option<&str>, Standing)] = &[
    (Order::Asc, DEFAULT, None, (NONE, 0, false, false)),
    (Order::Desc, DEFAULT, None, (ALL, 0, false, false)),
    (
        Order::Asc,
        DEFAULT,
        Some("str:banana"),
        (LOWEST, 1, true, false),
    ),
    (
        Order::Desc,
        DEFAULT,
        Some("str:banana"),
        (LOWEST, 1, false, false),
    ),
    (
        Order::Desc,
        FIRST,
        Some("str:banana"),
        (LOWEST, 1, true, false),
    ),
    (Order::Asc, LAST, Some("ip:::1"), (ALL, 3, false, false)),
    (Order::Desc, DEFAULT, Some("ip:::1"), (ALL, 0, false, false)),
    (Order::Asc, DEFAULT, Some("null:"), (NONE, 0, false, true)),
    (Order::Desc, DEFAULT, Some("null:"), (ALL, 3, false, true)),
    (Order::Asc, LAST, Some("null:"), (ALL, 3, false, true)),
    (Order::Desc, FIRST, Some("null:"), (ALL, 0, false, true)),
];

// The types of the columns that a source reads, in its order.
const TYPES: &[(Order, &[ColumnType])] = &[
    (
        Order::Asc,
        &[ColumnType::Bool, ColumnType::Str, ColumnType::I64],
    ),
    (
        Order::Desc,
        &[ColumnType::I64, ColumnType::Str, ColumnType::Bool],
    ),
];

fn source(
    alloc: Global,
    order: Order,
    missing_order: MissingOrder,
    missing_bucket: bool,
) -> Result<CompositeAggregationSource, OutOfMemory> {
    Ok(CompositeAggregationSource::Terms(TermCompositeAggregationSource {
        name: Text::copy_of(alloc, "by_a")?,
        field: Text::copy_of(alloc, "a")?,
        order,
        missing_bucket,
        missing_order,
        min: None,
    }))
}

// Where an after value stands in a source of these orders that has a bucket for a missing value.
fn standing_by(
    alloc: Global,
    segment: &SegmentReader,
    (order, missing_order): (Order, MissingOrder),
    after: Option<&str>,
) -> Result<Standing, Fail> {
    let source = source(alloc, order, missing_order, true)?;
    standing(alloc, segment, &source, after)
}

// After values stand where the table says.
fn expect_standings(alloc: Global, segment: &SegmentReader) -> Result<(), Fail> {
    for &(order, missing_order, after, expected) in STANDINGS {
        let found = standing_by(alloc, segment, (order, missing_order), after)?;
        expect_equal_for((order, missing_order, after), found, expected)?;
    }
    Ok(())
}

#[test]
fn accessors_say_where_an_after_value_stands(rt: HostRuntime) -> Result<(), Fail> {
    let segment = segment_of(rt.alloc(), &[MIXED])?;
    expect_standings(rt.alloc(), &segment)
}

// The types of the columns that a source of this order reads.
fn types_by(alloc: Global, segment: &SegmentReader, order: Order) -> Result<Vec<ColumnType>, Fail> {
    let source = source(alloc, order, DEFAULT, false)?;
    types(alloc, segment, &source)
}

// Sources read columns of the types that the table says.
fn expect_types(alloc: Global, segment: &SegmentReader) -> Result<(), Fail> {
    for &(order, expected) in TYPES {
        let found = types_by(alloc, segment, order)?;
        expect_equal_for(order, found.as_slice(), expected)?;
    }
    Ok(())
}

#[test]
fn accessors_stand_in_the_requested_order(rt: HostRuntime) -> Result<(), Fail> {
    let segment = segment_of(rt.alloc(), &[MIXED])?;
    expect_types(rt.alloc(), &segment)
}

// Why Null is no after value of a source without a bucket for a missing value.
fn fault_of_null(
    alloc: Global,
    segment: &SegmentReader,
) -> Result<Option<RequestError>, OutOfMemory> {
    let source = source(alloc, Order::Asc, DEFAULT, false)?;
    let null = CompositeIntermediateKey::Null;
    let refused = CompositeSourceAccessors::build_for_source(alloc, segment, &source, Some(&null));
    Ok(refused.err())
}

// Null is refused as an after value.
fn expect_fault(alloc: Global, segment: &SegmentReader) -> Result<(), Fail> {
    let fault = fault_of_null(alloc, segment)?;
    let reason = RequestError::Invalid(InvalidArgument::NullAfter);
    expect_equal(fault, Some(reason))
}

#[test]
fn null_is_no_after_value_without_a_missing_bucket(rt: HostRuntime) -> Result<(), Fail> {
    let segment = segment_of(rt.alloc(), &[MIXED])?;
    expect_fault(rt.alloc(), &segment)
}
