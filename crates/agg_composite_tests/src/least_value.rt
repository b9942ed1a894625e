//! Tests of sources with a least value: the values below it aren't read.
use crate::collector::{Values, request_in};
use crate::listing::{Shown, expect_composite};
use agg_composite::{CompositeSourceAccessors, PrecomputedAfterKey};
use agg_expect::{expect_equal, expect_equal_for};
use agg_low_tests::segment::given::{Given, segment_of};
use agg_request_tests::request_tree::given::{GivenSource, Kind, composite_of};
use agg_request_tree::{CompositeAggregation, CompositeAggregationSource};
use agg_segment::SegmentReader;
use agg_values::{DocId, Order};
use std::alloc::Global;
use std::process::Abort;
use std::test::Fail;

const DOCUMENTS: &[Values] = &[
    &[
        ("a", Given::Signed(1)),
        ("a", Given::Signed(3)),
        ("h", Given::Signed(3)),
        ("lowest", Given::Signed(i64::MIN)),
        ("mixed", Given::Truth(true)),
        ("mixed", Given::Text("apple")),
        ("mixed", Given::Text("cherry")),
        ("mixed", Given::Signed(7)),
    ],
    &[("a", Given::Signed(1)), ("h", Given::Signed(7))],
    &[("a", Given::Text("x"))],
];

const ALL: &[DocId] = &[0, 1, 2];

const TENS: Kind = Kind::Histogram(10);

// A field, what keys are made of, whether a missing value has a bucket, the least value, and the
// entries.
const LISTED: &[(&str, Kind, bool, Option<Given>, &[Shown])] = &[
    (
        "a",
        Kind::Terms,
        true,
        Some(Given::Signed(2)),
        &[(None, 2), (Some(3), 1)],
    ),
    (
        "a",
        Kind::Terms,
        false,
        Some(Given::Signed(2)),
        &[(Some(3), 1)],
    ),
    (
        "a",
        Kind::Terms,
        false,
        Some(Given::Text("y")),
        &[(Some(1), 2), (Some(3), 1)],
    ),
    ("h", TENS, false, Some(Given::Signed(5)), &[(Some(0), 1)]),
    ("h", TENS, false, None, &[(Some(0), 2)]),
    ("lowest", TENS, false, Some(Given::Signed(0)), &[]),
];

// A segment lists these entries of a source.
fn expect_source(
    rt: &(impl Abort + AllocGlobal),
    segment: &SegmentReader,
    source: GivenSource,
    expected: &[Shown],
) -> Result<(), Fail> {
    let composite = composite_of(rt.alloc(), &[source], 10)?;
    expect_composite(rt, segment, &composite, ALL, expected)
}

// It lists the entries of the table.
fn expect_table(rt: &(impl Abort + AllocGlobal), segment: &SegmentReader) -> Result<(), Fail> {
    for &(field, kind, missing_bucket, min, expected) in LISTED {
        let given = GivenSource::of(field, kind, missing_bucket);
        expect_source(rt, segment, GivenSource { min, ..given }, expected)?;
    }
    Ok(())
}

#[test]
fn lists_no_value_below_the_least(rt: HostRuntime) -> Result<(), Fail> {
    let segment = segment_of(rt.alloc(), DOCUMENTS)?;
    expect_table(&rt, &segment)
}

// Whether the starts of a composite's documents lie within 64 bits, and how many it counts.
fn counted(
    alloc: Global,
    segment: &SegmentReader,
    composite: &CompositeAggregation,
) -> Result<(bool, u64), Fail> {
    let req = request_in(alloc, segment, composite)?;
    Ok((req.are_starts_in_range(ALL), req.count_occurrences(ALL)))
}

// Whether starts are in range and how many occurrences there are, of tens of the lowest number,
// with a least value or without one.
fn expect_counted(
    alloc: Global,
    segment: &SegmentReader,
    min: Option<Given>,
    expected: (bool, u64),
) -> Result<(), Fail> {
    let tens = GivenSource::of("lowest", TENS, false);
    let composite = composite_of(alloc, &[GivenSource { min, ..tens }], 10)?;
    expect_equal(counted(alloc, segment, &composite)?, expected)
}

#[test]
fn starts_below_the_least_value_are_not_read(rt: HostRuntime) -> Result<(), Fail> {
    let segment = segment_of(rt.alloc(), DOCUMENTS)?;
    expect_counted(rt.alloc(), &segment, None, (false, 1))?;
    expect_counted(rt.alloc(), &segment, Some(Given::Signed(0)), (true, 0))
}

// Where the least value of a source stands in the column of each accessor.
fn places(
    alloc: Global,
    segment: &SegmentReader,
    source: &CompositeAggregationSource,
) -> Result<Vec<PrecomputedAfterKey>, Fail> {
    let built = CompositeSourceAccessors::build_for_source(alloc, segment, source, None)?;
    places_of(alloc, &built)
}

fn places_of(
    alloc: Global,
    accessors: &CompositeSourceAccessors<'_>,
) -> Result<Vec<PrecomputedAfterKey>, Fail> {
    let mut places = Vec::new(alloc);
    for index in 0..accessors.accessors.as_slice().len() {
        places.push(accessors.least(index))?;
    }
    Ok(places)
}

// The least value banana stands at these places in the columns of the field of several classes.
fn expect_places(
    alloc: Global,
    segment: &SegmentReader,
    order: Order,
    expected: &[PrecomputedAfterKey],
) -> Result<(), Fail> {
    let given = GivenSource::of("mixed", Kind::Terms, false);
    let min = Some(Given::Text("banana"));
    let source = GivenSource {
        order,
        min,
        ..given
    }
    .source(alloc)?;
    let places = places(alloc, segment, &source)?;
    expect_equal_for(order, places.as_slice(), expected)
}

#[test]
fn a_least_value_has_a_place_in_each_column(rt: HostRuntime) -> Result<(), Fail> {
    let segment = segment_of(rt.alloc(), DOCUMENTS)?;
    let (none, some) = (PrecomputedAfterKey::AfterLast, PrecomputedAfterKey::Next(1));
    let all = PrecomputedAfterKey::Next(0);
    expect_places(rt.alloc(), &segment, Order::Asc, &[none, some, all])?;
    expect_places(rt.alloc(), &segment, Order::Desc, &[all, some, none])
}
