//! Where after keys stand among the numbers of small columns.
use crate::given::key;
use agg_calendar::PrecomputedDateInterval;
use agg_composite::{CompositeAccessor, PrecomputedAfterKey};
use agg_expect::expect_equal_for;
use agg_low_tests::segment::given::{Given, segment_of};
use agg_segment::{Column, SegmentReader};
use agg_values::{CompositeIntermediateKey, MissingOrder, Order, Text};
use std::alloc::Global;
use std::test::Fail;

const FROM_ZERO: u64 = 9_223_372_036_854_775_808;

// A signed number, one above those of an i64, and two texts.
const VALUES: &[(&str, Given)] = &[
    ("signed", Given::Signed(7)),
    ("large", Given::Unsigned(FROM_ZERO)),
    ("texts", Given::Text("apple")),
    ("texts", Given::Text("cherry")),
];

// A field, an after key, the order, and the place of the key among the numbers of the column.
const PLACES: &[(&str, &str, Order, PrecomputedAfterKey)] = &[
    (
        "signed",
        "i64:5",
        Order::Asc,
        PrecomputedAfterKey::Exact(FROM_ZERO + 5),
    ),
    (
        "signed",
        "u64:9223372036854775808",
        Order::Asc,
        PrecomputedAfterKey::AfterLast,
    ),
    (
        "texts",
        "str:banana",
        Order::Asc,
        PrecomputedAfterKey::Next(1),
    ),
    (
        "large",
        "ip:::1",
        Order::Desc,
        PrecomputedAfterKey::AfterLast,
    ),
];

// Where a key stands among the numbers of a column.
fn place(column: &Column, key: &CompositeIntermediateKey, order: Order) -> PrecomputedAfterKey {
    let accessor = CompositeAccessor {
        column,
        date_histogram_interval: PrecomputedDateInterval::NotApplicable,
        date_offset_ns: 0,
    };
    PrecomputedAfterKey::precompute(&accessor, key, MissingOrder::Default, order)
}

// Where a key stands among the numbers of the one column of a field.
fn place_in(
    alloc: Global,
    segment: &SegmentReader,
    field: &str,
    key: &CompositeIntermediateKey,
    order: Order,
) -> Result<PrecomputedAfterKey, Fail> {
    let name = Text::copy_of(alloc, field)?;
    let columns = segment.columns(&name);
    expect_equal_for(field, columns.len(), 1)?;
    let column = columns.first().ok_or("no column")?;
    Ok(place(column, key, order))
}

// Where the key that a text says stands among the numbers of the one column of a field.
fn place_of(
    alloc: Global,
    segment: &SegmentReader,
    field: &str,
    after: &str,
    order: Order,
) -> Result<PrecomputedAfterKey, Fail> {
    let key = key(alloc, after)?;
    place_in(alloc, segment, field, &key, order)
}

// After keys stand where the table says.
fn expect_places(alloc: Global, segment: &SegmentReader) -> Result<(), Fail> {
    for &(name, after, order, expected) in PLACES {
        let found = place_of(alloc, segment, name, after, order)?;
        expect_equal_for((name, after), found, expected)?;
    }
    Ok(())
}

#[test]
fn after_keys_have_their_places(rt: HostRuntime) -> Result<(), Fail> {
    let segment = segment_of(rt.alloc(), &[VALUES])?;
    expect_places(rt.alloc(), &segment)
}

#[test]
fn no_number_is_above_the_place_after_the_last(rt: HostRuntime) {
    for number in [0, FROM_ZERO, u64::MAX] {
        assert!(rt; !PrecomputedAfterKey::AfterLast.lt(number), "{number}");
    }
}
