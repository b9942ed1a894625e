//! What one source says of itself, of columns and of after values.
use crate::request_tree::given::{GivenSource, Kind, key_of};
use agg_calendar::CalendarInterval;
use agg_expect::{expect_equal, expect_equal_for};
use agg_low_tests::segment::given::Given;
use agg_request_tree::CompositeAggregationSource;
use agg_values::{
    AfterKey, ColumnPaginationOrder, CompositeIntermediateKey, MissingOrder, NameMap, Order,
    OutOfMemory, Text,
};
use std::alloc::Global;
use std::test::Fail;

const NUMBERS: Kind = Kind::Histogram(-5);

const DATES: Kind = Kind::Dates(Some("1d"), Some(CalendarInterval::Month));

const MONTHS: Kind = Kind::Dates(None, Some(CalendarInterval::Month));

// A source of this kind.
fn source_of(alloc: Global, kind: Kind) -> Result<CompositeAggregationSource, OutOfMemory> {
    let given = GivenSource {
        name: "by_a",
        field: "a",
        kind,
        order: Order::Desc,
        missing_bucket: true,
        missing_order: MissingOrder::Last,
        offset: None,
        min: None,
    };
    given.source(alloc)
}

// The parts of a source are those that it was made of.
fn expect_parts(source: &CompositeAggregationSource) -> Result<(), Fail> {
    let names = (source.name().as_str(), source.field().as_str());
    let orders = (
        source.order(),
        source.missing_bucket(),
        source.missing_order(),
    );
    let expected = (Order::Desc, true, MissingOrder::Last);
    expect_equal((names, orders), (("by_a", "a"), expected))
}

// The parts of a source and its copy are those that it was made of, and both are shown alike.
fn expect_copy(alloc: Global, source: &CompositeAggregationSource) -> Result<(), Fail> {
    let copy = source.try_clone(alloc)?;
    expect_parts(source)?;
    expect_parts(&copy)?;
    expect_equal(copy == *source, true)
}

#[test]
fn a_source_gives_its_parts(rt: HostRuntime) -> Result<(), Fail> {
    for kind in [Kind::Terms, NUMBERS, DATES, MONTHS] {
        expect_copy(rt.alloc(), &source_of(rt.alloc(), kind)?)?;
    }
    Ok(())
}

// Whether a source of this kind reads the values of this class.
fn reads(alloc: Global, kind: Kind, class: ColumnPaginationOrder) -> Result<bool, OutOfMemory> {
    Ok(source_of(alloc, kind)?.reads(class))
}

#[test]
fn a_source_reads_values_by_class(rt: HostRuntime) -> Result<(), Fail> {
    let alloc = rt.alloc();
    for (class, numbers, dates) in [
        (ColumnPaginationOrder::Bool, false, false),
        (ColumnPaginationOrder::Str, false, false),
        (ColumnPaginationOrder::Numeric, true, false),
        (ColumnPaginationOrder::IpAddr, false, false),
        (ColumnPaginationOrder::DateTime, true, true),
    ] {
        let found = (
            reads(alloc, Kind::Terms, class)?,
            reads(alloc, NUMBERS, class)?,
            reads(alloc, DATES, class)?,
        );
        expect_equal_for(class, found, (true, numbers, dates))?;
    }
    Ok(())
}

// A key, None for Null, and whether it is of another type than the keys of a histogram and of a
// date source.
const AFTER_VALUES: &[(Option<Given>, bool, bool)] = &[
    (Some(Given::Truth(true)), true, true),
    (Some(Given::Text("b")), true, true),
    (Some(Given::Signed(-1)), false, true),
    (Some(Given::Unsigned(1)), false, true),
    (Some(Given::Address(1)), true, true),
    (Some(Given::Date(1)), true, false),
    (None, false, false),
];

// The after key of one source.
fn after_of(alloc: Global, given: Option<Given>) -> Result<NameMap<AfterKey>, OutOfMemory> {
    let mut after = NameMap::new(alloc);
    let key = AfterKey::from(key_of(alloc, given)?);
    after.insert(Text::copy_of(alloc, "by_a")?, key)?;
    Ok(after)
}

// Whether an after key says another type than a source of this kind gives.
fn is_other(alloc: Global, kind: Kind, after: &NameMap<AfterKey>) -> Result<bool, OutOfMemory> {
    let source = source_of(alloc, kind)?;
    Ok(source.is_other_after(source.after_value(after)))
}

#[test]
fn a_source_goes_on_from_keys_of_its_type(rt: HostRuntime) -> Result<(), Fail> {
    let alloc = rt.alloc();
    for &(given, numbers, dates) in AFTER_VALUES {
        let after = after_of(alloc, given)?;
        let found = (
            is_other(alloc, NUMBERS, &after)?,
            is_other(alloc, DATES, &after)?,
        );
        expect_equal(found, (numbers, dates))?;
    }
    Ok(())
}

// Whether a source refuses to go on from an after value that is Null.
fn refuses_null(
    alloc: Global,
    missing_bucket: bool,
    after: Option<&CompositeIntermediateKey>,
) -> Result<bool, OutOfMemory> {
    let source = GivenSource::of("a", Kind::Terms, missing_bucket).source(alloc)?;
    Ok(source.is_null_after(after))
}

#[test]
fn null_is_gone_on_from_where_it_has_a_bucket(rt: HostRuntime) -> Result<(), Fail> {
    let alloc = rt.alloc();
    let null = Some(&CompositeIntermediateKey::Null);
    for (missing_bucket, after, expected) in [
        (true, null, false),
        (false, null, true),
        (false, None, false),
    ] {
        let refuses = refuses_null(alloc, missing_bucket, after)?;
        expect_equal(refuses, expected)?;
    }
    Ok(())
}
