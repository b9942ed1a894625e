//! Which requests may be asked with the page that is set, and the fault of each of the others.
use crate::segment_context::given::nested;
use agg_engine_tree::segment_context::{AggContextParams, SetupError, check_paged};
use agg_expect::expect_equal;
use agg_low_tests::segment::given::Given;
use agg_request_tests::request_tree::given::{
    GivenSource, Kind, composite_of, key_of, lone, request_of,
};
use agg_request_tree::{
    Aggregation, AggregationVariants, Aggregations, CompositeAggregation, FilterAggregation,
};
use agg_segment::{QueryTree, Schema};
use agg_values::{AfterKey, InvalidArgument, NameMap, OutOfMemory, RequestError, Text};
use std::alloc::Global;
use std::test::Fail;

// A size, and the value of an after key, if it has one.
type Asked = (u32, Option<Given>);

const NUMBER: Option<Given> = Some(Given::Signed(1));

const TEXT: Option<Given> = Some(Given::Text("1"));

// What a composite named g asks by itself, the name of the page and what it asks, and the fault.
const PAGES: &[(Asked, (&str, Asked), Option<InvalidArgument>)] = &[
    ((0, None), ("g", (1, None)), None),
    ((1, TEXT), ("g", (1, NUMBER)), None),
    ((1, TEXT), ("g", (1, None)), None),
    ((0, TEXT), ("g", (1, NUMBER)), None),
    ((1, None), ("g", (0, None)), Some(InvalidArgument::ZeroSize)),
    (
        (1, NUMBER),
        ("g", (1, TEXT)),
        Some(InvalidArgument::AfterType),
    ),
    ((1, NUMBER), ("h", (0, TEXT)), None),
    ((0, None), ("h", (1, None)), Some(InvalidArgument::ZeroSize)),
    (
        (1, TEXT),
        ("h", (1, NUMBER)),
        Some(InvalidArgument::AfterType),
    ),
];

// The after key of a source named a with this value, if there is one.
fn after_of(alloc: Global, value: Option<Given>) -> Result<NameMap<AfterKey>, OutOfMemory> {
    let mut after = NameMap::new(alloc);
    if value.is_some() {
        let key = AfterKey::from(key_of(alloc, value)?);
        after.insert(Text::copy_of(alloc, "a")?, key)?;
    }
    Ok(after)
}

// A composite over the numbers of a.
fn numbers(alloc: Global, (size, after): Asked) -> Result<CompositeAggregation, OutOfMemory> {
    let histogram = GivenSource::of("a", Kind::Histogram(1), false);
    let mut composite = composite_of(alloc, &[histogram], size)?;
    composite.after = after_of(alloc, after)?;
    Ok(composite)
}

// What a request has for a page, or no page.
fn params_of(
    alloc: Global,
    request: &Aggregations,
    page: Option<(&str, Asked)>,
) -> Result<AggContextParams, SetupError> {
    let mut params = AggContextParams::new(alloc, request, &Schema::new(alloc))?;
    if let Some((name, (size, after))) = page {
        params.set_page(Text::copy_of(alloc, name)?, size, after_of(alloc, after)?);
    }
    Ok(params)
}

// The fault of a request that is asked with this page, or with none.
fn fault_of(
    alloc: Global,
    request: &Aggregations,
    page: Option<(&str, Asked)>,
) -> Result<Option<RequestError>, SetupError> {
    let params = params_of(alloc, request, page)?;
    Ok(check_paged(alloc, request, &params).err())
}

// The fault of a request of one composite named g, which asks this by itself.
fn fault_of_one(
    alloc: Global,
    own: Asked,
    page: Option<(&str, Asked)>,
) -> Result<Option<RequestError>, SetupError> {
    let request = request_of(alloc, "g", lone(alloc, numbers(alloc, own)?))?;
    fault_of(alloc, &request, page)
}

#[test]
fn asks_with_the_page(rt: HostRuntime) -> Result<(), Fail> {
    for &(own, page, fault) in PAGES {
        let found = fault_of_one(rt.alloc(), own, Some(page))?;
        expect_equal(found, fault.map(RequestError::Invalid))?;
    }
    Ok(())
}

#[test]
fn asks_without_a_page(rt: HostRuntime) -> Result<(), Fail> {
    let of_nested = fault_of(rt.alloc(), &nested(rt.alloc())?, None)?;
    let of_one = fault_of_one(rt.alloc(), (0, None), None)?;
    let zero_size = RequestError::Invalid(InvalidArgument::ZeroSize);
    expect_equal((of_nested, of_one), (None, Some(zero_size)))
}

// A filter, with a composite named g below it.
fn below_a_filter(alloc: Global, own: Asked) -> Result<Aggregation, OutOfMemory> {
    let sub_aggregation = request_of(alloc, "g", lone(alloc, numbers(alloc, own)?))?;
    Ok(Aggregation {
        agg: AggregationVariants::Filter(FilterAggregation::new_with_tree(QueryTree::All)),
        sub_aggregation,
    })
}

// The fault of a request of such a filter, where the composite asks this by itself.
fn fault_below(alloc: Global, own: Asked, page: Asked) -> Result<Option<RequestError>, SetupError> {
    let request = request_of(alloc, "f", below_a_filter(alloc, own)?)?;
    fault_of(alloc, &request, Some(("g", page)))
}

#[test]
fn leaves_composites_below_as_they_are(rt: HostRuntime) -> Result<(), Fail> {
    let with_own_fault = fault_below(rt.alloc(), (0, None), (1, None))?;
    let with_none = fault_below(rt.alloc(), (1, NUMBER), (0, TEXT))?;
    let zero_size = RequestError::Invalid(InvalidArgument::ZeroSize);
    expect_equal((with_own_fault, with_none), (Some(zero_size), None))
}
