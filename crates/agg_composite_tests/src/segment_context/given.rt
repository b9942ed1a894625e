//! Requests with filters, in a segment of two documents.
use agg_low_tests::segment::given::{Given, segment_of};
use agg_request_tests::request_tree::given::{GivenSource, Kind, composite_of, request_of};
use agg_request_tree::{
    Aggregation, AggregationVariants, Aggregations, FilterAggregation, SumAggregation,
};
use agg_segment::{BuildError, QueryTree, SegmentReader};
use agg_values::{NameMap, OutOfMemory, Text};
use std::alloc::Global;

/// The segment of a document with a and b, and one with a alone.
pub(crate) fn two_documents(alloc: Global) -> Result<SegmentReader, BuildError> {
    segment_of(
        alloc,
        &[
            &[("a", Given::Signed(1)), ("b", Given::Signed(1))],
            &[("a", Given::Signed(2))],
        ],
    )
}

/// A composite g over a, below it a filter f of the documents with a value in b and the sum s of a,
/// and below the filter a composite h over b.
pub(crate) fn nested(alloc: Global) -> Result<Aggregations, OutOfMemory> {
    request_of(alloc, "g", terms_of(alloc, "a", filter_and_sum(alloc)?)?)
}

// A composite over the terms of a field, with these aggregations below it.
fn terms_of(
    alloc: Global,
    field: &'static str,
    sub_aggregation: Aggregations,
) -> Result<Aggregation, OutOfMemory> {
    let terms = [GivenSource::of(field, Kind::Terms, false)];
    Ok(Aggregation {
        agg: AggregationVariants::Composite(composite_of(alloc, &terms, 10)?),
        sub_aggregation,
    })
}

fn filter_and_sum(alloc: Global) -> Result<Aggregations, OutOfMemory> {
    let mut both = request_of(alloc, "f", filter_of(alloc, "b", composite_h(alloc)?)?)?;
    both.insert(Text::copy_of(alloc, "s")?, sum_of(alloc, "a")?)?;
    Ok(both)
}

fn composite_h(alloc: Global) -> Result<Aggregations, OutOfMemory> {
    request_of(alloc, "h", terms_of(alloc, "b", NameMap::new(alloc))?)
}

// The filter of the documents with a value in a field, with these aggregations below it.
fn filter_of(
    alloc: Global,
    field: &str,
    sub_aggregation: Aggregations,
) -> Result<Aggregation, OutOfMemory> {
    let tree = QueryTree::Exists {
        field: Text::copy_of(alloc, field)?,
    };
    Ok(Aggregation {
        agg: AggregationVariants::Filter(FilterAggregation::new_with_tree(tree)),
        sub_aggregation,
    })
}

// The sum of a field.
fn sum_of(alloc: Global, field: &str) -> Result<Aggregation, OutOfMemory> {
    Ok(Aggregation {
        agg: AggregationVariants::Sum(SumAggregation {
            field: Text::copy_of(alloc, field)?,
        }),
        sub_aggregation: NameMap::new(alloc),
    })
}
