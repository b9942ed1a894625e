//! Filters over segments of coloured documents.
use agg_filter::{DocumentQueryEvaluator, FilterAggReqData};
use agg_low_tests::segment::given::{Given, segment_of};
use agg_segment::{FieldValue, QueryTree};
use agg_values::{OutOfMemory, Text};
use std::alloc::Global;
use std::test::Fail;

/// A document with these values.
pub(crate) type Values = &'static [(&'static str, Given)];

// The documents 0 and 2 are red.
const DOCUMENTS: &[Values] = &[
    &[("colour", Given::Text("red"))],
    &[("colour", Given::Text("blue"))],
    &[
        ("colour", Given::Text("blue")),
        ("colour", Given::Text("red")),
    ],
    &[],
];

/// The filter of the red documents in the segment of these four.
pub(crate) fn red_in_segment(alloc: Global) -> Result<FilterAggReqData, Fail> {
    filter_of(alloc, &red_query(alloc)?, DOCUMENTS)
}

/// The filter of a query in the segment of these documents.
pub(crate) fn filter_of(
    alloc: Global,
    query: &QueryTree,
    documents: &[Values],
) -> Result<FilterAggReqData, Fail> {
    let segment = segment_of(alloc, documents)?;
    let evaluator = DocumentQueryEvaluator::new(alloc, query, &segment)?;
    Ok(FilterAggReqData {
        name: Text::copy_of(alloc, "red")?,
        evaluator,
        is_top_level: true,
    })
}

// The query of what is red.
fn red_query(alloc: Global) -> Result<QueryTree, OutOfMemory> {
    let red = Text::copy_of(alloc, "red")?;
    Ok(QueryTree::Term {
        field: Text::copy_of(alloc, "colour")?,
        value: FieldValue::Str(red),
    })
}
