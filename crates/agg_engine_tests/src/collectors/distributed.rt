//! Tests of the collector of a request, whose results over segments go on elsewhere.
ghost use Rattle.std.specs.Prelude.{◌≡◌, ◌<◌, IfOk};
ghost use Rattle.agg_engine_tree.specs.segment_context.Trees.{AreOfRequest};

use crate::collectors::given::{
    FIRST, REQUEST, RESULTS, SECOND, Values, context_of, fruit, request_of, shown,
};
use agg_cache::LimitsLedger;
use agg_engine::collectors::DistributedAggregationCollector;
use agg_expect::expect_equal;
use agg_low_tests::segment::given::segment_of;
use agg_request::Aggregations;
use agg_results::IntermediateAggregationResults;
use agg_values::{ItemList, Steps, Text};
use std::alloc::Global;
use std::marker::Brand;
use std::process::Abort;
use std::sync::ledger::{Blank, Ledger};
use std::test::Fail;

// The results over no documents, whatever the page is.
const EMPTY: &str = r#"{"g":{"buckets":[]},"m":{"value":null}}"#;

// The results over the first segment, by the size of the request.
const OF_OWN_SIZE: &str = concat!(
    r#"{"g":{"after_key":{"colour":"str:red"},"buckets":["#,
    r#"{"doc_count":1,"key":{"colour":"blue"},"s":{"value":3}},"#,
    r#"{"doc_count":1,"key":{"colour":"red"},"s":{"value":1}}]},"m":{"value":3}}"#,
);

// The page that is set, if one is, and the results over the first segment.
const PAGES: &[(Option<(&str, u32)>, &str)] = &[
    (None, OF_OWN_SIZE),
    (
        Some(("g", 1)),
        concat!(
            r#"{"g":{"after_key":{"colour":"str:blue"},"buckets":["#,
            r#"{"doc_count":1,"key":{"colour":"blue"},"s":{"value":3}}]},"m":{"value":3}}"#,
        ),
    ),
    (Some(("m", 1)), OF_OWN_SIZE),
];

// The collector of a request, with a page that is set, if one is given.
fn collector_of<'a>(
    alloc: Global,
    request: &'a Aggregations,
    page: Option<(&str, u32)>,
) -> Result<DistributedAggregationCollector<'a>, Fail>
    ensures { IfOk result (λ collector. AreOfRequest collector.agg.now collector.context.trees) }
{
    let context = context_of(alloc, request, page)?;
    Ok(DistributedAggregationCollector::from_aggs(request, context))
}

// The results over a segment of two documents.
fn fruit_of<L: Ledger>(
    rt: &(impl Abort + AllocGlobal),
    collector: &DistributedAggregationCollector<'_>,
    documents: &[Values],
    steps: &mut Steps<L>,
) -> Result<IntermediateAggregationResults, Fail>
    requires { AreOfRequest collector.now.agg.now collector.now.context.trees }
{
    let reader = segment_of(rt.alloc(), documents)?;
    let mut limits = LimitsLedger::new(None, None);
    let segment = collector.for_segment(&reader, &mut limits)?;
    Ok(fruit(rt, segment, &reader, &mut limits, steps)?)
}

// The results of two segments, merged.
fn whole_of<L: Ledger>(
    rt: &(impl Abort + AllocGlobal),
    collector: &DistributedAggregationCollector<'_>,
    steps: &mut Steps<L>,
) -> Result<IntermediateAggregationResults, Fail>
    requires { AreOfRequest collector.now.agg.now collector.now.context.trees }
{
    let mut fruits = ItemList::new(rt.alloc());
    for documents in [FIRST, SECOND] {
        fruits.push(fruit_of(rt, collector, documents, steps)?)?;
    }
    Ok(collector.merge_fruits(fruits)?)
}

// The merged results of two segments by the collector of a request, as they are shown.
fn merged<L: Ledger>(
    rt: &(impl Abort + AllocGlobal),
    request: &Aggregations,
    blank: Blank,
) -> Result<Text, Fail>
    requires name { blank.name ≡ L.name }
    requires parts { blank.parts ≡ L.parts }
    requires shared { 0 < L.parts }
{
    let mut steps: Steps<L> = Steps::new(blank);
    let collector = collector_of(rt.alloc(), request, None)?;
    assert!(rt; !collector.requires_scoring());
    shown(request, whole_of(rt, &collector, &mut steps)?)
}

#[test]
fn results_of_segments_are_merged(rt: HostRuntime) -> Result<(), Fail> {
    let request = request_of(rt.alloc(), REQUEST)?;
    let found = merged::<Brand>(&rt, &request, Blank::new(1))?;
    expect_equal(found.as_str(), RESULTS)
}

// The results of no segment, as they are shown.
fn shown_of_none(
    alloc: Global,
    collector: &DistributedAggregationCollector<'_>,
    request: &Aggregations,
) -> Result<Text, Fail> {
    shown(request, collector.merge_fruits(ItemList::new(alloc))?)
}

// The results of no segment, with those of the first merged into them.
fn merged_into_none<L: Ledger>(
    rt: &(impl Abort + AllocGlobal),
    collector: &DistributedAggregationCollector<'_>,
    steps: &mut Steps<L>,
) -> Result<IntermediateAggregationResults, Fail>
    requires { AreOfRequest collector.now.agg.now collector.now.context.trees }
{
    let mut whole = collector.merge_fruits(ItemList::new(rt.alloc()))?;
    whole.merge_fruits(fruit_of(rt, collector, FIRST, steps)?)?;
    Ok(whole)
}

// The results of no segment are empty. They have the size of the page, since they merge with those
// of a segment, which two pages of different sizes don't.
fn expect_page<L: Ledger>(
    rt: &(impl Abort + AllocGlobal),
    request: &Aggregations,
    asked: (Option<(&str, u32)>, &str),
    blank: Blank,
) -> Result<(), Fail>
    requires name { blank.name ≡ L.name }
    requires parts { blank.parts ≡ L.parts }
    requires shared { 0 < L.parts }
{
    let (page, text) = asked;
    let mut steps: Steps<L> = Steps::new(blank);
    let collector = collector_of(rt.alloc(), request, page)?;
    let empty = shown_of_none(rt.alloc(), &collector, request)?;
    let whole = shown(request, merged_into_none(rt, &collector, &mut steps)?)?;
    expect_equal((empty.as_str(), whole.as_str()), (EMPTY, text))
}

#[test]
fn results_of_no_segment_have_the_size_of_the_page(rt: HostRuntime) -> Result<(), Fail> {
    let request = request_of(rt.alloc(), REQUEST)?;
    for &asked in PAGES {
        expect_page::<Brand>(&rt, &request, asked, Blank::new(1))?;
    }
    Ok(())
}
