//! Tests of the collector of a request, whose results over segments become one final result.
ghost use Rattle.std.specs.Prelude.{◌≡◌, ◌<◌, IfOk};
ghost use Rattle.agg_engine_tree.specs.segment_context.Trees.{AreOfRequest};

use crate::collectors::given::{
    FIRST, REQUEST, RESULTS, SECOND, Values, context_of, fruit, request_of, text_of,
};
use agg_cache::LimitsLedger;
use agg_engine::collectors::AggregationCollector;
use agg_expect::expect_equal;
use agg_low_tests::segment::given::segment_of;
use agg_request::Aggregations;
use agg_results::{AggregationResults, IntermediateAggregationResults};
use agg_values::{ItemList, Steps, Text};
use std::alloc::Global;
use std::marker::Brand;
use std::process::Abort;
use std::sync::ledger::{Blank, Ledger};
use std::test::Fail;

// The collector of a request.
fn collector_of<'a>(
    alloc: Global,
    request: &'a Aggregations,
) -> Result<AggregationCollector<'a>, Fail>
    ensures { IfOk result (λ collector. AreOfRequest collector.agg.now collector.context.trees) }
{
    let context = context_of(alloc, request, None)?;
    Ok(AggregationCollector::from_aggs(request, context))
}

// The results over a segment of two documents.
fn fruit_of<L: Ledger>(
    rt: &(impl Abort + AllocGlobal),
    collector: &AggregationCollector<'_>,
    documents: &[Values],
    steps: &mut Steps<L>,
) -> Result<IntermediateAggregationResults, Fail>
    requires { AreOfRequest collector.now.agg.now collector.now.context.trees }
{
    let reader = segment_of(rt.alloc(), documents)?;
    let mut limits = LimitsLedger::new(None, None);
    let segment = collector.for_segment(&reader, &mut limits)?;
    Ok(fruit(rt, segment, &reader, &mut limits, steps)?)
}

// The final results of two segments.
fn results_of<L: Ledger>(
    rt: &(impl Abort + AllocGlobal),
    collector: &AggregationCollector<'_>,
    steps: &mut Steps<L>,
) -> Result<AggregationResults, Fail>
    requires { AreOfRequest collector.now.agg.now collector.now.context.trees }
{
    let mut fruits = ItemList::new(rt.alloc());
    for documents in [FIRST, SECOND] {
        fruits.push(fruit_of(rt, collector, documents, steps)?)?;
    }
    Ok(collector.merge_fruits(fruits, &LimitsLedger::new(None, None))?)
}

// The final results of two segments by the collector of a request, as they are shown.
fn shown<L: Ledger>(
    rt: &(impl Abort + AllocGlobal),
    request: &Aggregations,
    blank: Blank,
) -> Result<Text, Fail>
    requires name { blank.name ≡ L.name }
    requires parts { blank.parts ≡ L.parts }
    requires shared { 0 < L.parts }
{
    let mut steps: Steps<L> = Steps::new(blank);
    let collector = collector_of(rt.alloc(), request)?;
    assert!(rt; !collector.requires_scoring());
    text_of(&results_of(rt, &collector, &mut steps)?)
}

#[test]
fn results_of_segments_become_one(rt: HostRuntime) -> Result<(), Fail> {
    let request = request_of(rt.alloc(), REQUEST)?;
    let found = shown::<Brand>(&rt, &request, Blank::new(1))?;
    expect_equal(found.as_str(), RESULTS)
}
