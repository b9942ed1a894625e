//! Tests of the trait of collectors in a segment, by a tree of them.
ghost use Rattle.std.specs.Prelude.{◌≡◌, ◌<◌, IfOk, OnOk};
ghost use Rattle.agg_engine_tree.specs.collector_tree.Tree.{IsFlushed, held_of};
ghost use Rattle.agg_engine_tree.specs.segment_context.Trees.{AreOfRequest};
ghost use Rattle.agg_engine_tests.specs.collectors.Trees.{IsContextIn, IsTreeFor};

use crate::collectors::given::{FIRST, context_of, request_of, shown};
use agg_cache::{BucketId, CollectError, LimitsLedger};
use agg_engine::collectors::SegmentAggregationCollector;
use agg_engine_tree::collector_tree::{SegmentCollectorTree, tree_for};
use agg_engine_tree::segment_context::{
    AggContextParams, AggregationsSegmentCtx, check_paged, segment_context,
};
use agg_expect::expect_equal;
use agg_low_tests::segment::given::segment_of;
use agg_request::Aggregations;
use agg_results::IntermediateAggregationResults;
use agg_segment::SegmentReader;
use agg_values::{OutOfMemory, Steps};
use std::alloc::Global;
use std::marker::Brand;
use std::sync::ledger::{Blank, Ledger};
use std::test::Fail;

// What is red with the number of sizes, colours with the sum of the sizes of each, and the greatest
// size.
const REQUEST: &str = r#"{"f":{"filter":{"term":{"field":"colour","value":"str:red"}},
    "aggs":{"n":{"value_count":{"field":"size"}}}},
    "g":{"composite":{"sources":[{"colour":{"terms":{"field":"colour"}}}],"size":2},
    "aggs":{"s":{"sum":{"field":"size"}}}},"m":{"max":{"field":"size"}}}"#;

// Parents, and the results for each. The last isn't prepared.
const RESULTS: &[(BucketId, &str)] = &[
    (
        0,
        concat!(
            r#"{"f":{"doc_count":1,"n":{"value":1}},"#,
            r#""g":{"after_key":{"colour":"str:red"},"buckets":["#,
            r#"{"doc_count":1,"key":{"colour":"blue"},"s":{"value":3}},"#,
            r#"{"doc_count":1,"key":{"colour":"red"},"s":{"value":1}}]},"m":{"value":3}}"#,
        ),
    ),
    (
        1,
        concat!(
            r#"{"f":{"doc_count":0,"n":{"value":0}},"#,
            r#""g":{"buckets":[{"doc_count":1,"key":{"colour":"blue"},"s":{"value":3}}]},"#,
            r#""m":{"value":3}}"#,
        ),
    ),
    (
        2,
        r#"{"f":{"doc_count":0,"n":{"value":0}},"g":{"buckets":[]},"m":{"value":null}}"#,
    ),
];

// What the aggregations of a request are asked in a segment.
fn data_in<'s>(
    alloc: Global,
    request: &'s Aggregations,
    reader: &'s SegmentReader,
) -> Result<AggregationsSegmentCtx<'s>, Fail>
    ensures { IfOk result (λ agg_data. IsContextIn reader.now agg_data.per_request) }
{
    let context = context_of(alloc, request, None)?;
    data_with(alloc, request, reader, &context)
}

// What the aggregations of a request are asked in a segment, with this context.
fn data_with<'s>(
    alloc: Global,
    request: &'s Aggregations,
    reader: &'s SegmentReader,
    context: &AggContextParams,
) -> Result<AggregationsSegmentCtx<'s>, Fail>
    requires { AreOfRequest request.now context.now.trees }
    ensures { IfOk result (λ agg_data. IsContextIn reader.now agg_data.per_request) }
{
    check_paged(alloc, request, context)?;
    Ok(segment_context(alloc, request, reader, context)?)
}

// A new tree for these.
fn tree_in<'s>(
    alloc: Global,
    agg_data: &AggregationsSegmentCtx<'_>,
    reader: &'s SegmentReader,
) -> Result<SegmentCollectorTree<'s>, OutOfMemory>
    requires { IsContextIn reader.now agg_data.now.per_request }
    ensures { IfOk result (λ tree. IsTreeFor agg_data.now.per_request (held_of tree)) }
{
    tree_for(alloc, &agg_data.per_request, reader)
}

// A tree takes the document 1 under the first parent, and then both documents under two parents.
// At last nothing waits in it.
fn take_all<L: Ledger>(
    tree: &mut SegmentCollectorTree<'_>,
    agg_data: &AggregationsSegmentCtx<'_>,
    steps: &mut Steps<L>,
) -> Result<(), CollectError>
    requires { IsTreeFor agg_data.now.per_request (held_of tree.old) }
    ensures tree { OnOk result (IsTreeFor agg_data.now.per_request (held_of tree.new)) }
    ensures flushed { OnOk result (IsFlushed (held_of tree.new)) }
{
    let mut limits = LimitsLedger::new(None, None);
    let mut guard = limits.guard();
    tree.prepare_max_bucket(1, agg_data)?;
    tree.collect(0, &[1], agg_data, &mut limits, &mut guard, steps)?;
    tree.collect_multiple(&[1, 0], &[1, 0], agg_data, &mut limits, &mut guard, steps)?;
    tree.flush(agg_data, &mut limits, &mut guard, steps)
}

// The results that a tree adds for a parent.
fn results_for(
    alloc: Global,
    tree: &mut SegmentCollectorTree<'_>,
    agg_data: &AggregationsSegmentCtx<'_>,
    parent: BucketId,
) -> Result<IntermediateAggregationResults, CollectError>
    requires tree { IsTreeFor agg_data.now.per_request (held_of tree.old) }
    requires flushed { IsFlushed (held_of tree.old) }
    ensures { tree.new ≡ tree.old }
{
    let mut results = IntermediateAggregationResults::new(alloc);
    tree.add_intermediate_aggregation_result(agg_data, &mut results, parent)?;
    Ok(results)
}

// A tree has the results for each parent.
fn expect_rows(
    alloc: Global,
    tree: &mut SegmentCollectorTree<'_>,
    agg_data: &AggregationsSegmentCtx<'_>,
    request: &Aggregations,
) -> Result<(), Fail>
    requires tree { IsTreeFor agg_data.now.per_request (held_of tree.old) }
    requires flushed { IsFlushed (held_of tree.old) }
{
    for &asked in RESULTS {
        let (parent, text) = asked;
        let found = shown(request, results_for(alloc, tree, agg_data, parent)?)?;
        expect_equal(found.as_str(), text)?;
    }
    Ok(())
}

// A new tree that took documents has the results for each parent.
fn expect_rows_of_new<L: Ledger>(
    alloc: Global,
    agg_data: &AggregationsSegmentCtx<'_>,
    reader: &SegmentReader,
    request: &Aggregations,
    steps: &mut Steps<L>,
) -> Result<(), Fail>
    requires { IsContextIn reader.now agg_data.now.per_request }
{
    let mut tree = tree_in(alloc, agg_data, reader)?;
    take_all(&mut tree, agg_data, steps)?;
    expect_rows(alloc, &mut tree, agg_data, request)
}

// The tree of a request in the first segment has the results for each parent.
fn expect_results<L: Ledger>(
    alloc: Global,
    request: &Aggregations,
    blank: Blank,
) -> Result<(), Fail>
    requires name { blank.name ≡ L.name }
    requires parts { blank.parts ≡ L.parts }
    requires shared { 0 < L.parts }
{
    let mut steps: Steps<L> = Steps::new(blank);
    let reader = segment_of(alloc, FIRST)?;
    let agg_data = data_in(alloc, request, &reader)?;
    expect_rows_of_new(alloc, &agg_data, &reader, request, &mut steps)
}

#[test]
fn has_results_for_each_parent(rt: HostRuntime) -> Result<(), Fail> {
    let request = request_of(rt.alloc(), REQUEST)?;
    expect_results::<Brand>(rt.alloc(), &request, Blank::new(1))
}
