//! The results of one segment.
ghost use Rattle.std.specs.Prelude.{◌≡◌, ◌≤◌};
ghost use Rattle.agg_engine.specs.snapshot_results.ChargedTrees.{ChargesAnew, IsCharged, IsMade};
ghost use Rattle.agg_engine.specs.snapshot_results.ChargedTrees.{before};
ghost use Rattle.agg_engine.specs.snapshot_results.SegmentAnswers.{AnswersSegment, HasLowRoom};
ghost use Rattle.agg_engine.specs.snapshot_results.SegmentAnswers.{HasMemoryCause, IsReady};

use crate::snapshot_results::context::SegmentContext;
use crate::snapshot_results::listed::listed_results;
use crate::snapshot_results::lone::lone_composite;
use crate::snapshot_results::{ChargedTree, SnapshotError};
use agg_cache::LimitsLedger;
use agg_engine_tree::tree_results::into_results;
use agg_results::IntermediateAggregationResults;
use agg_values::Steps;
use std::alloc::Global;
use std::sync::ledger::Ledger;

/// The results of a segment that may be collected. What its collectors charge is given back.
pub fn segment_results<L: Ledger>(
    alloc: Global,
    context: &SegmentContext<'_>,
    limits: &mut LimitsLedger,
    steps: &mut Steps<L>,
) -> Result<IntermediateAggregationResults, SnapshotError>
    requires { IsReady context.now }
    ensures results { AnswersSegment context.now steps.old steps.new result }
    ensures cause { HasMemoryCause context.now limits.old result }
    ensures room { HasLowRoom context.now limits.old result }
    ensures limits { limits.new ≡ limits.old }
    ensures later { steps.old ≤ steps.new }
{
    let ctx = &context.aggregations.per_request;
    let mut tree = ChargedTree::new(alloc, ctx, context.reader, limits)?;
    let results = made_results(alloc, context, &mut tree, limits, steps);
    tree.give_back(limits);
    results
}

// The results of a segment whose tree was just made: by a list of tuples where its composite stands
// alone, else by the tree.
fn made_results<L: Ledger>(
    alloc: Global,
    context: &SegmentContext<'_>,
    tree: &mut ChargedTree<'_>,
    limits: &mut LimitsLedger,
    steps: &mut Steps<L>,
) -> Result<IntermediateAggregationResults, SnapshotError>
    requires ready { IsReady context.now }
    requires made { IsMade context.now.aggregations.per_request context.now.reader.now tree.old }
    requires exact { IsCharged context.now.aggregations.per_request tree.old }
    requires charged { tree.old.guard ≤ limits.old.in_use }
    ensures results { AnswersSegment context.now steps.old steps.new result }
    ensures cause { HasMemoryCause context.now (before tree.old.guard limits.old) result }
    ensures room { HasLowRoom context.now (before tree.old.guard limits.old) result }
    ensures charges { ChargesAnew tree.old tree.new limits.old limits.new }
    ensures later { steps.old ≤ steps.new }
{
    match lone_composite(context) {
        Some(lone) => listed_results(alloc, &lone, tree, limits, steps),
        None => tree_results(alloc, context, tree, limits, steps),
    }
}

// The results of a segment from its tree, which was just made.
fn tree_results<L: Ledger>(
    alloc: Global,
    context: &SegmentContext<'_>,
    tree: &mut ChargedTree<'_>,
    limits: &mut LimitsLedger,
    steps: &mut Steps<L>,
) -> Result<IntermediateAggregationResults, SnapshotError>
    requires ready { IsReady context.now }
    requires made { IsMade context.now.aggregations.per_request context.now.reader.now tree.old }
    requires exact { IsCharged context.now.aggregations.per_request tree.old }
    requires charged { tree.old.guard ≤ limits.old.in_use }
    ensures results { AnswersSegment context.now steps.old steps.new result }
    ensures cause { HasMemoryCause context.now (before tree.old.guard limits.old) result }
    ensures room { HasLowRoom context.now (before tree.old.guard limits.old) result }
    ensures charges { ChargesAnew tree.old tree.new limits.old limits.new }
    ensures later { steps.old ≤ steps.new }
{
    let ctx = &context.aggregations.per_request;
    tree.take_blocks(&context.docs, ctx, limits, steps)?;
    tree.flush(ctx, limits, steps)?;
    let mut results = IntermediateAggregationResults::new(alloc);
    into_results(alloc, tree.take_tree(alloc), ctx, &mut results, 0)?;
    Ok(results)
}
