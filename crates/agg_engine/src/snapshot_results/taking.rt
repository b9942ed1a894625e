//! How a tree of collectors takes documents that it may take.
ghost use Rattle.std.specs.Prelude.{◌≡◌, ◌≤◌, OnOk};
ghost use Rattle.agg_engine_tree.specs.collector_tree.Call.{is_flush, pairs_in, parents_in};
ghost use Rattle.agg_engine_tree.specs.collector_tree.Refusals.{AreNotLast};
ghost use Rattle.agg_engine_tree.specs.collector_tree.Tree.{Takes, held_of};
ghost use Rattle.agg_engine.specs.snapshot_results.Trees.{MayTake, MostSteps};

use agg_cache::CollectError;
use agg_engine_tree::collector_tree::{Call, SegmentCollectorTree, hand};
use agg_engine_tree::segment_context::PerRequestAggSegCtx;
use agg_values::{OutOfMemory, Steps};
use std::sync::ledger::Ledger;

/// Takes documents whose starts are checked, or hands down all that waits. Only memory may run out.
pub fn take<L: Ledger>(
    tree: &mut SegmentCollectorTree<'_>,
    call: Call<'_>,
    ctx: &PerRequestAggSegCtx<'_>,
    steps: &mut Steps<L>,
) -> Result<(), OutOfMemory>
    requires may { MayTake ctx.now (held_of tree.old) (pairs_in call) }
    requires low { AreNotLast (parents_in call) }
    ensures takes { OnOk result (Takes ctx.now (pairs_in call.entry) (is_flush call.entry)
        (held_of tree.old) (held_of tree.new) steps.old steps.new) }
    ensures most { MostSteps ctx.now (pairs_in call.entry) (held_of tree.old)
        steps.old steps.new }
    ensures later { steps.old ≤ steps.new }
{
    match hand::<L, true>(tree, call, ctx, steps) {
        Ok(()) => Ok(()),
        Err(error) => Err(out_of_memory(error)),
    }
}

// The refusal of a tree that can only have run out of memory.
fn out_of_memory(error: CollectError) -> OutOfMemory
    requires { error ≡ CollectError.OutOfMemory }
{
    match error {
        CollectError::OutOfMemory => OutOfMemory,
        // By the condition.
        CollectError::BucketOutOfRange
        | CollectError::TooMany
        | CollectError::Aggregation(_)
        | CollectError::CollectorFailed => unreachable!(),
    }
}
