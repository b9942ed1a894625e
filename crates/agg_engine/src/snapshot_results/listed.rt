//! The results of a segment whose composite's tuples are listed.
ghost use Rattle.std.specs.Prelude.{◌≡◌, ◌≤◌, length};
ghost use Rattle.agg_values.specs.Names.{Named};
ghost use Rattle.agg_values.specs.declared.after_key.AfterKey.{AfterKey};
ghost use Rattle.agg_segment.specs.Segment.{Stored};
ghost use Rattle.agg_engine.specs.snapshot_results.ChargedTrees.{ChargesAnew, IsMade, before};
ghost use Rattle.agg_engine.specs.snapshot_results.Listed.{AnswersEntries, MayBeListed};
ghost use Rattle.agg_engine.specs.snapshot_results.Lone.{IsLone};
ghost use Rattle.agg_engine.specs.snapshot_results.SegmentAnswers.{AnswersSegment, HasLowRoom};
ghost use Rattle.agg_engine.specs.snapshot_results.SegmentAnswers.{HasMemoryCause, IsReady};

use crate::snapshot_results::lone::LoneComposite;
use crate::snapshot_results::{ChargedTree, SnapshotError};
use agg_cache::LimitsLedger;
use agg_composite::accessor::CompositeAggReqData;
use agg_composite::buckets::VisitError;
use agg_composite::{PageEntries, list_entries};
use agg_engine_tree::tree_results::add_leaf;
use agg_results::IntermediateAggregationResults;
use agg_values::{DocId, OutOfMemory, Steps};
use std::alloc::Global;
use std::sync::ledger::Ledger;

/// The results of a segment whose composite stands alone, by a list of its tuples. The tree, which
/// was just made, takes no document, but the buckets are charged for it.
pub fn listed_results<L: Ledger>(
    alloc: Global,
    lone: &LoneComposite<'_, '_>,
    tree: &mut ChargedTree<'_>,
    limits: &mut LimitsLedger,
    steps: &mut Steps<L>,
) -> Result<IntermediateAggregationResults, SnapshotError>
    requires lone { IsLone lone.now.context.now.aggregations.per_request lone.now.req.now }
    requires ready { IsReady lone.now.context.now }
    requires made { IsMade lone.now.context.now.aggregations.per_request
        lone.now.context.now.reader.now tree.old }
    requires charged { tree.old.guard ≤ limits.old.in_use }
    ensures results { AnswersSegment lone.now.context.now steps.old steps.new result }
    ensures cause { HasMemoryCause lone.now.context.now (before tree.old.guard limits.old) result }
    ensures room { HasLowRoom lone.now.context.now (before tree.old.guard limits.old) result }
    ensures charges { ChargesAnew tree.old tree.new limits.old limits.new }
    ensures later { steps.old ≤ steps.new }
{
    let entries = lowest_entries(alloc, &lone.context.docs, lone.req, steps)?;
    tree.charge_buckets(lone.req, entries.len(), limits)?;
    let mut results = IntermediateAggregationResults::new(alloc);
    add_leaf(alloc, entries, lone.req, &mut results)?;
    Ok(results)
}

// The entries of the lowest tuples of documents that may be listed. Only memory may run out.
fn lowest_entries<L: Ledger>(
    alloc: Global,
    docs: &[DocId],
    req: &CompositeAggReqData<'_>,
    steps: &mut Steps<L>,
) -> Result<PageEntries, OutOfMemory>
    requires one { length req.now.req.now.sources ≡ 1 }
    requires may { (segment : Stored) × (after : Named AfterKey)
        × MayBeListed segment after req.now docs.now }
    ensures entries { (segment : Stored) (after : Named AfterKey)
        → MayBeListed segment after req.now docs.now
        → AnswersEntries segment after req.now docs.now steps.old steps.new result }
    ensures later { steps.old ≤ steps.new }
{
    match list_entries(alloc, docs, req, steps) {
        Ok(entries) => Ok(entries),
        Err(error) => Err(out_of_memory(error)),
    }
}

// The refusal of a list that can only have run out of memory.
fn out_of_memory(error: VisitError) -> OutOfMemory
    requires { error ≡ VisitError.OutOfMemory }
{
    match error {
        VisitError::OutOfMemory => OutOfMemory,
        // By the condition.
        VisitError::TooMany => unreachable!(),
    }
}
