//! What is asked of all segments before any is collected.
ghost use Rattle.std.specs.Prelude.{◌≡◌, ◌∷◌, [], List, IfErr, IfOk, OnOk};
ghost use Rattle.agg_segment.specs.Query.{matches};
ghost use Rattle.agg_segment.specs.Segment.{Stored};
ghost use Rattle.agg_segment.specs.declared.query.QueryTree.{QueryTree};
ghost use Rattle.agg_request_tree.specs.Ranges.{HasStartOutOfRange};
ghost use Rattle.agg_request_tree.specs.Request.{Request};
ghost use Rattle.agg_request_tree.specs.Uncut.{CountsTooMany};
ghost use Rattle.agg_engine_tree.specs.uncut.Uncut as uncut;
ghost use Rattle.agg_engine.specs.snapshot_results.Answers.{IsCountRefusal, IsStartRefusal};
ghost use Rattle.agg_engine.specs.snapshot_results.Contexts.{AreContextsOf, IsContextOf};
ghost use Rattle.agg_engine.specs.snapshot_results.Documents.{matching_in};

use crate::snapshot_results::SnapshotError;
use crate::snapshot_results::context::SegmentContext;
use agg_engine_tree::uncut::{UncutCounts, are_starts_in_range, uncut_lengths};
use agg_values::OutOfMemory;
use std::alloc::Global;

/// Refuses segments where a bucket of some document that is counted starts outside 64 bits.
pub fn check_starts(contexts: &[SegmentContext<'_>]) -> Result<(), SnapshotError>
    requires { (request : Request QueryTree) × (query : QueryTree) × (segments : List Stored)
        × AreContextsOf request query segments contexts.now }
    ensures ok { (request : Request QueryTree) (query : QueryTree) (segments : List Stored)
        → AreContextsOf request query segments contexts.now
        → OnOk result (¬ (HasStartOutOfRange request (matching_in query segments))) }
    ensures err { (request : Request QueryTree) (query : QueryTree) (segments : List Stored)
        → AreContextsOf request query segments contexts.now
        → IfErr result (IsStartRefusal request (matching_in query segments)) }
{
    for context in contexts {
        if !are_starts_in_range(&context.aggregations.per_request, &context.docs) {
            return Err(SnapshotError::BucketOutOfRange);
        }
    }
    Ok(())
}

/// Refuses segments of which some aggregation lists too many documents, in all together.
pub fn check_counts(alloc: Global, contexts: &[SegmentContext<'_>]) -> Result<(), SnapshotError>
    requires { (request : Request QueryTree) × (query : QueryTree) × (segments : List Stored)
        × AreContextsOf request query segments contexts.now }
    ensures few { (request : Request QueryTree) (query : QueryTree) (segments : List Stored)
        → AreContextsOf request query segments contexts.now
        → OnOk result (¬ (CountsTooMany matches request (matching_in query segments))) }
    ensures err { (request : Request QueryTree) (query : QueryTree) (segments : List Stored)
        → AreContextsOf request query segments contexts.now
        → IfErr result (IsCountRefusal request (matching_in query segments)) }
{
    let Some((first, others)) = contexts.split_first() else {
        return Ok(());
    };
    let mut counts = UncutCounts::new(counts_of(alloc, first)?);
    for context in others {
        counts.add(&counts_of(alloc, context)?);
    }
    if counts.is_too_many() {
        return Err(SnapshotError::TooMany);
    }
    Ok(())
}

// How many documents of a segment each aggregation lists.
fn counts_of(alloc: Global, context: &SegmentContext<'_>) -> Result<Vec<u64>, OutOfMemory>
    requires { (request : Request QueryTree) × (query : QueryTree) × (segment : Stored)
        × IsContextOf request query segment context.now }
    ensures { (request : Request QueryTree) (query : QueryTree) (segment : Stored)
        → IsContextOf request query segment context.now
        → IfOk result (λ counts. counts.items
        ≡ uncut.uncut_lengths request (matching_in query (segment ∷ []))) }
{
    uncut_lengths(
        alloc,
        &context.aggregations.per_request,
        context.reader,
        &context.docs,
    )
}
