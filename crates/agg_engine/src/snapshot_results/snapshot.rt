//! The results of a snapshot's segments, merged.
ghost use Rattle.std.specs.Prelude.{◌≡◌, ◌≤◌, IfErr, List, OnOk, map};
ghost use Rattle.agg_segment.specs.Query.{matches};
ghost use Rattle.agg_segment.specs.Segment.{Stored, documents_of};
ghost use Rattle.agg_segment.specs.declared.query.QueryTree.{QueryTree as Tree};
ghost use Rattle.agg_request_tree.specs.Ranges.{HasStartOutOfRange};
ghost use Rattle.agg_request_tree.specs.Request.{Request};
ghost use Rattle.agg_request_tree.specs.Uncut.{CountsTooMany};
ghost use Rattle.agg_engine.specs.snapshot_results.Answers.{AnswersResults, IsMemoryRefusal};
ghost use Rattle.agg_engine.specs.snapshot_results.Answers.{IsRefusal};
ghost use Rattle.agg_engine.specs.snapshot_results.Asked.{IsAsked, MayBeAsked};
ghost use Rattle.agg_engine.specs.snapshot_results.Contexts.{MayBeCollected};
ghost use Rattle.agg_engine.specs.snapshot_results.Documents.{matching_in};
ghost use Rattle.agg_engine.specs.snapshot_results.MemoryLimits.{HaveRoom};

use crate::snapshot_results::checks::{check_counts, check_starts};
use crate::snapshot_results::context::{SegmentContext, segment_contexts};
use crate::snapshot_results::segment::segment_results;
use crate::snapshot_results::{PageRequest, SnapshotError};
use agg_cache::LimitsLedger;
use agg_results::{IntermediateAggregationResults, MergeError};
use agg_segment::SegmentReader;
use agg_values::Steps;
use std::alloc::Global;
use std::sync::ledger::Ledger;

/// The intermediate results of a page's request over the documents of segments that match, merged.
/// The starts of all segments are checked first, and then all are counted, before any is collected.
/// What a segment's collectors charge is given back before the next segment.
pub fn snapshot_results<B: Drop, L: Ledger>(
    alloc: Global,
    page: &PageRequest<'_, B>,
    segments: &[SegmentReader],
    limits: &mut LimitsLedger,
    steps: &mut Steps<L>,
) -> Result<IntermediateAggregationResults, SnapshotError>
    requires asked { MayBeAsked page.now }
    ensures range { (request : Request Tree) → IsAsked page.now request → OnOk result
        (¬ (HasStartOutOfRange request (matching_in page.now.query.now segments.now))) }
    ensures few { (request : Request Tree) → IsAsked page.now request → OnOk result
        (¬ (CountsTooMany matches request (matching_in page.now.query.now segments.now))) }
    ensures cause { (request : Request Tree) → IsAsked page.now request → IfErr result
        (IsRefusal request page.now.query.now segments.now limits.old) }
    ensures room { (request : Request Tree) → IsAsked page.now request → OnOk result
        (HaveRoom matches page.now.query.now request limits.old (map documents_of segments.now)) }
    ensures limits { limits.new ≡ limits.old }
    ensures results { (request : Request Tree) → IsAsked page.now request
        → AnswersResults request (matching_in page.now.query.now segments.now)
        steps.old steps.new result }
    ensures later { steps.old ≤ steps.new }
{
    let contexts = segment_contexts(alloc, page, segments)?;
    check_starts(contexts.as_slice())?;
    check_counts(alloc, contexts.as_slice())?;
    merged_results(alloc, contexts.as_slice(), limits, steps)
}

// The merged results of segments that may be collected. They are merged in halves, so that no entry
// is moved more often than the number of segments can be halved.
fn merged_results<L: Ledger>(
    alloc: Global,
    contexts: &[SegmentContext<'_>],
    limits: &mut LimitsLedger,
    steps: &mut Steps<L>,
) -> Result<IntermediateAggregationResults, SnapshotError>
    requires { (request : Request Tree) × (query : Tree) × (segments : List Stored)
        × MayBeCollected request query segments contexts.now }
    ensures results { (request : Request Tree) (query : Tree) (segments : List Stored)
        → MayBeCollected request query segments contexts.now
        → AnswersResults request (matching_in query segments) steps.old steps.new result }
    ensures cause { (request : Request Tree) (query : Tree) (segments : List Stored)
        → MayBeCollected request query segments contexts.now
        → IfErr result (IsMemoryRefusal request query segments limits.old) }
    ensures room { (request : Request Tree) (query : Tree) (segments : List Stored)
        → MayBeCollected request query segments contexts.now → OnOk result
        (HaveRoom matches query request limits.old (map documents_of segments)) }
    ensures limits { limits.new ≡ limits.old }
    ensures later { steps.old ≤ steps.new }
{
    match contexts {
        [] => Ok(IntermediateAggregationResults::new(alloc)),
        [context] => segment_results(alloc, context, limits, steps),
        _ => {
            let (first, second) = contexts.split_at(contexts.len() / 2);
            let mut merged = merged_results(alloc, first, limits, steps)?;
            let more = merged_results(alloc, second, limits, steps)?;
            match merged.merge_fruits(more) {
                Ok(()) => Ok(merged),
                Err(error) => Err(out_of_memory(error)),
            }
        }
    }
}

// The refusal of a merge that can only have run out of memory.
fn out_of_memory(error: MergeError) -> SnapshotError
    requires { error ≡ MergeError.OutOfMemory }
    ensures { result ≡ SnapshotError.OutOfMemory }
{
    match error {
        MergeError::OutOfMemory => SnapshotError::OutOfMemory,
        // By the condition.
        MergeError::Mismatch | MergeError::TooMany => unreachable!(),
    }
}
