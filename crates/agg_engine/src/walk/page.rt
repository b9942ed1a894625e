//! The page of a snapshot: its results, and what they are asked with.
ghost use Rattle.std.specs.Prelude.{◌≡◌, ◌≤◌, Some, OnOk, map};
ghost use Rattle.agg_segment.specs.Segment.{documents_of};
ghost use Rattle.agg_engine.specs.snapshot_results.Asked.{MayBeAsked};
ghost use Rattle.agg_engine.specs.PageAnswers.{AnswersAsked};

use super::WalkError;
use super::finish::page_results;
use crate::snapshot_results::{PageRequest, snapshot_results};
use agg_cache::LimitsLedger;
use agg_engine_tree::segment_context::AggContextParams;
use agg_request_tree::NamedBuilder;
use agg_results::AggregationResults;
use agg_segment::SegmentReader;
use agg_values::{AfterKey, NameMap, OutOfMemory, Steps, Text};
use std::alloc::Global;
use std::sync::ledger::Ledger;

/// Sets the page of a name, which is copied, after a key, which is moved into it.
pub fn set_page(
    alloc: Global,
    params: &mut AggContextParams,
    name: &Text,
    size: u32,
    after: NameMap<AfterKey>,
) -> Result<(), OutOfMemory>
    ensures page { OnOk result (params.new.page
        ≡ Some (record { name = name.now; size = size; after = after })) }
    ensures trees { params.new.trees ≡ params.old.trees }
{
    let name = name.try_clone(alloc)?;
    params.set_page(name, size, after);
    Ok(())
}

/// The final results of a page over the segments of a snapshot, unless its collectors pass the
/// memory limit, or the results have more buckets than their limit. What is charged is given back.
pub fn snapshot_page<L: Ledger>(
    alloc: Global,
    page: &PageRequest<'_, NamedBuilder>,
    segments: &[SegmentReader],
    limits: &mut LimitsLedger,
    steps: &mut Steps<L>,
) -> Result<AggregationResults, WalkError>
    requires asked { MayBeAsked page.now }
    ensures answer { AnswersAsked page.now limits.old (map documents_of segments.now)
        steps.old steps.new result }
    ensures limits { limits.new ≡ limits.old }
    ensures later { steps.old ≤ steps.new }
{
    let merged = snapshot_results(alloc, page, segments, limits, steps)?;
    page_results(merged, page.request, limits)
}
