//! Names that are held and aren't asked for.
ghost use Rattle.std.specs.Prelude.{Any, MatchBool};
ghost use Rattle.agg_results.specs.intermediate_results.Intermediate.{below_entry, helds_below};
ghost use Rattle.agg_results.specs.intermediate_results.Intermediate.{parts_of};
ghost use Rattle.agg_results.specs.intermediate_results.Refusals.{HoldsUnknown};

use crate::intermediate_results::{
    IntermediateAggregationResult, IntermediateAggregationResults, IntermediateBucketResult,
    IntermediateTermBucketEntry,
};
use agg_request_tree::Aggregation;
use agg_values::{NameMap, Tuple};

/// Whether a name is held that isn't asked for, at some depth.
#[cycle(unknown_names)]
pub fn holds_unknown<B: Drop>(
    req: &NameMap<Aggregation<B>>,
    held: &IntermediateAggregationResults,
) -> bool
    ensures { MatchBool result (HoldsUnknown req.now held.now.results)
        (¬ (HoldsUnknown req.now held.now.results)) }
{
    for (name, found) in held.results.iter() {
        let Some(aggregation) = req.get(name) else {
            return true;
        };
        if result_holds_unknown(&aggregation.sub_aggregation, found) {
            return true;
        }
    }
    false
}

// Whether such a name is held below a result.
#[cycle(unknown_names)]
fn result_holds_unknown<B: Drop>(
    req: &NameMap<Aggregation<B>>,
    found: &IntermediateAggregationResult,
) -> bool
    ensures { MatchBool result (Any (HoldsUnknown req.now) (helds_below (parts_of found.now)))
        (¬ (Any (HoldsUnknown req.now) (helds_below (parts_of found.now)))) }
{
    match found {
        IntermediateAggregationResult::Metric(_) => false,
        IntermediateAggregationResult::Bucket(bucket) => match bucket {
            IntermediateBucketResult::Filter {
                sub_aggregations,
                ..
            } => holds_unknown(req, sub_aggregations),
            IntermediateBucketResult::Composite { buckets } => {
                entries_hold_unknown(req, buckets.entries())
            }
        },
    }
}

// Whether such a name is held below an entry.
#[cycle(unknown_names)]
fn entries_hold_unknown<B: Drop>(
    req: &NameMap<Aggregation<B>>,
    entries: &[(Tuple, IntermediateTermBucketEntry)],
) -> bool
    ensures { MatchBool result (Any (λ e. HoldsUnknown req.now (below_entry e.1)) entries.now)
        (¬ (Any (λ e. HoldsUnknown req.now (below_entry e.1)) entries.now)) }
{
    for (_, entry) in entries {
        if holds_unknown(req, &entry.sub_aggregation) {
            return true;
        }
    }
    false
}
