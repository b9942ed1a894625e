//! Results of another shape than the request asks for.
ghost use Rattle.std.specs.Prelude.{◌≡◌, ◌↔◌, Any, IsTrue, MatchBool};
ghost use Rattle.agg_request_tree.specs.Source.{rules_of};
ghost use Rattle.agg_results.specs.intermediate_results.Intermediate.{below_entry, composite};
ghost use Rattle.agg_results.specs.intermediate_results.Intermediate.{helds_below, metric};
ghost use Rattle.agg_results.specs.intermediate_results.Intermediate.{parts_of};
ghost use Rattle.agg_results.specs.intermediate_results.Refusals.{HoldsOther, IsOther};

use crate::intermediate_results::{
    IntermediateAggregationResult, IntermediateAggregationResults, IntermediateBucketResult,
    IntermediateCompositeBucketResult, IntermediateTermBucketEntry,
};
use crate::metric_results::IntermediateMetricResult;
use agg_request_tree::{Aggregation, AggregationVariants, CompositeAggregationSource};
use agg_values::{MissingOrder, NameMap, Order, Tuple};

/// Whether a result is held that isn't of the shape that the request asks for, at some depth.
#[cycle(other_shapes)]
pub fn holds_other<B: Drop>(
    req: &NameMap<Aggregation<B>>,
    held: &IntermediateAggregationResults,
) -> bool
    ensures { MatchBool result (HoldsOther req.now held.now.results)
        (¬ (HoldsOther req.now held.now.results)) }
{
    for (name, found) in held.results.iter() {
        if let Some(aggregation) = req.get(name) {
            if is_other(&aggregation.agg, found)
                || result_holds_other(&aggregation.sub_aggregation, found)
            {
                return true;
            }
        }
    }
    false
}

// Whether such a result is held below a result.
#[cycle(other_shapes)]
fn result_holds_other<B: Drop>(
    req: &NameMap<Aggregation<B>>,
    found: &IntermediateAggregationResult,
) -> bool
    ensures { MatchBool result (Any (HoldsOther req.now) (helds_below (parts_of found.now)))
        (¬ (Any (HoldsOther req.now) (helds_below (parts_of found.now)))) }
{
    match found {
        IntermediateAggregationResult::Metric(_) => false,
        IntermediateAggregationResult::Bucket(bucket) => match bucket {
            IntermediateBucketResult::Filter {
                sub_aggregations,
                ..
            } => holds_other(req, sub_aggregations),
            IntermediateBucketResult::Composite { buckets } => {
                entries_hold_other(req, buckets.entries())
            }
        },
    }
}

// Whether such a result is held below an entry.
#[cycle(other_shapes)]
fn entries_hold_other<B: Drop>(
    req: &NameMap<Aggregation<B>>,
    entries: &[(Tuple, IntermediateTermBucketEntry)],
) -> bool
    ensures { MatchBool result (Any (λ e. HoldsOther req.now (below_entry e.1)) entries.now)
        (¬ (Any (λ e. HoldsOther req.now (below_entry e.1)) entries.now)) }
{
    for (_, entry) in entries {
        if holds_other(req, &entry.sub_aggregation) {
            return true;
        }
    }
    false
}

// Whether a result isn't of the aggregation's kind, or has entries in other orders than those of
// the sources.
fn is_other<B: Drop>(asked: &AggregationVariants<B>, found: &IntermediateAggregationResult) -> bool
    ensures { MatchBool result (IsOther asked.now (parts_of found.now))
        (¬ (IsOther asked.now (parts_of found.now))) }
{
    match found {
        IntermediateAggregationResult::Metric(metric) => is_other_metric(asked, *metric),
        IntermediateAggregationResult::Bucket(bucket) => match bucket {
            IntermediateBucketResult::Filter { .. } => {
                !matches!(asked, AggregationVariants::Filter(_))
            }
            IntermediateBucketResult::Composite { buckets } => is_other_composite(asked, buckets),
        },
    }
}

// Whether a metric's result isn't of the aggregation's kind.
fn is_other_metric<B: Drop>(asked: &AggregationVariants<B>, found: IntermediateMetricResult) -> bool
    ensures { MatchBool result (IsOther asked.now (metric found))
        (¬ (IsOther asked.now (metric found))) }
{
    match found {
        IntermediateMetricResult::Count(_) => !matches!(asked, AggregationVariants::Count(_)),
        IntermediateMetricResult::Max(_) => !matches!(asked, AggregationVariants::Max(_)),
        IntermediateMetricResult::Min(_) => !matches!(asked, AggregationVariants::Min(_)),
        IntermediateMetricResult::Sum(_) => !matches!(asked, AggregationVariants::Sum(_)),
    }
}

// Whether a composite's result isn't of the aggregation's kind, or has entries in other orders.
fn is_other_composite<B: Drop>(
    asked: &AggregationVariants<B>,
    found: &IntermediateCompositeBucketResult,
) -> bool
    ensures { MatchBool result (IsOther asked.now (composite found.now))
        (¬ (IsOther asked.now (composite found.now))) }
{
    let AggregationVariants::Composite(composite) = asked else {
        return true;
    };
    !found.entries().is_empty() && !are_orders_of(found.orders(), composite.sources.as_slice())
}

// Whether these are the orders of the sources.
fn are_orders_of(orders: &[(Order, MissingOrder)], sources: &[CompositeAggregationSource]) -> bool
    ensures { IsTrue result ↔ orders.now ≡ rules_of sources.now }
{
    if orders.len() != sources.len() {
        return false;
    }
    for (i, source) in sources.iter().enumerate() {
        if orders[i] != (source.order(), source.missing_order()) {
            return false;
        }
    }
    true
}
