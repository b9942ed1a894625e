//! The results of a page.
ghost use Rattle.std.specs.Prelude.{◌≡◌, IfErr, IfOk, OnOk};
ghost use Rattle.agg_results.specs.intermediate_results.Final.{final_results};
ghost use Rattle.agg_results.specs.intermediate_results.Refusals.{HaveTooMany, HoldsOther};
ghost use Rattle.agg_results.specs.intermediate_results.Refusals.{HoldsUnknown};
ghost use Rattle.agg_engine.specs.PageAnswers.{IsFinalRefusal};

use super::WalkError;
use agg_cache::LimitsLedger;
use agg_request_tree::Aggregations;
use agg_results::{AggregationResults, FinalError, IntermediateAggregationResults};

/// The final results of a request, from the merged results of a page, unless they have more buckets
/// than the limit.
pub fn page_results(
    merged: IntermediateAggregationResults,
    request: &Aggregations,
    limits: &LimitsLedger,
) -> Result<AggregationResults, WalkError>
    requires known { ¬ (HoldsUnknown request.now merged.results) }
    requires alike { ¬ (HoldsOther request.now merged.results) }
    ensures ok { IfOk result (λ results. results ≡ final_results request.now merged.results) }
    ensures few { OnOk result
        (¬ (HaveTooMany limits.now.bucket_limit request.now merged.results)) }
    ensures cause { IfErr result
        (IsFinalRefusal limits.now.bucket_limit request.now merged.results) }
{
    match merged.into_final_result(request, limits) {
        Ok(results) => Ok(results),
        Err(FinalError::Aggregation(error)) => Err(WalkError::Aggregation(error)),
        Err(FinalError::OutOfMemory) => Err(WalkError::OutOfMemory),
        // By the conditions, the results are those of the request, so they match it; that a sum is
        // too large is found where results are merged.
        Err(FinalError::Mismatch | FinalError::TooMany | FinalError::UnknownAggregation) => {
            unreachable!()
        }
    }
}
