//! Final results, from intermediate ones.
ghost use Rattle.std.specs.Prelude.{◌≡◌, IfErr, IfOk, OnOk};
ghost use Rattle.agg_results.specs.final_results.BucketCount.{results_buckets};
ghost use Rattle.agg_results.specs.intermediate_results.Final.{final_results};
ghost use Rattle.agg_results.specs.intermediate_results.Refusals.{IsNotFinal, MayBeFinal};

mod by_name;
mod other_shapes;
mod pages;
mod shown;
mod unknown_names;

use crate::final_results::AggregationResults;
use crate::intermediate_results::{FinalError, IntermediateAggregationResults};
use agg_cache::LimitsLedger;
use agg_request_tree::Aggregations;
use agg_values::{AggregationError, OutOfMemory};
use by_name::shown_by_name;
use other_shapes::holds_other;
use unknown_names::holds_unknown;

impl IntermediateAggregationResults {
    /// The final results of a request: of a filter those of the documents that it matches, of a
    /// composite the lowest entries, as many as its held size, and of a metric its number. A name
    /// that isn't held has no documents, no entries and no values.
    pub fn into_final_result(
        self,
        req: &Aggregations,
        limits: &LimitsLedger,
    ) -> Result<AggregationResults, FinalError>
        ensures ok { IfOk result (λ results. results ≡ final_results req.now self.results) }
        ensures may { OnOk result (MayBeFinal limits.now.bucket_limit req.now self.results) }
        ensures cause { IfErr result (IsNotFinal limits.now.bucket_limit req.now self.results) }
    {
        if holds_unknown(req, &self) {
            return Err(FinalError::UnknownAggregation);
        }
        if holds_other(req, &self) {
            return Err(FinalError::Mismatch);
        }
        let results = AggregationResults(shown_by_name(req, self)?);
        let limit = limits.bucket_limit();
        let current = bucket_count(&results)?;
        if current > u64::from(limit) {
            return Err(FinalError::Aggregation(AggregationError::BucketLimitExceeded {
                limit,
                current,
            }));
        }
        Ok(results)
    }
}

// The number of buckets of results. No memory has room for the greatest u64.
fn bucket_count(results: &AggregationResults) -> Result<u64, OutOfMemory>
    ensures { IfOk result (λ count. count ≡ results_buckets results.now) }
{
    match results.get_bucket_count() {
        u64::MAX => Err(OutOfMemory),
        count => Ok(count),
    }
}
