//! How many buckets results have: of each composite its buckets with those inside them, and of each
//! filter those inside it. The count ends at the greatest u64.
ghost use Rattle.std.specs.Prelude.{◌≡◌, ◌^◌, ◌-◌, map, min, sum};
ghost use Rattle.agg_results.specs.final_results.BucketCount.{bucket_result_buckets, entry_buckets};
ghost use Rattle.agg_results.specs.final_results.BucketCount.{result_buckets, results_buckets};

use crate::final_results::{
    AggregationResult, AggregationResults, BucketResult, CompositeBucketEntry,
};

impl AggregationResults {
    /// The number of buckets: of each composite its buckets with those inside them, and of each
    /// filter those inside it. It ends at the greatest u64.
    #[cycle(bucket_count)]
    pub fn get_bucket_count(&self) -> u64
        ensures { result ≡ min (results_buckets self.now) (2 ^ 64 - 1) }
    {
        let mut count: u64 = 0;
        for (_, result) in self.0.iter() {
            count = count.saturating_add(result.get_bucket_count());
        }
        count
    }
}

impl AggregationResult {
    /// The number of its buckets, as `AggregationResults::get_bucket_count` has it.
    #[cycle(bucket_count)]
    pub fn get_bucket_count(&self) -> u64
        ensures { result ≡ min (result_buckets self.now) (2 ^ 64 - 1) }
    {
        match self {
            AggregationResult::BucketResult(buckets) => buckets.get_bucket_count(),
            AggregationResult::MetricResult(_) => 0,
        }
    }
}

impl BucketResult {
    /// The number of its buckets, as `AggregationResults::get_bucket_count` has it.
    #[cycle(bucket_count)]
    pub fn get_bucket_count(&self) -> u64
        ensures { result ≡ min (bucket_result_buckets self.now) (2 ^ 64 - 1) }
    {
        match self {
            BucketResult::Filter(filter) => filter.sub_aggregations.get_bucket_count(),
            BucketResult::Composite { buckets, .. } => count_with_inner(buckets.as_slice()),
        }
    }
}

impl CompositeBucketEntry {
    /// One, and the number of the buckets inside it, as `AggregationResults::get_bucket_count` has
    /// it.
    #[cycle(bucket_count)]
    pub fn get_bucket_count(&self) -> u64
        ensures { result ≡ min (entry_buckets self.now) (2 ^ 64 - 1) }
    {
        self.sub_aggregation.get_bucket_count().saturating_add(1)
    }
}

// How many buckets these are with those inside them.
#[cycle(bucket_count)]
fn count_with_inner(buckets: &[CompositeBucketEntry]) -> u64
    ensures { result ≡ min (sum (map entry_buckets buckets.now)) (2 ^ 64 - 1) }
{
    let mut count: u64 = 0;
    for bucket in buckets {
        count = count.saturating_add(bucket.get_bucket_count());
    }
    count
}
