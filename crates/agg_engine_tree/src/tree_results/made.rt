//! Results of one aggregation, by what its collector counted.
ghost use Rattle.std.specs.Prelude.{◌≡◌, ◌++◌, ◌∷◌, [], All, IfOk, None, OnOk};
ghost use Rattle.std.specs.Map.{keys_of};
ghost use Rattle.std.specs.declared.cmp.Ordering.TheVariants.{Less};
ghost use Rattle.agg_values.specs.KeyOrder.{tuple_order};
ghost use Rattle.agg_values.specs.Names.{put, value_of};
ghost use Rattle.agg_request_tree.specs.Source.{rules_of};
ghost use Rattle.agg_results.specs.intermediate_results.Intermediate.{composite_of, entries_of};
ghost use Rattle.agg_results.specs.intermediate_results.Intermediate.{orders_of, as_composite};
ghost use Rattle.agg_results.specs.intermediate_results.Intermediate.{as_filter, target_size_of};
ghost use Rattle.agg_metric.specs.Metric.{metric_of};

use agg_composite::{CompositeAggReqData, PageEntry};
use agg_metric::StatsType;
use agg_results::{
    IntermediateAggregationResult, IntermediateAggregationResults, IntermediateBucketResult,
    IntermediateCompositeBucketResult, IntermediateCount, IntermediateMax,
    IntermediateMetricResult, IntermediateMin, IntermediateSum, IntermediateTermBucketEntry,
    MergeError,
};
use agg_values::{OutOfMemory, Text};
use std::alloc::Global;

/// A composite's result without entries, with the orders of its sources.
pub fn empty_page(
    alloc: Global,
    req: &CompositeAggReqData<'_>,
) -> Result<IntermediateCompositeBucketResult, OutOfMemory>
    ensures { IfOk result (λ buckets. buckets
        ≡ composite_of (rules_of req.now.req.now.sources) req.now.size []) }
{
    let mut buckets = IntermediateCompositeBucketResult::new(alloc, req.size);
    for source in req.req.sources.as_slice() {
        buckets.add_order(source.order(), source.missing_order())?;
    }
    Ok(buckets)
}

/// Adds an entry above all that are held, with the results below it.
pub fn add_last(
    buckets: &mut IntermediateCompositeBucketResult,
    entry: PageEntry,
    sub_aggregation: IntermediateAggregationResults,
) -> Result<(), OutOfMemory>
    requires { All (λ k. tuple_order (orders_of buckets.old) k entry.key ≡ Less)
        (keys_of (entries_of buckets.old)) }
    ensures { OnOk result (buckets.new
        ≡ composite_of (orders_of buckets.old) (target_size_of buckets.old)
        (entries_of buckets.old ++ (
          entry.key,
          record {
            doc_count = entry.doc_count;
            sub_aggregation = sub_aggregation;
          },
        ) ∷ [])) }
{
    let held = IntermediateTermBucketEntry {
        doc_count: entry.doc_count,
        sub_aggregation,
    };
    buckets.push_last(entry.key, held)
}

/// The result of a composite.
pub fn page_result(buckets: IntermediateCompositeBucketResult) -> IntermediateAggregationResult
    ensures { result ≡ as_composite buckets }
{
    IntermediateAggregationResult::Bucket(IntermediateBucketResult::Composite { buckets })
}

/// The result of a filter.
pub fn filter_result(
    doc_count: u64,
    sub_aggregations: IntermediateAggregationResults,
) -> IntermediateAggregationResult
    ensures { result ≡ as_filter doc_count sub_aggregations.results }
{
    IntermediateAggregationResult::Bucket(IntermediateBucketResult::Filter {
        doc_count,
        sub_aggregations,
    })
}

/// Puts a result under a name that isn't held.
pub fn put_result(
    alloc: Global,
    results: &mut IntermediateAggregationResults,
    name: &Text,
    value: IntermediateAggregationResult,
) -> Result<(), OutOfMemory>
    requires { value_of name.now results.old.results ≡ None }
    ensures { OnOk result (results.new.results ≡ put name.now value results.old.results) }
{
    match results.push(name.try_clone(alloc)?, value) {
        Ok(()) => Ok(()),
        Err(error) => Err(out_of_memory(error)),
    }
}

/// The metric of no values.
pub fn metric_of_none(collecting_for: StatsType) -> IntermediateMetricResult
    ensures { result ≡ metric_of collecting_for [] }
{
    match collecting_for {
        StatsType::Count => IntermediateMetricResult::Count(IntermediateCount { count: 0 }),
        StatsType::Max => IntermediateMetricResult::Max(IntermediateMax { value: None }),
        StatsType::Min => IntermediateMetricResult::Min(IntermediateMin { value: None }),
        StatsType::Sum => IntermediateMetricResult::Sum(IntermediateSum { sum: 0 }),
    }
}

// The refusal of a merge that can only have run out of memory.
fn out_of_memory(error: MergeError) -> OutOfMemory
    requires { error ≡ MergeError.OutOfMemory }
{
    match error {
        MergeError::OutOfMemory => OutOfMemory,
        // By the condition.
        MergeError::Mismatch | MergeError::TooMany => unreachable!(),
    }
}
