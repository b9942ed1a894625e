//! The final result of one aggregation, as it is shown.
ghost use Rattle.std.specs.Prelude.{◌≡◌, None, Some, IfOk};
ghost use Rattle.agg_results.specs.intermediate_results.Final.{final_by_name, final_result};
ghost use Rattle.agg_results.specs.intermediate_results.Shown.{shown_filter};

use super::by_name::shown_by_name;
use super::pages::shown_page;
use crate::final_results::{
    AggregationResult, AggregationResults, BucketResult, FilterBucketResult,
};
use crate::intermediate_results::{
    IntermediateAggregationResult, IntermediateAggregationResults, IntermediateBucketResult,
};
use crate::metric_results::{
    IntermediateCount, IntermediateMax, IntermediateMetricResult, IntermediateMin, IntermediateSum,
    shown_metric,
};
use agg_request_tree::{Aggregation, AggregationVariants};
use agg_values::{ItemList, NameMap, OutOfMemory};
use std::alloc::Global;

/// The final result of an aggregation, of which this is held.
#[cycle(shown)]
pub fn shown_result<B: Drop>(
    alloc: Global,
    asked: &Aggregation<B>,
    held: Option<IntermediateAggregationResult>,
) -> Result<AggregationResult, OutOfMemory>
    ensures { IfOk result (λ shown. shown ≡ final_result asked.now held) }
{
    let Some(found) = held else {
        return shown_nothing(alloc, asked);
    };
    match found {
        IntermediateAggregationResult::Metric(metric) => shown_number(alloc, asked, metric),
        IntermediateAggregationResult::Bucket(bucket) => shown_bucket(alloc, asked, bucket),
    }
}

// The final result of an aggregation, of which nothing is held.
#[cycle(shown)]
fn shown_nothing<B: Drop>(
    alloc: Global,
    asked: &Aggregation<B>,
) -> Result<AggregationResult, OutOfMemory>
    ensures { IfOk result (λ shown. shown ≡ final_result asked.now None) }
{
    match &asked.agg {
        AggregationVariants::Filter(_) => {
            let none = IntermediateAggregationResults::new(alloc);
            shown_filter(&asked.sub_aggregation, 0, none)
        }
        AggregationVariants::Composite(_) => {
            Ok(AggregationResult::BucketResult(BucketResult::Composite {
                buckets: ItemList::new(alloc),
                after_key: NameMap::new(alloc),
            }))
        }
        AggregationVariants::Count(_) => {
            Ok(shown_metric(IntermediateMetricResult::Count(IntermediateCount { count: 0 })))
        }
        AggregationVariants::Max(_) => {
            Ok(shown_metric(IntermediateMetricResult::Max(IntermediateMax { value: None })))
        }
        AggregationVariants::Min(_) => {
            Ok(shown_metric(IntermediateMetricResult::Min(IntermediateMin { value: None })))
        }
        AggregationVariants::Sum(_) => {
            Ok(shown_metric(IntermediateMetricResult::Sum(IntermediateSum { sum: 0 })))
        }
    }
}

// The final result of an aggregation, of which a metric is held.
#[cycle(shown)]
fn shown_number<B: Drop>(
    alloc: Global,
    asked: &Aggregation<B>,
    held: IntermediateMetricResult,
) -> Result<AggregationResult, OutOfMemory>
    ensures { IfOk result
        (λ s. s ≡ final_result asked.now (Some (IntermediateAggregationResult.Metric held))) }
{
    match &asked.agg {
        AggregationVariants::Filter(_) | AggregationVariants::Composite(_) => {
            shown_nothing(alloc, asked)
        }
        _ => Ok(shown_metric(held)),
    }
}

// The final result of an aggregation, of which a filter or a composite is held.
#[cycle(shown)]
fn shown_bucket<B: Drop>(
    alloc: Global,
    asked: &Aggregation<B>,
    held: IntermediateBucketResult,
) -> Result<AggregationResult, OutOfMemory>
    ensures { IfOk result
        (λ s. s ≡ final_result asked.now (Some (IntermediateAggregationResult.Bucket held))) }
{
    match held {
        IntermediateBucketResult::Filter {
            doc_count,
            sub_aggregations,
        } => match &asked.agg {
            AggregationVariants::Filter(_) => {
                shown_filter(&asked.sub_aggregation, doc_count, sub_aggregations)
            }
            _ => shown_nothing(alloc, asked),
        },
        IntermediateBucketResult::Composite { buckets } => match &asked.agg {
            AggregationVariants::Composite(composite) => {
                let sources = composite.sources.as_slice();
                shown_page(alloc, sources, &asked.sub_aggregation, buckets)
            }
            _ => shown_nothing(alloc, asked),
        },
    }
}

// The result of a filter that so many documents match, with these aggregations below it.
#[cycle(shown)]
fn shown_filter<B: Drop>(
    below: &NameMap<Aggregation<B>>,
    doc_count: u64,
    held: IntermediateAggregationResults,
) -> Result<AggregationResult, OutOfMemory>
    ensures { IfOk result
        (λ shown. shown ≡ shown_filter doc_count (final_by_name below.now held.results)) }
{
    let sub_aggregations = AggregationResults(shown_by_name(below, held)?);
    Ok(AggregationResult::BucketResult(BucketResult::Filter(FilterBucketResult {
        doc_count,
        sub_aggregations,
    })))
}
