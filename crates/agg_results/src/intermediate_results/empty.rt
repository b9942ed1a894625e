//! Intermediate results over no documents.
ghost use Rattle.std.specs.Prelude.{◌≡◌, [], IfOk, OnOk};
ghost use Rattle.std.specs.List.Sorted.{IsStrictlySortedBy};
ghost use Rattle.std.specs.Map.{keys_of};
ghost use Rattle.agg_values.specs.Names.{name_cmp};
ghost use Rattle.agg_request_tree.specs.Source.{rules_of};
ghost use Rattle.agg_results.specs.intermediate_results.Empty.{empty_result, empty_results};
ghost use Rattle.agg_results.specs.intermediate_results.Intermediate.{composite_of};

use crate::intermediate_results::{
    IntermediateAggregationResult, IntermediateAggregationResults, IntermediateBucketResult,
    IntermediateCompositeBucketResult,
};
use crate::metric_results::{
    IntermediateCount, IntermediateMax, IntermediateMetricResult, IntermediateMin, IntermediateSum,
};
use agg_request_tree::{Aggregation, AggregationVariants, Aggregations, CompositeAggregation};
use agg_values::{NameMap, OutOfMemory};
use std::alloc::Global;

impl IntermediateAggregationResults {
    /// The empty result of each name of a request: of a filter no documents, with the empty results
    /// of those below it, of a composite a page without entries, with its size and orders, and of a
    /// metric no values. The names of a request ascend.
    pub fn empty_from_req(
        alloc: Global,
        req: &Aggregations,
    ) -> Result<IntermediateAggregationResults, OutOfMemory>
        ensures empty { IfOk result (λ empty. empty.results ≡ empty_results req.now) }
        ensures ascending { OnOk result (IsStrictlySortedBy name_cmp (keys_of req.now)) }
    {
        empty_results(alloc, req)
    }
}

// The empty result of each name.
#[cycle(empty)]
fn empty_results<B: Drop>(
    alloc: Global,
    aggs: &NameMap<Aggregation<B>>,
) -> Result<IntermediateAggregationResults, OutOfMemory>
    ensures empty { IfOk result (λ empty. empty.results ≡ empty_results aggs.now) }
    ensures ascending { OnOk result (IsStrictlySortedBy name_cmp (keys_of aggs.now)) }
{
    let mut results = NameMap::new(alloc);
    for (name, aggregation) in aggs.iter() {
        let empty = empty_result(alloc, aggregation)?;
        results.insert(name.try_clone(alloc)?, empty)?;
    }
    Ok(IntermediateAggregationResults { results })
}

// The empty result of an aggregation.
#[cycle(empty)]
fn empty_result<B: Drop>(
    alloc: Global,
    aggregation: &Aggregation<B>,
) -> Result<IntermediateAggregationResult, OutOfMemory>
    ensures { IfOk result (λ empty. empty ≡ empty_result aggregation.now) }
{
    match &aggregation.agg {
        AggregationVariants::Filter(_) => {
            let sub_aggregations = empty_results(alloc, &aggregation.sub_aggregation)?;
            Ok(IntermediateAggregationResult::Bucket(IntermediateBucketResult::Filter {
                doc_count: 0,
                sub_aggregations,
            }))
        }
        AggregationVariants::Composite(composite) => {
            let buckets = empty_composite(alloc, composite)?;
            Ok(IntermediateAggregationResult::Bucket(IntermediateBucketResult::Composite {
                buckets,
            }))
        }
        AggregationVariants::Count(_) => Ok(IntermediateAggregationResult::Metric(
            IntermediateMetricResult::Count(IntermediateCount { count: 0 }),
        )),
        AggregationVariants::Max(_) => Ok(IntermediateAggregationResult::Metric(
            IntermediateMetricResult::Max(IntermediateMax { value: None }),
        )),
        AggregationVariants::Min(_) => Ok(IntermediateAggregationResult::Metric(
            IntermediateMetricResult::Min(IntermediateMin { value: None }),
        )),
        AggregationVariants::Sum(_) => Ok(IntermediateAggregationResult::Metric(
            IntermediateMetricResult::Sum(IntermediateSum { sum: 0 }),
        )),
    }
}

// A page without entries, with the composite's size and orders.
fn empty_composite(
    alloc: Global,
    composite: &CompositeAggregation,
) -> Result<IntermediateCompositeBucketResult, OutOfMemory>
    ensures { IfOk result (λ page. page
        ≡ composite_of (rules_of composite.now.sources) composite.now.size []) }
{
    let mut page = IntermediateCompositeBucketResult::new(alloc, composite.size);
    for source in composite.sources.as_slice() {
        page.add_order(source.order(), source.missing_order())?;
    }
    Ok(page)
}
