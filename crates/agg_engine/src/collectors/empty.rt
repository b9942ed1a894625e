//! Intermediate results over no documents, with a page that is set.
ghost use Rattle.std.specs.Prelude.{◌≡◌, [], IfErr, IfOk, option_map};
ghost use Rattle.agg_request_tree.specs.Source.{rules_of};
ghost use Rattle.agg_results.specs.intermediate_results.Empty.{empty_results};
ghost use Rattle.agg_results.specs.intermediate_results.Intermediate.{as_composite, composite_of};
ghost use Rattle.agg_engine_tree.specs.segment_context.Pages.{paged};

use agg_engine_tree::segment_context::Page;
use agg_request_tree::{AggregationVariants, Aggregations, CompositeAggregation};
use agg_results::{
    IntermediateAggregationResult, IntermediateAggregationResults, IntermediateBucketResult,
    IntermediateCompositeBucketResult, MergeError,
};
use agg_values::OutOfMemory;
use std::alloc::Global;

/// The empty results of a request. The composite of the page's name, if there is one at top level,
/// has the page's size.
pub fn empty_paged(
    alloc: Global,
    request: &Aggregations,
    page: Option<&Page>,
) -> Result<IntermediateAggregationResults, MergeError>
    ensures ok { IfOk result (λ empty. empty.results
        ≡ empty_results (paged (option_map (λ p. p.now) page.entry) request.now)) }
    ensures err { IfErr result (λ error. error ≡ MergeError.OutOfMemory) }
{
    let mut empty = IntermediateAggregationResults::empty_from_req(alloc, request)?;
    let Some(page) = page else {
        return Ok(empty);
    };
    let Some(aggregation) = request.get(&page.name) else {
        return Ok(empty);
    };
    if let AggregationVariants::Composite(composite) = &aggregation.agg {
        empty.remove(&page.name);
        let value = empty_composite(alloc, composite, page.size)?;
        empty.push(page.name.try_clone(alloc)?, value)?;
    }
    Ok(empty)
}

// A page without entries, of this size and with the composite's orders.
fn empty_composite(
    alloc: Global,
    composite: &CompositeAggregation,
    size: u32,
) -> Result<IntermediateAggregationResult, OutOfMemory>
    ensures { IfOk result (λ empty. empty
        ≡ as_composite (composite_of (rules_of composite.now.sources) size [])) }
{
    let mut buckets = IntermediateCompositeBucketResult::new(alloc, size);
    for source in composite.sources.as_slice() {
        buckets.add_order(source.order(), source.missing_order())?;
    }
    let bucket = IntermediateBucketResult::Composite { buckets };
    Ok(IntermediateAggregationResult::Bucket(bucket))
}
