//! Pages of composites, as they are shown.
ghost use Rattle.std.specs.Prelude.{◌≡◌, IfOk, map, option_map};
ghost use Rattle.agg_results.specs.intermediate_results.Final.{final_by_name, lowest_of};
ghost use Rattle.agg_results.specs.intermediate_results.Intermediate.{below_entry, counts_of};
ghost use Rattle.agg_results.specs.intermediate_results.Intermediate.{target_size_of};
ghost use Rattle.agg_results.specs.intermediate_results.Shown.{last_tuple, shown_after};
ghost use Rattle.agg_results.specs.intermediate_results.Shown.{shown_bucket, shown_page};

use super::by_name::shown_by_name;
use crate::final_results::{
    AggregationResult, AggregationResults, BucketResult, CompositeBucketEntry,
};
use crate::intermediate_results::{IntermediateCompositeBucketResult, IntermediateTermBucketEntry};
use agg_request_tree::{Aggregation, CompositeAggregationSource, after_keys, shown_keys};
use agg_values::freeing::FreeingIter;
use agg_values::{AfterKey, ItemList, NameMap, OutOfMemory, Tuple};
use std::alloc::Global;

/// The page of a composite: the lowest entries, as many as it has room for.
#[cycle(shown)]
pub fn shown_page<B: Drop>(
    alloc: Global,
    sources: &[CompositeAggregationSource],
    below: &NameMap<Aggregation<B>>,
    held: IntermediateCompositeBucketResult,
) -> Result<AggregationResult, OutOfMemory>
    ensures { IfOk result (λ page. page ≡ shown_page sources.now
        (map (λ e. shown_bucket sources.now (e.0, e.1.doc_count)
        (final_by_name below.now (below_entry e.1))) (lowest_of held))
        (last_tuple (target_size_of held) (counts_of (lowest_of held)))) }
{
    let size = held.target_size() as usize;
    let lowest = held.into_lowest();
    let after_key = shown_after_key(alloc, sources, last_tuple(size, &lowest))?;
    let buckets = shown_buckets(alloc, sources, below, lowest)?;
    Ok(AggregationResult::BucketResult(BucketResult::Composite { buckets, after_key }))
}

// The last tuple of a page that is full, if it has any.
fn last_tuple<'p>(
    size: usize,
    page: &'p [(Tuple, IntermediateTermBucketEntry)],
) -> Option<&'p Tuple>
    ensures { option_map (λ t. t.now) result ≡ last_tuple size (counts_of page.now) }
{
    if page.len() != size {
        return None;
    }
    let (tuple, _) = page.last()?;
    Some(tuple)
}

// The buckets of these entries. Each entry is dropped once its bucket is made.
#[cycle(shown)]
fn shown_buckets<B: Drop>(
    alloc: Global,
    sources: &[CompositeAggregationSource],
    below: &NameMap<Aggregation<B>>,
    entries: Vec<(Tuple, IntermediateTermBucketEntry)>,
) -> Result<ItemList<CompositeBucketEntry>, OutOfMemory>
    ensures { IfOk result
        (λ buckets. buckets ≡ map (λ e. shown_bucket sources.now (e.0, e.1.doc_count)
        (final_by_name below.now (below_entry e.1))) entries.items) }
{
    let mut buckets = Vec::with_capacity(alloc, entries.len())?;
    for (tuple, entry) in FreeingIter::new(entries) {
        buckets.push(CompositeBucketEntry {
            key: shown_keys(alloc, sources, &tuple)?,
            doc_count: entry.doc_count,
            sub_aggregation: AggregationResults(shown_by_name(below, entry.sub_aggregation)?),
        })?;
    }
    Ok(ItemList::from_vec(buckets))
}

// The after key of a page with this last tuple, empty where there is none.
fn shown_after_key(
    alloc: Global,
    sources: &[CompositeAggregationSource],
    last: Option<&Tuple>,
) -> Result<NameMap<AfterKey>, OutOfMemory>
    ensures { IfOk result
        (λ after_key. after_key ≡ shown_after sources.now (option_map (λ t. t.now) last.entry)) }
{
    match last {
        None => Ok(NameMap::new(alloc)),
        Some(tuple) => after_keys(alloc, sources, tuple),
    }
}
