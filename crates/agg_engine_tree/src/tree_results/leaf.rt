//! The result of a composite that stands alone and has nothing below it.
ghost use Rattle.std.specs.Prelude.{◌≡◌, ◌∷◌, [], ℕ, List, All, IfOk, OnOk, map};
ghost use Rattle.std.specs.Map.{keys_of};
ghost use Rattle.agg_values.specs.Names.{Named};
ghost use Rattle.agg_values.specs.declared.after_key.AfterKey.{AfterKey};
ghost use Rattle.agg_segment.specs.Query.{matches};
ghost use Rattle.agg_segment.specs.Segment.{Stored, documents_at};
ghost use Rattle.agg_segment.specs.declared.query.QueryTree.{QueryTree};
ghost use Rattle.agg_request_tree.specs.Source.{rules_of};
ghost use Rattle.agg_request_tree.specs.declared.aggregation.Aggregation.{Aggregation};
ghost use Rattle.agg_request_tree.specs.declared.aggregation.CompositeAggregation as asks;
ghost use Rattle.agg_composite.specs.accessor.Decoded.{IsEncoded};
ghost use Rattle.agg_composite.specs.Listing.{IsLowest};
ghost use Rattle.agg_composite.specs.PageEntries.{page_entries};
ghost use Rattle.agg_results.specs.intermediate_results.Intermediate.{composite_of};
ghost use Rattle.agg_results.specs.StandsFor.{StandsFor};
ghost use Rattle.agg_engine_tree.specs.tree_results.Entries.{IsAscending};
ghost use Rattle.agg_engine_tree.specs.tree_results.Leaves.{IsLeafOf, leaf_entry};

use crate::tree_results::made::{add_last, empty_page, page_result, put_result};
use agg_composite::{CompositeAggReqData, PageEntries};
use agg_results::{IntermediateAggregationResults, IntermediateCompositeBucketResult};
use agg_values::OutOfMemory;
use std::alloc::Global;

/// Adds the result of a composite that stands alone and has nothing below it, from the entries of
/// its page.
pub fn add_leaf(
    alloc: Global,
    entries: PageEntries,
    req: &CompositeAggReqData<'_>,
    results: &mut IntermediateAggregationResults,
) -> Result<(), OutOfMemory>
    requires page { (segment : Stored) × (after : Named AfterKey) × (docs : List ℕ)
        × IsLowest segment after req.now docs entries }
    requires empty { results.old.results ≡ [] }
    ensures { OnOk result ((segment : Stored) (after : Named AfterKey) (docs : List ℕ)
        → IsLowest segment after req.now docs entries
        → (a : Aggregation QueryTree) (asked : asks.CompositeAggregation)
        → IsLeafOf req.now after a asked
        → StandsFor matches ((req.now.name, a) ∷ []) (documents_at segment docs)
        results.new.results) }
{
    let buckets = leaf_page(alloc, entries, req)?;
    put_result(alloc, results, &req.name, page_result(buckets))
}

// The entries of a page, each with nothing below it.
fn leaf_page(
    alloc: Global,
    mut entries: PageEntries,
    req: &CompositeAggReqData<'_>,
) -> Result<IntermediateCompositeBucketResult, OutOfMemory>
    requires encoded { All (IsEncoded req.now) (keys_of entries) }
    requires ascending { IsAscending req.now.req.now.sources (page_entries req.now entries) }
    ensures { IfOk result (λ buckets. buckets ≡ composite_of (rules_of req.now.req.now.sources)
        req.now.size (map leaf_entry (page_entries req.now entries))) }
{
    let mut buckets = empty_page(alloc, req)?;
    buckets.reserve(entries.len())?;
    while let Some(entry) = entries.next_entry(alloc, req)? {
        let below = IntermediateAggregationResults::new(alloc);
        add_last(&mut buckets, entry, below)?;
    }
    Ok(buckets)
}
