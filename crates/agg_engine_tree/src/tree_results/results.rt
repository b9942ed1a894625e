//! The intermediate results of a tree of collectors for a parent.
ghost use Rattle.std.specs.Prelude.{◌≡◌, [], ℕ, List, All, IfOk, OnOk, Some};
ghost use Rattle.std.specs.Map.{keys_of};
ghost use Rattle.agg_composite.specs.accessor.Decoded.{IsEncoded};
ghost use Rattle.agg_composite.specs.PageEntries.{page_entries};
ghost use Rattle.agg_engine_tree.specs.segment_context.Context.{IsMeant, Meaning};
ghost use Rattle.agg_engine_tree.specs.collector_tree.Tree.{Fits, IsFlushed, IsFor, held_of};
ghost use Rattle.agg_engine_tree.specs.tree_results.Entries.{HoldsPage, IsAscending};
ghost use Rattle.agg_engine_tree.specs.tree_results.Names.{HasNamesApart, names_of};
ghost use Rattle.agg_engine_tree.specs.tree_results.Results.{Adds, EachStands, GroupStands};
ghost use Rattle.agg_engine_tree.specs.tree_results.Results.{HasOnlyMore, HoldsAll, HoldsNone};
ghost use Rattle.agg_engine_tree.specs.tree_results.Results.{IsSameBut, MayAdd, NodeStands};

use crate::collector_tree::SegmentCollectorTree;
use crate::segment_context::PerRequestAggSegCtx;
use crate::tree_results::collected::{bucket_under, entries_under, metric_under};
use crate::tree_results::made::{add_last, empty_page, filter_result, page_result, put_result};
use agg_cache::BucketId;
use agg_composite::{CompositeAggReqData, PageEntries};
use agg_results::{
    IntermediateAggregationResult, IntermediateAggregationResults,
    IntermediateCompositeBucketResult,
};
use agg_values::OutOfMemory;
use std::alloc::Global;

/// Adds the results of the aggregations at the top of a tree for a parent, each under its name:
/// over the documents that the tree took under the parent, and over none for a parent that isn't
/// prepared. What is held after an error isn't said.
pub fn add_results(
    alloc: Global,
    node: &SegmentCollectorTree<'_>,
    ctx: &PerRequestAggSegCtx<'_>,
    results: &mut IntermediateAggregationResults,
    parent: BucketId,
) -> Result<(), OutOfMemory>
    requires right { (meaning : Meaning) × (taken : List (ℕ × ℕ)) × (visits : ℕ)
        × IsMeant meaning ctx.now × IsFor meaning ctx.now (held_of node.now) taken visits }
    requires fits { Fits ctx.now (held_of node.now) }
    requires flushed { IsFlushed (held_of node.now) }
    requires apart { HasNamesApart ctx.now (held_of node.now) }
    requires absent { HoldsNone (names_of ctx.now (held_of node.now)) results.old.results }
    ensures others { OnOk result (IsSameBut (names_of ctx.now (held_of node.now))
        results.old.results results.new.results) }
    ensures known { OnOk result (HasOnlyMore (names_of ctx.now (held_of node.now))
        results.old.results results.new.results) }
    ensures held { OnOk result (HoldsAll (names_of ctx.now (held_of node.now))
        results.new.results) }
    ensures one { OnOk result (NodeStands ctx.now (held_of node.now) (Some parent)
        results.new.results) }
    ensures each { OnOk result (EachStands ctx.now (held_of node.now) (Some parent)
        results.new.results) }
    ensures all { OnOk result (results.old.results ≡ []
        → GroupStands ctx.now (held_of node.now) (Some parent) results.new.results) }
{
    add_results_under(alloc, node, ctx, results, Some(parent))
}

// Adds the results of a tree for a parent, or over no documents without one.
#[cycle(add)]
pub(crate) fn add_results_under(
    alloc: Global,
    node: &SegmentCollectorTree<'_>,
    ctx: &PerRequestAggSegCtx<'_>,
    results: &mut IntermediateAggregationResults,
    parent: Option<BucketId>,
) -> Result<(), OutOfMemory>
    requires { MayAdd ctx.now (held_of node.now) results.old.results }
    ensures { OnOk result (Adds ctx.now (held_of node.now) parent
        results.old.results results.new.results) }
{
    match node {
        SegmentCollectorTree::Composite(index, collector, child) => {
            let req = &ctx.composite_req_data.as_slice()[*index];
            let entries = entries_under(alloc, collector, parent)?;
            let buckets = buckets_of(alloc, entries, child, ctx, req)?;
            put_result(alloc, results, &req.name, page_result(buckets))
        }
        SegmentCollectorTree::Filter(index, collector, child) => {
            let req = &ctx.filter_req_data.as_slice()[*index];
            let (doc_count, id) = bucket_under(collector, parent);
            let mut below = IntermediateAggregationResults::new(alloc);
            add_results_under(alloc, child, ctx, &mut below, id)?;
            put_result(alloc, results, &req.name, filter_result(doc_count, below))
        }
        SegmentCollectorTree::Metric(index, collector) => {
            let req = &ctx.stats_metric_req_data.as_slice()[*index];
            let value = IntermediateAggregationResult::Metric(metric_under(collector, req, parent));
            put_result(alloc, results, &req.name, value)
        }
        SegmentCollectorTree::Group(children) => {
            for child in children {
                add_results_under(alloc, child, ctx, results, parent)?;
            }
            Ok(())
        }
    }
}

// The entries of a page, each with the results below it.
#[cycle(add)]
pub(crate) fn buckets_of(
    alloc: Global,
    mut entries: PageEntries,
    child: &SegmentCollectorTree<'_>,
    ctx: &PerRequestAggSegCtx<'_>,
    req: &CompositeAggReqData<'_>,
) -> Result<IntermediateCompositeBucketResult, OutOfMemory>
    requires below { MayAdd ctx.now (held_of child.now) [] }
    requires encoded { All (IsEncoded req.now) (keys_of entries) }
    requires ascending { IsAscending req.now.req.now.sources (page_entries req.now entries) }
    ensures { IfOk result (HoldsPage ctx.now (held_of child.now) req.now.req.now.sources
        req.now.size (page_entries req.now entries)) }
{
    let mut buckets = empty_page(alloc, req)?;
    buckets.reserve(entries.len())?;
    while let Some(entry) = entries.next_entry(alloc, req)? {
        let mut below = IntermediateAggregationResults::new(alloc);
        add_results_under(alloc, child, ctx, &mut below, Some(entry.bucket_id))?;
        add_last(&mut buckets, entry, below)?;
    }
    Ok(buckets)
}
