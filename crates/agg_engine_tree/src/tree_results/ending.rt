//! The intermediate results of a tree of collectors that ends.
ghost use Rattle.std.specs.Prelude.{◌≡◌, [], ℕ, List, OnOk, Some};
ghost use Rattle.agg_engine_tree.specs.segment_context.Context.{IsMeant, Meaning};
ghost use Rattle.agg_engine_tree.specs.collector_tree.Tree.{Fits, IsFlushed, IsFor, held_of};
ghost use Rattle.agg_engine_tree.specs.tree_results.Names.{HasNamesApart, names_of};
ghost use Rattle.agg_engine_tree.specs.tree_results.Results.{Adds, EachStands, GroupStands};
ghost use Rattle.agg_engine_tree.specs.tree_results.Results.{HasOnlyMore, HoldsAll, HoldsNone};
ghost use Rattle.agg_engine_tree.specs.tree_results.Results.{IsSameBut, MayAdd, NodeStands};

use crate::collector_tree::SegmentCollectorTree;
use crate::segment_context::PerRequestAggSegCtx;
use crate::tree_results::made::{page_result, put_result};
use crate::tree_results::results::{add_results_under, buckets_of};
use agg_cache::BucketId;
use agg_results::IntermediateAggregationResults;
use agg_values::OutOfMemory;
use std::alloc::Global;

/// Adds what `add_results` adds, of a tree that ends: a composite at its top drops its buckets
/// while its entries are made.
pub fn into_results(
    alloc: Global,
    node: SegmentCollectorTree<'_>,
    ctx: &PerRequestAggSegCtx<'_>,
    results: &mut IntermediateAggregationResults,
    parent: BucketId,
) -> Result<(), OutOfMemory>
    requires right { (meaning : Meaning) × (taken : List (ℕ × ℕ)) × (visits : ℕ)
        × IsMeant meaning ctx.now × IsFor meaning ctx.now (held_of node) taken visits }
    requires fits { Fits ctx.now (held_of node) }
    requires flushed { IsFlushed (held_of node) }
    requires apart { HasNamesApart ctx.now (held_of node) }
    requires absent { HoldsNone (names_of ctx.now (held_of node)) results.old.results }
    ensures others { OnOk result (IsSameBut (names_of ctx.now (held_of node.entry))
        results.old.results results.new.results) }
    ensures known { OnOk result (HasOnlyMore (names_of ctx.now (held_of node.entry))
        results.old.results results.new.results) }
    ensures held { OnOk result (HoldsAll (names_of ctx.now (held_of node.entry))
        results.new.results) }
    ensures one { OnOk result (NodeStands ctx.now (held_of node.entry) (Some parent)
        results.new.results) }
    ensures each { OnOk result (EachStands ctx.now (held_of node.entry) (Some parent)
        results.new.results) }
    ensures all { OnOk result (results.old.results ≡ []
        → GroupStands ctx.now (held_of node.entry) (Some parent) results.new.results) }
{
    into_results_under(alloc, node, ctx, results, parent)
}

// Adds the results of a tree that ends for a parent, by what a tree may add and what it added.
fn into_results_under(
    alloc: Global,
    node: SegmentCollectorTree<'_>,
    ctx: &PerRequestAggSegCtx<'_>,
    results: &mut IntermediateAggregationResults,
    parent: BucketId,
) -> Result<(), OutOfMemory>
    requires { MayAdd ctx.now (held_of node) results.old.results }
    ensures { OnOk result (Adds ctx.now (held_of node.entry) (Some parent)
        results.old.results results.new.results) }
{
    match node {
        SegmentCollectorTree::Composite(index, collector, child) => {
            let req = &ctx.composite_req_data.as_slice()[index];
            let entries = collector.into_entries(parent)?;
            let buckets = buckets_of(alloc, entries, &child, ctx, req)?;
            put_result(alloc, results, &req.name, page_result(buckets))
        }
        SegmentCollectorTree::Group(children) => {
            for child in children {
                into_results_under(alloc, child, ctx, results, parent)?;
            }
            Ok(())
        }
        other => add_results_under(alloc, &other, ctx, results, Some(parent)),
    }
}
