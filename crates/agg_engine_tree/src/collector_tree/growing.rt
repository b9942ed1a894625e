//! How a tree of collectors is made for the nodes of a context.
ghost use Rattle.std.specs.Prelude.{◌≡◌, ◌≤◌, [], IfOk, map};
ghost use Rattle.agg_request_tree.specs.Faults.{max_sources};
ghost use Rattle.agg_request_tree.specs.Request.{Request};
ghost use Rattle.agg_segment.specs.declared.query.QueryTree.{QueryTree};
ghost use Rattle.agg_engine_tree.specs.segment_context.Context.{IsContextOf, IsMeant, Meaning};
ghost use Rattle.agg_engine_tree.specs.segment_context.Plan.{plan_of, plans_of};
ghost use Rattle.agg_engine_tree.specs.collector_tree.New.{HasData, HaveData, IsNew};
ghost use Rattle.agg_engine_tree.specs.collector_tree.New.{IsNewComposite};
ghost use Rattle.agg_engine_tree.specs.collector_tree.Tree.{Fits, IsFlushed, IsFor, IsGroupOf};
ghost use Rattle.agg_engine_tree.specs.collector_tree.Tree.{IsOf, held_of};

use crate::collector_tree::{FilterCollector, Place, SegmentCollectorTree};
use crate::segment_context::{AggKind, AggRefNode, PerRequestAggSegCtx};
use agg_cache::HighCardSubAggCache;
use agg_composite::SegmentCompositeCollector;
use agg_metric::SegmentMetricCollector;
use agg_segment::SegmentReader;
use agg_values::OutOfMemory;
use std::alloc::Global;

/// The tree of a context's nodes in a segment: new collectors, which took no document.
pub fn tree_for<'s>(
    alloc: Global,
    ctx: &PerRequestAggSegCtx<'_>,
    segment: &'s SegmentReader,
) -> Result<SegmentCollectorTree<'s>, OutOfMemory>
    requires { (meaning : Meaning) × (request : Request QueryTree)
        × IsContextOf meaning ctx.now request }
    ensures nodes { IfOk result
        (λ tree. IsGroupOf (plans_of (map plan_of ctx.now.agg_tree)) (held_of tree)) }
    ensures fits { IfOk result (λ tree. Fits ctx.now (held_of tree)) }
    ensures right { IfOk result (λ tree. (meaning : Meaning) → meaning.segment ≡ segment.now
        → IsMeant meaning ctx.now → IsFor meaning ctx.now (held_of tree) [] 0) }
    ensures flushed { IfOk result (λ tree. IsFlushed (held_of tree)) }
{
    trees_for(alloc, ctx.agg_tree.as_slice(), Place::Top, ctx, segment)
}

// The trees of nodes, side by side, at the top of the request or below another node.
#[cycle(tree)]
fn trees_for<'s>(
    alloc: Global,
    nodes: &[AggRefNode],
    place: Place,
    ctx: &PerRequestAggSegCtx<'_>,
    segment: &'s SegmentReader,
) -> Result<SegmentCollectorTree<'s>, OutOfMemory>
    requires { HaveData ctx.now (plans_of (map plan_of nodes.now)) }
    ensures nodes { IfOk result
        (λ tree. IsGroupOf (plans_of (map plan_of nodes.now)) (held_of tree)) }
    ensures new { IfOk result (λ tree. IsNew ctx.now segment.now (held_of tree)) }
{
    let mut trees = Vec::new(alloc);
    for node in nodes {
        trees.push(tree_of_node(alloc, node, place, ctx, segment)?)?;
    }
    Ok(SegmentCollectorTree::Group(trees))
}

// The tree of a node.
#[cycle(tree)]
fn tree_of_node<'s>(
    alloc: Global,
    node: &AggRefNode,
    place: Place,
    ctx: &PerRequestAggSegCtx<'_>,
    segment: &'s SegmentReader,
) -> Result<SegmentCollectorTree<'s>, OutOfMemory>
    requires { HasData ctx.now (plan_of node.now) }
    ensures node { IfOk result (λ tree. IsOf (plan_of node.now) (held_of tree)) }
    ensures new { IfOk result (λ tree. IsNew ctx.now segment.now (held_of tree)) }
{
    let index = node.idx_in_req_data;
    let nodes = node.children.as_slice();
    let is_leaf = nodes.is_empty();
    match node.kind {
        AggKind::Composite => {
            let req = &ctx.composite_req_data.as_slice()[index];
            let num_sources = req.req.sources.as_slice().len();
            let expected = expected_buckets(place, req.size, segment);
            let collector = new_composite(alloc, is_leaf, num_sources, expected)?;
            let below = trees_for(alloc, nodes, Place::Below, ctx, segment)?;
            let below = Box::new(alloc, below)?;
            Ok(SegmentCollectorTree::Composite(index, collector, below))
        }
        AggKind::Filter => {
            let below = trees_for(alloc, nodes, Place::Below, ctx, segment)?;
            let below = Box::new(alloc, below)?;
            let collector = FilterCollector::new(alloc, place, is_leaf);
            Ok(SegmentCollectorTree::Filter(index, collector, below))
        }
        AggKind::StatsKind(_) => {
            let req = &ctx.stats_metric_req_data.as_slice()[index];
            let collector = SegmentMetricCollector::new(alloc, req, segment);
            Ok(SegmentCollectorTree::Metric(index, collector))
        }
    }
}

// So many buckets are expected at most of a composite's first parent: none below another node,
// where there may be many parents.
fn expected_buckets(place: Place, size: u32, segment: &SegmentReader) -> usize {
    match place {
        Place::Top => size.min(segment.num_docs()) as usize,
        Place::Below => 0,
    }
}

// A new collector for a composite of so many sources, whose first parent is expected to have so
// many buckets.
fn new_composite(
    alloc: Global,
    is_leaf: bool,
    num_sources: usize,
    expected: usize,
) -> Result<SegmentCompositeCollector<HighCardSubAggCache>, OutOfMemory>
    requires some { 1 ≤ num_sources }
    requires few { num_sources ≤ max_sources }
    ensures { IfOk result (IsNewComposite is_leaf num_sources) }
{
    let mut collector = if is_leaf {
        SegmentCompositeCollector::new_leaf(alloc, num_sources)?
    } else {
        SegmentCompositeCollector::new(alloc, num_sources)?
    };
    collector.expect(expected);
    Ok(collector)
}
