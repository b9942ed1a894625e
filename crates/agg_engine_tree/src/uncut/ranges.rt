//! Whether the starts of buckets of a request lie within 64 bits.
ghost use Rattle.std.specs.Prelude.{◌≡◌, ℕ, List, MatchBool, map};
ghost use Rattle.agg_segment.specs.Segment.{documents_at};
ghost use Rattle.agg_segment.specs.declared.query.QueryTree.{QueryTree};
ghost use Rattle.agg_request_tree.specs.Ranges.{HasStartOutOfRange};
ghost use Rattle.agg_request_tree.specs.Request.{Request, composites_in, composites_of};
ghost use Rattle.agg_request_tree.specs.Request.{own_composite};
ghost use Rattle.agg_request_tree.specs.declared.aggregation.Aggregation.{Aggregation};
ghost use Rattle.agg_engine_tree.specs.segment_context.Context.{ArePlansOf, IsAskedAt, IsContextOf};
ghost use Rattle.agg_engine_tree.specs.segment_context.Context.{IsMeant, IsPlanOf, Meaning};
ghost use Rattle.agg_engine_tree.specs.segment_context.Plan.{plan_of, plans_of};
ghost use Rattle.agg_engine_tree.specs.uncut.Ranges.{TellsRange};
ghost use Rattle.agg_engine_tree.specs.uncut.Uncut.{Asked};

use crate::segment_context::{AggKind, AggRefNode, PerRequestAggSegCtx};
use agg_values::DocId;

/// Whether the starts of the buckets of all composites of a request, at any depth, lie within 64
/// bits over documents of a segment.
pub fn are_starts_in_range(ctx: &PerRequestAggSegCtx<'_>, docs: &[DocId]) -> bool
    requires { (meaning : Meaning) × (request : Request QueryTree)
        × IsContextOf meaning ctx.now request }
    ensures { (meaning : Meaning) (request : Request QueryTree)
        → IsContextOf meaning ctx.now request → MatchBool result
        (¬ (HasStartOutOfRange request (documents_at meaning.segment docs.now)))
        (HasStartOutOfRange request (documents_at meaning.segment docs.now)) }
{
    are_nodes_in_range(ctx, ctx.agg_tree.as_slice(), docs)
}

// Whether those of nodes do, and of those below them.
#[cycle(ranges)]
fn are_nodes_in_range(ctx: &PerRequestAggSegCtx<'_>, nodes: &[AggRefNode], docs: &[DocId]) -> bool
    requires { (meaning : Meaning) × (request : Request QueryTree) × IsMeant meaning ctx.now
        × ArePlansOf meaning ctx.now request (plans_of (map plan_of nodes.now)) }
    ensures { (meaning : Meaning) (request : Request QueryTree) → IsMeant meaning ctx.now
        → ArePlansOf meaning ctx.now request (plans_of (map plan_of nodes.now))
        → TellsRange result (composites_of request) (documents_at meaning.segment docs.now) }
{
    for node in nodes {
        if !is_node_in_range(ctx, node, docs) {
            return false;
        }
    }
    true
}

// Whether those of a node do, and of those below it.
#[cycle(ranges)]
fn is_node_in_range(ctx: &PerRequestAggSegCtx<'_>, node: &AggRefNode, docs: &[DocId]) -> bool
    requires { (meaning : Meaning) × (name : List ℕ) × (a : Aggregation QueryTree)
        × IsMeant meaning ctx.now × IsPlanOf meaning ctx.now name a (plan_of node.now) }
    ensures { (meaning : Meaning) (name : List ℕ) (a : Aggregation QueryTree)
        → IsMeant meaning ctx.now → IsPlanOf meaning ctx.now name a (plan_of node.now)
        → TellsRange result (composites_in a) (documents_at meaning.segment docs.now) }
{
    is_own_in_range(ctx, node.kind, node.idx_in_req_data, docs)
        && are_nodes_in_range(ctx, node.children.as_slice(), docs)
}

// Whether those of a node alone do.
fn is_own_in_range(
    ctx: &PerRequestAggSegCtx<'_>,
    kind: AggKind,
    index: usize,
    docs: &[DocId],
) -> bool
    requires { (meaning : Meaning) × (name : List ℕ) × (asks : Asked)
        × IsMeant meaning ctx.now × IsAskedAt meaning ctx.now name asks kind index }
    ensures { (meaning : Meaning) (name : List ℕ) (asks : Asked)
        → IsMeant meaning ctx.now → IsAskedAt meaning ctx.now name asks kind index
        → TellsRange result (own_composite asks) (documents_at meaning.segment docs.now) }
{
    match kind {
        AggKind::Composite => ctx.composite_req_data.as_slice()[index].are_starts_in_range(docs),
        AggKind::Filter | AggKind::StatsKind(_) => true,
    }
}
