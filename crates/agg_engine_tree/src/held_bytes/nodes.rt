//! The bytes that the nodes of a request take in a segment.
ghost use Rattle.std.specs.Prelude.{◌≡◌, ℕ, List, [], ◌∷◌, length};
ghost use Rattle.agg_request_tree.specs.charges.Charges.{fixed_charge, node_charge};
ghost use Rattle.agg_request_tree.specs.Request.{Request};
ghost use Rattle.agg_request_tree.specs.declared.aggregation.Aggregation.{Aggregation};
ghost use Rattle.agg_request_tree.specs.declared.aggregation.AggregationVariants as variants;
ghost use Rattle.agg_segment.specs.Segment.{documents_of};
ghost use Rattle.agg_segment.specs.declared.query.QueryTree.{QueryTree};
ghost use Rattle.agg_engine_tree.specs.segment_context.Context.{IsContextOf, Meaning};
ghost use Rattle.agg_engine_tree.specs.held_bytes.Checked.{IsChecked};
ghost use Rattle.agg_engine_tree.specs.held_bytes.Nodes.{AreNodesOf, IsNodeFor};

use crate::segment_context::{AggKind, AggRefNode, PerRequestAggSegCtx};
use agg_request_tree::charges::NODE_BYTES;

/// What the nodes of a request are charged in a segment for themselves, unless it is more than u64
/// has.
pub fn fixed_bytes(ctx: &PerRequestAggSegCtx<'_>) -> Option<u64>
    requires { (meaning : Meaning) × (request : Request QueryTree)
        × IsContextOf meaning ctx.now request }
    ensures { (meaning : Meaning) (request : Request QueryTree)
        → IsContextOf meaning ctx.now request
        → IsChecked (fixed_charge request (length (documents_of meaning.segment))) result }
{
    charge_of_nodes(ctx.agg_tree.as_slice(), ctx)
}

// What nodes are charged, with those below them.
#[cycle(nodes)]
fn charge_of_nodes(nodes: &[AggRefNode], ctx: &PerRequestAggSegCtx<'_>) -> Option<u64>
    requires { (meaning : Meaning) × (request : Request QueryTree)
        × AreNodesOf meaning ctx.now request nodes.now }
    ensures { (meaning : Meaning) (request : Request QueryTree)
        → AreNodesOf meaning ctx.now request nodes.now
        → IsChecked (fixed_charge request (length (documents_of meaning.segment))) result }
{
    let mut bytes: u64 = 0;
    for node in nodes {
        bytes = bytes.checked_add(charge_of_node(node, ctx)?)?;
    }
    Some(bytes)
}

// What a node is charged, with those below it.
#[cycle(nodes)]
fn charge_of_node(node: &AggRefNode, ctx: &PerRequestAggSegCtx<'_>) -> Option<u64>
    requires { (meaning : Meaning) × (a : List ℕ × Aggregation QueryTree)
        × AreNodesOf meaning ctx.now (a ∷ []) (node.now ∷ []) }
    ensures { (meaning : Meaning) (a : List ℕ × Aggregation QueryTree)
        → AreNodesOf meaning ctx.now (a ∷ []) (node.now ∷ [])
        → IsChecked (fixed_charge (a ∷ []) (length (documents_of meaning.segment))) result }
{
    let below = charge_of_nodes(node.children.as_slice(), ctx)?;
    below.checked_add(own_charge(node.kind, node.idx_in_req_data, ctx))
}

// What a node of a kind is charged by itself.
fn own_charge(kind: AggKind, index: usize, ctx: &PerRequestAggSegCtx<'_>) -> u64
    requires { (meaning : Meaning) × (asked : variants.AggregationVariants QueryTree)
        × IsNodeFor meaning ctx.now asked kind index }
    ensures { (meaning : Meaning) (asked : variants.AggregationVariants QueryTree)
        → IsNodeFor meaning ctx.now asked kind index
        → result ≡ node_charge (length (documents_of meaning.segment)) asked }
{
    match kind {
        AggKind::Composite => ctx.composite_req_data.as_slice()[index].get_memory_consumption(),
        AggKind::Filter => ctx.filter_req_data.as_slice()[index].get_memory_consumption(),
        AggKind::StatsKind(_) => NODE_BYTES,
    }
}
