//! How many documents each aggregation of a request lists, without bound or size.
ghost use Rattle.std.specs.Prelude.{◌≡◌, ◌<◌, ℕ, List, All, IfOk, OnOk, length, map};
ghost use Rattle.agg_segment.specs.Query.{matches};
ghost use Rattle.agg_segment.specs.Segment.{documents_at, documents_of};
ghost use Rattle.agg_segment.specs.declared.query.QueryTree.{QueryTree};
ghost use Rattle.agg_request_tree.specs.Request.{Request};
ghost use Rattle.agg_request_tree.specs.Uncut.{uncut_lists, uncut_lists_of};
ghost use Rattle.agg_request_tree.specs.declared.aggregation.Aggregation.{Aggregation};
ghost use Rattle.agg_engine_tree.specs.segment_context.Context.{ArePlansOf, IsContextOf, IsPlanOf};
ghost use Rattle.agg_engine_tree.specs.segment_context.Context.{Meaning};
ghost use Rattle.agg_engine_tree.specs.segment_context.Plan.{plan_of, plans_of};
ghost use Rattle.agg_engine_tree.specs.uncut.Block.{AddsFor, IsGiven};
ghost use Rattle.agg_engine_tree.specs.uncut.Uncut.{uncut_lengths};

use crate::segment_context::{AggRefNode, PerRequestAggSegCtx};
use crate::uncut::node_data::NodeData;
use crate::uncut::weights::{Weights, num_listed, own_weights, total};
use agg_segment::SegmentReader;
use agg_values::{DocId, OutOfMemory};
use std::alloc::Global;

// Documents of a segment, and what the aggregations of a request are asked there.
#[derive(Clone, Copy)]
struct Block<'a, 's> {
    ctx: &'a PerRequestAggSegCtx<'s>,
    segment: &'a SegmentReader,
    docs: &'a [DocId],
}

/// How many documents each aggregation of a request lists, at any depth, over documents of a
/// segment. An aggregation comes before those below it. Each count ends at the greatest u64.
pub fn uncut_lengths(
    alloc: Global,
    ctx: &PerRequestAggSegCtx<'_>,
    segment: &SegmentReader,
    docs: &[DocId],
) -> Result<Vec<u64>, OutOfMemory>
    requires docs { All (λ doc. doc < length (documents_of segment.now)) docs.now }
    requires context { (meaning : Meaning) × (request : Request QueryTree)
        × (meaning.segment ≡ segment.now) × IsContextOf meaning ctx.now request }
    ensures { (meaning : Meaning) (request : Request QueryTree) → meaning.segment ≡ segment.now
        → IsContextOf meaning ctx.now request → IfOk result
        (λ counts. counts.items ≡ uncut_lengths request (documents_at segment.now docs.now)) }
{
    let block = Block { ctx, segment, docs };
    let mut counts = Vec::new(alloc);
    add_nodes(
        alloc,
        &block,
        ctx.agg_tree.as_slice(),
        &Weights::Ones,
        &mut counts,
    )?;
    Ok(counts)
}

// Adds the counts of nodes, each before those below it. The documents stand so often in the list
// above them.
#[cycle(uncut)]
fn add_nodes(
    alloc: Global,
    block: &Block<'_, '_>,
    nodes: &[AggRefNode],
    weights: &Weights<'_>,
    counts: &mut Vec<u64>,
) -> Result<(), OutOfMemory>
    requires { (meaning : Meaning) × (request : Request QueryTree) × IsGiven meaning block.now
        × ArePlansOf meaning block.now.ctx.now request (plans_of (map plan_of nodes.now)) }
    ensures { (meaning : Meaning) (request : Request QueryTree) → IsGiven meaning block.now
        → ArePlansOf meaning block.now.ctx.now request (plans_of (map plan_of nodes.now))
        → OnOk result (AddsFor (uncut_lists_of matches request) block.now weights.now
        counts.old.items counts.new.items) }
{
    for node in nodes {
        add_node(alloc, block, node, weights, counts)?;
    }
    Ok(())
}

// Adds the counts of a node and of those below it.
#[cycle(uncut)]
fn add_node(
    alloc: Global,
    block: &Block<'_, '_>,
    node: &AggRefNode,
    weights: &Weights<'_>,
    counts: &mut Vec<u64>,
) -> Result<(), OutOfMemory>
    requires { (meaning : Meaning) × (name : List ℕ) × (a : Aggregation QueryTree)
        × IsGiven meaning block.now
        × IsPlanOf meaning block.now.ctx.now name a (plan_of node.now) }
    ensures { (meaning : Meaning) (name : List ℕ) (a : Aggregation QueryTree)
        → IsGiven meaning block.now
        → IsPlanOf meaning block.now.ctx.now name a (plan_of node.now)
        → OnOk result (AddsFor (uncut_lists matches a) block.now weights.now
        counts.old.items counts.new.items) }
{
    let own_data = NodeData::new(block.ctx, block.segment, node.kind, node.idx_in_req_data);
    let below = node.children.as_slice();
    if below.is_empty() {
        counts.push(num_listed(&own_data, block.docs, weights))?;
        return Ok(());
    }
    let own = own_weights(alloc, &own_data, block.docs, weights)?;
    counts.push(total(&own))?;
    add_nodes(alloc, block, below, &Weights::Each(&own), counts)
}
