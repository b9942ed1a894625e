//! How a tree of collectors takes documents and hands them down.
ghost use Rattle.std.specs.Prelude.{◌≡◌, ◌≤◌, IfErr, IfOk, IsTrue, OnOk, map};
ghost use Rattle.agg_cache.specs.Waiting.{pairs_of};
ghost use Rattle.agg_engine_tree.specs.segment_context.Context.{IsMeant, Meaning};
ghost use Rattle.agg_engine_tree.specs.collector_tree.Bound.{TakesMost};
ghost use Rattle.agg_engine_tree.specs.collector_tree.Call.{is_flush, pairs_in, parents_in};
ghost use Rattle.agg_engine_tree.specs.collector_tree.Refusals.{IsRefused, TakesInRange};
ghost use Rattle.agg_engine_tree.specs.collector_tree.Step.{TakesAt, index_in};
ghost use Rattle.agg_engine_tree.specs.collector_tree.Tree.{Fits, Takes, group_of, held_of};

use crate::collector_tree::composite::take_in_composite;
use crate::collector_tree::filter::take_in_filter;
use crate::collector_tree::metric::take_in_metric;
use crate::collector_tree::{Call, SegmentCollectorTree};
use crate::segment_context::PerRequestAggSegCtx;
use agg_cache::{Batch, CollectError};
use agg_values::{ItemList, Steps};
use std::sync::ledger::Ledger;

/// Takes documents in each collector at the top of a tree, which prepares their parent first, or
/// hands down all that waits. After each call a collector in which many documents wait hands them
/// on to those below it. Each composite looks at the starts of what it takes, at any depth, unless
/// these are checked.
#[cycle(hand)]
pub fn hand<L: Ledger, const STARTS_CHECKED: bool>(
    node: &mut SegmentCollectorTree<'_>,
    call: Call<'_>,
    ctx: &PerRequestAggSegCtx<'_>,
    steps: &mut Steps<L>,
) -> Result<(), CollectError>
    requires meant { (meaning : Meaning) × IsMeant meaning ctx.now }
    requires fits { Fits ctx.now (held_of node.old) }
    requires range { IsTrue STARTS_CHECKED
        → TakesInRange ctx.now (pairs_in call) (held_of node.old) }
    ensures ok { OnOk result (Takes ctx.now (pairs_in call.entry) (is_flush call.entry)
        (held_of node.old) (held_of node.new) steps.old steps.new) }
    ensures refused { IfErr result (IsRefused ctx.now (pairs_in call.entry)
        (parents_in call.entry) (held_of node.old)) }
    ensures most { TakesMost ctx.now (pairs_in call.entry) (held_of node.old) steps.old
        steps.new }
    ensures later { steps.old ≤ steps.new }
{
    let down = take_at::<L, STARTS_CHECKED>(node, call, ctx, steps)?;
    match node {
        SegmentCollectorTree::Composite(_, _, child) => {
            let Some(down) = down else {
                return Ok(());
            };
            hand_batches::<L, STARTS_CHECKED>(child, down.as_slice(), call.is_flush(), ctx, steps)
        }
        SegmentCollectorTree::Filter(_, _, child) => {
            let Some(down) = down else {
                return Ok(());
            };
            hand_batches::<L, STARTS_CHECKED>(child, down.as_slice(), call.is_flush(), ctx, steps)
        }
        SegmentCollectorTree::Metric(_, _) => Ok(()),
        SegmentCollectorTree::Group(children) => {
            hand_all::<L, STARTS_CHECKED>(children, call, ctx, steps)
        }
    }
}

// Takes batches in a tree, by a call each, and then hands down all that waits in it, if it is to.
#[cycle(hand)]
fn hand_batches<L: Ledger, const STARTS_CHECKED: bool>(
    node: &mut SegmentCollectorTree<'_>,
    batches: &[Batch],
    flush: bool,
    ctx: &PerRequestAggSegCtx<'_>,
    steps: &mut Steps<L>,
) -> Result<(), CollectError>
    requires meant { (meaning : Meaning) × IsMeant meaning ctx.now }
    requires fits { Fits ctx.now (held_of node.old) }
    requires range { IsTrue STARTS_CHECKED
        → TakesInRange ctx.now (pairs_of batches.now) (held_of node.old) }
    ensures ok { OnOk result (Takes ctx.now (pairs_of batches.now) flush (held_of node.old)
        (held_of node.new) steps.old steps.new) }
    ensures refused { IfErr result (IsRefused ctx.now (pairs_of batches.now)
        (map (λ batch. batch.bucket_id) batches.now) (held_of node.old)) }
    ensures most { TakesMost ctx.now (pairs_of batches.now) (held_of node.old) steps.old
        steps.new }
    ensures later { steps.old ≤ steps.new }
{
    for batch in batches {
        let call = Call::Collect(batch.bucket_id, batch.docs.as_slice());
        hand::<L, STARTS_CHECKED>(node, call, ctx, steps)?;
    }
    if !flush {
        return Ok(());
    }
    hand::<L, STARTS_CHECKED>(node, Call::Flush, ctx, steps)
}

// Does what is asked in each of several trees.
#[cycle(hand)]
fn hand_all<L: Ledger, const STARTS_CHECKED: bool>(
    children: &mut Vec<SegmentCollectorTree<'_>>,
    call: Call<'_>,
    ctx: &PerRequestAggSegCtx<'_>,
    steps: &mut Steps<L>,
) -> Result<(), CollectError>
    requires meant { (meaning : Meaning) × IsMeant meaning ctx.now }
    requires fits { Fits ctx.now (group_of children.old.items) }
    requires range { IsTrue STARTS_CHECKED
        → TakesInRange ctx.now (pairs_in call) (group_of children.old.items) }
    ensures ok { OnOk result (Takes ctx.now (pairs_in call.entry) (is_flush call.entry)
        (group_of children.old.items) (group_of children.new.items) steps.old steps.new) }
    ensures refused { IfErr result (IsRefused ctx.now (pairs_in call.entry)
        (parents_in call.entry) (group_of children.old.items)) }
    ensures most { TakesMost ctx.now (pairs_in call.entry) (group_of children.old.items)
        steps.old steps.new }
    ensures later { steps.old ≤ steps.new }
{
    for i in 0..children.len() {
        hand::<L, STARTS_CHECKED>(&mut children[i], call, ctx, steps)?;
    }
    Ok(())
}

// Takes documents in the collector of a node, and gives what it is to hand on: what waits, if that
// is much or all is to be handed down.
fn take_at<L: Ledger, const STARTS_CHECKED: bool>(
    node: &mut SegmentCollectorTree<'_>,
    call: Call<'_>,
    ctx: &PerRequestAggSegCtx<'_>,
    steps: &mut Steps<L>,
) -> Result<Option<ItemList<Batch>>, CollectError>
    requires meant { (meaning : Meaning) × IsMeant meaning ctx.now }
    requires fits { Fits ctx.now (held_of node.old) }
    requires range { IsTrue STARTS_CHECKED
        → TakesInRange ctx.now (pairs_in call) (held_of node.old) }
    ensures ok { IfOk result (λ down. TakesAt ctx.now (pairs_in call.entry)
        (parents_in call.entry) (is_flush call.entry) (held_of node.old) down
        (held_of node.new) steps.old steps.new) }
    ensures refused { IfErr result (IsRefused ctx.now (pairs_in call.entry)
        (parents_in call.entry) (held_of node.old)) }
    ensures most { TakesMost ctx.now (pairs_in call.entry) (held_of node.old) steps.old
        steps.new }
    ensures later { steps.old ≤ steps.new }
{
    let index = index_of(node);
    match node {
        SegmentCollectorTree::Composite(_, collector, _) => {
            let req = &ctx.composite_req_data.as_slice()[index];
            take_in_composite::<L, STARTS_CHECKED>(collector, call, req, steps)?;
            if !call.is_flush() && !collector.due() {
                return Ok(None);
            }
            Ok(Some(collector.take()?))
        }
        SegmentCollectorTree::Filter(_, collector, _) => {
            let req = &ctx.filter_req_data.as_slice()[index];
            take_in_filter(collector, call, req)?;
            if !call.is_flush() && !collector.due() {
                return Ok(None);
            }
            Ok(Some(collector.take()?))
        }
        SegmentCollectorTree::Metric(_, collector) => {
            take_in_metric(collector, call)?;
            Ok(None)
        }
        SegmentCollectorTree::Group(_) => Ok(None),
    }
}

// The index of a node's data, and 0 for a group, which has none.
fn index_of(node: &SegmentCollectorTree<'_>) -> usize
    ensures { result ≡ index_in (held_of node.now) }
{
    match node {
        SegmentCollectorTree::Composite(index, _, _)
        | SegmentCollectorTree::Filter(index, _, _)
        | SegmentCollectorTree::Metric(index, _) => *index,
        SegmentCollectorTree::Group(_) => 0,
    }
}
