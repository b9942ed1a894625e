//! A tree of collectors whose bytes are charged.
ghost use Rattle.std.specs.Prelude.{◌≡◌, ◌≤◌, ◌+◌, ◌*◌, [], ℕ, List, IfErr, IfOk, OnErr, OnOk};
ghost use Rattle.std.specs.Prelude.{false, length, map, true};
ghost use Rattle.agg_cache.specs.Limits.{charged};
ghost use Rattle.agg_cache.specs.Waiting.{under};
ghost use Rattle.agg_request_tree.specs.charges.Charges as charges;
ghost use Rattle.agg_request_tree.specs.charges.Charges.{fixed_charge};
ghost use Rattle.agg_request_tree.specs.Faults.{max_sources};
ghost use Rattle.agg_request_tree.specs.Request.{Request};
ghost use Rattle.agg_segment.specs.Segment.{documents_of};
ghost use Rattle.agg_segment.specs.declared.query.QueryTree.{QueryTree};
ghost use Rattle.agg_engine_tree.specs.segment_context.Context.{IsContextOf, IsMeant, Meaning};
ghost use Rattle.agg_engine_tree.specs.segment_context.Plan.{plan_of, plans_of};
ghost use Rattle.agg_engine_tree.specs.collector_tree.Refusals.{AreNotLast};
ghost use Rattle.agg_engine_tree.specs.collector_tree.Call.{is_flush, pairs_in, parents_in};
ghost use Rattle.agg_engine_tree.specs.collector_tree.Tree.{Fits, IsFlushed, IsFor, IsGroupOf};
ghost use Rattle.agg_engine_tree.specs.collector_tree.Tree.{Takes, held_of};
ghost use Rattle.agg_engine_tree.specs.held_bytes.Checked.{IsChecked};
ghost use Rattle.agg_engine_tree.specs.held_bytes.HeldBytes.{held_bytes};
ghost use Rattle.agg_engine.specs.snapshot_results.ChargedTrees.{ChargesAnew, IsChargeCause};
ghost use Rattle.agg_engine.specs.snapshot_results.ChargedTrees.{IsCharged, IsFixedCause};
ghost use Rattle.agg_engine.specs.snapshot_results.ChargedTrees.{IsHeldCause};
ghost use Rattle.agg_engine.specs.snapshot_results.Trees.{MayTake, MostSteps};

use crate::snapshot_results::ChargeError;
use crate::snapshot_results::charge::{charge, charge_bytes, past_64_bits};
use crate::snapshot_results::taking::take;
use agg_cache::{AggregationLimitsGuard, LimitsLedger};
use agg_composite::accessor::CompositeAggReqData;
use agg_engine_tree::collector_tree::{Call, SegmentCollectorTree, tree_for};
use agg_engine_tree::held_bytes::{fixed_bytes, held_bytes};
use agg_engine_tree::segment_context::PerRequestAggSegCtx;
use agg_request_tree::charges::bucket_bytes;
use agg_segment::SegmentReader;
use agg_values::{DocId, Steps};
use std::alloc::Global;
use std::mem;
use std::sync::ledger::Ledger;

// A collector keeps some bytes for each visit of a call, so it gets at most so many documents.
const BLOCK: usize = 4_096;

/// A tree of collectors in a segment. What its request takes for itself is charged when it is made,
/// and the bytes of its buckets each time that it took documents. All is given back in the end.
#[derive(Drop)]
pub struct ChargedTree<'s> {
    tree: SegmentCollectorTree<'s>,
    fixed: u64,
    guard: AggregationLimitsGuard,
}

impl<'s> ChargedTree<'s> {
    /// The tree of a context's nodes in a segment, which took no document. A refusal leaves the
    /// ledger as it was.
    pub fn new(
        alloc: Global,
        ctx: &PerRequestAggSegCtx<'_>,
        segment: &'s SegmentReader,
        limits: &mut LimitsLedger,
    ) -> Result<ChargedTree<'s>, ChargeError>
        requires { (meaning : Meaning) × (request : Request QueryTree)
            × (meaning.segment ≡ segment.now) × IsContextOf meaning ctx.now request }
        ensures nodes { IfOk result
            (λ it. IsGroupOf (plans_of (map plan_of ctx.now.agg_tree)) (held_of it.tree)) }
        ensures fits { IfOk result (λ it. Fits ctx.now (held_of it.tree)) }
        ensures right { IfOk result (λ it. (meaning : Meaning) → meaning.segment ≡ segment.now
            → IsMeant meaning ctx.now → IsFor meaning ctx.now (held_of it.tree) [] 0) }
        ensures flushed { IfOk result (λ it. IsFlushed (held_of it.tree)) }
        ensures fixed { IfOk result (λ it. (meaning : Meaning) (request : Request QueryTree)
            → meaning.segment ≡ segment.now → IsContextOf meaning ctx.now request
            → it.fixed ≡ fixed_charge request (length (documents_of segment.now))) }
        ensures guard { IfOk result (λ it. it.guard ≡ it.fixed) }
        ensures exact { IfOk result (IsCharged ctx.now) }
        ensures ledger { IfOk result (λ it. limits.new ≡ charged it.fixed limits.old) }
        ensures within { OnOk result (limits.new.in_use ≤ limits.new.memory_limit) }
        ensures cause { (meaning : Meaning) (request : Request QueryTree)
            → meaning.segment ≡ segment.now → IsContextOf meaning ctx.now request
            → IfErr result (IsFixedCause
            (fixed_charge request (length (documents_of segment.now))) limits.old) }
        ensures kept { OnErr result (limits.new ≡ limits.old) }
    {
        let tree = tree_for(alloc, ctx, segment)?;
        let mut guard = limits.guard();
        let fixed = charge(&mut guard, fixed_bytes(ctx), limits)?;
        Ok(ChargedTree { tree, fixed, guard })
    }

    /// Takes documents of the segment under the first parent, a block of them at a time.
    pub fn take_blocks<L: Ledger>(
        &mut self,
        docs: &[DocId],
        ctx: &PerRequestAggSegCtx<'_>,
        limits: &mut LimitsLedger,
        steps: &mut Steps<L>,
    ) -> Result<(), ChargeError>
        requires may { MayTake ctx.now (held_of self.old.tree) (under 0 docs.now) }
        requires exact { IsCharged ctx.now self.old }
        requires charged { self.old.guard ≤ limits.old.in_use }
        ensures takes { OnOk result (Takes ctx.now (under 0 docs.now) false (held_of self.old.tree)
            (held_of self.new.tree) steps.old steps.new) }
        ensures most { MostSteps ctx.now (under 0 docs.now) (held_of self.old.tree)
            steps.old steps.new }
        ensures later { steps.old ≤ steps.new }
        ensures charges { ChargesAnew self.old self.new limits.old limits.new }
        ensures exact { OnOk result (IsCharged ctx.now self.new) }
        ensures within { OnOk result (limits.new.in_use ≤ limits.new.memory_limit) }
        ensures cause { IfErr result
            (IsChargeCause ctx.now (under 0 docs.now) self.old limits.old) }
    {
        if docs.len() <= BLOCK {
            return self.take(Call::Collect(0, docs), ctx, limits, steps);
        }
        let (first, second) = docs.split_at(docs.len() / 2);
        self.take_blocks(first, ctx, limits, steps)?;
        self.take_blocks(second, ctx, limits, steps)
    }

    /// Hands all that waits down.
    pub fn flush<L: Ledger>(
        &mut self,
        ctx: &PerRequestAggSegCtx<'_>,
        limits: &mut LimitsLedger,
        steps: &mut Steps<L>,
    ) -> Result<(), ChargeError>
        requires may { MayTake ctx.now (held_of self.old.tree) [] }
        requires exact { IsCharged ctx.now self.old }
        requires charged { self.old.guard ≤ limits.old.in_use }
        ensures takes { OnOk result (Takes ctx.now [] true (held_of self.old.tree)
            (held_of self.new.tree) steps.old steps.new) }
        ensures most { MostSteps ctx.now [] (held_of self.old.tree) steps.old steps.new }
        ensures later { steps.old ≤ steps.new }
        ensures charges { ChargesAnew self.old self.new limits.old limits.new }
        ensures exact { OnOk result (IsCharged ctx.now self.new) }
        ensures within { OnOk result (limits.new.in_use ≤ limits.new.memory_limit) }
        ensures cause { IfErr result (IsChargeCause ctx.now [] self.old limits.old) }
    {
        self.take(Call::Flush, ctx, limits, steps)
    }

    /// Charges so many buckets of a composite, which the tree need not hold. A refusal leaves the
    /// tree and the ledger as they were.
    pub fn charge_buckets(
        &mut self,
        req: &CompositeAggReqData<'_>,
        buckets: usize,
        limits: &mut LimitsLedger,
    ) -> Result<(), ChargeError>
        requires few { length req.now.req.now.sources ≤ max_sources }
        requires charged { self.old.guard ≤ limits.old.in_use }
        ensures tree { self.new.tree ≡ self.old.tree }
        ensures charges { ChargesAnew self.old self.new limits.old limits.new }
        ensures exact { OnOk result (self.new.guard
            ≡ self.old.guard + charges.bucket_bytes req.now.req.now * buckets) }
        ensures within { OnOk result (limits.new.in_use ≤ limits.new.memory_limit) }
        ensures cause { IfErr result
            (IsFixedCause (charges.bucket_bytes req.now.req.now * buckets) limits.old) }
        ensures kept { OnErr result (limits.new ≡ limits.old) }
        ensures guard_kept { OnErr result (self.new.guard ≡ self.old.guard) }
    {
        let bytes = bucket_bytes(req.req).checked_mul(buckets as u64);
        charge(&mut self.guard, bytes, limits)?;
        Ok(())
    }

    /// Takes the tree out, which leaves one without nodes. What is charged for it stays charged.
    pub fn take_tree(&mut self, alloc: Global) -> SegmentCollectorTree<'s>
        ensures tree { result ≡ self.old.tree }
        ensures fixed { self.new.fixed ≡ self.old.fixed }
        ensures guard { self.new.guard ≡ self.old.guard }
    {
        mem::replace(&mut self.tree, SegmentCollectorTree::Group(Vec::new(alloc)))
    }

    /// The bytes that are charged for it.
    pub fn allocated(&self) -> u64
        ensures { result ≡ self.now.guard }
    {
        self.guard.allocated()
    }

    /// Gives what is charged for it back to the ledger, which has at least these bytes in use.
    pub fn give_back(self, limits: &mut LimitsLedger)
        requires { self.guard ≤ limits.old.in_use }
        ensures in_use { limits.new.in_use + self.entry.guard ≡ limits.old.in_use }
        ensures memory { limits.new.memory_limit ≡ limits.old.memory_limit }
        ensures buckets { limits.new.bucket_limit ≡ limits.old.bucket_limit }
    {
        let ChargedTree { guard, .. } = self;
        guard.give_back(limits);
    }

    // Takes documents, or hands down all that waits, and charges the tree anew.
    fn take<L: Ledger>(
        &mut self,
        call: Call<'_>,
        ctx: &PerRequestAggSegCtx<'_>,
        limits: &mut LimitsLedger,
        steps: &mut Steps<L>,
    ) -> Result<(), ChargeError>
        requires may { MayTake ctx.now (held_of self.old.tree) (pairs_in call) }
        requires low { AreNotLast (parents_in call) }
        requires exact { IsCharged ctx.now self.old }
        requires charged { self.old.guard ≤ limits.old.in_use }
        ensures takes { OnOk result (Takes ctx.now (pairs_in call.entry)
            (is_flush call.entry) (held_of self.old.tree) (held_of self.new.tree) steps.old
            steps.new) }
        ensures most { MostSteps ctx.now (pairs_in call.entry) (held_of self.old.tree)
            steps.old steps.new }
        ensures later { steps.old ≤ steps.new }
        ensures charges { ChargesAnew self.old self.new limits.old limits.new }
        ensures exact { OnOk result (IsCharged ctx.now self.new) }
        ensures within { OnOk result (limits.new.in_use ≤ limits.new.memory_limit) }
        ensures cause { IfErr result
            (IsChargeCause ctx.now (pairs_in call.entry) self.old limits.old) }
    {
        take(&mut self.tree, call, ctx, steps)?;
        self.charge_growth(ctx, limits)
    }

    // Charges what the tree takes now beyond what is charged for it. A refusal charges nothing.
    fn charge_growth(
        &mut self,
        ctx: &PerRequestAggSegCtx<'_>,
        limits: &mut LimitsLedger,
    ) -> Result<(), ChargeError>
        requires meant { (meaning : Meaning) × IsMeant meaning ctx.now }
        requires fits { Fits ctx.now (held_of self.old.tree) }
        requires charged { self.old.guard ≤ limits.old.in_use }
        requires grown { self.old.guard ≤ self.old.fixed
            + held_bytes ctx.now (held_of self.old.tree) }
        ensures tree { self.new.tree ≡ self.old.tree }
        ensures charges { ChargesAnew self.old self.new limits.old limits.new }
        ensures exact { OnOk result (IsCharged ctx.now self.new) }
        ensures within { OnOk result (limits.new.in_use ≤ limits.new.memory_limit) }
        ensures cause { IfErr result (IsHeldCause ctx.now self.old limits.old) }
        ensures kept { OnErr result (limits.new ≡ limits.old) }
    {
        let Some(bytes) = self.bytes(ctx) else {
            return Err(past_64_bits(limits));
        };
        let more = bytes - self.guard.allocated();
        charge_bytes(&mut self.guard, more, limits)
    }

    // What the request takes for itself, and the bytes of the tree's buckets.
    fn bytes(&self, ctx: &PerRequestAggSegCtx<'_>) -> Option<u64>
        requires meant { (meaning : Meaning) × IsMeant meaning ctx.now }
        requires fits { Fits ctx.now (held_of self.now.tree) }
        ensures { IsChecked (self.now.fixed + held_bytes ctx.now (held_of self.now.tree)) result }
    {
        self.fixed.checked_add(held_bytes(&self.tree, ctx)?)
    }
}
