//! Collectors of aggregations in a segment, behind one trait.
ghost use Rattle.std.specs.Prelude.{◌≡◌, ◌≤◌, ◌-◌, ◌⊎◌, ◌∷◌, [], ℕ, List, Bool, Some, false, true};
ghost use Rattle.std.specs.Prelude.{IfErr, IfOk, IsErrOf, OnErr, OnOk, length, zip};
ghost use Rattle.agg_cache.specs.Limits.{Grown, Limits, charged};
ghost use Rattle.agg_cache.specs.Waiting.{under};
ghost use Rattle.agg_cache.specs.declared.error.CollectError as declared;
ghost use Rattle.agg_engine_tree.specs.segment_context.Context.{IsMeant, Meaning};
ghost use Rattle.agg_engine_tree.specs.declared.segment_context.context.AggregationsSegmentCtx
    as context;
ghost use Rattle.agg_results.specs.intermediate_results.Intermediate.{Held as Results};
ghost use Rattle.agg_engine_tree.specs.collector_tree.Prepared.{IsPrepared};
ghost use Rattle.agg_engine_tree.specs.collector_tree.Refusals.{IsRefused};
ghost use Rattle.agg_engine_tree.specs.collector_tree.Tree.{Fits, Takes, held_of};
ghost use Rattle.agg_engine_tree.specs.tree_results.Results.{Adds, MayAdd};
ghost use Rattle.agg_engine_tree.specs.held_bytes.HeldBytes.{held_bytes};
ghost use Rattle.agg_engine.specs.collectors.Trees.{IsGrowthRefusal, IsTreeRefusal};

use agg_cache::{AggregationLimitsGuard, BucketId, CollectError, LimitsLedger};
use agg_engine_tree::collector_tree::{Call, SegmentCollectorTree, hand, prepare};
use agg_engine_tree::held_bytes::held_bytes;
use agg_engine_tree::segment_context::{AggregationsSegmentCtx, PerRequestAggSegCtx};
use agg_engine_tree::tree_results::add_results;
use agg_results::IntermediateAggregationResults;
use agg_values::{DocId, OutOfMemory, Steps};
use std::sync::ledger::Ledger;

/// Collectors of aggregations in a segment. Each call gets the same data, with which they were
/// made. The bytes by which their buckets grow are charged to the guard and to the ledger, which
/// has at least the guard's in use.
pub trait SegmentAggregationCollector: Drop {
    /// The data is that of these collectors.
    ghost fits: { context.AggregationsSegmentCtx → Self → Type 0 };

    /// They took documents under parents, by so many steps; nothing waits where all was to be
    /// handed down.
    ghost takes: { context.AggregationsSegmentCtx → List (ℕ × ℕ) → Bool → Self → Self → ℕ → ℕ
        → Type 0 };

    /// The bytes that their buckets take.
    ghost holds: { context.AggregationsSegmentCtx → Self → ℕ };

    /// Why they refuse documents under parents, which may be these, where a ledger stands so.
    ghost refuses: { context.AggregationsSegmentCtx → Limits → List (ℕ × ℕ) → List ℕ → Self
        → declared.CollectError → Type 0 };

    /// Parents up to this one are prepared.
    ghost is_prepared: { ℕ → Self → Type 0 };

    /// They may add their results to others: nothing waits in them, and the others hold none of
    /// their names.
    ghost may_add: { context.AggregationsSegmentCtx → Self → Results → Type 0 };

    /// Their results for a parent were added to others.
    ghost adds: { context.AggregationsSegmentCtx → Self → ℕ → Results → Results → Type 0 };

    /// Adds the results for a parent, each under its name: over no documents for a parent that
    /// isn't prepared.
    fn add_intermediate_aggregation_result(
        &mut self,
        agg_data: &AggregationsSegmentCtx<'_>,
        results: &mut IntermediateAggregationResults,
        parent_bucket_id: BucketId,
    ) -> Result<(), CollectError>
        requires { may_add agg_data.now self.old results.old.results }
        ensures ok { OnOk result
            (adds agg_data.now self.old parent_bucket_id results.old.results results.new.results) }
        ensures err { IfErr result (λ error. error ≡ CollectError.OutOfMemory) }
        ensures same { self.new ≡ self.old };

    /// Takes documents under a parent.
    fn collect<L: Ledger>(
        &mut self,
        parent_bucket_id: BucketId,
        docs: &[DocId],
        agg_data: &AggregationsSegmentCtx<'_>,
        limits: &mut LimitsLedger,
        guard: &mut AggregationLimitsGuard,
        steps: &mut Steps<L>,
    ) -> Result<(), CollectError>
        requires fits { fits agg_data.now self.old }
        requires held { guard.old ≤ limits.old.in_use }
        ensures ok { OnOk result (takes agg_data.now (under parent_bucket_id docs.now) false
            self.old self.new steps.old steps.new) }
        ensures cause { IfErr result (refuses agg_data.now limits.old
            (under parent_bucket_id docs.now) (parent_bucket_id ∷ []) self.old) }
        ensures charged { OnOk result (limits.new ≡ charged
            (holds agg_data.now self.new - holds agg_data.now self.old) limits.old) }
        ensures kept { OnErr result (limits.new ≡ limits.old) }
        ensures grown { Grown limits.old limits.new guard.old guard.new }
        ensures later { steps.old ≤ steps.new };

    /// Takes documents, each under the parent at its index, one by one.
    fn collect_multiple<L: Ledger>(
        &mut self,
        bucket_ids: &[BucketId],
        docs: &[DocId],
        agg_data: &AggregationsSegmentCtx<'_>,
        limits: &mut LimitsLedger,
        guard: &mut AggregationLimitsGuard,
        steps: &mut Steps<L>,
    ) -> Result<(), CollectError>
        requires fits { fits agg_data.now self.old }
        requires lengths { length bucket_ids.now ≡ length docs.now }
        requires held { guard.old ≤ limits.old.in_use }
        ensures ok { OnOk result (takes agg_data.now (zip bucket_ids.now docs.now) false
            self.old self.new steps.old steps.new) }
        ensures cause { IfErr result (refuses agg_data.now limits.old
            (zip bucket_ids.now docs.now) bucket_ids.now self.old) }
        ensures charged { OnOk result (limits.new ≡ charged
            (holds agg_data.now self.new - holds agg_data.now self.old) limits.old) }
        ensures kept { OnErr result (limits.new ≡ limits.old) }
        ensures grown { Grown limits.old limits.new guard.old guard.new }
        ensures later { steps.old ≤ steps.new };

    /// Prepares parents up to this one.
    fn prepare_max_bucket(
        &mut self,
        max_bucket: BucketId,
        agg_data: &AggregationsSegmentCtx<'_>,
    ) -> Result<(), CollectError>
        requires { fits agg_data.now self.old }
        ensures ok { OnOk result ((steps : ℕ)
            → takes agg_data.now [] false self.old self.new steps steps) }
        ensures prepared { OnOk result (is_prepared max_bucket self.new) }
        ensures errors { IfErr result
            (λ error. (error ≡ CollectError.TooMany) ⊎ (error ≡ CollectError.OutOfMemory)) }
        ensures too_many { IsErrOf result CollectError.TooMany → max_bucket ≡ 4294967295 };

    /// Hands all that waits down.
    fn flush<L: Ledger>(
        &mut self,
        agg_data: &AggregationsSegmentCtx<'_>,
        limits: &mut LimitsLedger,
        guard: &mut AggregationLimitsGuard,
        steps: &mut Steps<L>,
    ) -> Result<(), CollectError>
        requires fits { fits agg_data.now self.old }
        requires held { guard.old ≤ limits.old.in_use }
        ensures ok { OnOk result
            (takes agg_data.now [] true self.old self.new steps.old steps.new) }
        ensures cause { IfErr result (refuses agg_data.now limits.old [] [] self.old) }
        ensures charged { OnOk result (limits.new ≡ charged
            (holds agg_data.now self.new - holds agg_data.now self.old) limits.old) }
        ensures kept { OnErr result (limits.new ≡ limits.old) }
        ensures grown { Grown limits.old limits.new guard.old guard.new }
        ensures later { steps.old ≤ steps.new };
}

impl SegmentAggregationCollector for SegmentCollectorTree<'_> {
    ghost fits = { λ ctx tree. ((meaning : Meaning) × IsMeant meaning ctx.per_request)
        × Fits ctx.per_request (held_of tree) };

    ghost takes = { λ ctx pairs all old new steps steps_now.
        Takes ctx.per_request pairs all (held_of old) (held_of new) steps steps_now };

    ghost holds = { λ ctx tree. held_bytes ctx.per_request (held_of tree) };

    ghost refuses = { λ ctx limits pairs parents old error.
        IsTreeRefusal ctx.per_request limits pairs parents (held_of old) error };

    ghost is_prepared = { λ max_bucket tree. IsPrepared max_bucket (held_of tree) };

    ghost may_add = { λ ctx tree results. MayAdd ctx.per_request (held_of tree) results };

    ghost adds = { λ ctx tree parent old new.
        Adds ctx.per_request (held_of tree) (Some parent) old new };

    fn add_intermediate_aggregation_result(
        &mut self,
        agg_data: &AggregationsSegmentCtx<'_>,
        results: &mut IntermediateAggregationResults,
        parent_bucket_id: BucketId,
    ) -> Result<(), CollectError> {
        let alloc = results.allocator();
        add_results(
            alloc,
            self,
            &agg_data.per_request,
            results,
            parent_bucket_id,
        )?;
        Ok(())
    }

    fn collect<L: Ledger>(
        &mut self,
        parent_bucket_id: BucketId,
        docs: &[DocId],
        agg_data: &AggregationsSegmentCtx<'_>,
        limits: &mut LimitsLedger,
        guard: &mut AggregationLimitsGuard,
        steps: &mut Steps<L>,
    ) -> Result<(), CollectError> {
        let ctx = &agg_data.per_request;
        let before = bytes_of(self, ctx)?;
        hand::<L, false>(self, Call::Collect(parent_bucket_id, docs), ctx, steps)?;
        charge_growth(self, before, ctx, limits, guard)
    }

    fn collect_multiple<L: Ledger>(
        &mut self,
        bucket_ids: &[BucketId],
        docs: &[DocId],
        agg_data: &AggregationsSegmentCtx<'_>,
        limits: &mut LimitsLedger,
        guard: &mut AggregationLimitsGuard,
        steps: &mut Steps<L>,
    ) -> Result<(), CollectError> {
        let ctx = &agg_data.per_request;
        let before = bytes_of(self, ctx)?;
        hand_each(self, bucket_ids, docs, ctx, steps)?;
        charge_growth(self, before, ctx, limits, guard)
    }

    fn prepare_max_bucket(
        &mut self,
        max_bucket: BucketId,
        _agg_data: &AggregationsSegmentCtx<'_>,
    ) -> Result<(), CollectError> {
        prepare(self, max_bucket)
    }

    fn flush<L: Ledger>(
        &mut self,
        agg_data: &AggregationsSegmentCtx<'_>,
        limits: &mut LimitsLedger,
        guard: &mut AggregationLimitsGuard,
        steps: &mut Steps<L>,
    ) -> Result<(), CollectError> {
        let ctx = &agg_data.per_request;
        let before = bytes_of(self, ctx)?;
        hand::<L, false>(self, Call::Flush, ctx, steps)?;
        charge_growth(self, before, ctx, limits, guard)
    }
}

// Hands documents down, each under the parent at its index, one by one.
fn hand_each<L: Ledger>(
    tree: &mut SegmentCollectorTree<'_>,
    bucket_ids: &[BucketId],
    docs: &[DocId],
    ctx: &PerRequestAggSegCtx<'_>,
    steps: &mut Steps<L>,
) -> Result<(), CollectError>
    requires meant { (meaning : Meaning) × IsMeant meaning ctx.now }
    requires fits { Fits ctx.now (held_of tree.old) }
    requires lengths { length bucket_ids.now ≡ length docs.now }
    ensures ok { OnOk result (Takes ctx.now (zip bucket_ids.now docs.now) false
        (held_of tree.old) (held_of tree.new) steps.old steps.new) }
    ensures refused { IfErr result (IsRefused ctx.now (zip bucket_ids.now docs.now)
        bucket_ids.now (held_of tree.old)) }
    ensures later { steps.old ≤ steps.new }
{
    for (bucket_id, doc) in bucket_ids.iter().zip(docs) {
        hand::<L, false>(tree, Call::Collect(*bucket_id, &[*doc]), ctx, steps)?;
    }
    Ok(())
}

// The bytes that the buckets of a tree take. No memory has room for more than u64 counts.
fn bytes_of(
    tree: &SegmentCollectorTree<'_>,
    ctx: &PerRequestAggSegCtx<'_>,
) -> Result<u64, OutOfMemory>
    requires meant { (meaning : Meaning) × IsMeant meaning ctx.now }
    requires fits { Fits ctx.now (held_of tree.now) }
    ensures { IfOk result (λ bytes. bytes ≡ held_bytes ctx.now (held_of tree.now)) }
{
    held_bytes(tree, ctx).ok_or(OutOfMemory)
}

// Charges the bytes by which the buckets of a tree have grown since they took so many.
fn charge_growth(
    tree: &SegmentCollectorTree<'_>,
    before: u64,
    ctx: &PerRequestAggSegCtx<'_>,
    limits: &mut LimitsLedger,
    guard: &mut AggregationLimitsGuard,
) -> Result<(), CollectError>
    requires meant { (meaning : Meaning) × IsMeant meaning ctx.now }
    requires fits { Fits ctx.now (held_of tree.now) }
    requires held { guard.old ≤ limits.old.in_use }
    ensures cause { IfErr result
        (IsGrowthRefusal (held_bytes ctx.now (held_of tree.now) - before) limits.old) }
    ensures charged { OnOk result (limits.new
        ≡ charged (held_bytes ctx.now (held_of tree.now) - before) limits.old) }
    ensures kept { OnErr result (limits.new ≡ limits.old) }
    ensures grown { Grown limits.old limits.new guard.old guard.new }
{
    let after = bytes_of(tree, ctx)?;
    guard.add_memory_consumed(limits, after.saturating_sub(before))?;
    Ok(())
}
