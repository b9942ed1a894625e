//! The collector that groups the documents of a segment.
ghost use Rattle.std.specs.Prelude.{◌≡◌, ◌≤◌, ◌<◌, ◌+◌, ◌-◌, ◌*◌, ◌++◌, ◌^◌, [], ℕ, List};
ghost use Rattle.std.specs.Prelude.{IfOk, IsErrOf, OnErr, OnOk, false, length, true};
ghost use Rattle.agg_values.specs.Names.{Named};
ghost use Rattle.agg_values.specs.declared.after_key.AfterKey.{AfterKey};
ghost use Rattle.agg_cache.specs.Limits.{Grown, IsExceeded};
ghost use Rattle.agg_cache.specs.Waiting.{docs_of, is_id};
ghost use Rattle.agg_segment.specs.Segment.{Stored};
ghost use Rattle.agg_request_tree.specs.Faults.{max_sources};
ghost use Rattle.agg_request_tree.specs.charges.Charges as spec;
ghost use Rattle.agg_composite.specs.accessor.Accessors.{Fits};
ghost use Rattle.agg_composite.specs.accessor.Ranges.{AreAllInRange};
ghost use Rattle.agg_composite.specs.declared.accessor.request_data.CompositeAggReqData as declared;
ghost use Rattle.agg_composite.specs.buckets.Node.{Prepares};
ghost use Rattle.agg_composite.specs.Charged.{AnswersRangeOrLimit, Charges, IfLimit, OpenedBytes};
ghost use Rattle.agg_composite.specs.Charged.{more_bytes};
ghost use Rattle.agg_composite.specs.HeldTuples.{HoldsTuplesOf};
ghost use Rattle.agg_composite.specs.Visits.{AnswersRange, TypedVisit, visits_past};

mod giving;

use crate::accessor::CompositeAggReqData;
use crate::buckets::VisitError;
use crate::tuple_buckets::TupleBuckets;
use agg_cache::{
    AggregationLimitsGuard, BucketId, CachedSubAggs, CollectError, LimitsLedger, SubAggCache,
};
use agg_request_tree::CompositeAggregation;
use agg_request_tree::charges::bucket_bytes;
use agg_values::{DocId, OutOfMemory, Steps};
use std::alloc::Global;
use std::marker::Model;
use std::sync::ledger::Ledger;

/// Groups the documents of a segment by the tuples of a composite, under parents: at most a page of
/// buckets for each. It keeps the documents of each bucket under its id, until they are handed on.
/// Each call of one collector has to get the same request data.
#[derive(Drop)]
pub struct SegmentCompositeCollector<C: SubAggCache> {
    alloc: Global,
    buckets: TupleBuckets,
    cache: CachedSubAggs<C>,
    hands_on: bool,
}

impl<C: SubAggCache> Model for SegmentCompositeCollector<C> {
    ghost use Rattle.agg_composite.specs.Composite.{Composite};
    ghost use Rattle.agg_composite.specs.TupleBuckets.{node_of, room_of};

    ghost Value = { Composite C };

    ghost view = { λ collector. record {
      room = room_of collector.buckets;
      node = node_of collector.buckets;
      cache = collector.cache;
      hands_on = collector.hands_on;
    } };
}

impl<C: SubAggCache> SegmentCompositeCollector<C> {
    ghost use Rattle.agg_composite.specs.Composite.{AnswersCollect, AnswersVisits, CompositeFor};
    ghost use Rattle.agg_composite.specs.Composite.{CompositeTakes, num_buckets, page_of};

    /// A collector for a composite of so many sources, which has visited nothing. It hands
    /// documents on.
    pub fn new(
        alloc: Global,
        num_sources: usize,
    ) -> Result<SegmentCompositeCollector<C>, OutOfMemory>
        requires some { 1 ≤ num_sources }
        requires few { num_sources ≤ max_sources }
        ensures empty { IfOk result (λ collector. (req : declared.CompositeAggReqData)
            → CompositeFor C.waiting req collector [] []) }
        ensures tuples { IfOk result (λ collector. (req : declared.CompositeAggReqData)
            → HoldsTuplesOf req collector) }
        ensures parents { IfOk result (λ collector. length collector.node.parents ≡ 1) }
        ensures room { IfOk result (λ collector. num_sources ≤ collector.room) }
        ensures waiting { IfOk result (λ collector. (id : ℕ)
            → C.waiting collector.cache.0 id ≡ []) }
        ensures hands_on { IfOk result (λ collector. collector.hands_on ≡ true) }
    {
        Ok(SegmentCompositeCollector {
            alloc,
            buckets: TupleBuckets::new(alloc, num_sources)?,
            cache: CachedSubAggs::new(alloc),
            hands_on: true,
        })
    }

    /// A collector for a composite with nothing below it, which has visited nothing and hands no
    /// document on.
    pub fn new_leaf(
        alloc: Global,
        num_sources: usize,
    ) -> Result<SegmentCompositeCollector<C>, OutOfMemory>
        requires some { 1 ≤ num_sources }
        requires few { num_sources ≤ max_sources }
        ensures empty { IfOk result (λ collector. (req : declared.CompositeAggReqData)
            → CompositeFor C.waiting req collector [] []) }
        ensures tuples { IfOk result (λ collector. (req : declared.CompositeAggReqData)
            → HoldsTuplesOf req collector) }
        ensures parents { IfOk result (λ collector. length collector.node.parents ≡ 1) }
        ensures room { IfOk result (λ collector. num_sources ≤ collector.room) }
        ensures waiting { IfOk result (λ collector. (id : ℕ)
            → C.waiting collector.cache.0 id ≡ []) }
        ensures hands_on { IfOk result (λ collector. collector.hands_on ≡ false) }
    {
        Ok(SegmentCompositeCollector {
            alloc,
            buckets: TupleBuckets::new(alloc, num_sources)?,
            cache: CachedSubAggs::new(alloc),
            hands_on: false,
        })
    }

    /// Expects so many buckets of the first parent. Once many came, it takes memory for all of
    /// these at once, since each growth moves all buckets.
    pub fn expect(&mut self, num_buckets: usize)
        ensures { self.new ≡ self.old }
    {
        self.buckets.expect(num_buckets);
    }

    /// Prepares parents up to this one.
    pub fn prepare_max_bucket(&mut self, max_bucket: BucketId) -> Result<(), OutOfMemory>
        ensures prepared { OnOk result (max_bucket < length self.new.node.parents) }
        ensures parents { Prepares self.old.node self.new.node }
        ensures rest { self.new ≡ record self.old { node = self.new.node } }
        ensures right { (req : declared.CompositeAggReqData) (visited : List TypedVisit)
            (given : List (ℕ × ℕ)) → CompositeFor C.waiting req self.old visited given
            → CompositeFor C.waiting req self.new visited given }
        ensures tuples { (req : declared.CompositeAggReqData) → HoldsTuplesOf req self.old
            → HoldsTuplesOf req self.new }
    {
        self.buckets.prepare(max_bucket)
    }

    /// Visits the tuples of the documents of these numbers that lie past the bound, under a parent,
    /// and charges the buckets that it holds more than before, so none for one that takes another's
    /// place. It is refused as `collect_uncharged` is, and exactly where the ledger would have more
    /// in use than its limit. A refused call charges nothing.
    pub fn collect<L: Ledger>(
        &mut self,
        parent_bucket_id: BucketId,
        docs: &[DocId],
        req: &CompositeAggReqData<'_>,
        limits: &mut LimitsLedger,
        guard: &mut AggregationLimitsGuard,
        steps: &mut Steps<L>,
    ) -> Result<(), CollectError>
        requires parent { parent_bucket_id < length self.old.node.parents }
        requires fits { (segment : Stored) × (after : Named AfterKey) × Fits segment after req.now }
        requires room { length req.now.req.now.sources ≤ self.old.room }
        requires guard { guard.old ≤ limits.old.in_use }
        ensures visits { (segment : Stored) (after : Named AfterKey) → Fits segment after req.now
            → AnswersCollect C.waiting req.now
            (visits_past req.now.req.now.sources segment after parent_bucket_id docs.now)
            self.old self.new steps.old steps.new result }
        ensures many { (segment : Stored) (after : Named AfterKey) → Fits segment after req.now
            → (visited : List TypedVisit) (given : List (ℕ × ℕ))
            → CompositeFor C.waiting req.now self.old visited given
            → IsErrOf result CollectError.TooMany
            → 2 ^ 32 ≤ length visited + length
            (visits_past req.now.req.now.sources segment after parent_bucket_id docs.now) }
        ensures range { (segment : Stored) (after : Named AfterKey) → Fits segment after req.now
            → AnswersRangeOrLimit (AreAllInRange segment req.now.req.now.sources docs.now) result }

        // The bytes of the buckets that the parent has more, as it has the cut.
        ensures opened { (segment : Stored) (after : Named AfterKey) → Fits segment after req.now
            → (visited : List TypedVisit) (given : List (ℕ × ℕ))
            → CompositeFor C.waiting req.now self.old visited given
            → Charges (OpenedBytes req.now parent_bucket_id (page_of self.old parent_bucket_id)
            (visits_past req.now.req.now.sources segment after parent_bucket_id docs.now))
            limits.old limits.new guard.old guard.new result }

        // They are those of what the collector holds more, also where they are refused.
        ensures held { OnOk result
            (limits.new.in_use + spec.bucket_bytes req.now.req.now * num_buckets self.old
            ≡ limits.old.in_use + spec.bucket_bytes req.now.req.now * num_buckets self.new) }
        ensures limit { (segment : Stored) (after : Named AfterKey) → Fits segment after req.now
            → IfLimit (λ error. CompositeTakes C.waiting req.now
            (visits_past req.now.req.now.sources segment after parent_bucket_id docs.now)
            self.old self.new × IsExceeded (more_bytes req.now self.old self.new) limits.old error)
            result }

        ensures grown { Grown limits.old limits.new guard.old guard.new }
        ensures tuples { HoldsTuplesOf req.now self.old → HoldsTuplesOf req.now self.new }
        ensures ledger_kept { OnErr result (limits.new ≡ limits.old) }
        ensures guard_kept { OnErr result (guard.new ≡ guard.old) }
    {
        let before = self.num_buckets();
        self.collect_uncharged(parent_bucket_id, docs, req, steps)?;
        guard.add_memory_consumed(limits, self.bytes_since(req.req, before))?;
        Ok(())
    }

    // The bytes of the buckets that it holds more than before.
    fn bytes_since(&self, composite: &CompositeAggregation, before: u64) -> u64
        requires room { length composite.now.sources ≤ self.now.room }
        requires no_fewer { before ≤ num_buckets self.now }
        ensures { result ≡ spec.bucket_bytes composite.now * (num_buckets self.now - before) }
    {
        let num_opened = self.buckets.num_buckets() - before;
        num_opened * bucket_bytes(composite)
    }

    /// Visits the tuples of the documents of these numbers that lie past the bound, under a parent,
    /// by one to three steps each. It is refused where a bucket of what the sources read starts
    /// outside 64 bits. After another error some of them may have been visited.
    pub fn collect_uncharged<L: Ledger>(
        &mut self,
        parent_bucket_id: BucketId,
        docs: &[DocId],
        req: &CompositeAggReqData<'_>,
        steps: &mut Steps<L>,
    ) -> Result<(), CollectError>
        requires parent { parent_bucket_id < length self.old.node.parents }
        requires fits { (segment : Stored) × (after : Named AfterKey) × Fits segment after req.now }
        requires room { length req.now.req.now.sources ≤ self.old.room }
        ensures visits { (segment : Stored) (after : Named AfterKey) → Fits segment after req.now
            → AnswersCollect C.waiting req.now
            (visits_past req.now.req.now.sources segment after parent_bucket_id docs.now)
            self.old self.new steps.old steps.new result }
        ensures many { (segment : Stored) (after : Named AfterKey) → Fits segment after req.now
            → (visited : List TypedVisit) (given : List (ℕ × ℕ))
            → CompositeFor C.waiting req.now self.old visited given
            → IsErrOf result CollectError.TooMany
            → 2 ^ 32 ≤ length visited + length
            (visits_past req.now.req.now.sources segment after parent_bucket_id docs.now) }
        ensures range { (segment : Stored) (after : Named AfterKey) → Fits segment after req.now
            → AnswersRange (AreAllInRange segment req.now.req.now.sources docs.now) result }
        ensures tuples { HoldsTuplesOf req.now self.old → HoldsTuplesOf req.now self.new }
    {
        if !req.are_starts_in_range(docs) {
            return Err(CollectError::BucketOutOfRange);
        }
        self.collect_in_range(parent_bucket_id, docs, req, steps)?;
        Ok(())
    }

    /// Visits the tuples of documents as `collect_uncharged` does, without a look at their starts:
    /// all lie within 64 bits. After an error some of them may have been visited.
    pub fn collect_in_range<L: Ledger>(
        &mut self,
        parent_bucket_id: BucketId,
        docs: &[DocId],
        req: &CompositeAggReqData<'_>,
        steps: &mut Steps<L>,
    ) -> Result<(), VisitError>
        requires parent { parent_bucket_id < length self.old.node.parents }
        requires in_range { (segment : Stored) × (after : Named AfterKey)
            × Fits segment after req.now
            × AreAllInRange segment req.now.req.now.sources docs.now }
        requires room { length req.now.req.now.sources ≤ self.old.room }
        ensures visits { (segment : Stored) (after : Named AfterKey) → Fits segment after req.now
            → AnswersVisits C.waiting req.now
            (visits_past req.now.req.now.sources segment after parent_bucket_id docs.now)
            self.old self.new steps.old steps.new result }
        ensures many { (segment : Stored) (after : Named AfterKey) → Fits segment after req.now
            → (visited : List TypedVisit) (given : List (ℕ × ℕ))
            → CompositeFor C.waiting req.now self.old visited given
            → IsErrOf result VisitError.TooMany
            → 2 ^ 32 ≤ length visited + length
            (visits_past req.now.req.now.sources segment after parent_bucket_id docs.now) }
        ensures tuples { HoldsTuplesOf req.now self.old → HoldsTuplesOf req.now self.new }
    {
        self.buckets
            .begin_parent(parent_bucket_id, req.size as usize);
        self.buckets.visit_documents(self.alloc, docs, req, steps)?;
        if self.hands_on {
            push_all(&mut self.cache, self.buckets.pushes())?;
        }
        Ok(())
    }

    /// How many buckets it holds, of all parents.
    pub fn num_buckets(&self) -> u64
        ensures total { result ≡ num_buckets self.now }
        ensures few { result < 2 ^ 32 }
    {
        self.buckets.num_buckets()
    }
}

// Keeps documents under ids.
fn push_all<C: SubAggCache>(
    cache: &mut CachedSubAggs<C>,
    pushes: &[(BucketId, DocId)],
) -> Result<(), OutOfMemory>
    ensures { OnOk result ((id : ℕ) → C.waiting cache.new.0 id
        ≡ C.waiting cache.old.0 id ++ docs_of (is_id id) pushes.now) }
{
    for (id, doc) in pushes {
        cache.push(*id, *doc)?;
    }
    Ok(())
}
