//! The collector of a filter, by where the filter stands.
ghost use Rattle.std.specs.Prelude.{◌≡◌, ◌≤◌, ◌<◌, ◌+◌, ◌^◌, ◌↔◌, ◌⊎◌, [], ℕ, List, Bool, All};
ghost use Rattle.std.specs.Prelude.{IfErr, IfOk, IsErrOf, IsNone, IsTrue, OnOk, filter, length};
ghost use Rattle.std.specs.Prelude.{not};
ghost use Rattle.agg_cache.specs.Waiting.{under};
ghost use Rattle.agg_filter.specs.Filter.{FilterFor, FilterGives, FilterTakes, Prepares};
ghost use Rattle.agg_filter.specs.Filter.{count_of, id_of};
ghost use Rattle.agg_filter.specs.Matching.{is_matching};
ghost use Rattle.agg_segment.specs.Marks.{AreMarks};
ghost use Rattle.agg_segment.specs.Query.{matches};
ghost use Rattle.agg_segment.specs.Segment.{Stored};
ghost use Rattle.agg_segment.specs.declared.query.QueryTree.{QueryTree};
ghost use Rattle.agg_engine_tree.specs.collector_tree.Caches.{waiting_in};
ghost use Rattle.agg_engine_tree.specs.collector_tree.NewFilter.{IsNewFilter};

use agg_cache::{
    Batch, BucketId, CollectError, HighCardSubAggCache, LowCardSubAggCache, SubAggCache,
};
use agg_filter::{FilterAggReqData, SegmentFilterCollector};
use agg_values::{DocId, ItemList, OutOfMemory};
use std::alloc::Global;
use std::marker::Model;

/// Where a node of a request stands.
#[derive(Clone, Copy)]
pub enum Place {
    /// At the top, with one parent.
    Top,
    /// Below another node, perhaps with many parents.
    Below,
}

// The collector of a filter at each place.
#[derive(Drop)]
enum ByPlace {
    Top(SegmentFilterCollector<LowCardSubAggCache>),
    Below(SegmentFilterCollector<HighCardSubAggCache>),
}

/// The collector of a filter, which contracts see as what it holds, wherever the filter stands.
#[derive(Drop)]
pub struct FilterCollector {
    by_place: ByPlace,
}

impl Model for FilterCollector {
    ghost use Rattle.agg_filter.specs.Filter.{Filter};
    ghost use Rattle.agg_engine_tree.specs.collector_tree.Caches.{Cache, filter_of};

    ghost Value = { Filter Cache };

    ghost view = { λ collector. filter_of collector.by_place };
}

impl FilterCollector {
    /// The collector of a filter, which took no document. One with nothing below it hands none on.
    pub fn new(alloc: Global, place: Place, is_leaf: bool) -> FilterCollector
        ensures { IsNewFilter is_leaf result }
    {
        let by_place = match place {
            Place::Top => ByPlace::Top(new_collector(alloc, is_leaf)),
            Place::Below => ByPlace::Below(new_collector(alloc, is_leaf)),
        };
        FilterCollector { by_place }
    }

    /// Prepares parents up to this one.
    pub fn prepare_max_bucket(&mut self, max_bucket: BucketId) -> Result<(), CollectError>
        ensures prepared { OnOk result (max_bucket < length self.new.counts) }
        ensures parents { Prepares self.old self.new }
        ensures right { (is_match : ℕ → Bool) (visited : List (ℕ × ℕ)) (given : List (ℕ × ℕ))
            → FilterFor waiting_in is_match self.old visited given
            → FilterFor waiting_in is_match self.new visited given }
        ensures too_many { IsErrOf result CollectError.TooMany ↔ (max_bucket ≡ 4294967295) }
        ensures errors { IfErr result
            (λ e. (e ≡ CollectError.TooMany) ⊎ (e ≡ CollectError.OutOfMemory)) }
    {
        match &mut self.by_place {
            ByPlace::Top(collector) => collector.prepare_max_bucket(max_bucket),
            ByPlace::Below(collector) => collector.prepare_max_bucket(max_bucket),
        }
    }

    /// Visits documents under a parent.
    pub fn collect(
        &mut self,
        parent_bucket_id: BucketId,
        docs: &[DocId],
        req: &FilterAggReqData,
    ) -> Result<(), CollectError>
        requires parent { parent_bucket_id < length self.old.counts }
        ensures visits { (tree : QueryTree) (segment : Stored)
            → AreMarks (matches tree) segment req.now.evaluator
            → OnOk result (FilterTakes waiting_in (is_matching tree segment)
            (under parent_bucket_id docs.now) self.old self.new) }
        ensures parents { length self.new.counts ≡ length self.old.counts }
        ensures too_many { (tree : QueryTree) (segment : Stored)
            → AreMarks (matches tree) segment req.now.evaluator
            → IsErrOf result CollectError.TooMany
            ↔ (2 ^ 64 ≤ count_of self.old parent_bucket_id
            + length (filter (is_matching tree segment) docs.now)) }
        ensures errors { IfErr result
            (λ e. (e ≡ CollectError.TooMany) ⊎ (e ≡ CollectError.OutOfMemory)) }
    {
        match &mut self.by_place {
            ByPlace::Top(collector) => collector.collect(parent_bucket_id, docs, req),
            ByPlace::Below(collector) => collector.collect(parent_bucket_id, docs, req),
        }
    }

    /// How many documents of a parent matched: 0 where the parent isn't prepared.
    pub fn doc_count(&self, parent_bucket_id: BucketId) -> u64
        ensures { result ≡ count_of self.now parent_bucket_id }
    {
        match &self.by_place {
            ByPlace::Top(collector) => collector.doc_count(parent_bucket_id),
            ByPlace::Below(collector) => collector.doc_count(parent_bucket_id),
        }
    }

    /// The id of a prepared parent's bucket.
    pub fn bucket_id(&self, parent_bucket_id: BucketId) -> Option<BucketId>
        ensures id { result ≡ id_of self.now parent_bucket_id }
        ensures unprepared { IsNone result ↔ (length self.now.counts ≤ parent_bucket_id) }
    {
        match &self.by_place {
            ByPlace::Top(collector) => collector.bucket_id(parent_bucket_id),
            ByPlace::Below(collector) => collector.bucket_id(parent_bucket_id),
        }
    }

    /// Whether enough documents wait to be handed on.
    pub fn due(&self) -> bool
        ensures { IsTrue result ↔ (2048 ≤ self.now.cache.1) }
    {
        match &self.by_place {
            ByPlace::Top(collector) => collector.due(),
            ByPlace::Below(collector) => collector.due(),
        }
    }

    /// The documents that wait, in batches. None is empty.
    pub fn take(&mut self) -> Result<ItemList<Batch>, OutOfMemory>
        ensures ok { IfOk result (λ batches. FilterGives waiting_in batches self.old self.new) }
        ensures filled { IfOk result (λ batches. All (λ batch. 0 < length batch.docs) batches) }
        ensures rest { self.new ≡ record self.old { cache = self.new.cache } }
    {
        match &mut self.by_place {
            ByPlace::Top(collector) => collector.take(),
            ByPlace::Below(collector) => collector.take(),
        }
    }
}

// A new collector.
fn new_collector<C: SubAggCache>(alloc: Global, is_leaf: bool) -> SegmentFilterCollector<C>
    ensures empty { (is_match : ℕ → Bool) → FilterFor C.waiting is_match result [] [] }
    ensures waiting { (id : ℕ) → C.waiting result.cache.0 id ≡ [] }
    ensures hands_on { result.hands_on ≡ not is_leaf }
{
    if is_leaf {
        return SegmentFilterCollector::new_leaf(alloc);
    }
    SegmentFilterCollector::new(alloc)
}
