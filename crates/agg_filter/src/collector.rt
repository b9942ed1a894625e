//! The collector that counts the documents of a segment that a query matches.
ghost use Rattle.std.specs.Prelude.{◌≡◌, ◌≤◌, ◌<◌, ◌+◌, ◌++◌, ◌^◌, ◌↔◌, ◌⊎◌, [], ℕ, List, Bool};
ghost use Rattle.std.specs.Prelude.{All, IfErr, IfOk, IsErrOf, IsNone, IsTrue, OnErr, OnOk, false};
ghost use Rattle.std.specs.Prelude.{filter, length, true};
ghost use Rattle.agg_cache.specs.Waiting.{docs_of, is_id, under};
ghost use Rattle.agg_cache.specs.declared.error.CollectError.{CollectError};
ghost use Rattle.agg_filter.specs.Matching.{is_matching};
ghost use Rattle.agg_segment.specs.Marks.{AreMarks, mark_at};
ghost use Rattle.agg_segment.specs.Query.{matches};
ghost use Rattle.agg_segment.specs.Segment.{Stored};
ghost use Rattle.agg_segment.specs.declared.query.QueryTree.{QueryTree};

use crate::{DocumentQueryEvaluator, FilterAggReqData};
use agg_cache::{Batch, BucketId, CachedSubAggs, CollectError, SubAggCache};
use agg_values::{DocId, ItemList, OutOfMemory};
use std::alloc::Global;
use std::marker::Model;

/// Counts the documents of a segment that a query matches, under parents, and keeps them under the
/// id of the parent's bucket until they are handed on. Each call of one collector has to get the
/// same request data.
#[derive(Drop)]
pub struct SegmentFilterCollector<C: SubAggCache> {
    // The count of each prepared parent. Its bucket has the parent's number as id.
    counts: Vec<u64>,
    cache: CachedSubAggs<C>,
    hands_on: bool,
}

impl<C: SubAggCache> Model for SegmentFilterCollector<C> {
    ghost use Rattle.std.specs.Prelude.{length};
    ghost use Rattle.std.specs.List.{range_with_len};
    ghost use Rattle.agg_filter.specs.Filter.{Filter};

    ghost Value = { Filter C };

    ghost view = { λ collector. record {
      counts = collector.counts.items;
      ids = range_with_len 0 (length collector.counts.items);
      cache = collector.cache;
      hands_on = collector.hands_on;
    } };
}

impl<C: SubAggCache> SegmentFilterCollector<C> {
    ghost use Rattle.agg_filter.specs.Filter.{FilterFor, FilterGives, FilterTakes, Prepares};
    ghost use Rattle.agg_filter.specs.Filter.{count_of, id_of};

    /// A collector without a prepared parent. It hands documents on.
    pub fn new(alloc: Global) -> SegmentFilterCollector<C>
        ensures empty { (is_match : ℕ → Bool) → FilterFor C.waiting is_match result [] [] }
        ensures parents { length result.counts ≡ 0 }
        ensures waiting { (id : ℕ) → C.waiting result.cache.0 id ≡ [] }
        ensures hands_on { result.hands_on ≡ true }
    {
        SegmentFilterCollector {
            counts: Vec::new(alloc),
            cache: CachedSubAggs::new(alloc),
            hands_on: true,
        }
    }

    /// The same for a filter with nothing below it, which hands no document on.
    pub fn new_leaf(alloc: Global) -> SegmentFilterCollector<C>
        ensures empty { (is_match : ℕ → Bool) → FilterFor C.waiting is_match result [] [] }
        ensures parents { length result.counts ≡ 0 }
        ensures waiting { (id : ℕ) → C.waiting result.cache.0 id ≡ [] }
        ensures hands_on { result.hands_on ≡ false }
    {
        SegmentFilterCollector {
            counts: Vec::new(alloc),
            cache: CachedSubAggs::new(alloc),
            hands_on: false,
        }
    }

    /// Prepares parents up to this one.
    pub fn prepare_max_bucket(&mut self, max_bucket: BucketId) -> Result<(), CollectError>
        ensures prepared { OnOk result (max_bucket < length self.new.counts) }
        ensures parents { Prepares self.old self.new }
        ensures right { (is_match : ℕ → Bool) (visited : List (ℕ × ℕ)) (given : List (ℕ × ℕ))
            → FilterFor C.waiting is_match self.old visited given
            → FilterFor C.waiting is_match self.new visited given }
        ensures too_many { IsErrOf result CollectError.TooMany ↔ (max_bucket ≡ 4294967295) }
        ensures errors { IfErr result
            (λ e. (e ≡ CollectError.TooMany) ⊎ (e ≡ CollectError.OutOfMemory)) }
    {
        if max_bucket == BucketId::MAX {
            return Err(CollectError::TooMany);
        }
        let prepared = max_bucket as usize + 1;
        if prepared <= self.counts.len() {
            return Ok(());
        }
        self.counts
            .resize(prepared, 0)
            .map_err(|_| CollectError::OutOfMemory)
    }

    /// Visits documents under a parent: counts those that match, and keeps them under the parent's
    /// id. What it counted and keeps after an error isn't said.
    pub fn collect(
        &mut self,
        parent_bucket_id: BucketId,
        docs: &[DocId],
        req: &FilterAggReqData,
    ) -> Result<(), CollectError>
        requires parent { parent_bucket_id < length self.old.counts }
        ensures visits { (tree : QueryTree) (segment : Stored)
            → AreMarks (matches tree) segment req.now.evaluator
            → OnOk result (FilterTakes C.waiting (is_matching tree segment)
            (under parent_bucket_id docs.now) self.old self.new) }
        ensures parents { length self.new.counts ≡ length self.old.counts }
        ensures too_many { (tree : QueryTree) (segment : Stored)
            → AreMarks (matches tree) segment req.now.evaluator
            → IsErrOf result CollectError.TooMany
            ↔ (2 ^ 64 ≤ count_of self.old parent_bucket_id
            + length (filter (is_matching tree segment) docs.now)) }
        ensures errors { IfErr result
            (λ e. (e ≡ CollectError.TooMany) ⊎ (e ≡ CollectError.OutOfMemory)) }
    {
        let parent = parent_bucket_id as usize;
        let matching = count_matching(docs, &req.evaluator);
        let Some(count) = self.counts[parent].checked_add(matching) else {
            return Err(CollectError::TooMany);
        };
        self.counts[parent] = count;
        if !self.hands_on {
            return Ok(());
        }
        push_matching(&mut self.cache, parent_bucket_id, docs, &req.evaluator)?;
        Ok(())
    }

    /// How many documents of a parent matched: 0 where the parent isn't prepared.
    pub fn doc_count(&self, parent_bucket_id: BucketId) -> u64
        ensures { result ≡ count_of self.now parent_bucket_id }
    {
        self.counts
            .get(parent_bucket_id as usize)
            .copied()
            .unwrap_or(0)
    }

    /// The id of a prepared parent's bucket.
    pub fn bucket_id(&self, parent_bucket_id: BucketId) -> Option<BucketId>
        ensures id { result ≡ id_of self.now parent_bucket_id }
        ensures unprepared { IsNone result ↔ (length self.now.counts ≤ parent_bucket_id) }
    {
        if self.counts.len() <= parent_bucket_id as usize {
            return None;
        }
        Some(parent_bucket_id)
    }

    /// Whether enough documents wait to be handed on.
    pub fn due(&self) -> bool
        ensures { IsTrue result ↔ (2048 ≤ self.now.cache.1) }
    {
        self.cache.due()
    }

    /// The documents that wait, in batches. None is empty.
    pub fn take(&mut self) -> Result<ItemList<Batch>, OutOfMemory>
        ensures ok { IfOk result (λ batches. FilterGives C.waiting batches self.old self.new) }
        ensures filled { IfOk result (λ batches. All (λ batch. 0 < length batch.docs) batches) }
        ensures err { OnErr result
            ((id : ℕ) → C.waiting self.new.cache.0 id ≡ C.waiting self.old.cache.0 id) }
        ensures rest { self.new ≡ record self.old { cache = self.new.cache } }
    {
        self.cache.take()
    }
}

// How many documents match.
fn count_matching(docs: &[DocId], evaluator: &DocumentQueryEvaluator) -> u64
    ensures { result ≡ length (filter (mark_at evaluator.now) docs.now) }
{
    docs.iter()
        .filter(|doc| evaluator.matches_document(**doc))
        .count() as u64
}

// Keeps the documents that match under an id.
fn push_matching<C: SubAggCache>(
    cache: &mut CachedSubAggs<C>,
    bucket_id: BucketId,
    docs: &[DocId],
    evaluator: &DocumentQueryEvaluator,
) -> Result<(), OutOfMemory>
    ensures { OnOk result ((id : ℕ) → C.waiting cache.new.0 id ≡ C.waiting cache.old.0 id
        ++ docs_of (is_id id) (under bucket_id (filter (mark_at evaluator.now) docs.now))) }
{
    for doc in docs {
        if evaluator.matches_document(*doc) {
            cache.push(bucket_id, *doc)?;
        }
    }
    Ok(())
}
