//! What a collector gives: its pages, and the documents that wait.
ghost use Rattle.std.specs.Prelude.{◌≡◌, ◌≤◌, ◌<◌, ◌↔◌, [], ℕ, List, All, IfOk, IsTrue};
ghost use Rattle.std.specs.Prelude.{OnErr, length, map, take, true};
ghost use Rattle.agg_values.specs.Names.{Named};
ghost use Rattle.agg_values.specs.declared.after_key.AfterKey.{AfterKey};
ghost use Rattle.agg_cache.specs.Waiting.{docs_of, is_id};
ghost use Rattle.agg_segment.specs.Segment.{Stored};
ghost use Rattle.agg_request_tree.specs.Groups.{Group, Groups};
ghost use Rattle.agg_request_tree.specs.Source.{rules_of};
ghost use Rattle.agg_composite.specs.accessor.Accessors.{Fits};
ghost use Rattle.agg_composite.specs.declared.accessor.request_data.CompositeAggReqData as declared;
ghost use Rattle.agg_composite.specs.buckets.Cut.{tuples_under};
ghost use Rattle.agg_composite.specs.Composite.{CompositeFor, CompositeGives, docs_under, page_of};
ghost use Rattle.agg_composite.specs.HeldTuples.{HoldsTuplesOf};
ghost use Rattle.agg_composite.specs.PageEntries.{decoded_buckets, entry_bucket, entry_group};
ghost use Rattle.agg_composite.specs.Visits.{TypedVisit};

use super::SegmentCompositeCollector;
use crate::accessor::CompositeAggReqData;
use crate::{PageEntries, PageEntry};
use agg_cache::{Batch, BucketId, SubAggCache};
use agg_values::{ItemList, OutOfMemory};

impl<C: SubAggCache> SegmentCompositeCollector<C> {
    /// The buckets of a parent, ascending, each with how often its tuple was visited and its id:
    /// none where the parent isn't prepared.
    pub fn page(
        &self,
        parent_bucket_id: BucketId,
        req: &CompositeAggReqData<'_>,
    ) -> Result<ItemList<PageEntry>, OutOfMemory>
        requires fits { (segment : Stored) × (after : Named AfterKey) × Fits segment after req.now }
        requires tuples { HoldsTuplesOf req.now self.now }
        ensures buckets { IfOk result (λ page. map entry_bucket page
            ≡ decoded_buckets req.now (page_of self.now parent_bucket_id)) }
        ensures groups { IfOk result (λ page. (visited : List TypedVisit) (given : List (ℕ × ℕ))
            → CompositeFor C.waiting req.now self.now visited given
            → (groups : List Group)
            × Groups (rules_of req.now.req.now.sources) (tuples_under parent_bucket_id visited)
            groups
            × (map entry_group page ≡ take req.now.size groups)) }
        ensures handed { IfOk result (λ page. (visited : List TypedVisit) (given : List (ℕ × ℕ))
            → CompositeFor C.waiting req.now self.now visited given
            → self.now.hands_on ≡ true → ((id : ℕ) → C.waiting self.now.cache.0 id ≡ [])
            → All (λ entry. docs_of (is_id entry.bucket_id) given
            ≡ docs_under (rules_of req.now.req.now.sources) parent_bucket_id entry.key visited)
            page) }
    {
        self.entries(parent_bucket_id)?.into_list(self.alloc, req)
    }

    /// The entries of that page, which are made one by one.
    pub fn entries(&self, parent_bucket_id: BucketId) -> Result<PageEntries, OutOfMemory>
        ensures { IfOk result (λ entries. entries ≡ page_of self.now parent_bucket_id) }
    {
        self.buckets.entries(parent_bucket_id)
    }

    /// The entries of that page, from a collector that ends: all else that it holds is dropped.
    pub fn into_entries(self, parent_bucket_id: BucketId) -> Result<PageEntries, OutOfMemory>
        ensures { IfOk result (λ entries. entries ≡ page_of self parent_bucket_id) }
    {
        let SegmentCompositeCollector { buckets, .. } = self;
        buckets.into_entries(parent_bucket_id)
    }

    /// Whether enough documents wait to be handed on.
    pub fn due(&self) -> bool
        ensures { IsTrue result ↔ (2048 ≤ self.now.cache.1) }
    {
        self.cache.due()
    }

    /// The documents that wait, in batches. None is empty.
    pub fn take(&mut self) -> Result<ItemList<Batch>, OutOfMemory>
        ensures ok { IfOk result (λ batches. CompositeGives C.waiting batches self.old self.new) }
        ensures filled { IfOk result (λ batches. All (λ batch. 0 < length batch.docs) batches) }
        ensures err { OnErr result
            ((id : ℕ) → C.waiting self.new.cache.0 id ≡ C.waiting self.old.cache.0 id) }
        ensures rest { self.new ≡ record self.old { cache = self.new.cache } }
        ensures tuples { (req : declared.CompositeAggReqData) → HoldsTuplesOf req self.old
            → HoldsTuplesOf req self.new }
    {
        self.cache.take()
    }
}
