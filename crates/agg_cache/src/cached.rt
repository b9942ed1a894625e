//! A cache that knows when enough waits to be handed down.
ghost use Rattle.std.specs.Prelude.{◌≡◌, ◌≤◌, ◌+◌, ◌-◌, ◌^◌, ◌↔◌, [], ℕ, min};
ghost use Rattle.std.specs.Prelude.{IfOk, IsTrue, OnErr, OnOk};
ghost use Rattle.agg_cache.specs.Waiting.{AreBatchesOf, one_more};

use crate::{Batch, BucketId, HighCardSubAggCache, LowCardSubAggCache, SubAggCache};
use agg_values::{DocId, ItemList, OutOfMemory};
use std::alloc::Global;
use std::marker::Model;

/// After so many pushes what waits is due to be handed down.
pub const PUSHES_UNTIL_DUE: u64 = 2_048;

/// A cache with the number of its pushes since the last take, which contracts see as a pair.
#[derive(Drop)]
pub struct CachedSubAggs<C: SubAggCache> {
    cache: C,
    pushes: u64,
}

/// A cache for few buckets, with the number of its pushes.
pub type LowCardCachedSubAggs = CachedSubAggs<LowCardSubAggCache>;

/// A cache for many buckets, with the number of its pushes.
pub type HighCardCachedSubAggs = CachedSubAggs<HighCardSubAggCache>;

impl<C: SubAggCache> Model for CachedSubAggs<C> {
    ghost use Rattle.std.specs.Prelude.{ℕ};
    ghost use Rattle.std.specs.Coded.{coded×, coded_ℕ};

    ghost Value = { C × ℕ };

    ghost coded = { coded× C.code coded_ℕ };

    ghost view = { λ cached. (cached.cache, cached.pushes) };
}

impl<C: SubAggCache> CachedSubAggs<C> {
    /// A cache in which nothing waits.
    pub fn new(alloc: Global) -> CachedSubAggs<C>
        ensures empty { (id : ℕ) → C.waiting result.0 id ≡ [] }
        ensures pushes { result.1 ≡ 0 }
    {
        CachedSubAggs {
            cache: C::new(alloc),
            pushes: 0,
        }
    }

    /// One more document of a bucket.
    pub fn push(&mut self, bucket_id: BucketId, doc_id: DocId) -> Result<(), OutOfMemory>
        ensures ok { OnOk result ((id : ℕ)
            → C.waiting self.new.0 id ≡ one_more bucket_id doc_id (C.waiting self.old.0) id) }
        ensures pushes { OnOk result (self.new.1 ≡ min (self.old.1 + 1) (2 ^ 64 - 1)) }
        ensures err { OnErr result
            ((id : ℕ) → C.waiting self.new.0 id ≡ C.waiting self.old.0 id) }
        ensures uncounted { OnErr result (self.new.1 ≡ self.old.1) }
    {
        self.cache.push(bucket_id, doc_id)?;
        self.pushes = self.pushes.saturating_add(1);
        Ok(())
    }

    /// Whether enough waits to be handed down.
    pub fn due(&self) -> bool
        ensures { IsTrue result ↔ (2048 ≤ self.now.1) }
    {
        self.pushes >= PUSHES_UNTIL_DUE
    }

    /// Batches whose documents, joined for each bucket, are those that wait. None is empty.
    pub fn take(&mut self) -> Result<ItemList<Batch>, OutOfMemory>
        ensures ok { IfOk result (λ batches. AreBatchesOf (C.waiting self.old.0) batches) }
        ensures taken { OnOk result ((id : ℕ) → C.waiting self.new.0 id ≡ []) }
        ensures pushes { OnOk result (self.new.1 ≡ 0) }
        ensures err { OnErr result
            ((id : ℕ) → C.waiting self.new.0 id ≡ C.waiting self.old.0 id) }
        ensures counted { OnErr result (self.new.1 ≡ self.old.1) }
    {
        let batches = self.cache.take_batches()?;
        self.pushes = 0;
        Ok(batches)
    }
}
