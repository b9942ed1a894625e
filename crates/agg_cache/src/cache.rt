//! Documents that wait to be handed down, by bucket.
ghost use Rattle.std.specs.Prelude.{◌≡◌, [], ℕ, List, OnOk, OnErr, IfOk};
ghost use Rattle.agg_cache.specs.Waiting.{AreBatchesOf, one_more};

use crate::BucketId;
use agg_values::{DocId, ItemList, OutOfMemory};
use std::alloc::Global;

/// Documents of one bucket.
#[derive(Debug, Drop)]
pub struct Batch {
    pub bucket_id: BucketId,
    pub docs: ItemList<DocId>,
}

/// What keeps the documents of buckets until they are handed down. A refused call leaves it as it
/// was.
pub trait SubAggCache: Drop {
    /// The documents that were pushed for a bucket since the last take, in order.
    ghost waiting: { Self → ℕ → List ℕ };

    /// A cache in which nothing waits.
    fn new(alloc: Global) -> Self
        ensures { (id : ℕ) → waiting result id ≡ [] };

    /// One more document of a bucket.
    fn push(&mut self, bucket_id: BucketId, doc_id: DocId) -> Result<(), OutOfMemory>
        ensures ok { OnOk result
            ((id : ℕ) → waiting self.new id ≡ one_more bucket_id doc_id (waiting self.old) id) }
        ensures err { OnErr result ((id : ℕ) → waiting self.new id ≡ waiting self.old id) };

    /// Batches whose documents, joined for each bucket, are those that wait. None is empty.
    fn take_batches(&mut self) -> Result<ItemList<Batch>, OutOfMemory>
        ensures ok { IfOk result (λ batches. AreBatchesOf (waiting self.old) batches) }
        ensures taken { OnOk result ((id : ℕ) → waiting self.new id ≡ []) }
        ensures err { OnErr result ((id : ℕ) → waiting self.new id ≡ waiting self.old id) };
}
