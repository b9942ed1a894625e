//! A cache for few buckets, which keeps a list of documents for each.
ghost use Rattle.std.specs.Prelude.{◌≡◌, ◌<◌, [], ℕ, IfOk, OnErr, OnOk, filter, get_or, length};
ghost use Rattle.std.specs.List.{AllPairs};
ghost use Rattle.agg_cache.specs.Waiting.{AreBatchesOf, AreNumbered, docs_at, has_docs};

use crate::{Batch, BucketId, SubAggCache};
use agg_values::{DocId, ItemList, OutOfMemory};
use std::alloc::Global;
use std::marker::Model;
use std::mem;

/// The documents of each bucket at the place of its id, up to the greatest id. Contracts see the
/// list of these.
#[derive(Debug, Drop)]
pub struct LowCardSubAggCache {
    batches: Vec<Batch>,
}

impl Model for LowCardSubAggCache {
    ghost use Rattle.std.specs.Prelude.{ℕ, List, map};
    ghost use Rattle.agg_cache.specs.Waiting.{AreNumbered};

    ghost Value = { List (List ℕ) };

    ghost view = { λ cache. map (λ batch. batch.docs) cache.batches.items };

    ghost invariant = { λ cache. AreNumbered cache.batches.items };
}

impl SubAggCache for LowCardSubAggCache {
    ghost waiting = { λ cache id. get_or cache id [] };

    /// A cache without a list.
    fn new(alloc: Global) -> LowCardSubAggCache {
        LowCardSubAggCache {
            batches: Vec::new(alloc),
        }
    }

    /// One more document of a bucket, with lists up to its id.
    fn push(&mut self, bucket_id: BucketId, doc_id: DocId) -> Result<(), OutOfMemory> {
        grow_to(&mut self.batches, bucket_id)?;
        self.batches[bucket_id as usize].docs.push(doc_id)
    }

    /// The lists that aren't empty, ascending by id. No document is copied.
    fn take_batches(&mut self) -> Result<ItemList<Batch>, OutOfMemory>
        ensures ok { IfOk result (AreBatchesOf (λ id. get_or self.old id [])) }
        ensures taken { OnOk result ((id : ℕ) → get_or self.new id [] ≡ []) }
        ensures err { OnErr result ((id : ℕ) → get_or self.new id [] ≡ get_or self.old id []) }
        ensures ascending { IfOk result (AllPairs (λ a b. a.bucket_id < b.bucket_id)) }
    {
        let empty = Vec::new(*self.batches.allocator());
        let batches = mem::replace(&mut self.batches, empty);
        Ok(ItemList::from_vec(without_empty(batches)))
    }
}

// Empty batches up to that of a bucket.
fn grow_to(batches: &mut Vec<Batch>, bucket_id: BucketId) -> Result<(), OutOfMemory>
    requires { AreNumbered batches.old.items }
    ensures numbered { AreNumbered batches.new.items }
    ensures room { OnOk result (bucket_id < length batches.new.items) }
    ensures same { (id : ℕ) → docs_at batches.new.items id ≡ docs_at batches.old.items id }
{
    while batches.len() <= bucket_id as usize {
        let batch = Batch {
            bucket_id: batches.len() as u32,
            docs: ItemList::new(*batches.allocator()),
        };
        batches.push(batch)?;
    }
    Ok(())
}

// The batches that aren't empty.
fn without_empty(mut batches: Vec<Batch>) -> Vec<Batch>
    ensures { result.items ≡ filter has_docs batches.items }
{
    batches.retain(|batch| !batch.docs.as_slice().is_empty());
    batches
}
