//! A cache for many buckets, which keeps documents with their buckets in partitions.
ghost use Rattle.std.specs.Prelude.{◌≡◌, ◌≤◌, ◌++◌, [], ◌∷◌, ℕ, All, IfOk, OnErr, OnOk};
ghost use Rattle.std.specs.Prelude.{get_or, length};
ghost use Rattle.std.specs.List.{flat_map};
ghost use Rattle.agg_cache.specs.Partitions.{ArePartitioned, IsAt, documents_of, items_of};
ghost use Rattle.agg_cache.specs.Partitions.{with_document};
ghost use Rattle.agg_cache.specs.Waiting.{AreFilled, docs_of, is_id, pairs_of};

use crate::{Batch, BucketId, SubAggCache};
use agg_values::{DocId, ItemList, OutOfMemory};
use std::alloc::Global;
use std::marker::Model;

const PARTITIONS: usize = 16;

// Documents, each after its bucket.
type Partition = Vec<(BucketId, DocId)>;

/// Documents with their buckets, in 16 partitions by the remainder of the bucket's id. Contracts
/// see the documents of each bucket, up to the greatest id.
#[derive(Debug, Drop)]
pub struct HighCardSubAggCache {
    partitions: Vec<Partition>,
}

impl Model for HighCardSubAggCache {
    ghost use Rattle.std.specs.Prelude.{ℕ, List};
    ghost use Rattle.agg_cache.specs.Partitions.{ArePartitioned, items_of, lists_of};

    ghost Value = { List (List ℕ) };

    ghost view = { λ cache. lists_of (items_of cache.partitions.items) };

    ghost invariant = { λ cache. ArePartitioned (items_of cache.partitions.items) };
}

impl SubAggCache for HighCardSubAggCache {
    ghost waiting = { λ cache id. get_or cache id [] };

    /// A cache without partitions.
    fn new(alloc: Global) -> HighCardSubAggCache {
        HighCardSubAggCache {
            partitions: Vec::new(alloc),
        }
    }

    /// One more document of a bucket.
    fn push(&mut self, bucket_id: BucketId, doc_id: DocId) -> Result<(), OutOfMemory> {
        make_partitions(&mut self.partitions)?;
        add_document(&mut self.partitions, bucket_id, doc_id)
    }

    /// The documents of a bucket are in one batch. The partitions keep their memory.
    fn take_batches(&mut self) -> Result<ItemList<Batch>, OutOfMemory> {
        sort_partitions(&mut self.partitions)?;
        let alloc = *self.partitions.allocator();
        let batches = batches_of(alloc, &self.partitions)?;
        clear_partitions(&mut self.partitions);
        Ok(ItemList::from_vec(batches))
    }
}

// All partitions are there.
fn make_partitions(partitions: &mut Vec<Partition>) -> Result<(), OutOfMemory>
    ensures room { OnOk result (16 ≤ length partitions.new.items) }
    ensures same { (place : ℕ) → get_or (items_of partitions.new.items) place []
        ≡ get_or (items_of partitions.old.items) place [] }
{
    while partitions.len() < PARTITIONS {
        let empty = Vec::new(*partitions.allocator());
        partitions.push(empty)?;
    }
    Ok(())
}

// One more document of a bucket.
fn add_document(
    partitions: &mut Vec<Partition>,
    bucket_id: BucketId,
    doc_id: DocId,
) -> Result<(), OutOfMemory>
    requires { 16 ≤ length partitions.old.items }
    ensures ok { OnOk result (items_of partitions.new.items
        ≡ with_document (items_of partitions.old.items) bucket_id doc_id) }
    ensures err { OnErr result
        (items_of partitions.new.items ≡ items_of partitions.old.items) }
{
    partitions[bucket_id as usize % PARTITIONS].push((bucket_id, doc_id))?;
    Ok(())
}

// Sorts each partition by bucket.
fn sort_partitions(partitions: &mut Vec<Partition>) -> Result<(), OutOfMemory>
    requires { ArePartitioned (items_of partitions.old.items) }
    ensures partitioned { ArePartitioned (items_of partitions.new.items) }
    ensures same { (id : ℕ) → documents_of (items_of partitions.new.items) id
        ≡ documents_of (items_of partitions.old.items) id }
{
    for i in 0..partitions.len() {
        sort_by_bucket(&mut partitions[i])?;
    }
    Ok(())
}

// Puts the documents of each bucket side by side, in the order in which they were.
fn sort_by_bucket(partition: &mut Partition) -> Result<(), OutOfMemory>
    ensures partitioned { (place : ℕ)
        → All (IsAt place) partition.old.items → All (IsAt place) partition.new.items }
    ensures same { (id : ℕ) → docs_of (is_id id) partition.new.items
        ≡ docs_of (is_id id) partition.old.items }
{
    partition.sort_by_key(|pair| pair.0)?;
    Ok(())
}

// A batch for documents of a bucket that stand side by side.
fn batches_of(alloc: Global, partitions: &[Partition]) -> Result<Vec<Batch>, OutOfMemory>
    ensures pairs { IfOk result (λ batches.
        pairs_of batches.items ≡ flat_map (λ p. p) (items_of partitions.now)) }
    ensures filled { IfOk result (λ batches. AreFilled batches.items) }
{
    let mut batches = Vec::new(alloc);
    for partition in partitions {
        append_all(&mut batches, partition)?;
    }
    Ok(batches)
}

// More documents at the end.
fn append_all(batches: &mut Vec<Batch>, pairs: &[(BucketId, DocId)]) -> Result<(), OutOfMemory>
    requires { AreFilled batches.old.items }
    ensures pairs { OnOk result
        (pairs_of batches.new.items ≡ pairs_of batches.old.items ++ pairs.now) }
    ensures filled { OnOk result (AreFilled batches.new.items) }
{
    for &(bucket_id, doc_id) in pairs {
        append(batches, bucket_id, doc_id)?;
    }
    Ok(())
}

// One more document at the end.
fn append(batches: &mut Vec<Batch>, bucket_id: BucketId, doc_id: DocId) -> Result<(), OutOfMemory>
    requires { AreFilled batches.old.items }
    ensures pairs { OnOk result (pairs_of batches.new.items
        ≡ pairs_of batches.old.items ++ (bucket_id, doc_id) ∷ []) }
    ensures filled { OnOk result (AreFilled batches.new.items) }
{
    if let Some(last) = batches.last_mut()
        && last.bucket_id == bucket_id
    {
        return last.docs.push(doc_id);
    }
    let mut docs = ItemList::new(*batches.allocator());
    docs.push(doc_id)?;
    batches.push(Batch { bucket_id, docs })?;
    Ok(())
}

// Leaves no document.
fn clear_partitions(partitions: &mut Vec<Partition>)
    ensures { (place : ℕ) → get_or (items_of partitions.new.items) place [] ≡ [] }
{
    for i in 0..partitions.len() {
        partitions[i].clear();
    }
}
