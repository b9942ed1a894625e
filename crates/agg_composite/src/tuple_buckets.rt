//! The buckets of each parent, by tuples of as many keys as a composite has sources.
ghost use Rattle.std.specs.Prelude.{◌≡◌, ◌≤◌, ◌<◌, ◌^◌, [], IfOk, OnOk, get_or, length};
ghost use Rattle.std.specs.List.{sum_by};
ghost use Rattle.agg_request_tree.specs.Faults.{max_sources};
ghost use Rattle.agg_composite.specs.buckets.Node.{IsNew, Prepares};
ghost use Rattle.agg_composite.specs.Answers.{AnswersDocuments};
ghost use Rattle.agg_composite.specs.HeldTuples.{KeepTuplesAt};
ghost use Rattle.agg_composite.specs.TupleBuckets.{node_of, room_of};

use crate::PageEntries;
use crate::accessor::{CompositeAggReqData, Encoded};
use crate::buckets::{Bucket, BucketsByParent, VisitError};
use crate::page_entries::EncodedEntries;
use crate::stored_tuple::StoredTuple;
use crate::walk::visit_documents;
use agg_cache::BucketId;
use agg_values::freeing::FreeingIter;
use agg_values::{DocId, OutOfMemory, Steps};
use std::alloc::Global;
use std::sync::ledger::Ledger;

/// The buckets of each parent by encoded tuple, with room in each tuple for as many keys as it may
/// have.
#[derive(Drop)]
pub enum TupleBuckets {
    One(BucketsByParent<StoredTuple<Encoded, 1>>),
    Two(BucketsByParent<StoredTuple<Encoded, 2>>),
    Four(BucketsByParent<StoredTuple<Encoded, 4>>),
    Eight(BucketsByParent<StoredTuple<Encoded, 8>>),
    Sixteen(BucketsByParent<StoredTuple<Encoded, 16>>),
}

impl TupleBuckets {
    /// One parent without buckets, for tuples of so many sources.
    pub fn new(alloc: Global, num_sources: usize) -> Result<TupleBuckets, OutOfMemory>
        requires { num_sources ≤ max_sources }
        ensures empty { IfOk result (λ buckets. IsNew (node_of buckets)) }
        ensures room { IfOk result (λ buckets. num_sources ≤ room_of buckets) }
    {
        let buckets = match num_sources {
            0 | 1 => TupleBuckets::One(BucketsByParent::new(alloc)?),
            2 => TupleBuckets::Two(BucketsByParent::new(alloc)?),
            3 | 4 => TupleBuckets::Four(BucketsByParent::new(alloc)?),
            5..=8 => TupleBuckets::Eight(BucketsByParent::new(alloc)?),
            _ => TupleBuckets::Sixteen(BucketsByParent::new(alloc)?),
        };
        Ok(buckets)
    }

    /// Expects so many buckets of the first parent. Once many came, it takes memory for all of
    /// these at once.
    pub fn expect(&mut self, num_buckets: usize)
        ensures node { node_of self.new ≡ node_of self.old }
        ensures room { room_of self.new ≡ room_of self.old }
    {
        match self {
            TupleBuckets::One(buckets) => buckets.expect(num_buckets),
            TupleBuckets::Two(buckets) => buckets.expect(num_buckets),
            TupleBuckets::Four(buckets) => buckets.expect(num_buckets),
            TupleBuckets::Eight(buckets) => buckets.expect(num_buckets),
            TupleBuckets::Sixteen(buckets) => buckets.expect(num_buckets),
        }
    }

    /// Prepares parents without buckets, up to this one.
    pub fn prepare(&mut self, max_parent: BucketId) -> Result<(), OutOfMemory>
        ensures same { Prepares (node_of self.old) (node_of self.new) }
        ensures prepared { OnOk result (max_parent < length (node_of self.new).parents) }
        ensures room { room_of self.new ≡ room_of self.old }
    {
        match self {
            TupleBuckets::One(buckets) => buckets.prepare(max_parent),
            TupleBuckets::Two(buckets) => buckets.prepare(max_parent),
            TupleBuckets::Four(buckets) => buckets.prepare(max_parent),
            TupleBuckets::Eight(buckets) => buckets.prepare(max_parent),
            TupleBuckets::Sixteen(buckets) => buckets.prepare(max_parent),
        }
    }

    /// Visits documents of this parent from here on, which has so many buckets at most. What was to
    /// be handed on is forgotten.
    pub fn begin_parent(&mut self, parent: BucketId, size: usize)
        requires { parent < length (node_of self.old).parents }
        ensures node { node_of self.new
            ≡ record (node_of self.old) { parent = parent; size = size; pushes = [] } }
        ensures room { room_of self.new ≡ room_of self.old }
    {
        match self {
            TupleBuckets::One(buckets) => buckets.begin_parent(parent, size),
            TupleBuckets::Two(buckets) => buckets.begin_parent(parent, size),
            TupleBuckets::Four(buckets) => buckets.begin_parent(parent, size),
            TupleBuckets::Eight(buckets) => buckets.begin_parent(parent, size),
            TupleBuckets::Sixteen(buckets) => buckets.begin_parent(parent, size),
        }
    }

    /// Visits the tuples of the documents of these numbers that lie past the bound, in the order of
    /// their occurrences.
    pub fn visit_documents<L: Ledger>(
        &mut self,
        alloc: Global,
        docs: &[DocId],
        req: &CompositeAggReqData<'_>,
        steps: &mut Steps<L>,
    ) -> Result<(), VisitError>
        requires accessors { length req.now.req.now.sources ≡ length req.now.composite_accessors }
        requires room { length req.now.req.now.sources ≤ room_of self.old }
        ensures answers { AnswersDocuments req.now docs.now (node_of self.old) (node_of self.new)
            steps.old steps.new result }
        ensures held { KeepTuplesAt req.now docs.now (node_of self.old) (node_of self.new) }
        ensures room { room_of self.new ≡ room_of self.old }
    {
        match self {
            TupleBuckets::One(buckets) => visit_documents(alloc, buckets, docs, req, steps),
            TupleBuckets::Two(buckets) => visit_documents(alloc, buckets, docs, req, steps),
            TupleBuckets::Four(buckets) => visit_documents(alloc, buckets, docs, req, steps),
            TupleBuckets::Eight(buckets) => visit_documents(alloc, buckets, docs, req, steps),
            TupleBuckets::Sixteen(buckets) => visit_documents(alloc, buckets, docs, req, steps),
        }
    }

    /// What was visited under ids since this was last forgotten.
    pub fn pushes(&self) -> &[(BucketId, DocId)]
        ensures { result.now ≡ (node_of self.now).pushes }
    {
        match self {
            TupleBuckets::One(buckets) => buckets.pushes(),
            TupleBuckets::Two(buckets) => buckets.pushes(),
            TupleBuckets::Four(buckets) => buckets.pushes(),
            TupleBuckets::Eight(buckets) => buckets.pushes(),
            TupleBuckets::Sixteen(buckets) => buckets.pushes(),
        }
    }

    /// How many buckets all parents have.
    pub fn num_buckets(&self) -> u64
        ensures total { result ≡ sum_by length (node_of self.now).parents }
        ensures few { result < 2 ^ 32 }
    {
        match self {
            TupleBuckets::One(buckets) => buckets.total_num_buckets(),
            TupleBuckets::Two(buckets) => buckets.total_num_buckets(),
            TupleBuckets::Four(buckets) => buckets.total_num_buckets(),
            TupleBuckets::Eight(buckets) => buckets.total_num_buckets(),
            TupleBuckets::Sixteen(buckets) => buckets.total_num_buckets(),
        }
    }

    /// A copy of the buckets of a parent: none where it isn't prepared.
    pub fn entries(&self, parent: BucketId) -> Result<PageEntries, OutOfMemory>
        ensures { IfOk result
            (λ entries. entries ≡ get_or (node_of self.now).parents parent []) }
    {
        let encoded = match self {
            TupleBuckets::One(buckets) => EncodedEntries::One(copy_of(buckets, parent)?),
            TupleBuckets::Two(buckets) => EncodedEntries::Two(copy_of(buckets, parent)?),
            TupleBuckets::Four(buckets) => EncodedEntries::Four(copy_of(buckets, parent)?),
            TupleBuckets::Eight(buckets) => EncodedEntries::Eight(copy_of(buckets, parent)?),
            TupleBuckets::Sixteen(buckets) => EncodedEntries::Sixteen(copy_of(buckets, parent)?),
        };
        Ok(PageEntries::new(encoded))
    }

    /// The buckets of a parent, which alone are kept: none where it isn't prepared.
    pub fn into_entries(self, parent: BucketId) -> Result<PageEntries, OutOfMemory>
        ensures { IfOk result
            (λ entries. entries ≡ get_or (node_of self).parents parent []) }
    {
        let encoded = match self {
            TupleBuckets::One(buckets) => EncodedEntries::One(buckets.into_parent(parent)?),
            TupleBuckets::Two(buckets) => EncodedEntries::Two(buckets.into_parent(parent)?),
            TupleBuckets::Four(buckets) => EncodedEntries::Four(buckets.into_parent(parent)?),
            TupleBuckets::Eight(buckets) => EncodedEntries::Eight(buckets.into_parent(parent)?),
            TupleBuckets::Sixteen(buckets) => {
                EncodedEntries::Sixteen(buckets.into_parent(parent)?)
            }
        };
        Ok(PageEntries::new(encoded))
    }
}

// A copy of the buckets of a parent with their tuples, ascending.
fn copy_of<const N: usize>(
    buckets: &BucketsByParent<StoredTuple<Encoded, N>>,
    parent: BucketId,
) -> Result<FreeingIter<(StoredTuple<Encoded, N>, Bucket)>, OutOfMemory>
    ensures { IfOk result (λ copy. copy ≡ get_or buckets.now.parents parent []) }
{
    Ok(FreeingIter::new(buckets.of_parent(parent)?))
}
