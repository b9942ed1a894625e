//! The buckets of each parent, and what is visited now.
ghost use Rattle.std.specs.Prelude.{◌≡◌, ◌≤◌, ◌<◌, ◌+◌, [], ◌∷◌, IfOk, IsErrOf, OnOk, get_or};
ghost use Rattle.std.specs.Prelude.{◌^◌, length};
ghost use Rattle.std.specs.List.{sum_by};

use crate::buckets::bucket::Bucket;
use crate::buckets::page::visit_page;
use crate::buckets::visit_error::VisitError;
use agg_cache::{BucketId, BucketIdProvider};
use agg_heap_map::LazyHeapMap;
use agg_values::freeing::FreeingIter;
use agg_values::{DocId, OutOfMemory, Steps};
use std::alloc::Global;
use std::hash::Hash;
use std::marker::Model;
use std::sync::ledger::Ledger;

/// The buckets of each parent by tuple, and the documents that were visited under their ids since
/// these were last forgotten. Contracts see a node.
#[derive(Drop)]
pub struct BucketsByParent<S: Ord + Hash> {
    alloc: Global,
    parents: Vec<LazyHeapMap<S, Bucket>>,
    num_buckets: u64,
    size: usize,
    ids: BucketIdProvider,
    pushes: Vec<(BucketId, DocId)>,
    parent: BucketId,
    doc: DocId,
}

impl<S: Ord + Hash> Model for BucketsByParent<S> {
    ghost use Rattle.std.specs.Prelude.{◌<◌, length};
    ghost use Rattle.agg_composite.specs.buckets.Node.{Counts, Node};

    ghost Value = { Node S };

    ghost view = { λ buckets. record {
      parents = buckets.parents.items;
      size = buckets.size;
      next = buckets.ids;
      pushes = buckets.pushes.items;
      parent = buckets.parent;
      doc = buckets.doc;
    } };

    ghost invariant = { λ buckets. (buckets.parent < length buckets.parents.items)
        × Counts buckets.num_buckets buckets.parents.items buckets.ids };
}

impl<S: Ord + Hash> BucketsByParent<S> {
    ghost use Rattle.agg_composite.specs.buckets.Node.{HoldsAtMost, IsNew, Prepares, Takes};
    ghost use Rattle.agg_composite.specs.buckets.Node.{TooMany};

    /// One parent without buckets.
    pub fn new(alloc: Global) -> Result<BucketsByParent<S>, OutOfMemory>
    where
        S: Drop,
        ensures { IfOk result (λ buckets. IsNew buckets) }
    {
        let mut parents = Vec::new(alloc);
        parents.push(LazyHeapMap::new(alloc))?;
        Ok(BucketsByParent {
            alloc,
            parents,
            num_buckets: 0,
            size: 0,
            ids: BucketIdProvider::new(),
            pushes: Vec::new(alloc),
            parent: 0,
            doc: 0,
        })
    }

    /// Expects so many buckets of the first parent. Once many came, it takes memory for all of
    /// these at once.
    pub fn expect(&mut self, num_buckets: usize)
        ensures { self.new ≡ self.old }
    {
        self.parents[0].expect(num_buckets);
    }

    /// Prepares parents without buckets, up to this one.
    pub fn prepare(&mut self, max_parent: BucketId) -> Result<(), OutOfMemory>
    where
        S: Drop,
        ensures same { Prepares self.old self.new }
        ensures prepared { OnOk result (max_parent < length self.new.parents) }
    {
        while self.parents.len() <= max_parent as usize {
            self.parents.push(LazyHeapMap::new(self.alloc))?;
        }
        Ok(())
    }

    /// Visits documents of this parent from here on, which has so many buckets at most. What was to
    /// be handed on is forgotten.
    pub fn begin_parent(&mut self, parent: BucketId, size: usize)
        requires { parent < length self.old.parents }
        ensures { self.new ≡ record self.old { parent = parent; size = size; pushes = [] } }
    {
        self.parent = parent;
        self.size = size;
        self.pushes.clear();
    }

    /// Visits this document from here on.
    pub fn begin_document(&mut self, doc: DocId)
        ensures { self.new ≡ record self.old { doc = doc } }
    {
        self.doc = doc;
    }

    /// Visits a tuple of the document once more, by at most three steps. After an error no other
    /// tuple has come.
    pub fn visit<L: Ledger>(&mut self, tuple: &S, steps: &mut Steps<L>) -> Result<(), VisitError>
    where
        S: Clone + Drop,
        requires clones { (t q : S) → S.is_clone t q → q ≡ t }
        ensures ok { OnOk result (Takes S.cmp (tuple.now ∷ []) self.old self.new) }
        ensures too_many { IsErrOf result VisitError.TooMany
            → TooMany S.cmp (tuple.now ∷ []) self.old }
        ensures held { HoldsAtMost S.cmp tuple.now self.old self.new }
        ensures most { steps.new ≤ steps.old + 3 }
        ensures least { steps.old + 1 ≤ steps.new }
    {
        let page = &mut self.parents[self.parent as usize];
        let before = page.size() as u64;
        let visited = visit_page(page, &mut self.ids, tuple, self.size, steps);
        self.num_buckets = self.num_buckets - before + page.size() as u64;
        if let Some(id) = visited? {
            self.pushes.push((id, self.doc))?;
        }
        Ok(())
    }

    /// A copy of the buckets of a parent with their tuples, ascending: none where it isn't
    /// prepared.
    pub fn of_parent(&self, parent: BucketId) -> Result<Vec<(S, Bucket)>, OutOfMemory>
    where
        S: Clone + Drop,
        requires clones { (t q : S) → S.is_clone t q → q ≡ t }
        ensures { IfOk result (λ buckets. buckets.items ≡ get_or self.now.parents parent []) }
    {
        match self.parents.get(parent as usize) {
            Some(page) => page.entries_ascending(self.alloc),
            None => Ok(Vec::new(self.alloc)),
        }
    }

    /// The buckets of a parent with their tuples, ascending: none where it isn't prepared. All
    /// others are dropped.
    pub fn into_parent(self, parent: BucketId) -> Result<FreeingIter<(S, Bucket)>, OutOfMemory>
    where
        S: Drop,
        ensures { IfOk result (λ buckets. buckets ≡ get_or self.parents parent []) }
    {
        let BucketsByParent {
            alloc,
            mut parents,
            ..
        } = self;
        if parents.len() <= parent as usize {
            return Ok(FreeingIter::new(Vec::new(alloc)));
        }
        let page = parents.swap_remove(parent as usize);
        drop(parents);
        page.into_ascending()
    }

    /// What was visited under ids since this was last forgotten.
    pub fn pushes(&self) -> &[(BucketId, DocId)]
        ensures { result.now ≡ self.now.pushes }
    {
        self.pushes.as_slice()
    }

    /// How many buckets a parent has: none where it isn't prepared.
    pub fn num_buckets(&self, parent: BucketId) -> usize
        ensures { result ≡ length (get_or self.now.parents parent []) }
    {
        match self.parents.get(parent as usize) {
            Some(page) => page.size(),
            None => 0,
        }
    }

    /// How many buckets all parents have.
    pub fn total_num_buckets(&self) -> u64
        ensures total { result ≡ sum_by length self.now.parents }
        ensures few { result < 2 ^ 32 }
    {
        self.num_buckets
    }
}
