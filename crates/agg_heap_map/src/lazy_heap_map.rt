//! Maps that keep a heap of their keys only from where the greatest is first asked for.
ghost use Rattle.std.specs.Prelude.{◌≡◌, ◌≤◌, ◌+◌, [], None, IfOk, OnErr, OnOk, false, length};
ghost use Rattle.std.specs.Prelude.{true};
ghost use Rattle.std.specs.BTreeMap.{insert_entry, is_at};
ghost use Rattle.std.specs.Borrow.{sem};
ghost use Rattle.std.specs.List.{IsDistinct};
ghost use Rattle.std.specs.List.Sorted.{IsStrictlySortedBy};
ghost use Rattle.std.specs.Map.{keys_of, lookup};
ghost use Rattle.std.specs.Option.{option_copied_mut};
ghost use Rattle.agg_heap_map.specs.EntryOrder.{ascending};

use crate::map_and_heap::{evict_above, made_heap, put_cloned};
use agg_values::freeing::FreeingIter;
use agg_values::{OutOfMemory, Steps};
use std::alloc::Global;
use std::collections::{BinaryHeap, HashMap};
use std::hash::Hash;
use std::marker::Model;
use std::sync::ledger::Ledger;

/// Values by key, with a heap of the keys that is made when the greatest is first asked for.
/// Contracts see the entries in the order of their keys.
#[derive(Drop)]
pub struct LazyHeapMap<S: Ord + Hash, V> {
    alloc: Global,
    map: HashMap<S, V>,
    heap: Option<BinaryHeap<S>>,
    // So many entries are expected. Contracts say nothing of it.
    expected: usize,
}

impl<S: Ord + Hash, V> Model for LazyHeapMap<S, V> {
    ghost use Rattle.std.specs.Prelude.{IfSome, List};
    ghost use Rattle.std.specs.BinaryHeap.{heap_items};
    ghost use Rattle.std.specs.HashMap.{keys};
    ghost use Rattle.std.specs.List.{IsDistinct};
    ghost use Rattle.agg_heap_map.specs.EntryOrder.{ascending, HaveSameKeys};

    ghost Value = { List (S × V) };

    ghost view = { λ m. ascending S.cmp m.map.entries };

    ghost invariant = { λ m. IsDistinct S.eq (keys m.map)
        × IfSome m.heap (λ h. HaveSameKeys S.cmp S.eq (keys m.map) (heap_items h)) };
}

impl<S: Ord + Hash, V> LazyHeapMap<S, V> {
    ghost use Rattle.agg_heap_map.specs.Eviction.{GreatestIsBelow, TakesGreatest};
    ghost use Rattle.agg_heap_map.specs.LazyBorrows.{LendsValue};

    /// The empty map, without a heap.
    pub fn new(alloc: Global) -> LazyHeapMap<S, V>
        ensures { result ≡ [] }
    {
        LazyHeapMap {
            alloc,
            map: HashMap::new(alloc),
            heap: None,
            expected: 0,
        }
    }

    /// Expects so many entries. Once many are there and the map has to grow, it takes memory for as
    /// many as these at once, since each growth moves all entries.
    pub fn expect(&mut self, expected: usize)
        ensures { self.new ≡ self.old }
    {
        self.expected = expected;
    }

    /// The number of entries.
    pub fn size(&self) -> usize
        ensures len { result ≡ length self.now }
        ensures ordered { IsStrictlySortedBy S.cmp (keys_of self.now) }
    {
        self.map.len()
    }

    /// The value at a key. This is one step.
    pub fn get_mut<L: Ledger>(&mut self, key: &S, steps: &mut Steps<L>) -> Option<&mut V>
        ensures* writes_back { sem 𝓛
            (LendsValue S.row V.row S.Ord S.Hash self.entry key.now result) }
        ensures value { option_copied_mut result ≡ lookup (is_at (S.cmp key.now)) self.old }
        ensures ordered { IsStrictlySortedBy S.cmp (keys_of self.old) }
        ensures steps { steps.new ≡ steps.old + 1 }
    {
        steps.tick();
        self.map.get_mut(key)
    }

    /// Inserts a key that isn't there, and a clone of it into the heap, if there is one. This is
    /// one step. Where memory is refused, nothing changes.
    pub fn insert_new<L: Ledger>(
        &mut self,
        key: S,
        value: V,
        steps: &mut Steps<L>,
    ) -> Result<(), OutOfMemory>
    where
        S: Clone + Drop,
        V: Drop,
        requires absent { lookup (is_at (S.cmp key)) self.old ≡ None }
        requires clones { (t q : S) → S.is_clone t q → q ≡ t }
        ensures ok { OnOk result (self.new ≡ insert_entry S.cmp self.old key value) }
        ensures err { OnErr result (self.new ≡ self.old) }
        ensures steps { steps.new ≡ steps.old + 1 }
    {
        steps.tick();
        put_cloned(&mut self.map, &mut self.heap, key, value, self.expected)
    }

    /// Takes the greatest key out where it isn't below this one, and answers whether it did. The
    /// heap is made first where there is none. To take it out is one step. Where memory is refused,
    /// nothing changes.
    pub fn evict_above<L: Ledger>(
        &mut self,
        key: &S,
        steps: &mut Steps<L>,
    ) -> Result<bool, OutOfMemory>
    where
        S: Clone + Drop,
        V: Drop,
        requires clones { (t q : S) → S.is_clone t q → q ≡ t }
        ensures evicted { IfOk result (λ evicted. evicted ≡ true
            → TakesGreatest S.cmp key.now self.old self.new) }
        ensures kept { IfOk result (λ evicted. evicted ≡ false
            → (self.new ≡ self.old) × GreatestIsBelow S.cmp key.now self.old) }
        ensures err { OnErr result (self.new ≡ self.old) }
        ensures counted { IfOk result (λ evicted. evicted ≡ true → steps.new ≡ steps.old + 1) }
        ensures most { steps.new ≤ steps.old + 1 }
        ensures least { steps.old ≤ steps.new }
    {
        let mut heap = made_heap(self.alloc, &self.map, self.heap.take())?;
        let evicted = evict_above(&mut self.map, &mut heap, key, steps);
        self.heap = Some(heap);
        Ok(evicted)
    }

    /// A copy of the entries, in the order of the keys. They are sorted at each call, which is
    /// faster over copies than over references.
    pub fn entries_ascending(&self, alloc: Global) -> Result<Vec<(S, V)>, OutOfMemory>
    where
        S: Clone + Drop,
        V: Copy,
        requires clones { (t q : S) → S.is_clone t q → q ≡ t }
        ensures entries { IfOk result (λ entries. entries.items ≡ self.now) }
        ensures ordered { IfOk result (λ _. IsStrictlySortedBy S.cmp (keys_of self.now)) }
    {
        let mut entries = copies_of(alloc, &self.map)?;
        sort(&mut entries);
        Ok(entries)
    }

    /// The entries of a map that ends, in the order of their keys. The table of its keys is dropped
    /// before they are sorted.
    pub fn into_ascending(self) -> Result<FreeingIter<(S, V)>, OutOfMemory>
    where
        S: Drop,
        V: Drop,
        ensures { IfOk result (λ entries. entries ≡ self) }
    {
        let LazyHeapMap {
            alloc,
            map,
            heap,
            ..
        } = self;
        drop(heap);
        let mut entries = entries_of(alloc, map)?;
        sort(&mut entries);
        Ok(FreeingIter::new(entries))
    }
}

// The entries of a hash map.
fn entries_of<S: Eq + Hash + Drop, V: Drop>(
    alloc: Global,
    hash_map: HashMap<S, V>,
) -> Result<Vec<(S, V)>, OutOfMemory>
    ensures { IfOk result (λ entries. entries.items ≡ hash_map.entries) }
{
    let mut entries = Vec::with_capacity(alloc, hash_map.len())?;
    for entry in hash_map {
        entries.push(entry)?;
    }
    Ok(entries)
}

// A copy of the entries of a hash map.
fn copies_of<S: Eq + Hash + Clone + Drop, V: Copy>(
    alloc: Global,
    hash_map: &HashMap<S, V>,
) -> Result<Vec<(S, V)>, OutOfMemory>
    requires clones { (t q : S) → S.is_clone t q → q ≡ t }
    ensures { IfOk result (λ entries. entries.items ≡ hash_map.now.entries) }
{
    let mut entries = Vec::with_capacity(alloc, hash_map.len())?;
    for (key, value) in hash_map.iter() {
        entries.push((key.clone()?, *value))?;
    }
    Ok(entries)
}

// Sorts entries by their keys.
fn sort<S: Ord + Drop, V: Drop>(entries: &mut Vec<(S, V)>)
    requires { IsDistinct S.eq (keys_of entries.old.items) }
    ensures { entries.new.items ≡ ascending S.cmp entries.old.items }
{
    entries.sort_unstable_by(|left, right| left.0.cmp(&right.0));
}
