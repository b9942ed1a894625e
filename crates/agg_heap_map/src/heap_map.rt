//! The body of bounded maps, over keys of any type.
ghost use Rattle.std.specs.Prelude.{◌≡◌, ◌+◌, ◌-◌, [], None, Some, IfOk, MatchOption, OnErr, OnOk};
ghost use Rattle.std.specs.Prelude.{is_some, length, slice_get, take};
ghost use Rattle.std.specs.BTreeMap.{insert_entry, is_at};
ghost use Rattle.std.specs.Borrow.{sem};
ghost use Rattle.std.specs.List.Sorted.{IsPermutation, IsStrictlySortedBy};
ghost use Rattle.std.specs.Map.{keys_of, lookup};
ghost use Rattle.std.specs.Option.{option_copied_mut};

use crate::map_and_heap::{evict, put_new};
use agg_values::{OutOfMemory, Steps};
use std::alloc::Global;
use std::collections::hash_map::IntoIter;
use std::collections::{BinaryHeap, HashMap};
use std::hash::Hash;
use std::marker::Model;
use std::sync::ledger::Ledger;

/// Values by key, of which the greatest is known. Contracts see the entries in the order of their
/// keys.
#[derive(Drop)]
pub struct HeapMap<S: Ord + Hash, V> {
    map: HashMap<S, V>,
    heap: BinaryHeap<S>,
}

impl<S: Ord + Hash, V> Model for HeapMap<S, V> {
    ghost use Rattle.std.specs.Prelude.{List};
    ghost use Rattle.std.specs.BinaryHeap.{heap_items, IsHeap};
    ghost use Rattle.std.specs.HashMap.{keys};
    ghost use Rattle.agg_heap_map.specs.EntryOrder.{ascending, HaveSameKeys};

    ghost Value = { List (S × V) };

    ghost view = { λ m. ascending S.cmp m.map.entries };

    ghost invariant = { λ m. HaveSameKeys S.cmp S.eq (keys m.map) (heap_items m.heap) };
}

impl<S: Ord + Hash, V> HeapMap<S, V> {
    ghost use Rattle.agg_heap_map.specs.Borrows.{LendsValue};

    /// The empty map.
    pub fn new(alloc: Global) -> HeapMap<S, V>
        ensures { result ≡ [] }
    {
        HeapMap {
            map: HashMap::new(alloc),
            heap: BinaryHeap::new(alloc),
        }
    }

    /// The number of entries.
    pub fn size(&self) -> usize
        ensures len { result ≡ length self.now }
        ensures ordered { IsStrictlySortedBy S.cmp (keys_of self.now) }
    {
        self.map.len()
    }

    /// The greatest key.
    pub fn peek_highest(&self) -> Option<&S>
        ensures { MatchOption result (self.now ≡ [])
            (λ k. (v : V) × (slice_get self.now (length self.now - 1) ≡ Some (k.now, v))) }
    {
        self.heap.peek()
    }

    /// The value at a key. This is one step.
    pub fn get_mut<L: Ledger>(&mut self, key: &S, steps: &mut Steps<L>) -> Option<&mut V>
        ensures* writes_back { sem 𝓛
            (LendsValue S.row V.row S.Ord S.Hash self.entry key.now result) }
        ensures value { option_copied_mut result ≡ lookup (is_at (S.cmp key.now)) self.old }
        ensures ordered { IsStrictlySortedBy S.cmp (keys_of self.old) }
        ensures steps { steps.new ≡ steps.old + 1 }
    {
        steps.tick();
        self.map.get_mut(key)
    }

    /// Whether a key is there.
    pub fn holds(&self, key: &S) -> bool
        ensures found { result ≡ is_some (lookup (is_at (S.cmp key.now)) self.now) }
        ensures ordered { IsStrictlySortedBy S.cmp (keys_of self.now) }
    {
        self.map.contains_key(key)
    }

    /// Inserts a key that isn't there, and its twin for the heap. Where memory is refused, nothing
    /// changes.
    pub fn put_new(&mut self, key: S, twin: S, value: V) -> Result<(), OutOfMemory>
    where
        S: Drop,
        V: Drop,
        requires absent { lookup (is_at (S.cmp key)) self.old ≡ None }
        requires twin { twin ≡ key }
        ensures ok { OnOk result (self.new ≡ insert_entry S.cmp self.old key value) }
        ensures err { OnErr result (self.new ≡ self.old) }
    {
        put_new(&mut self.map, &mut self.heap, key, twin, value)
    }

    /// Takes the greatest key out. This is one step.
    pub fn evict_highest<L: Ledger>(&mut self, steps: &mut Steps<L>)
    where
        S: Drop,
        V: Drop,
        ensures entries { self.new ≡ take (length self.old - 1) self.old }
        ensures steps { steps.new ≡ steps.old + 1 }
    {
        steps.tick();
        evict(&mut self.map, &mut self.heap);
    }

    /// The entries, in no stated order.
    pub fn into_iter(self) -> IntoIter<S, V>
    where
        S: Drop,
        V: Drop,
        ensures { IsPermutation self result }
    {
        let HeapMap { map, heap } = self;
        drop(heap);
        map.into_iter()
    }
}
