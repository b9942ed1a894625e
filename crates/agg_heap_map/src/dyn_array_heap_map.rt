//! Bounded maps from keys of one dimension.
ghost use Rattle.std.specs.Prelude.{◌≡◌, ◌≤◌, ◌<◌, ◌+◌, ◌*◌, ◌-◌, ◌^◌, ◌↔◌, [], Some};
ghost use Rattle.std.specs.Prelude.{IfOk, IsErrOf, MatchOption, length, min, slice_get, take};
ghost use Rattle.std.specs.BTreeMap.{is_at};
ghost use Rattle.std.specs.Borrow.{sem};
ghost use Rattle.std.specs.Cmp.Lexicographic.{slice_cmp};
ghost use Rattle.std.specs.List.Sorted.{IsPermutation, IsStrictlySortedBy};
ghost use Rattle.std.specs.Map.{keys_of, lookup};
ghost use Rattle.std.specs.Option.{option_copied_mut, UnwrapsOrElse};

use crate::heap_map::HeapMap;
use crate::heap_map_iter::HeapMapIter;
use crate::look_up::{insert_absent, look_up, value_at};
use crate::vec_key::VecKey;
use agg_values::{InvalidArgument, OutOfMemory, Steps};
use std::alloc::Global;
use std::hash::Hash;
use std::marker::Model;
use std::sync::ledger::Ledger;

/// Values by keys of one dimension, 1 to 16, of which the greatest is known. Contracts see the
/// dimension and the entries in the order of their keys.
#[derive(Drop)]
pub struct DynArrayHeapMap<K: Copy + Ord + Hash, V> {
    alloc: Global,
    dimension: usize,
    map: HeapMap<VecKey<K>, V>,
    // The key that was looked up last, so that a look-up takes no memory. It is there where the map
    // has entries.
    asked: Option<VecKey<K>>,
}

impl<K: Copy + Ord + Hash, V> Model for DynArrayHeapMap<K, V> {
    ghost use Rattle.std.specs.Prelude.{◌≡◌, ◌≤◌, ◌<◌, ℕ, List, [], MatchOption, length};

    ghost Value = { ℕ × List (List K × V) };

    ghost view = { λ m. (m.dimension, m.map) };

    ghost invariant = { λ m. (0 < m.dimension) × (m.dimension ≤ 16)
        × MatchOption m.asked (m.map ≡ []) (λ key. length key ≡ m.dimension) };
}

impl<K: Copy + Ord + Hash, V> DynArrayHeapMap<K, V> {
    ghost use Rattle.agg_heap_map.specs.DynBorrows.{LendsValue, LendsInserted};

    /// The empty map over keys of this dimension.
    pub fn try_new(
        alloc: Global,
        key_dimension: usize,
    ) -> Result<DynArrayHeapMap<K, V>, InvalidArgument>
        ensures ok { IfOk result (λ map. map ≡ (key_dimension, [])) }
        ensures none { IsErrOf result InvalidArgument.NoSource ↔ (key_dimension ≡ 0) }
        ensures many { IsErrOf result InvalidArgument.TooManySources ↔ (16 < key_dimension) }
        ensures fits { IfOk result (λ _. (0 < key_dimension) × (key_dimension ≤ 16)) }
    {
        match key_dimension {
            0 => Err(InvalidArgument::NoSource),
            1..=16 => Ok(DynArrayHeapMap {
                alloc,
                dimension: key_dimension,
                map: HeapMap::new(alloc),
                asked: None,
            }),
            _ => Err(InvalidArgument::TooManySources),
        }
    }

    /// The number of keys.
    pub fn size(&self) -> usize
        ensures len { result ≡ length self.now.1 }
        ensures ordered { IsStrictlySortedBy (slice_cmp K.cmp) (keys_of self.now.1) }
    {
        self.map.size()
    }

    /// The greatest key.
    pub fn peek_highest(&self) -> Option<&[K]>
        ensures { MatchOption result (self.now.1 ≡ [])
            (λ k. (v : V) × (slice_get self.now.1 (length self.now.1 - 1) ≡ Some (k.now, v))) }
    {
        Some(self.map.peek_highest()?.as_slice())
    }

    /// The value at a key. This is one step, and takes no memory.
    pub fn get_mut<L: Ledger>(&mut self, key: &[K], steps: &mut Steps<L>) -> Option<&mut V>
        requires { length key.now ≡ self.old.0 }
        ensures* writes_back { sem 𝓛
            (LendsValue K.row V.row K.Ord K.Hash self.entry key.now result) }
        ensures value { option_copied_mut result
            ≡ lookup (is_at (slice_cmp K.cmp key.now)) self.old.1 }
        ensures steps { steps.new ≡ steps.old + 1 }
    {
        look_up(&mut self.map, &mut self.asked, key, steps)
    }

    /// The value at a key, made where it isn't there. This is one step. Where memory is refused,
    /// nothing changes.
    pub fn get_or_insert_with<F: FnOnce() -> V + Drop, L: Ledger>(
        &mut self,
        key: &[K],
        make: F,
        steps: &mut Steps<L>,
    ) -> Result<&mut V, OutOfMemory>
    where
        V: Drop,
        requires dimension { length key.now ≡ self.old.0 }
        requires make { F.pre make }
        ensures* writes_back { sem 𝓛
            (LendsInserted K.row V.row K.Ord K.Hash self.entry key.now result) }
        ensures value { IfOk result (λ x. UnwrapsOrElse
            (lookup (is_at (slice_cmp K.cmp key.now)) self.old.1) (F.post make) x.now) }
        ensures steps { steps.new ≡ steps.old + 1 }
    {
        if let Err(error) = insert_absent(self.alloc, &mut self.map, &mut self.asked, key, make) {
            steps.tick();
            return Err(error);
        }
        value_at(&mut self.map, &mut self.asked, key, steps)
    }

    /// Takes the greatest key out. This is one step.
    pub fn evict_highest<L: Ledger>(&mut self, steps: &mut Steps<L>)
    where
        V: Drop,
        ensures entries { self.new.1 ≡ take (length self.old.1 - 1) self.old.1 }
        ensures dimension { self.new.0 ≡ self.old.0 }
        ensures steps { steps.new ≡ steps.old + 1 }
    {
        self.map.evict_highest(steps);
    }

    /// The pairs, in no stated order.
    pub fn into_iter(self) -> HeapMapIter<K, V>
    where
        V: Drop,
        ensures { IsPermutation self.1 result }
    {
        let DynArrayHeapMap {
            alloc: _,
            dimension: _,
            map,
            asked,
        } = self;
        drop(asked);
        HeapMapIter {
            pairs: map.into_iter(),
        }
    }

    /// What the keys are charged, in bytes.
    pub fn memory_consumption(&self) -> u64
        ensures { result ≡ min (length self.now.1 * (64 + 32 * self.now.0)) (2 ^ 64 - 1) }
    {
        let each = 64 + 32 * self.dimension as u64;
        (self.map.size() as u64).saturating_mul(each)
    }
}
