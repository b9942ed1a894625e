//! Looking up parts of a key in a map of keys, without taking memory.
ghost use Rattle.std.specs.Prelude.{◌≡◌, ◌+◌, [], None, Some, IfOk, IfSome, MatchOption, OnErr};
ghost use Rattle.std.specs.Prelude.{OnOk, length};
ghost use Rattle.std.specs.BTreeMap.{is_at};
ghost use Rattle.std.specs.Borrow.{sem};
ghost use Rattle.std.specs.Cmp.Lexicographic.{slice_cmp};
ghost use Rattle.std.specs.List.Sorted.{IsStrictlySortedBy};
ghost use Rattle.std.specs.Map.{keys_of, lookup};
ghost use Rattle.std.specs.Option.{option_copied_mut};
ghost use Rattle.agg_heap_map.specs.Borrows.{LendsValue, LendsValueOk};
ghost use Rattle.agg_heap_map.specs.Insertion.{HasValueAt};
ghost use Rattle.agg_heap_map.specs.contracts.vec_key.VecKey.{the_row as key_row};

use crate::heap_map::HeapMap;
use crate::vec_key::VecKey;
use agg_values::{OutOfMemory, Steps};
use std::alloc::Global;
use std::hash::Hash;
use std::sync::ledger::Ledger;

/// The value at a key, which becomes the one that is asked for, where there is one.
pub(crate) fn look_up<'m, K: Copy + Ord + Hash, V, L: Ledger>(
    map: &'m mut HeapMap<VecKey<K>, V>,
    asked: &mut Option<VecKey<K>>,
    key: &[K],
    steps: &mut Steps<L>,
) -> Option<&'m mut V>
    requires { MatchOption asked.old (map.old ≡ []) (λ last. length last ≡ length key.now) }
    ensures* writes_back { sem 𝓛 (LendsValue (key_row K.row) V.row
        ⟦<VecKey<K> as Ord>⟧ ⟦<VecKey<K> as Hash>⟧ map.entry key.now result) }
    ensures value { option_copied_mut result ≡ lookup (is_at (slice_cmp K.cmp key.now)) map.old }
    ensures ordered { IsStrictlySortedBy (slice_cmp K.cmp) (keys_of map.old) }
    ensures asked { MatchOption asked.old (asked.new ≡ None) (λ _. asked.new ≡ Some key.now) }
    ensures steps { steps.new ≡ steps.old + 1 }
{
    match asked {
        Some(last) => {
            last.replace(key);
            map.get_mut(last, steps)
        }
        None => {
            steps.tick();
            None
        }
    }
}

// Makes a key the one that is asked for.
fn ask<K: Copy + Ord + Hash>(
    alloc: Global,
    asked: &mut Option<VecKey<K>>,
    key: &[K],
) -> Result<(), OutOfMemory>
    requires { IfSome asked.old (λ last. length last ≡ length key.now) }
    ensures ok { OnOk result (asked.new ≡ Some key.now) }
    ensures err { OnErr result (asked.new ≡ asked.old) }
{
    match asked {
        Some(last) => last.replace(key),
        None => *asked = Some(VecKey::new(alloc, key)?),
    }
    Ok(())
}

/// Inserts a key, with a value that is made, where it isn't there.
pub(crate) fn insert_absent<K: Copy + Ord + Hash, V: Drop, F: FnOnce() -> V + Drop>(
    alloc: Global,
    map: &mut HeapMap<VecKey<K>, V>,
    asked: &mut Option<VecKey<K>>,
    key: &[K],
    make: F,
) -> Result<(), OutOfMemory>
    requires asked { MatchOption asked.old (map.old ≡ []) (λ last. length last ≡ length key.now) }
    requires make { F.pre make }
    ensures ok { OnOk result
        (HasValueAt (slice_cmp K.cmp) (F.post make) map.old key.now map.new) }
    ensures err { OnErr result (map.new ≡ map.old) }
    ensures asked { OnOk result (asked.new ≡ Some key.now) }
    ensures fits { MatchOption asked.new (map.new ≡ []) (λ last. length last ≡ length key.now) }
{
    ask(alloc, asked, key)?;
    if let Some(own) = asked {
        if map.holds(own) {
            return Ok(());
        }
    }
    let own = VecKey::new(alloc, key)?;
    let twin = VecKey::new(alloc, key)?;
    map.put_new(own, twin, make())
}

/// The value at a key that is there.
pub(crate) fn value_at<'m, K: Copy + Ord + Hash, V, L: Ledger>(
    map: &'m mut HeapMap<VecKey<K>, V>,
    asked: &mut Option<VecKey<K>>,
    key: &[K],
    steps: &mut Steps<L>,
) -> Result<&'m mut V, OutOfMemory>
    requires { MatchOption asked.old (map.old ≡ []) (λ last. length last ≡ length key.now) }
    ensures* writes_back { sem 𝓛 (LendsValueOk (key_row K.row) V.row
        ⟦<VecKey<K> as Ord>⟧ ⟦<VecKey<K> as Hash>⟧ map.entry key.now result) }
    ensures value { IfOk result
        (λ x. lookup (is_at (slice_cmp K.cmp key.now)) map.old ≡ Some x.now) }
    ensures missing { OnErr result (lookup (is_at (slice_cmp K.cmp key.now)) map.old ≡ None) }
    ensures ordered { IsStrictlySortedBy (slice_cmp K.cmp) (keys_of map.old) }
    ensures asked { MatchOption asked.old (asked.new ≡ None) (λ _. asked.new ≡ Some key.now) }
    ensures steps { steps.new ≡ steps.old + 1 }
{
    match look_up(map, asked, key, steps) {
        Some(value) => Ok(value),
        None => Err(OutOfMemory),
    }
}
