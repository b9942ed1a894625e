//! Tests of keys that are arrays, of each capacity.
ghost use Rattle.std.specs.Prelude.{◌≡◌, ◌≤◌, ◌<◌, ◌∷◌, []};

use agg_heap_map::LazyHeapMap;
use agg_values::{OutOfMemory, Steps};
use arrayvec::ArrayVec;
use std::hash::Hash;
use std::marker::Brand;
use std::process::Abort;
use std::sync::ledger::{Blank, Ledger};
use std::test::Fail;

/// Inserts a key that isn't there. Whether it was absent.
pub(crate) fn insert<S: Ord + Hash + Clone, L: Ledger>(
    map: &mut LazyHeapMap<S, u64>,
    key: &S,
    steps: &mut Steps<L>,
) -> Result<bool, OutOfMemory>
    requires clones { (k l : S) → S.is_clone k l → l ≡ k }
{
    if let Some(value) = map.get_mut(key, steps) {
        *value = 2;
        return Ok(false);
    }
    map.insert_new(key.clone()?, 1, steps)?;
    Ok(true)
}

// A map has these two keys, each of which was inserted twice.
fn expect_entries<'k, S: Ord + Hash + Clone>(
    rt: &(impl Abort + AllocGlobal),
    map: &LazyHeapMap<S, u64>,
    keys: [&'k S; 2],
) -> Result<(), Fail>
    requires clones { (k l : S) → S.is_clone k l → l ≡ k }
{
    let entries = map.entries_ascending(rt.alloc())?;
    assert!(rt; entries.len() == 2 && map.size() == 2);
    for (entry, key) in entries.iter().zip(keys) {
        assert!(rt; &entry.0 == key && entry.1 == 2);
    }
    Ok(())
}

// Of three keys, ascending, the first and the last are put into an empty map. The last is evicted
// for the second, and a key that is above all stays out.
fn expect_evicted<'k, S: Ord + Hash + Clone, L: Ledger>(
    rt: &(impl Abort + AllocGlobal),
    map: &mut LazyHeapMap<S, u64>,
    keys: (&'k S, &'k S, &'k S),
    steps: &mut Steps<L>,
) -> Result<(), Fail>
    requires clones { (k l : S) → S.is_clone k l → l ≡ k }
{
    for key in [keys.2, keys.0] {
        assert!(rt; insert(map, key, steps)? && !insert(map, key, steps)?);
    }
    assert!(rt; map.evict_above(keys.1, steps)?);
    assert!(rt; insert(map, keys.1, steps)? && !insert(map, keys.1, steps)?);
    assert!(rt; !map.evict_above(keys.2, steps)?);
    expect_entries(rt, map, [keys.0, keys.1])
}

// A map makes its heap when it has keys, or at first, where the empty map is asked to evict.
fn expect_two<'k, S: Ord + Hash + Clone, L: Ledger>(
    rt: &(impl Abort + AllocGlobal),
    keys: (&'k S, &'k S, &'k S),
    steps: &mut Steps<L>,
) -> Result<(), Fail>
    requires clones { (k l : S) → S.is_clone k l → l ≡ k }
{
    for ask_at_first in [false, true] {
        let mut map = LazyHeapMap::new(rt.alloc());
        if ask_at_first {
            assert!(rt; !map.evict_above(keys.0, steps)?);
        }
        expect_evicted(rt, &mut map, keys, steps)?;
    }
    Ok(())
}

// A key of one part.
fn key_of<const N: usize>(part: u64) -> ArrayVec<u64, N>
    requires { 0 < N }
    ensures { result.items ≡ part ∷ [] }
{
    let mut key: ArrayVec<u64, N> = ArrayVec::new();
    key.push(part);
    key
}

fn expect_capacity<const N: usize, L: Ledger>(
    rt: &(impl Abort + AllocGlobal),
    steps: &mut Steps<L>,
) -> Result<(), Fail>
    requires some { 0 < N }
    requires fits { N ≤ 16 }
{
    let keys: (ArrayVec<u64, N>, ArrayVec<u64, N>, ArrayVec<u64, N>) = (
        key_of(5),
        key_of(6),
        key_of(7),
    );
    expect_two(rt, (&keys.0, &keys.1, &keys.2), steps)
}

fn expect_over<L: Ledger>(rt: &(impl Abort + AllocGlobal), blank: Blank) -> Result<(), Fail>
    requires name { blank.name ≡ L.name }
    requires parts { blank.parts ≡ L.parts }
    requires shared { 0 < L.parts }
{
    let mut steps: Steps<L> = Steps::new(blank);
    expect_capacity::<1, L>(rt, &mut steps)?;
    expect_capacity::<2, L>(rt, &mut steps)?;
    expect_capacity::<4, L>(rt, &mut steps)?;
    expect_capacity::<8, L>(rt, &mut steps)?;
    expect_capacity::<16, L>(rt, &mut steps)
}

#[test]
fn arrays_of_each_capacity_are_keys(rt: HostRuntime) -> Result<(), Fail> {
    expect_over::<Brand>(&rt, Blank::new(1))
}
