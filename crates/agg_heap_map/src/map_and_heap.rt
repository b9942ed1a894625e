//! A hash map and a heap of its keys, changed together.
ghost use Rattle.std.specs.Prelude.{◌≡◌, ◌≤◌, ◌+◌, ◌-◌, None, IfOk, IfSome, OnErr, OnOk};
ghost use Rattle.std.specs.Prelude.{false, length, take, true};
ghost use Rattle.std.specs.BTreeMap.{insert_entry, is_at};
ghost use Rattle.std.specs.BinaryHeap.{heap_items};
ghost use Rattle.std.specs.HashMap.{get, keys};
ghost use Rattle.std.specs.List.{IsDistinct};
ghost use Rattle.std.specs.List.Sorted.{IsPermutation};
ghost use Rattle.std.specs.Map.{lookup};
ghost use Rattle.agg_heap_map.specs.EntryOrder.{ascending, HaveSameKeys};
ghost use Rattle.agg_heap_map.specs.Eviction.{GreatestIsBelow, TakesGreatest};

use agg_values::{OutOfMemory, Steps};
use std::alloc::Global;
use std::collections::{BinaryHeap, HashMap};
use std::hash::Hash;
use std::sync::ledger::Ledger;

// So many entries are many.
const MANY: usize = 50_000;

/// Inserts a key that isn't there, and its twin into the heap. Where memory is refused, nothing
/// changes.
pub(crate) fn put_new<S: Ord + Hash + Drop, V: Drop>(
    map: &mut HashMap<S, V>,
    heap: &mut BinaryHeap<S>,
    key: S,
    twin: S,
    value: V,
) -> Result<(), OutOfMemory>
    requires same_keys { HaveSameKeys S.cmp S.eq (keys map.old) (heap_items heap.old) }
    requires absent { lookup (is_at (S.cmp key)) (ascending S.cmp map.old.entries) ≡ None }
    requires twin { twin ≡ key }
    ensures ok { OnOk result (ascending S.cmp map.new.entries
        ≡ insert_entry S.cmp (ascending S.cmp map.old.entries) key value) }
    ensures err { OnErr result
        (ascending S.cmp map.new.entries ≡ ascending S.cmp map.old.entries) }
    ensures same_keys { HaveSameKeys S.cmp S.eq (keys map.new) (heap_items heap.new) }
{
    map.reserve(1)?;
    heap.push(twin)?;
    map.insert(key, value)?;
    Ok(())
}

/// Takes the greatest key out, if there is one.
pub(crate) fn evict<S: Ord + Hash + Drop, V: Drop>(
    map: &mut HashMap<S, V>,
    heap: &mut BinaryHeap<S>,
)
    requires { HaveSameKeys S.cmp S.eq (keys map.old) (heap_items heap.old) }
    ensures entries { ascending S.cmp map.new.entries
        ≡ take (length (ascending S.cmp map.old.entries) - 1) (ascending S.cmp map.old.entries) }
    ensures same_keys { HaveSameKeys S.cmp S.eq (keys map.new) (heap_items heap.new) }
{
    if let Some(key) = heap.pop() {
        map.remove(&key);
    }
}

/// Takes the greatest key out where it isn't below this one. Whether it was taken out.
pub(crate) fn evict_above<S: Ord + Hash + Drop, V: Drop, L: Ledger>(
    map: &mut HashMap<S, V>,
    heap: &mut BinaryHeap<S>,
    key: &S,
    steps: &mut Steps<L>,
) -> bool
    requires { HaveSameKeys S.cmp S.eq (keys map.old) (heap_items heap.old) }
    ensures evicted { result ≡ true → TakesGreatest S.cmp key.now
        (ascending S.cmp map.old.entries) (ascending S.cmp map.new.entries) }
    ensures kept { result ≡ false → (map.new ≡ map.old)
        × GreatestIsBelow S.cmp key.now (ascending S.cmp map.old.entries) }
    ensures same_keys { HaveSameKeys S.cmp S.eq (keys map.new) (heap_items heap.new) }
    ensures counted { result ≡ true → steps.new ≡ steps.old + 1 }
    ensures most { steps.new ≤ steps.old + 1 }
    ensures least { steps.old ≤ steps.new }
{
    let Some(highest) = heap.peek() else {
        return false;
    };
    if highest.cmp(key).is_lt() {
        return false;
    }
    steps.tick();
    evict(map, heap);
    true
}

/// Inserts a key that isn't there, and a clone of it into the heap, if there is one. Where memory
/// is refused, nothing changes. So many entries are expected.
pub(crate) fn put_cloned<S: Ord + Hash + Clone + Drop, V: Drop>(
    map: &mut HashMap<S, V>,
    heap: &mut Option<BinaryHeap<S>>,
    key: S,
    value: V,
    expected: usize,
) -> Result<(), OutOfMemory>
    requires clones { (t q : S) → S.is_clone t q → q ≡ t }
    requires once { IsDistinct S.eq (keys map.old) }
    requires same_keys { IfSome heap.old
        (λ h. HaveSameKeys S.cmp S.eq (keys map.old) (heap_items h)) }
    requires absent { lookup (is_at (S.cmp key)) (ascending S.cmp map.old.entries) ≡ None }
    ensures ok { OnOk result (ascending S.cmp map.new.entries
        ≡ insert_entry S.cmp (ascending S.cmp map.old.entries) key value) }
    ensures err { OnErr result
        (ascending S.cmp map.new.entries ≡ ascending S.cmp map.old.entries) }
    ensures once { IsDistinct S.eq (keys map.new) }
    ensures same_keys { IfSome heap.new
        (λ h. HaveSameKeys S.cmp S.eq (keys map.new) (heap_items h)) }
{
    match heap {
        Some(heap) => {
            let twin = key.clone()?;
            put_new(map, heap, key, twin, value)
        }
        None => {
            make_room(map, expected);
            map.insert(key, value)?;
            Ok(())
        }
    }
}

// Makes room for as many entries as are expected, where many are there and no more fit. Where
// memory is refused, the map grows as it would without.
fn make_room<S: Ord + Hash, V>(map: &mut HashMap<S, V>, expected: usize)
    requires { IsDistinct S.eq (keys map.old) }
    ensures entries { IsPermutation map.old.entries map.new.entries }
    ensures values { (k : S) → get S.eq map.new k ≡ get S.eq map.old k }
    ensures once { IsDistinct S.eq (keys map.new) }
{
    let len = map.len();
    if len < MANY || len < map.capacity() || expected <= len {
        return;
    }
    let _ = map.reserve(expected - len);
}

/// The heap, made of clones of the map's keys where there is none.
pub(crate) fn made_heap<S: Ord + Hash + Clone + Drop, V>(
    alloc: Global,
    map: &HashMap<S, V>,
    heap: Option<BinaryHeap<S>>,
) -> Result<BinaryHeap<S>, OutOfMemory>
    requires clones { (t q : S) → S.is_clone t q → q ≡ t }
    requires once { IsDistinct S.eq (keys map.now) }
    requires same_keys { IfSome heap
        (λ h. HaveSameKeys S.cmp S.eq (keys map.now) (heap_items h)) }
    ensures { IfOk result (λ h. HaveSameKeys S.cmp S.eq (keys map.now) (heap_items h)) }
{
    match heap {
        Some(heap) => Ok(heap),
        None => Ok(BinaryHeap::from(cloned_keys(alloc, map)?)),
    }
}

// Clones of the keys of a hash map.
fn cloned_keys<S: Eq + Hash + Clone + Drop, V>(
    alloc: Global,
    map: &HashMap<S, V>,
) -> Result<Vec<S>, OutOfMemory>
    requires clones { (t q : S) → S.is_clone t q → q ≡ t }
    ensures { IfOk result (λ cloned. cloned.items ≡ keys map.now) }
{
    let mut cloned = Vec::with_capacity(alloc, map.len())?;
    for (key, _) in map.iter() {
        cloned.push(key.clone()?)?;
    }
    Ok(cloned)
}
