//! Tests of maps from keys of two parts.
ghost use Rattle.std.specs.Prelude.{◌≡◌, ◌<◌, IfOk};

use agg_expect::{expect_equal, expect_equal_for};
use agg_heap_map::DynArrayHeapMap;
use agg_values::{InvalidArgument, OutOfMemory, Steps};
use std::alloc::Global;
use std::marker::Brand;
use std::process::Abort;
use std::sync::ledger::{Blank, Ledger};
use std::test::Fail;

type Map = DynArrayHeapMap<u64, char>;

const A: [u64; 2] = [1, 2];

const B: [u64; 2] = [2, 1];

// The value at a key, which is this one where the key is new.
fn put<L: Ledger>(
    map: &mut Map,
    key: [u64; 2],
    value: char,
    steps: &mut Steps<L>,
) -> Result<char, OutOfMemory>
    requires { map.old.0 ≡ 2 }
    ensures { map.new.0 ≡ 2 }
{
    Ok(*map.get_or_insert_with(&key, || value, steps)?)
}

// The value at a key.
fn value_at<L: Ledger>(map: &mut Map, key: [u64; 2], steps: &mut Steps<L>) -> Option<char>
    requires { map.old.0 ≡ 2 }
    ensures { map.new.0 ≡ 2 }
{
    Some(*map.get_mut(&key, steps)?)
}

// A map with two keys.
fn two_keys<L: Ledger>(alloc: Global, steps: &mut Steps<L>) -> Result<Map, Fail>
    ensures { IfOk result (λ map. map.0 ≡ 2) }
{
    let mut map = Map::try_new(alloc, 2)?;
    put(&mut map, A, 'a', steps)?;
    put(&mut map, B, 'b', steps)?;
    Ok(map)
}

// A map has so many keys, of which this is the greatest.
fn expect_highest(map: &Map, size: usize, highest: [u64; 2]) -> Result<(), Fail> {
    expect_equal(
        (map.size(), map.peek_highest()),
        (size, Some(highest.as_slice())),
    )
}

// The greatest key goes.
fn expect_highest_gone<L: Ledger>(map: &mut Map, steps: &mut Steps<L>) -> Result<(), Fail> {
    expect_highest(map, 2, B)?;
    expect_equal(map.memory_consumption(), 256)?;
    map.evict_highest(steps);
    expect_highest(map, 1, A)?;
    expect_equal(map.memory_consumption(), 128)
}

// The greatest key goes, and the pair of the other stays.
fn expect_evicted<L: Ledger>(
    rt: &(impl Abort + AllocGlobal),
    steps: &mut Steps<L>,
) -> Result<(), Fail> {
    let mut map = two_keys(rt.alloc(), steps)?;
    expect_highest_gone(&mut map, steps)?;
    let mut pairs = map.into_iter();
    let found = pairs
        .next()
        .map(|(key, value)| (key.as_slice() == A.as_slice(), value));
    expect_equal((found, pairs.next().is_none()), (Some((true, 'a')), true))
}

// Keys are there or not, and one that was taken out comes again.
fn expect_found<L: Ledger>(alloc: Global, steps: &mut Steps<L>) -> Result<(), Fail> {
    let mut map = two_keys(alloc, steps)?;
    let found = (
        value_at(&mut map, B, steps),
        value_at(&mut map, [1, 3], steps),
    );
    expect_equal(found, (Some('b'), None))?;
    map.evict_highest(steps);
    expect_equal(value_at(&mut map, B, steps), None)?;
    let again = (put(&mut map, B, 'c', steps)?, put(&mut map, A, 'd', steps)?);
    expect_equal(again, ('c', 'a'))?;
    expect_highest(&map, 2, B)?;
    Ok(())
}

// An empty map has no greatest key and no values.
fn expect_empty<L: Ledger>(map: &mut Map, steps: &mut Steps<L>) -> Result<(), Fail>
    requires { map.old.0 ≡ 2 }
{
    map.evict_highest(steps);
    expect_equal(value_at(map, A, steps), None)?;
    expect_equal((map.size(), map.peek_highest()), (0, None))
}

// An empty map has nothing to give.
fn expect_nothing<L: Ledger>(
    rt: &(impl Abort + AllocGlobal),
    steps: &mut Steps<L>,
) -> Result<(), Fail> {
    let mut map = Map::try_new(rt.alloc(), 2)?;
    expect_empty(&mut map, steps)?;
    assert!(rt; map.into_iter().next().is_none());
    Ok(())
}

fn expect_over<L: Ledger>(rt: &(impl Abort + AllocGlobal), blank: Blank) -> Result<(), Fail>
    requires name { blank.name ≡ L.name }
    requires parts { blank.parts ≡ L.parts }
    requires shared { 0 < L.parts }
{
    let mut steps: Steps<L> = Steps::new(blank);
    expect_evicted(rt, &mut steps)?;
    expect_found(rt.alloc(), &mut steps)?;
    expect_nothing(rt, &mut steps)
}

#[test]
fn keeps_and_evicts_keys(rt: HostRuntime) -> Result<(), Fail> {
    expect_over::<Brand>(&rt, Blank::new(1))
}

// The fault of a dimension.
fn fault_of(alloc: Global, dimension: usize) -> Option<InvalidArgument> {
    Map::try_new(alloc, dimension).err()
}

#[test]
fn refuses_other_dimensions(rt: HostRuntime) -> Result<(), Fail> {
    for (dimension, fault) in [
        (0, Some(InvalidArgument::NoSource)),
        (1, None),
        (16, None),
        (17, Some(InvalidArgument::TooManySources)),
    ] {
        expect_equal_for(dimension, fault_of(rt.alloc(), dimension), fault)?;
    }
    Ok(())
}
