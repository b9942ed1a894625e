//! Tests of a map of many keys, which are expected.
ghost use Rattle.std.specs.Prelude.{◌≡◌, ◌<◌};

use crate::buckets::heap_map::array_keys::insert;
use agg_expect::expect_equal;
use agg_heap_map::LazyHeapMap;
use agg_values::Steps;
use std::marker::Brand;
use std::process::Abort;
use std::sync::ledger::{Blank, Ledger};
use std::test::Fail;

const MANY: u64 = 60_000;

// Puts many keys into a map, from the greatest down.
fn put_all<L: Ledger>(map: &mut LazyHeapMap<u64, u64>, steps: &mut Steps<L>) -> Result<(), Fail> {
    for key in (0..MANY).rev() {
        insert(map, &key, steps)?;
    }
    Ok(())
}

// The entries of a map are as many, ascending.
fn expect_entries(
    rt: &(impl Abort + AllocGlobal),
    map: &LazyHeapMap<u64, u64>,
) -> Result<(), Fail> {
    let entries = map.entries_ascending(rt.alloc())?;
    expect_equal((entries.len(), map.size()), (MANY as usize, MANY as usize))?;
    expect_equal(
        (entries.first(), entries.last()),
        (Some(&(0, 1)), Some(&(MANY - 1, 1))),
    )
}

// A map gives its entries away, ascending.
fn expect_given(map: LazyHeapMap<u64, u64>) -> Result<(), Fail> {
    let mut rest = map.into_ascending()?;
    expect_equal((rest.len(), rest.next()), (MANY as usize, Some((0, 1))))?;
    expect_equal(
        (rest.len(), rest.last()),
        (MANY as usize - 1, Some((MANY - 1, 1))),
    )
}

// A map that expects many keys has them all, ascending.
fn expect_all<L: Ledger>(rt: &(impl Abort + AllocGlobal), blank: Blank) -> Result<(), Fail>
    requires name { blank.name ≡ L.name }
    requires parts { blank.parts ≡ L.parts }
    requires shared { 0 < L.parts }
{
    let mut steps: Steps<L> = Steps::new(blank);
    let mut map: LazyHeapMap<u64, u64> = LazyHeapMap::new(rt.alloc());
    map.expect(MANY as usize);
    put_all(&mut map, &mut steps)?;
    expect_entries(rt, &map)?;
    expect_given(map)
}

#[test]
fn many_keys_are_expected(rt: HostRuntime) -> Result<(), Fail> {
    expect_all::<Brand>(&rt, Blank::new(1))
}
