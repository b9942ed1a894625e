//! A set finds a value that is equal to the one that it holds, and no other.
use agg_expect::expect_equal_for;
use agg_values::{
    Address, CompositeIntermediateKey, CompositeKey, IntermediateKey, Key, OutOfMemory, Text, Tuple,
};
use std::alloc::Global;
use std::collections::HashSet;
use std::hash::Hash;
use std::test::Fail;

// A set that holds one value finds an equal one and not another.
fn expect_found<T: Eq + Hash + Drop>(
    alloc: Global,
    kind: &str,
    item: T,
    equal: &T,
    other: &T,
) -> Result<(), Fail> {
    let mut set = HashSet::new(alloc);
    set.insert(item)?;
    let found = (set.contains(equal), set.contains(other));
    expect_equal_for(kind, found, (true, false))
}

#[test]
fn sets_find_equal_keys(rt: HostRuntime) -> Result<(), Fail> {
    expect_found(rt.alloc(), "address", Address(1), &Address(1), &Address(2))?;
    expect_found(
        rt.alloc(),
        "typed key",
        CompositeIntermediateKey::I64(5),
        &CompositeIntermediateKey::I64(5),
        &CompositeIntermediateKey::U64(5),
    )?;
    expect_found(
        rt.alloc(),
        "shown key",
        CompositeKey::I64(5),
        &CompositeKey::I64(5),
        &CompositeKey::U64(5),
    )
}

#[test]
fn sets_find_equal_keys_of_buckets(rt: HostRuntime) -> Result<(), Fail> {
    expect_found(
        rt.alloc(),
        "bucket key",
        Key::I64(5),
        &Key::I64(5),
        &Key::U64(5),
    )?;
    expect_found(
        rt.alloc(),
        "intermediate key",
        IntermediateKey::Bool(true),
        &IntermediateKey::Bool(true),
        &IntermediateKey::Bool(false),
    )
}

#[test]
fn sets_find_equal_texts(rt: HostRuntime) -> Result<(), Fail> {
    let equal = Text::copy_of(rt.alloc(), "a")?;
    let other = Text::copy_of(rt.alloc(), "b")?;
    expect_found(
        rt.alloc(),
        "text",
        Text::copy_of(rt.alloc(), "a")?,
        &equal,
        &other,
    )
}

fn tuple_of(alloc: Global, key: CompositeIntermediateKey) -> Result<Tuple, OutOfMemory> {
    let mut tuple = Tuple::new(alloc);
    tuple.push(CompositeIntermediateKey::Null)?;
    tuple.push(key)?;
    Ok(tuple)
}

#[test]
fn sets_find_equal_tuples(rt: HostRuntime) -> Result<(), Fail> {
    let alloc = rt.alloc();
    let equal = tuple_of(alloc, CompositeIntermediateKey::I64(5))?;
    let other = tuple_of(alloc, CompositeIntermediateKey::U64(5))?;
    let held = tuple_of(alloc, CompositeIntermediateKey::I64(5))?;
    expect_found(rt.alloc(), "tuple", held, &equal, &other)
}
