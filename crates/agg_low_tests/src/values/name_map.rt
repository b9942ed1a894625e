use agg_expect::{expect_equal, expect_equal_for};
use agg_values::{NameMap, Text};
use std::test::Fail;

// Names that are inserted, with their values and the values that they had.
const INSERTED: &[(&str, i32, Option<i32>)] = &[
    ("b", 1, None),
    ("a", 2, None),
    ("b", 3, Some(1)),
    ("é", 4, None),
];

fn expect_inserts(map: &mut NameMap<i32>) -> Result<(), Fail> {
    for &(name, value, old) in INSERTED {
        let name = Text::copy_of(map.allocator(), name)?;
        expect_equal(map.insert(name, value)?, old)?;
    }
    Ok(())
}

// Names, and their values.
const FOUND: &[(&str, Option<i32>)] = &[("a", Some(2)), ("b", Some(3)), ("c", None)];

fn expect_values(map: &NameMap<i32>) -> Result<(), Fail> {
    for &(name, value) in FOUND {
        let found = map.get(&Text::copy_of(map.allocator(), name)?).copied();
        expect_equal_for(name, found, value)?;
    }
    Ok(())
}

// A map's names, one after the other, are these.
fn expect_names(map: &NameMap<i32>, expected: &str) -> Result<(), Fail> {
    let mut names = String::new(map.allocator());
    for (name, _) in map.iter() {
        names.push_str(name.as_str())?;
    }
    let is_each_counted = map.keys().count() == map.len();
    expect_equal((names.as_str(), is_each_counted), (expected, true))
}

// Names that are removed, and the values that they had.
const REMOVED: &[(&str, Option<i32>)] = &[("c", None), ("b", Some(3))];

fn expect_removals(map: &mut NameMap<i32>) -> Result<(), Fail> {
    for &(name, value) in REMOVED {
        let name = Text::copy_of(map.allocator(), name)?;
        expect_equal(map.remove(&name), value)?;
    }
    Ok(())
}

#[test]
fn holds_a_value_by_name(rt: HostRuntime) -> Result<(), Fail> {
    let mut map = NameMap::with_capacity(rt.alloc(), 2)?;
    let was_empty = map.is_empty();
    expect_inserts(&mut map)?;
    expect_values(&map)?;
    expect_names(&map, "abé")?;
    expect_removals(&mut map)?;
    expect_equal((was_empty, map.len()), (true, 2))
}
