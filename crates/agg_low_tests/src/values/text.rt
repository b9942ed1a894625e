use agg_expect::{expect_equal, expect_equal_for};
use agg_values::{OutOfMemory, Text};
use std::alloc::Global;
use std::cmp::Ordering;
use std::test::Fail;

// Two texts, and how they compare.
const COMPARED: &[(&str, &str, Ordering)] = &[
    ("", "a", Ordering::Less),
    ("a", "a", Ordering::Equal),
    ("b", "ab", Ordering::Greater),
    ("z", "é", Ordering::Less),
];

fn compared(alloc: Global, left: &str, right: &str) -> Result<Ordering, OutOfMemory> {
    let left = Text::copy_of(alloc, left)?;
    Ok(left.cmp(&Text::copy_of(alloc, right)?))
}

#[test]
fn orders_texts_by_their_bytes(rt: HostRuntime) -> Result<(), Fail> {
    for &(left, right, order) in COMPARED {
        let found = compared(rt.alloc(), left, right)?;
        expect_equal_for((left, right), found, order)?;
    }
    Ok(())
}

#[test]
fn copies_are_equal(rt: HostRuntime) -> Result<(), Fail> {
    for &(given, _, _) in COMPARED {
        let text = Text::from_string(String::from_str(rt.alloc(), given)?)?;
        expect_equal(text.try_clone(rt.alloc())?, text)?;
    }
    Ok(())
}
