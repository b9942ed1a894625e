use agg_expect::{expect_equal, expect_equal_for};
use agg_values::{CompositeIntermediateKey, OutOfMemory, Text, Tuple};
use std::alloc::Global;
use std::test::Fail;

// A text and Null.
fn two_keys(alloc: Global) -> Result<Tuple, OutOfMemory> {
    let mut tuple = Tuple::with_capacity(alloc, 2)?;
    tuple.push(CompositeIntermediateKey::Str(Text::copy_of(alloc, "é")?))?;
    tuple.push(CompositeIntermediateKey::Null)?;
    Ok(tuple)
}

#[test]
fn copies_its_keys(rt: HostRuntime) -> Result<(), Fail> {
    let tuple = two_keys(rt.alloc())?;
    let copy = tuple.try_clone(rt.alloc())?;
    expect_equal((copy.as_slice().len(), &copy), (2, &tuple))
}

#[test]
fn takes_any_number_of_keys(rt: HostRuntime) -> Result<(), Fail> {
    for room in 0..4 {
        let mut tuple = Tuple::with_capacity(rt.alloc(), room)?;
        for n in 0..3 {
            tuple.push(CompositeIntermediateKey::I64(n))?;
            let last = CompositeIntermediateKey::I64(n);
            expect_equal_for((n, room), tuple.as_slice().last(), Some(&last))?;
        }
        expect_equal(tuple.as_slice().len(), 3)?;
        let first = CompositeIntermediateKey::I64(0);
        expect_equal(tuple.as_slice().first(), Some(&first))?;
    }
    Ok(())
}
