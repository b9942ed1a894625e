use crate::values::given::Given;
use agg_expect::expect_equal;
use agg_values::canonical;
use std::test::Fail;

// Keys, and the same keys with signed numbers where they fit.
const CANONICAL: &[(Given, Given)] = &[
    (Given::Unsigned(5), Given::Signed(5)),
    (Given::Unsigned(u64::MAX), Given::Unsigned(u64::MAX)),
    (Given::Text("5"), Given::Text("5")),
];

#[test]
fn makes_numbers_signed_where_they_fit(rt: HostRuntime) -> Result<(), Fail> {
    let alloc = rt.alloc();
    for &(given, same) in CANONICAL {
        let signed = canonical(given.key(alloc)?);
        expect_equal(signed, same.key(alloc)?)?;
    }
    Ok(())
}

#[test]
fn copies_are_equal(rt: HostRuntime) -> Result<(), Fail> {
    let alloc = rt.alloc();
    for &(given, _) in CANONICAL {
        let key = given.key(alloc)?;
        expect_equal(key.try_clone(alloc)?, key)?;
    }
    Ok(())
}
