use agg_expect::expect_equal_for;
use agg_values::{
    Address, CompositeIntermediateKey, MissingOrder, Order, Text,
    composite_intermediate_key_ordering,
};
use std::alloc::Global;
use std::cmp::Ordering;
use std::test::Fail;

// Null and a key of each class, ascending.
fn ascending(alloc: Global) -> Result<Vec<CompositeIntermediateKey>, Fail> {
    let keys = Vec::from_array(
        alloc,
        [
            CompositeIntermediateKey::Null,
            CompositeIntermediateKey::Bool(false),
            CompositeIntermediateKey::Bool(true),
            CompositeIntermediateKey::Str(Text::copy_of(alloc, "")?),
            CompositeIntermediateKey::I64(-1),
            CompositeIntermediateKey::U64(9_223_372_036_854_775_808),
            CompositeIntermediateKey::IpAddr(Address(0)),
            CompositeIntermediateKey::DateTime(-1),
        ],
    )?;
    Ok(keys)
}

// How two keys compare: ascending, as by default, and descending with Null first.
type Orderings = (Ordering, Ordering, Ordering);

fn orderings(left: &CompositeIntermediateKey, right: &CompositeIntermediateKey) -> Orderings {
    (
        composite_intermediate_key_ordering(left, right, Order::Asc, MissingOrder::Default),
        composite_intermediate_key_ordering(left, right, Order::default(), MissingOrder::default()),
        composite_intermediate_key_ordering(left, right, Order::Desc, MissingOrder::First),
    )
}

// How the keys at two places compare.
fn expected(i: usize, j: usize) -> Orderings {
    let places = i.cmp(&j);
    let some_null = i == 0 || j == 0;
    let first = if some_null { places } else { places.reverse() };
    (places, places.reverse(), first)
}

fn expect_ascending(keys: &[CompositeIntermediateKey]) -> Result<(), Fail> {
    for (i, left) in keys.iter().enumerate() {
        for (j, right) in keys.iter().enumerate() {
            expect_equal_for((i, j), orderings(left, right), expected(i, j))?;
        }
    }
    Ok(())
}

#[test]
fn orders_classes_and_null(rt: HostRuntime) -> Result<(), Fail> {
    expect_ascending(ascending(rt.alloc())?.as_slice())
}
