use crate::values::given::Given;
use agg_expect::expect_equal;
use agg_values::{ColumnPaginationOrder, CompositeKey, OutOfMemory};
use std::alloc::Global;
use std::test::Fail;

// The class of a key, and its class as it is shown. None is that of Null.
type Classes = (Option<ColumnPaginationOrder>, Option<ColumnPaginationOrder>);

// Keys, and their classes.
const CLASSES: &[(Given, Classes)] = &[
    (Given::Null, (None, None)),
    (
        Given::Truth(true),
        (
            Some(ColumnPaginationOrder::Bool),
            Some(ColumnPaginationOrder::Bool),
        ),
    ),
    (
        Given::Text("a"),
        (
            Some(ColumnPaginationOrder::Str),
            Some(ColumnPaginationOrder::Str),
        ),
    ),
    (
        Given::Signed(-1),
        (
            Some(ColumnPaginationOrder::Numeric),
            Some(ColumnPaginationOrder::Numeric),
        ),
    ),
    (
        Given::Unsigned(1),
        (
            Some(ColumnPaginationOrder::Numeric),
            Some(ColumnPaginationOrder::Numeric),
        ),
    ),
    (
        Given::Address(1),
        (
            Some(ColumnPaginationOrder::IpAddr),
            Some(ColumnPaginationOrder::Str),
        ),
    ),
    (
        Given::Date(1),
        (
            Some(ColumnPaginationOrder::DateTime),
            Some(ColumnPaginationOrder::Numeric),
        ),
    ),
];

fn classes_of(alloc: Global, given: Given) -> Result<Classes, OutOfMemory> {
    let key = given.key(alloc)?;
    let class = key.column_pagination_order();
    let shown = CompositeKey::from_intermediate(alloc, key)?;
    Ok((class, shown.column_pagination_order()))
}

#[test]
fn gives_the_class_of_each_key(rt: HostRuntime) -> Result<(), Fail> {
    for &(given, classes) in CLASSES {
        expect_equal(classes_of(rt.alloc(), given)?, classes)?;
    }
    assert!(rt; ColumnPaginationOrder::Str < ColumnPaginationOrder::Numeric);
    Ok(())
}
