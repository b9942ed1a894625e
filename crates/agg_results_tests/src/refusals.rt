//! What two machines hold that can't be one.
use crate::held::Given::{Filter, Metric, Page};
use crate::held::Metric::{Count, Max, Min, Sum};
use crate::held::{Named, Nested, empty_page, held_of, held_page};
use agg_expect::expect_equal;
use agg_results::{IntermediateAggregationResults, MergeError};
use agg_values::Order;
use std::alloc::Global;
use std::test::Fail;

type Pair = (Named<Nested>, Named<Nested>);

// Results of one name that differ in kind, in target size or in orders, at the top and below.
const OTHERS: &[Pair] = &[
    (&[("x", Filter(1, &[]))], &[("x", Metric(Sum(1)))]),
    (&[("x", Metric(Sum(1)))], &[("x", Filter(1, &[]))]),
    (&[("x", Page(2, &[]))], &[("x", Filter(1, &[]))]),
    (&[("x", Filter(1, &[]))], &[("x", Page(2, &[]))]),
    (&[("x", Page(0, &[]))], &[("x", Metric(Count(0)))]),
    (&[("x", Metric(Max(None)))], &[("x", Metric(Min(None)))]),
    (&[("x", Metric(Count(1)))], &[("x", Metric(Sum(1)))]),
    (&[("x", Page(2, &[]))], &[("x", Page(3, &[]))]),
    (
        &[("w", Metric(Sum(1))), ("x", Page(2, &[(5, 1, &[])]))],
        &[("x", Page(3, &[(5, 1, &[])])), ("y", Metric(Sum(1)))],
    ),
    (
        &[("x", Filter(1, &[("y", Metric(Sum(1)))]))],
        &[("x", Filter(1, &[("y", Metric(Count(1)))]))],
    ),
    (
        &[(
            "x",
            Page(2, &[(4, 1, &[]), (5, 1, &[("y", Metric(Max(None)))])]),
        )],
        &[(
            "x",
            Page(2, &[(5, 1, &[("y", Metric(Min(None)))]), (6, 1, &[])]),
        )],
    ),
    (
        &[(
            "x",
            Page(2, &[(5, 1, &[("y", Filter(1, &[("z", Page(1, &[]))]))])]),
        )],
        &[(
            "x",
            Page(2, &[(5, 1, &[("y", Filter(1, &[("z", Page(2, &[]))]))])]),
        )],
    ),
];

// Results of one name that differ, where counts or sums are too large too.
const OTHERS_AND_TOO_MANY: &[Pair] = &[
    (
        &[("a", Metric(Count(u64::MAX))), ("b", Metric(Max(None)))],
        &[("a", Metric(Count(1))), ("b", Metric(Min(None)))],
    ),
    (
        &[("a", Metric(Max(None))), ("b", Metric(Count(u64::MAX)))],
        &[("a", Metric(Min(None))), ("b", Metric(Count(1)))],
    ),
    (
        &[("x", Filter(u64::MAX, &[("y", Metric(Sum(1)))]))],
        &[("x", Filter(1, &[("y", Metric(Count(1)))]))],
    ),
    (
        &[(
            "x",
            Page(2, &[(4, u64::MAX, &[]), (5, 1, &[("y", Metric(Sum(1)))])]),
        )],
        &[(
            "x",
            Page(2, &[(4, 1, &[]), (5, 1, &[("y", Metric(Count(1)))])]),
        )],
    ),
    (
        &[(
            "x",
            Page(2, &[(4, 1, &[("y", Metric(Sum(1)))]), (5, u64::MAX, &[])]),
        )],
        &[(
            "x",
            Page(2, &[(4, 1, &[("y", Metric(Count(1)))]), (5, 1, &[])]),
        )],
    ),
];

// Counts and sums that are too large, at the top and below.
const TOO_MANY: &[Pair] = &[
    (
        &[("x", Page(2, &[(5, u64::MAX, &[])]))],
        &[("x", Page(2, &[(5, 1, &[])]))],
    ),
    (
        &[("x", Page(2, &[(4, 1, &[]), (5, u64::MAX, &[])]))],
        &[("x", Page(2, &[(4, 1, &[]), (5, 1, &[])]))],
    ),
    (&[("x", Filter(u64::MAX, &[]))], &[("x", Filter(1, &[]))]),
    (
        &[("x", Metric(Count(1)))],
        &[("x", Metric(Count(u64::MAX)))],
    ),
    (&[("x", Metric(Sum(i128::MAX)))], &[("x", Metric(Sum(1)))]),
    (&[("x", Metric(Sum(i128::MIN)))], &[("x", Metric(Sum(-1)))]),
    (
        &[("x", Filter(1, &[("y", Filter(1, &[]))]))],
        &[("x", Filter(1, &[("y", Filter(u64::MAX, &[]))]))],
    ),
    (
        &[(
            "x",
            Page(2, &[(5, 1, &[("y", Page(2, &[(6, u64::MAX, &[])]))])]),
        )],
        &[("x", Page(2, &[(5, 1, &[("y", Page(2, &[(6, 1, &[])]))])]))],
    ),
    (
        &[("x", Page(2, &[(5, 1, &[("y", Metric(Sum(i128::MAX)))])]))],
        &[("x", Page(2, &[(5, 1, &[("y", Metric(Sum(1)))])]))],
    ),
];

// What is answered where the first takes the second in, and whether it then holds no name.
fn taken_in(
    mut first: IntermediateAggregationResults,
    second: IntermediateAggregationResults,
) -> (Result<(), MergeError>, bool) {
    let answer = first.merge_fruits(second);
    (answer, first.keys().next().is_none())
}

// The first of each pair refuses the second so, and then holds no name.
fn expect_refused(alloc: Global, pairs: &[Pair], error: MergeError) -> Result<(), Fail> {
    for &(first, second) in pairs {
        let found = taken_in(held_of(alloc, first)?, held_of(alloc, second)?);
        expect_equal(found, (Err(error), true))?;
    }
    Ok(())
}

#[test]
fn results_of_other_shapes_are_not_one(rt: HostRuntime) -> Result<(), Fail> {
    expect_refused(rt.alloc(), OTHERS, MergeError::Mismatch)
}

#[test]
fn pages_in_other_orders_are_not_one(rt: HostRuntime) -> Result<(), Fail> {
    let alloc = rt.alloc();
    for (order, other, answer) in [
        (Order::Desc, Order::Asc, Err(MergeError::Mismatch)),
        (Order::Asc, Order::Desc, Err(MergeError::Mismatch)),
        (Order::Desc, Order::Desc, Ok(())),
    ] {
        let first = held_page(alloc, empty_page(alloc, 2, order)?)?;
        let second = held_page(alloc, empty_page(alloc, 2, other)?)?;
        expect_equal(taken_in(first, second), (answer, answer.is_err()))?;
    }
    Ok(())
}

#[test]
fn other_shapes_are_told_before_sums_that_are_too_large(rt: HostRuntime) -> Result<(), Fail> {
    expect_refused(rt.alloc(), OTHERS_AND_TOO_MANY, MergeError::Mismatch)
}

#[test]
fn sums_that_are_too_large_are_refused(rt: HostRuntime) -> Result<(), Fail> {
    expect_refused(rt.alloc(), TOO_MANY, MergeError::TooMany)
}
