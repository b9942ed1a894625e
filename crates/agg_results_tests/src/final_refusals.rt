//! What is held that has no final results for a request.
use self::Refusal::{Buckets, Mismatch, Unknown};
use crate::held::Given::{Filter, Metric, Page};
use crate::held::Metric::{Count, Max, Min, Sum};
use crate::held::{Named, Nested, held_of};
use crate::shown::{PAGE, final_of};
use agg_expect::expect_equal;
use agg_results::FinalError;
use agg_values::AggregationError;
use std::alloc::Global;
use std::test::Fail;

// Why there are no final results.
#[derive(Clone, Copy, Debug, PartialEq, Eq)]
enum Refusal {
    Unknown,
    Mismatch,
    Buckets(u32, u64),
    Other,
}

// A filter, below it a composite, and below this another with a sum below it.
const DEEP: &str = r#"{"f":{"filter":{"all":{}},"aggs":{"g":{"composite":{
    "sources":[{"a":{"terms":{"field":"a"}}}],"size":2},"aggs":{"h":{"composite":{
    "sources":[{"b":{"terms":{"field":"b"}}}],"size":2},"aggs":{"m":{"sum":{"field":"n"}}}}}}}}}"#;

const SUM: &str = r#"{"m":{"sum":{"field":"n"}}}"#;

const FILTER: &str = r#"{"f":{"filter":{"all":{}}}}"#;

const DESCENDING: &str =
    r#"{"g":{"composite":{"sources":[{"a":{"terms":{"field":"a","order":"desc"}}}],"size":2}}}"#;

const TWO_SOURCES: &str = r#"{"g":{"composite":{"sources":[{"a":{"terms":{"field":"a"}}},
    {"b":{"terms":{"field":"b"}}}],"size":2}}}"#;

// Below a filter a page of two entries, with a page of one entry below the first.
const FOUR_DEEP: Named<Nested> = &[(
    "f",
    Filter(
        9,
        &[(
            "g",
            Page(
                2,
                &[
                    (1, 2, &[("h", Page(2, &[(6, 1, &[]), (7, 1, &[])]))]),
                    (2, 2, &[]),
                ],
            ),
        )],
    ),
)];

// Requests, what is held, the limit on buckets, and why there are no final results, if there are
// none.
const FINAL: &[(&str, Named<Nested>, u32, Option<Refusal>)] = &[
    // A name is held that isn't asked for.
    ("{}", &[("m", Metric(Sum(1)))], 9, Some(Unknown)),
    (SUM, &[("n", Metric(Sum(1)))], 9, Some(Unknown)),
    (
        FILTER,
        &[("f", Filter(1, &[("m", Metric(Sum(1)))]))],
        9,
        Some(Unknown),
    ),
    (
        PAGE,
        &[("g", Page(2, &[(1, 1, &[("m", Metric(Sum(1)))])]))],
        9,
        Some(Unknown),
    ),
    (
        DEEP,
        &[(
            "f",
            Filter(1, &[("g", Page(2, &[(1, 1, &[("n", Metric(Sum(1)))])]))]),
        )],
        9,
        Some(Unknown),
    ),
    // What is held is of another shape.
    (SUM, &[("m", Metric(Count(1)))], 9, Some(Mismatch)),
    (SUM, &[("m", Metric(Max(None)))], 9, Some(Mismatch)),
    (SUM, &[("m", Metric(Min(None)))], 9, Some(Mismatch)),
    (SUM, &[("m", Page(2, &[]))], 9, Some(Mismatch)),
    (SUM, &[("m", Filter(0, &[]))], 9, Some(Mismatch)),
    (FILTER, &[("f", Page(2, &[]))], 9, Some(Mismatch)),
    (FILTER, &[("f", Metric(Sum(0)))], 9, Some(Mismatch)),
    (PAGE, &[("g", Filter(0, &[]))], 9, Some(Mismatch)),
    (PAGE, &[("g", Metric(Count(0)))], 9, Some(Mismatch)),
    (
        DESCENDING,
        &[("g", Page(2, &[(1, 1, &[])]))],
        9,
        Some(Mismatch),
    ),
    (
        TWO_SOURCES,
        &[("g", Page(2, &[(1, 1, &[])]))],
        9,
        Some(Mismatch),
    ),
    (DESCENDING, &[("g", Page(2, &[]))], 9, None),
    (
        DEEP,
        &[("f", Filter(1, &[("g", Metric(Sum(1)))]))],
        9,
        Some(Mismatch),
    ),
    (
        DEEP,
        &[(
            "f",
            Filter(1, &[("g", Page(2, &[(1, 1, &[("h", Metric(Sum(1)))])]))]),
        )],
        9,
        Some(Mismatch),
    ),
    // Buckets count inside a filter and below an entry, and a filter itself doesn't.
    (DEEP, FOUR_DEEP, 3, Some(Buckets(3, 4))),
    (DEEP, FOUR_DEEP, 0, Some(Buckets(0, 4))),
    (DEEP, FOUR_DEEP, 4, None),
    (FILTER, &[("f", Filter(9, &[]))], 0, None),
    (SUM, &[("m", Metric(Sum(9)))], 0, None),
    // Of entries those count that a page shows.
    (
        PAGE,
        &[("g", Page(2, &[(1, 1, &[]), (2, 1, &[]), (3, 1, &[])]))],
        2,
        None,
    ),
    (
        PAGE,
        &[("g", Page(2, &[(1, 1, &[]), (2, 1, &[]), (3, 1, &[])]))],
        1,
        Some(Buckets(1, 2)),
    ),
    // Of two causes the first is told.
    (
        PAGE,
        &[("g", Metric(Sum(1))), ("h", Metric(Sum(1)))],
        9,
        Some(Unknown),
    ),
    (
        DEEP,
        &[(
            "f",
            Filter(
                1,
                &[(
                    "g",
                    Page(
                        2,
                        &[
                            (1, 1, &[("h", Metric(Sum(1)))]),
                            (2, 1, &[("n", Metric(Sum(1)))]),
                        ],
                    ),
                )],
            ),
        )],
        0,
        Some(Unknown),
    ),
    (
        DESCENDING,
        &[("g", Page(2, &[(1, 1, &[])]))],
        0,
        Some(Mismatch),
    ),
];

// Why what is held has no final results.
fn refusal_of(error: FinalError) -> Refusal {
    match error {
        FinalError::UnknownAggregation => Refusal::Unknown,
        FinalError::Mismatch => Refusal::Mismatch,
        FinalError::Aggregation(AggregationError::BucketLimitExceeded { limit, current }) => {
            Refusal::Buckets(limit, current)
        }
        _ => Refusal::Other,
    }
}

// Why what is held has no final results, if it has none.
fn refused(
    alloc: Global,
    request: &str,
    given: Named<Nested>,
    bucket_limit: u32,
) -> Result<Option<Refusal>, Fail> {
    match final_of(alloc, request, held_of(alloc, given)?, Some(bucket_limit))? {
        Ok(_) => Ok(None),
        Err(error) => Ok(Some(refusal_of(error))),
    }
}

#[test]
fn what_a_request_does_not_ask_for_is_not_final(rt: HostRuntime) -> Result<(), Fail> {
    for &(request, given, bucket_limit, refusal) in FINAL {
        expect_equal(refused(rt.alloc(), request, given, bucket_limit)?, refusal)?;
    }
    Ok(())
}
