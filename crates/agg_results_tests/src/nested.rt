//! What two machines hold as one, down to what stands below filters and entries.
use crate::held::Given::{Filter, Metric, Page};
use crate::held::Metric::{Max, Sum};
use crate::held::{Named, Nested, held_of};
use crate::shown::{MergedRow, shown_as_one};
use agg_expect::expect_equal;
use agg_results::MergeError;
use std::alloc::Global;
use std::test::Fail;

// A filter, below it a composite, and below this another.
const FILTERED_PAGES: &str = r#"{"f":{"filter":{"all":{}},"aggs":{"g":{"composite":{
    "sources":[{"a":{"terms":{"field":"a"}}}],"size":2},"aggs":{"h":{"composite":{
    "sources":[{"b":{"terms":{"field":"b"}}}],"size":2}}}}}}}"#;

// A composite, and below it a filter.
const PAGE_OF_FILTERS: &str = r#"{"g":{"composite":{"sources":[{"a":{"terms":{"field":"a"}}}],
    "size":2},"aggs":{"f":{"filter":{"all":{}}}}}}"#;

// A composite, below it another, and below this a sum.
const PAGE_OF_PAGES: &str = r#"{"g":{"composite":{"sources":[{"a":{"terms":{"field":"a"}}}],
    "size":3},"aggs":{"h":{"composite":{"sources":[{"b":{"terms":{"field":"b"}}}],"size":3},
    "aggs":{"m":{"sum":{"field":"n"}}}}}}}"#;

// Two metrics, by themselves, below a filter and below a composite.
const METRICS: &str = r#"{"m":{"sum":{"field":"n"}},"n":{"max":{"field":"n"}}}"#;

const FILTERED_METRICS: &str = r#"{"f":{"filter":{"all":{}},"aggs":{
    "m":{"sum":{"field":"n"}},"n":{"max":{"field":"n"}}}}}"#;

const PAGE_OF_METRICS: &str = r#"{"g":{"composite":{"sources":[{"a":{"terms":{"field":"a"}}}],
    "size":3},"aggs":{"m":{"sum":{"field":"n"}},"n":{"max":{"field":"n"}}}}}"#;

// Results that both machines hold, nested twice.
const NESTED: &[MergedRow] = &[
    (
        FILTERED_PAGES,
        &[(
            "f",
            Filter(
                3,
                &[(
                    "g",
                    Page(
                        2,
                        &[
                            (1, 2, &[("h", Page(2, &[(7, 2, &[])]))]),
                            (2, 1, &[("h", Page(2, &[(7, 1, &[])]))]),
                        ],
                    ),
                )],
            ),
        )],
        &[(
            "f",
            Filter(
                4,
                &[(
                    "g",
                    Page(
                        2,
                        &[
                            (1, 3, &[("h", Page(2, &[(6, 1, &[]), (7, 2, &[])]))]),
                            (3, 1, &[]),
                        ],
                    ),
                )],
            ),
        )],
        concat!(
            r#"{"f":{"doc_count":7,"g":{"after_key":{"a":"i64:2"},"buckets":[{"doc_count":5,"#,
            r#""h":{"after_key":{"b":"i64:7"},"buckets":[{"doc_count":1,"key":{"b":6}},"#,
            r#"{"doc_count":4,"key":{"b":7}}]},"key":{"a":1}},{"doc_count":1,"#,
            r#""h":{"buckets":[{"doc_count":1,"key":{"b":7}}]},"key":{"a":2}}]}}}"#,
        ),
    ),
    (
        PAGE_OF_FILTERS,
        &[("g", Page(2, &[(1, 2, &[("f", Filter(1, &[]))])]))],
        &[(
            "g",
            Page(
                2,
                &[
                    (1, 3, &[("f", Filter(2, &[]))]),
                    (2, 1, &[("f", Filter(0, &[]))]),
                ],
            ),
        )],
        concat!(
            r#"{"g":{"after_key":{"a":"i64:2"},"buckets":[{"doc_count":5,"f":{"doc_count":3},"#,
            r#""key":{"a":1}},{"doc_count":1,"f":{"doc_count":0},"key":{"a":2}}]}}"#,
        ),
    ),
    (
        PAGE_OF_PAGES,
        &[(
            "g",
            Page(
                3,
                &[(1, 2, &[("h", Page(3, &[(7, 2, &[("m", Metric(Sum(5)))])]))])],
            ),
        )],
        &[(
            "g",
            Page(
                3,
                &[(
                    1,
                    1,
                    &[("h", Page(3, &[(7, 1, &[("m", Metric(Sum(-9)))])]))],
                )],
            ),
        )],
        concat!(
            r#"{"g":{"buckets":[{"doc_count":3,"h":{"buckets":[{"doc_count":3,"key":{"b":7},"#,
            r#""m":{"value":-4}}]},"key":{"a":1}}]}}"#,
        ),
    ),
];

#[test]
fn what_stands_below_is_one_too(rt: HostRuntime) -> Result<(), Fail> {
    for row in NESTED {
        expect_equal(shown_as_one(rt.alloc(), row)?.as_str(), row.3)?;
    }
    Ok(())
}

// Results that one of the machines holds alone.
const ONE_SIDED: &[MergedRow] = &[
    (
        METRICS,
        &[("m", Metric(Sum(1)))],
        &[("n", Metric(Max(Some(2))))],
        r#"{"m":{"value":1},"n":{"value":2}}"#,
    ),
    (
        METRICS,
        &[("n", Metric(Max(Some(2))))],
        &[("m", Metric(Sum(1)))],
        r#"{"m":{"value":1},"n":{"value":2}}"#,
    ),
    (
        FILTERED_METRICS,
        &[("f", Filter(1, &[("m", Metric(Sum(1)))]))],
        &[("f", Filter(2, &[("n", Metric(Max(Some(2))))]))],
        r#"{"f":{"doc_count":3,"m":{"value":1},"n":{"value":2}}}"#,
    ),
    (
        PAGE_OF_METRICS,
        &[("g", Page(3, &[(1, 1, &[("m", Metric(Sum(1)))])]))],
        &[("g", Page(3, &[(1, 2, &[("n", Metric(Max(Some(2))))])]))],
        r#"{"g":{"buckets":[{"doc_count":3,"key":{"a":1},"m":{"value":1},"n":{"value":2}}]}}"#,
    ),
    (
        PAGE_OF_METRICS,
        &[(
            "g",
            Page(3, &[(1, 1, &[("m", Metric(Sum(4)))]), (3, 1, &[])]),
        )],
        &[(
            "g",
            Page(
                3,
                &[(2, 2, &[("m", Metric(Sum(6))), ("n", Metric(Max(Some(2))))])],
            ),
        )],
        concat!(
            r#"{"g":{"after_key":{"a":"i64:3"},"buckets":[{"doc_count":1,"key":{"a":1},"#,
            r#""m":{"value":4},"n":{"value":null}},{"doc_count":2,"key":{"a":2},"m":{"value":6},"#,
            r#""n":{"value":2}},{"doc_count":1,"key":{"a":3},"m":{"value":0},"#,
            r#""n":{"value":null}}]}}"#,
        ),
    ),
];

#[test]
fn what_one_machine_holds_alone_stays(rt: HostRuntime) -> Result<(), Fail> {
    for row in ONE_SIDED {
        expect_equal(shown_as_one(rt.alloc(), row)?.as_str(), row.3)?;
    }
    Ok(())
}

// What three machines hold, one after the other, and what is answered at the third. An entry that
// a trimmed page no longer holds adds to no count.
const TRIMMED: &[(
    Named<Nested>,
    Named<Nested>,
    Named<Nested>,
    Result<(), MergeError>,
)] = &[
    (
        &[("g", Page(1, &[(1, 1, &[])]))],
        &[("g", Page(1, &[(3, 1, &[])]))],
        &[("g", Page(1, &[(3, u64::MAX, &[])]))],
        Err(MergeError::TooMany),
    ),
    (
        &[("g", Page(1, &[(1, 1, &[]), (2, 1, &[])]))],
        &[("g", Page(1, &[(3, 1, &[])]))],
        &[("g", Page(1, &[(3, u64::MAX, &[])]))],
        Ok(()),
    ),
    (
        &[("g", Page(1, &[(1, 1, &[]), (2, 1, &[])]))],
        &[("g", Page(1, &[(3, 1, &[])]))],
        &[("g", Page(1, &[(1, u64::MAX, &[])]))],
        Err(MergeError::TooMany),
    ),
    (
        &[("g", Page(2, &[(1, 1, &[("h", Page(1, &[(1, 1, &[])]))])]))],
        &[("g", Page(2, &[(1, 1, &[("h", Page(1, &[(3, 1, &[])]))])]))],
        &[(
            "g",
            Page(2, &[(1, 1, &[("h", Page(1, &[(3, u64::MAX, &[])]))])]),
        )],
        Err(MergeError::TooMany),
    ),
    (
        &[(
            "g",
            Page(2, &[(1, 1, &[("h", Page(1, &[(1, 1, &[]), (2, 1, &[])]))])]),
        )],
        &[("g", Page(2, &[(1, 1, &[("h", Page(1, &[(3, 1, &[])]))])]))],
        &[(
            "g",
            Page(2, &[(1, 1, &[("h", Page(1, &[(3, u64::MAX, &[])]))])]),
        )],
        Ok(()),
    ),
];

// What is answered where what two machines hold as one takes a third's in.
fn third_answer(
    alloc: Global,
    first: Named<Nested>,
    second: Named<Nested>,
    third: Named<Nested>,
) -> Result<Result<(), MergeError>, Fail> {
    let mut held = held_of(alloc, first)?;
    held.merge_fruits(held_of(alloc, second)?)?;
    Ok(held.merge_fruits(held_of(alloc, third)?))
}

#[test]
fn pages_of_more_than_twice_their_size_are_trimmed(rt: HostRuntime) -> Result<(), Fail> {
    for &(first, second, third, answer) in TRIMMED {
        expect_equal(third_answer(rt.alloc(), first, second, third)?, answer)?;
    }
    Ok(())
}
