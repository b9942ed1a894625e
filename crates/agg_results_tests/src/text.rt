//! The text of final results, and the number of their buckets.
use crate::held::Given::{Filter, Metric, Page};
use crate::held::Metric::{Count, Max, Min, Sum};
use crate::held::{Named, Nested, held_of};
use crate::shown::shown_with_count;
use agg_expect::expect_equal;
use agg_results::{AggregationResult, AggregationResults, BucketResult, CompositeBucketEntry};
use agg_values::{CompositeKey, ItemList, NameMap, OutOfMemory, Text};
use std::alloc::Global;
use std::test::Fail;

// A filter with four results below it, of which one comes before `doc_count`.
const FILTER: &str = r#"{"f":{"filter":{"all":{}},"aggs":{"a":{"max":{"field":"n"}},
    "e":{"min":{"field":"n"}},"l":{"sum":{"field":"n"}},"z":{"filter":{"all":{}}}}}}"#;

// A composite with the same below it: before `doc_count`, between it and `key`, and after both.
const COMPOSITE: &str = r#"{"g":{"composite":{"sources":[{"s":{"terms":{"field":"s"}}}],
    "size":2},"aggs":{"a":{"max":{"field":"n"}},"e":{"min":{"field":"n"}},
    "l":{"sum":{"field":"n"}},"z":{"filter":{"all":{}}}}}}"#;

// Requests, what is held, what is shown, and how many buckets there are.
const SHOWN: &[(&str, Named<Nested>, &str, u64)] = &[
    (
        r#"{"f":{"filter":{"all":{}}}}"#,
        &[("f", Filter(3, &[]))],
        r#"{"f":{"doc_count":3}}"#,
        0,
    ),
    (
        FILTER,
        &[(
            "f",
            Filter(
                3,
                &[
                    ("a", Metric(Max(Some(i128::MAX)))),
                    ("e", Metric(Min(Some(i128::MIN)))),
                    ("l", Metric(Sum(-1))),
                    ("z", Filter(2, &[])),
                ],
            ),
        )],
        concat!(
            r#"{"f":{"a":{"value":170141183460469231731687303715884105727},"doc_count":3,"#,
            r#""e":{"value":-170141183460469231731687303715884105728},"l":{"value":-1},"#,
            r#""z":{"doc_count":2}}}"#,
        ),
        0,
    ),
    (
        COMPOSITE,
        &[(
            "g",
            Page(
                3,
                &[
                    (
                        1,
                        4,
                        &[
                            ("a", Metric(Max(None))),
                            ("e", Metric(Min(None))),
                            ("l", Metric(Sum(i128::MIN))),
                            ("z", Filter(2, &[])),
                        ],
                    ),
                    (2, 1, &[]),
                ],
            ),
        )],
        concat!(
            r#"{"g":{"buckets":[{"a":{"value":null},"doc_count":4,"e":{"value":null},"#,
            r#""key":{"s":1},"l":{"value":-170141183460469231731687303715884105728},"#,
            r#""z":{"doc_count":2}},{"a":{"value":null},"doc_count":1,"e":{"value":null},"#,
            r#""key":{"s":2},"l":{"value":0},"z":{"doc_count":0}}]}}"#,
        ),
        2,
    ),
    (
        r#"{"c":{"value_count":{"field":"n"}}}"#,
        &[("c", Metric(Count(u64::MAX)))],
        r#"{"c":{"value":18446744073709551615}}"#,
        0,
    ),
    (
        r#"{"f":{"filter":{"all":{}},"aggs":{"g":{"composite":{"sources":[
            {"a":{"terms":{"field":"a"}}}],"size":2},"aggs":{"h":{"composite":{"sources":[
            {"b":{"terms":{"field":"b"}}}],"size":2}}}}}}}"#,
        &[(
            "f",
            Filter(
                1,
                &[(
                    "g",
                    Page(
                        2,
                        &[
                            (1, 1, &[("h", Page(3, &[(6, 1, &[]), (7, 1, &[])]))]),
                            (-1, 1, &[]),
                        ],
                    ),
                )],
            ),
        )],
        concat!(
            r#"{"f":{"doc_count":1,"g":{"after_key":{"a":"i64:1"},"buckets":[{"doc_count":1,"#,
            r#""h":{"buckets":[]},"key":{"a":-1}},{"doc_count":1,"h":{"buckets":[{"doc_count":1,"#,
            r#""key":{"b":6}},{"doc_count":1,"key":{"b":7}}]},"key":{"a":1}}]}}}"#,
        ),
        4,
    ),
];

#[test]
fn results_have_a_text_and_a_count_of_buckets(rt: HostRuntime) -> Result<(), Fail> {
    let alloc = rt.alloc();
    for &(request, given, text, buckets) in SHOWN {
        let found = shown_with_count(alloc, request, held_of(alloc, given)?)?;
        expect_equal((found.0.as_str(), found.1), (text, buckets))?;
    }
    Ok(())
}

// The results of one composite, which has one bucket.
fn one_bucket(alloc: Global) -> Result<AggregationResults, OutOfMemory> {
    let mut key = NameMap::new(alloc);
    key.insert(Text::copy_of(alloc, "shop")?, CompositeKey::I64(12))?;
    let mut buckets = ItemList::new(alloc);
    buckets.push(CompositeBucketEntry {
        key,
        doc_count: 2,
        sub_aggregation: AggregationResults(NameMap::new(alloc)),
    })?;
    let page = BucketResult::Composite {
        buckets,
        after_key: NameMap::new(alloc),
    };
    let mut results = NameMap::new(alloc);
    results.insert(
        Text::copy_of(alloc, "by_shop")?,
        AggregationResult::BucketResult(page),
    )?;
    Ok(AggregationResults(results))
}

#[test]
fn results_have_a_text_of_their_own(rt: HostRuntime) -> Result<(), Fail> {
    let results = one_bucket(rt.alloc())?;
    expect_equal(results.get_bucket_count(), 1)?;
    expect_equal(
        results.write_json()?.as_str(),
        "{\"by_shop\":{\"buckets\":[{\"doc_count\":2,\"key\":{\"shop\":12}}]}}",
    )
}
