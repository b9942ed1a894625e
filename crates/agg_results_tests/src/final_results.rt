//! Final results of names that aren't held.
use crate::shown::{PAGE, empty_of, shown};
use agg_expect::expect_equal;
use agg_results::IntermediateAggregationResults;
use std::test::Fail;

// Requests, and what is shown where nothing is held.
const OF_NOTHING: &[(&str, &str)] = &[
    ("{}", "{}"),
    (PAGE, r#"{"g":{"buckets":[]}}"#),
    (r#"{"f":{"filter":{"all":{}}}}"#, r#"{"f":{"doc_count":0}}"#),
    (
        r#"{"m":{"value_count":{"field":"n"}}}"#,
        r#"{"m":{"value":0}}"#,
    ),
    (r#"{"m":{"max":{"field":"n"}}}"#, r#"{"m":{"value":null}}"#),
    (r#"{"m":{"min":{"field":"n"}}}"#, r#"{"m":{"value":null}}"#),
    (r#"{"m":{"sum":{"field":"n"}}}"#, r#"{"m":{"value":0}}"#),
    (
        r#"{"f":{"filter":{"all":{}},"aggs":{"c":{"value_count":{"field":"n"}},
            "f":{"filter":{"all":{}},"aggs":{"m":{"max":{"field":"n"}}}},
            "g":{"composite":{"sources":[{"a":{"terms":{"field":"a"}}}],"size":2},
            "aggs":{"m":{"sum":{"field":"n"}}}}}}}"#,
        concat!(
            r#"{"f":{"c":{"value":0},"doc_count":0,"f":{"doc_count":0,"m":{"value":null}},"#,
            r#""g":{"buckets":[]}}}"#,
        ),
    ),
];

#[test]
fn names_that_are_not_held_have_empty_results(rt: HostRuntime) -> Result<(), Fail> {
    let alloc = rt.alloc();
    for &(request, text) in OF_NOTHING {
        let none = IntermediateAggregationResults::new(alloc);
        expect_equal(shown(alloc, request, none)?.as_str(), text)?;
    }
    Ok(())
}

#[test]
fn empty_results_of_a_request_are_shown_alike(rt: HostRuntime) -> Result<(), Fail> {
    let alloc = rt.alloc();
    for &(request, text) in OF_NOTHING {
        let empty = empty_of(alloc, request)?;
        expect_equal(shown(alloc, request, empty)?.as_str(), text)?;
    }
    Ok(())
}
