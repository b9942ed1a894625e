//! Requests that are refused, and why: what no run of a program shows.
use crate::builders::builders;
use agg_expect::expect_equal_for;
use agg_request::{ReadError, read_aggregations, read_composite, read_query};
use serde_json::Value;
use std::alloc::Global;
use std::test::Fail;

// Composites that are not supported.
const COMPOSITES: &[&str] = &[
    r#"{"sources":[],"size":18446744073709551616}"#,
    r#"{"sources":[],"size":1.0}"#,
    r#"{"sources":[],"size":1e1}"#,
    r#"{"sources":[],"size":1,"after":{"a":"f64:1.5"}}"#,
    r#"{"sources":[],"size":1,"after":{"a":"i64:1","b":"f64:"}}"#,
    r#"{"sources":[],"size":-0}"#,
    r#"{"sources":[{"a":{"histogram":{"field":"f","interval":5.0}}}],"size":1}"#,
    r#"{"sources":[{"a":{"histogram":{"field":"f","interval":5e0}}}],"size":1}"#,
    r#"{"sources":[{"a":{"histogram":{"field":"f","interval":18446744073709551616}}}],"size":1}"#,
    r#"{"sources":[{"a":{"histogram":{"field":"f","interval":-9223372036854775809}}}],"size":1}"#,
    r#"{"sources":[{"a":{"terms":{"field":"f","min":"f64:1"}}}],"size":1}"#,
    r#"{"sources":[{"a":{"histogram":{"field":"f","interval":5,"min":"f64:x"}}}],"size":1}"#,
];

// Queries that are not supported.
const QUERIES: &[&str] = &[
    r#""a:b""#,
    r#"{"term":{"field":"a","value":"f64:1.5"}}"#,
    r#"{"range":{"field":"a","gte":"f64:1.5"}}"#,
    r#"{"bool":{"must_not":[{"all":{}},{"range":{"field":"a","lt":"f64:1"}}]}}"#,
    r#"{"range":{"field":"a","gt":"f64:1"}}"#,
    r#"{"range":{"field":"a","lte":"f64:1"}}"#,
    r#"{"bool":{"must":[{"term":{"field":"a","value":"f64:1"}}]}}"#,
    r#"{"bool":{"should":[{"term":{"field":"a","value":"f64:1"}}]}}"#,
];

// Requests that are not supported.
const REQUESTS: &[&str] = &[
    r#"{"a":{"filter":"f:1"}}"#,
    r#"{"a":{"filter":{"term":{"field":"f","value":"f64:1"}}}}"#,
    r#"{"a":{"composite":{"sources":[],"size":1.5}}}"#,
    r#"{"a":{"composite":{"sources":[],"size":1,"after":{"s":"f64:1"}}}}"#,
    concat!(
        r#"{"a":{"composite":{"sources":[{"s":{"histogram":{"field":"f","interval":0.5}}}],"#,
        r#""size":1}}}"#,
    ),
    r#"{"a":{"avg":null}}"#,
    r#"{"a":{"filter":{"all":{}},"aggs":{"b":{"avg":{"field":"f"}}}}}"#,
    r#"{"a":{"composite":{"sources":[],"size":1},"aggs":{"b":{"filter":"f:1"}}}}"#,
    r#"{"a":{"avg":{"field":"f"}}}"#,
    r#"{"a":{"stats":{"field":"f"}}}"#,
    r#"{"a":{"extended_stats":{"field":"f"}}}"#,
    r#"{"a":{"percentiles":{"field":"f"}}}"#,
    r#"{"a":{"cardinality":{"field":"f"}}}"#,
    r#"{"a":{"terms":{"field":"f"}}}"#,
    r#"{"a":{"range":{"field":"f"}}}"#,
    r#"{"a":{"histogram":{"field":"f"}}}"#,
    r#"{"a":{"date_histogram":{"field":"f"}}}"#,
    r#"{"a":{"top_hits":{"field":"f"}}}"#,
    r#"{"a":{"value_count":{"field":"f","missing":0}}}"#,
    r#"{"a":{"value_count":{"field":"f"},"aggs":{"b":{}}}}"#,
    r#"{"a":{"max":{"field":"f","missing":0}}}"#,
    r#"{"a":{"max":{"field":"f"},"aggs":{"b":{}}}}"#,
    r#"{"a":{"min":{"field":"f","missing":0}}}"#,
    r#"{"a":{"min":{"field":"f"},"aggs":{"b":{}}}}"#,
    r#"{"a":{"sum":{"field":"f","missing":0}}}"#,
    r#"{"a":{"sum":{"field":"f"},"aggs":{"b":{}}}}"#,
    r#"{"a":{"filter":{"all":{}},"aggs":{"key":{"max":{"field":"f"}}}}}"#,
    r#"{"a":{"filter":{"all":{}},"aggs":{"doc_count":{"max":{"field":"f"}}}}}"#,
];

// Requests for builders, of which there are b, c and another b, each for one filter.
const UNKNOWN_BUILDERS: &[&str] = &[
    r#"{"a":{"filter":{"builder":"d"}}}"#,
    r#"{"a":{"filter":{"builder":"c"},"aggs":{"d":{"filter":{"builder":"c"}}}}}"#,
    concat!(
        r#"{"a":{"filter":{"builder":"b"}},"b":{"filter":{"builder":"b"}},"#,
        r#""c":{"filter":{"builder":"b"}}}"#,
    ),
    r#"{"a":{"filter":{"builder":"c"}},"b":{"filter":{"builder":"c"}},"c":{"median":{}}}"#,
];

// Values that are of no grammar: neither a composite nor a query nor a request.
const NO_REQUESTS: &[&str] = &[
    "null",
    "[]",
    r#"{"a":5}"#,
    r#"{"size":1}"#,
    r#"{"a":{"median":{}}}"#,
    r#"{"a":{"avg":{"field":"f"},"max":{"field":"f"}}}"#,
];

fn composite_error(alloc: Global, text: &str) -> Result<Option<ReadError>, Fail> {
    let value = Value::from_str(alloc, text)?;
    Ok(read_composite(alloc, &value).err())
}

fn query_error(alloc: Global, text: &str) -> Result<Option<ReadError>, Fail> {
    let value = Value::from_str(alloc, text)?;
    Ok(read_query(alloc, &value).err())
}

fn request_error(alloc: Global, text: &str) -> Result<Option<ReadError>, Fail> {
    let value = Value::from_str(alloc, text)?;
    Ok(read_aggregations(alloc, &value, builders(alloc)?).err())
}

#[test]
fn refuses_what_is_not_supported(rt: HostRuntime) -> Result<(), Fail> {
    let unsupported = Some(ReadError::Unsupported);
    for &text in COMPOSITES {
        expect_equal_for(text, composite_error(rt.alloc(), text)?, unsupported)?;
    }
    for &text in QUERIES {
        expect_equal_for(text, query_error(rt.alloc(), text)?, unsupported)?;
    }
    for &text in REQUESTS {
        expect_equal_for(text, request_error(rt.alloc(), text)?, unsupported)?;
    }
    Ok(())
}

#[test]
fn refuses_what_is_of_no_grammar(rt: HostRuntime) -> Result<(), Fail> {
    let grammar = Some(ReadError::Grammar);
    for &text in NO_REQUESTS {
        expect_equal_for(text, composite_error(rt.alloc(), text)?, grammar)?;
        expect_equal_for(text, query_error(rt.alloc(), text)?, grammar)?;
        expect_equal_for(text, request_error(rt.alloc(), text)?, grammar)?;
    }
    Ok(())
}

#[test]
fn refuses_builders_that_are_not_there(rt: HostRuntime) -> Result<(), Fail> {
    let unknown = Some(ReadError::UnknownBuilder);
    for &text in UNKNOWN_BUILDERS {
        expect_equal_for(text, request_error(rt.alloc(), text)?, unknown)?;
    }
    Ok(())
}
