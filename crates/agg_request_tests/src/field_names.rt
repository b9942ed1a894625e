use agg_expect::expect_equal_for;
use agg_request::{Aggregation, Aggregations, get_fast_field_names, read_aggregations};
use agg_values::{NameMap, OutOfMemory, Text};
use serde_json::Value;
use std::alloc::Global;
use std::test::Fail;

// Requests, with the fields of all, and those of each of their aggregations by itself.
const REQUESTS: &[(&str, &str, &str)] = &[
    ("{}", "", ""),
    (
        r#"{"x":{"composite":{"sources":[{"s":{"terms":{"field":"b"}}},
            {"t":{"histogram":{"field":"a","interval":5}}}],"size":1},
            "aggs":{"y":{"sum":{"field":"n"}}}}}"#,
        "a b n ",
        "b a ; ",
    ),
    (
        r#"{"x":{"filter":{"exists":{"field":"f"}},"aggs":{"y":{"filter":{"all":{}},
            "aggs":{"z":{"max":{"field":"n"}}}}}},"w":{"min":{"field":"m"}}}"#,
        "m n ",
        "m ; ; ",
    ),
    (
        r#"{"x":{"value_count":{"field":"n"}},"y":{"max":{"field":"n"}},
            "z":{"composite":{"sources":[{"s":{"date_histogram":{"field":"d"}}},
            {"t":{"terms":{"field":"d"}}}],"size":1}}}"#,
        "d n ",
        "n ; n ; d d ; ",
    ),
];

fn show_name(shown: &mut String, name: &Text) -> Result<(), OutOfMemory> {
    shown.push_str(name.as_str())?;
    Ok(shown.push(' ')?)
}

fn shown_keys(alloc: Global, names: &NameMap<()>) -> Result<String, Fail> {
    let mut shown = String::new(alloc);
    for name in names.keys() {
        show_name(&mut shown, name)?;
    }
    Ok(shown)
}

fn shown_names(alloc: Global, names: &[Text]) -> Result<String, Fail> {
    let mut shown = String::new(alloc);
    for name in names {
        show_name(&mut shown, name)?;
    }
    shown.push_str("; ")?;
    Ok(shown)
}

// The fields of all aggregations of a request.
fn shown_all(alloc: Global, request: &Aggregations) -> Result<String, Fail> {
    shown_keys(alloc, &get_fast_field_names(alloc, request)?)
}

// The fields of one aggregation.
fn shown_one(alloc: Global, aggregation: &Aggregation) -> Result<String, Fail> {
    let names = aggregation.agg.get_fast_field_names(alloc)?;
    shown_names(alloc, names.as_slice())
}

// The fields of each aggregation.
fn shown_each(alloc: Global, request: &Aggregations) -> Result<String, Fail> {
    let mut shown = String::new(alloc);
    for (_, aggregation) in request.iter() {
        shown.push_str(&shown_one(alloc, aggregation)?)?;
    }
    Ok(shown)
}

// The fields of a request: of all its aggregations, and of each.
fn shown(alloc: Global, request: &Aggregations) -> Result<(String, String), Fail> {
    Ok((shown_all(alloc, request)?, shown_each(alloc, request)?))
}

// The request of a text.
fn read(alloc: Global, text: &str) -> Result<Aggregations, Fail> {
    let value = Value::from_str(alloc, text)?;
    Ok(read_aggregations(alloc, &value, Vec::new(alloc))?)
}

// The fields of the request of a text.
fn found(alloc: Global, text: &str) -> Result<(String, String), Fail> {
    shown(alloc, &read(alloc, text)?)
}

#[test]
fn finds_the_fields_of_sources_and_metrics(rt: HostRuntime) -> Result<(), Fail> {
    for &(text, all, each) in REQUESTS {
        let found = found(rt.alloc(), text)?;
        expect_equal_for(text, (found.0.as_str(), found.1.as_str()), (all, each))?;
    }
    Ok(())
}
