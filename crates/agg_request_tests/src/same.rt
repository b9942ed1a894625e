use agg_expect::{expect_equal, expect_equal_for};
use agg_request::{Aggregation, Aggregations, read_aggregations};
use agg_values::Text;
use serde_json::Value;
use std::alloc::Global;
use std::test::Fail;

// Aggregations, no two of which are the same.
const AGGREGATIONS: &[&str] = &[
    r#""value_count":{"field":"f"}"#,
    r#""max":{"field":"f"}"#,
    r#""min":{"field":"f"}"#,
    r#""sum":{"field":"f"}"#,
    r#""sum":{"field":"g"}"#,
    r#""filter":{"all":{}}"#,
    r#""filter":{"empty":{}}"#,
    r#""filter":{"exists":{"field":"f"}}"#,
    r#""filter":{"exists":{"field":"g"}}"#,
    r#""filter":{"term":{"field":"f","value":"i64:1"}}"#,
    r#""filter":{"term":{"field":"f","value":"u64:1"}}"#,
    r#""filter":{"term":{"field":"g","value":"i64:1"}}"#,
    r#""filter":{"range":{"field":"f","gte":"i64:1"}}"#,
    r#""filter":{"range":{"field":"f","gt":"i64:1"}}"#,
    r#""filter":{"range":{"field":"f","gt":"i64:2"}}"#,
    r#""filter":{"range":{"field":"g","gt":"i64:1"}}"#,
    r#""filter":{"range":{"field":"f","lt":"i64:1"}}"#,
    r#""filter":{"bool":{}}"#,
    r#""filter":{"bool":{"must":[{"all":{}}]}}"#,
    r#""filter":{"bool":{"should":[{"all":{}}]}}"#,
    r#""filter":{"bool":{"must_not":[{"all":{}}]}}"#,
    r#""filter":{"bool":{"must":[{"all":{}},{"bool":{}}]}}"#,
    r#""filter":{"bool":{"must":[{"all":{}},{"bool":{"must":[{"empty":{}}]}}]}}"#,
    r#""composite":{"sources":[],"size":1}"#,
    r#""composite":{"sources":[],"size":2}"#,
    r#""composite":{"sources":[],"size":1,"after":{"s":"i64:1"}}"#,
    r#""composite":{"sources":[],"size":1,"after":{"s":"u64:1"}}"#,
    r#""composite":{"sources":[],"size":1,"after":{"t":"i64:1"}}"#,
    r#""composite":{"sources":[],"size":1,"after":{"s":"i64:1","t":"i64:1"}}"#,
    r#""composite":{"sources":[{"s":{"terms":{"field":"f"}}}],"size":1}"#,
    r#""composite":{"sources":[{"s":{"terms":{"field":"f","order":"desc"}}}],"size":1}"#,
    r#""composite":{"sources":[{"s":{"date_histogram":{"field":"f"}}}],"size":1}"#,
    r#""composite":{"sources":[{"s":{"histogram":{"field":"f","interval":1}}}],"size":1}"#,
    r#""filter":{"all":{}},"aggs":{"a":{"sum":{"field":"f"}}}"#,
    r#""filter":{"all":{}},"aggs":{"b":{"sum":{"field":"f"}}}"#,
    r#""filter":{"all":{}},"aggs":{"a":{"sum":{"field":"g"}}}"#,
    r#""filter":{"all":{}},"aggs":{"a":{"sum":{"field":"f"}},"b":{"sum":{"field":"f"}}}"#,
    r#""filter":{"all":{}},"aggs":{"a":{"filter":{"all":{}},"aggs":{"a":{"sum":{"field":"f"}}}}}"#,
];

// The text of a request of them all, each by its number.
fn text_of_all(alloc: Global) -> Result<String, Fail> {
    let mut text = String::new(alloc);
    for (i, aggregation) in AGGREGATIONS.iter().enumerate() {
        let comma = if i == 0 { "" } else { "," };
        text.push_str(format!(in alloc; r#"{comma}"{i}":{{{aggregation}}}"#)?.as_str())?;
    }
    Ok(format!(in alloc; "{{{text}}}")?)
}

// The request of a text.
fn read(alloc: Global, text: &str) -> Result<Aggregations, Fail> {
    let value = Value::from_str(alloc, text)?;
    Ok(read_aggregations(alloc, &value, Vec::new(alloc))?)
}

fn all_of_them(alloc: Global) -> Result<Aggregations, Fail> {
    read(alloc, text_of_all(alloc)?.as_str())
}

// An aggregation is the same as that of its own name alone.
fn expect_alone(name: &Text, aggregation: &Aggregation, others: &Aggregations) -> Result<(), Fail> {
    for (other_name, other) in others.iter() {
        let is_same = aggregation.same_as(other);
        expect_equal_for((name, other_name), is_same, name == other_name)?;
    }
    Ok(())
}

fn expect_each_alone(request: &Aggregations, others: &Aggregations) -> Result<(), Fail> {
    expect_equal(request.len(), AGGREGATIONS.len())?;
    for (name, aggregation) in request.iter() {
        expect_alone(name, aggregation, others)?;
    }
    Ok(())
}

#[test]
fn an_aggregation_is_the_same_as_itself_alone(rt: HostRuntime) -> Result<(), Fail> {
    let alloc = rt.alloc();
    let request = all_of_them(alloc)?;
    expect_each_alone(&request, &all_of_them(alloc)?)?;
    Ok(())
}
