use agg_expect::{expect_equal, expect_equal_for};
use agg_request::{CustomOrder, ReadError};
use serde_json::Value;
use std::alloc::Global;
use std::test::Fail;

// Values, with what is written of the order that they say.
const ORDERS: &[(&str, &str)] = &[
    (r#"{"_key":"desc"}"#, r#"{"_key":"desc"}"#),
    (r#"[{"_key":"desc"}]"#, r#"{"_key":"desc"}"#),
    (r#"{"_count":"asc"}"#, r#"{"_count":"asc"}"#),
    (r#"{"prices":"asc"}"#, r#"{"prices":"asc"}"#),
    (r#"{"":"desc"}"#, r#"{"":"desc"}"#),
];

// Values that say no order.
const NO_ORDERS: &[&str] = &[
    "{}",
    "[]",
    "null",
    r#""_key""#,
    r#"[{"_key":"desc"},{"_key":"desc"}]"#,
    r#"[[{"_key":"desc"}]]"#,
    "[{}]",
    r#"{"_key":"desc","_count":"desc"}"#,
    r#"{"_key":"Desc"}"#,
    r#"{"_key":1}"#,
    r#"{"_key":null}"#,
];

// The order that a text says.
fn read(alloc: Global, text: &str) -> Result<Result<CustomOrder, ReadError>, Fail> {
    let value = Value::from_str(alloc, text)?;
    Ok(CustomOrder::read(alloc, &value))
}

fn written(alloc: Global, order: &CustomOrder) -> Result<String, Fail> {
    Ok(order.write(alloc)?.to_string(alloc)?)
}

#[test]
fn writes_what_was_read(rt: HostRuntime) -> Result<(), Fail> {
    let alloc = rt.alloc();
    for &(text, expected) in ORDERS {
        let order = read(alloc, text)??;
        expect_equal_for(text, written(alloc, &order)?.as_str(), expected)?;
    }
    let usual = written(alloc, &CustomOrder::default())?;
    expect_equal(usual.as_str(), r#"{"_count":"desc"}"#)
}

#[test]
fn refuses_what_is_no_order(rt: HostRuntime) -> Result<(), Fail> {
    for &text in NO_ORDERS {
        let error = read(rt.alloc(), text)?.err();
        expect_equal_for(text, error, Some(ReadError::Grammar))?;
    }
    Ok(())
}
