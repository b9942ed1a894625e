//! Metrics of two machines as one.
use crate::held::Metric::{Count, Max, Min, Sum};
use crate::held::{Held, Metric, one_held};
use crate::shown::shown;
use agg_expect::expect_equal;
use agg_values::Text;
use std::alloc::Global;
use std::test::Fail;

const COUNT: &str = r#"{"m":{"value_count":{"field":"n"}}}"#;

const MAX: &str = r#"{"m":{"max":{"field":"n"}}}"#;

const MIN: &str = r#"{"m":{"min":{"field":"n"}}}"#;

const SUM: &str = r#"{"m":{"sum":{"field":"n"}}}"#;

// Requests, the metrics of two machines, and what is shown of both.
const METRICS: &[(&str, Metric, Metric, &str)] = &[
    (COUNT, Count(2), Count(3), r#"{"m":{"value":5}}"#),
    (
        COUNT,
        Count(u64::MAX - 1),
        Count(1),
        r#"{"m":{"value":18446744073709551615}}"#,
    ),
    (MAX, Max(None), Max(None), r#"{"m":{"value":null}}"#),
    (MAX, Max(None), Max(Some(-3)), r#"{"m":{"value":-3}}"#),
    (MAX, Max(Some(-3)), Max(None), r#"{"m":{"value":-3}}"#),
    (MAX, Max(Some(-3)), Max(Some(2)), r#"{"m":{"value":2}}"#),
    (MAX, Max(Some(2)), Max(Some(-3)), r#"{"m":{"value":2}}"#),
    (MIN, Min(None), Min(None), r#"{"m":{"value":null}}"#),
    (MIN, Min(None), Min(Some(3)), r#"{"m":{"value":3}}"#),
    (MIN, Min(Some(3)), Min(None), r#"{"m":{"value":3}}"#),
    (MIN, Min(Some(3)), Min(Some(-2)), r#"{"m":{"value":-2}}"#),
    (MIN, Min(Some(-2)), Min(Some(3)), r#"{"m":{"value":-2}}"#),
    (SUM, Sum(2), Sum(-5), r#"{"m":{"value":-3}}"#),
    (
        SUM,
        Sum(i128::MAX - 1),
        Sum(1),
        r#"{"m":{"value":170141183460469231731687303715884105727}}"#,
    ),
    (
        SUM,
        Sum(i128::MIN),
        Sum(0),
        r#"{"m":{"value":-170141183460469231731687303715884105728}}"#,
    ),
    (SUM, Sum(i128::MAX), Sum(i128::MIN), r#"{"m":{"value":-1}}"#),
    (SUM, Sum(i128::MIN), Sum(i128::MAX), r#"{"m":{"value":-1}}"#),
];

// The metrics of two machines as one, as it is shown.
fn shown_of_both(
    alloc: Global,
    request: &str,
    first: Metric,
    second: Metric,
) -> Result<Text, Fail> {
    let mut held = one_held(alloc, "m", first.held(alloc)?)?;
    held.merge_fruits(one_held(alloc, "m", second.held(alloc)?)?)?;
    shown(alloc, request, held)
}

#[test]
fn metrics_of_two_machines_are_one(rt: HostRuntime) -> Result<(), Fail> {
    for &(request, first, second, text) in METRICS {
        let shown = shown_of_both(rt.alloc(), request, first, second)?;
        expect_equal(shown.as_str(), text)?;
    }
    Ok(())
}
