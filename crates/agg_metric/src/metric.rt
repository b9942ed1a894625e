//! A metric of values that are taken in one after another.
ghost use Rattle.std.specs.Prelude.{◌≡◌, ◌≤◌, ◌+◌, ◌^◌, ◌+ℤ◌, pos, ◌∷◌, [], FitsSigned, IfOk};
ghost use Rattle.std.specs.Prelude.{OnErr, OnOk, flat_map, unwrap_or};
ghost use mir.Syntax.{w128};
ghost use Rattle.agg_values.specs.TypedKey.{CompositeIntermediateKey};
ghost use Rattle.agg_segment.specs.storage.Columns.{all_keys, column_keys, encoded_key};
ghost use Rattle.agg_request_tree.specs.Metrics.{number_of};
ghost use Rattle.agg_metric.specs.Metric.{TakesIn, TooManyWith, metric_of};

use crate::StatsType;
use agg_results::metric_results::{
    IntermediateCount, IntermediateMax, IntermediateMetricResult, IntermediateMin, IntermediateSum,
    greatest, least,
};
use agg_segment::storage::FROM_ZERO;
use agg_segment::{Column, ColumnType};
use agg_values::{DocId, TooMany};

/// The metric of no values.
pub(crate) fn metric_of_none(collecting_for: StatsType) -> IntermediateMetricResult
    ensures { result ≡ metric_of collecting_for [] }
{
    match collecting_for {
        StatsType::Count => IntermediateMetricResult::Count(IntermediateCount { count: 0 }),
        StatsType::Max => IntermediateMetricResult::Max(IntermediateMax { value: None }),
        StatsType::Min => IntermediateMetricResult::Min(IntermediateMin { value: None }),
        StatsType::Sum => IntermediateMetricResult::Sum(IntermediateSum { sum: 0 }),
    }
}

/// Takes in the values of documents in the columns of a field.
pub(crate) fn take_documents(
    metric: &mut IntermediateMetricResult,
    columns: &[Column],
    docs: &[DocId],
) -> Result<(), TooMany>
    ensures ok { OnOk result
        (TakesIn (flat_map (all_keys columns.now) docs.now) metric.old metric.new) }
    ensures err { OnErr result (TooManyWith (flat_map (all_keys columns.now) docs.now) metric.old) }
{
    for doc in docs {
        take_document(metric, columns, *doc)?;
    }
    Ok(())
}

// Takes in the values of a document.
fn take_document(
    metric: &mut IntermediateMetricResult,
    columns: &[Column],
    doc: DocId,
) -> Result<(), TooMany>
    ensures ok { OnOk result (TakesIn (all_keys columns.now doc) metric.old metric.new) }
    ensures err { OnErr result (TooManyWith (all_keys columns.now doc) metric.old) }
{
    for column in columns {
        take_in_column(metric, column, doc)?;
    }
    Ok(())
}

// Takes in the values of a document in a column.
fn take_in_column(
    metric: &mut IntermediateMetricResult,
    column: &Column,
    doc: DocId,
) -> Result<(), TooMany>
    ensures ok { OnOk result (TakesIn (column_keys column.now doc) metric.old metric.new) }
    ensures err { OnErr result (TooManyWith (column_keys column.now doc) metric.old) }
{
    let values = column.values_for_doc(doc);
    for value in values {
        take_value(metric, number_in(column, *value))?;
    }
    Ok(())
}

// Takes in a value, by its number if it is a number or date.
fn take_value(metric: &mut IntermediateMetricResult, number: Option<i128>) -> Result<(), TooMany>
    ensures ok { (key : CompositeIntermediateKey) → number_of key ≡ number
        → OnOk result (TakesIn (key ∷ []) metric.old metric.new) }
    ensures err { (key : CompositeIntermediateKey) → number_of key ≡ number
        → OnErr result (TooManyWith (key ∷ []) metric.old) }
{
    match metric {
        IntermediateMetricResult::Count(metric) => metric.count = one_more(metric.count)?,
        IntermediateMetricResult::Max(metric) => metric.value = greatest(metric.value, number),
        IntermediateMetricResult::Min(metric) => metric.value = least(metric.value, number),
        IntermediateMetricResult::Sum(metric) => metric.sum = sum_with(metric.sum, number)?,
    }
    Ok(())
}

// The count of one value more.
fn one_more(count: u64) -> Result<u64, TooMany>
    ensures ok { IfOk result (λ more. more ≡ count + 1) }
    ensures err { OnErr result (2 ^ 64 ≤ count + 1) }
{
    count.checked_add(1).ok_or(TooMany)
}

// The sum with one number more, if there is one.
fn sum_with(sum: i128, number: Option<i128>) -> Result<i128, TooMany>
    ensures ok { IfOk result (λ both. both ≡ sum +ℤ unwrap_or number (pos 0)) }
    ensures err { OnErr result (¬ (FitsSigned w128 (sum +ℤ unwrap_or number (pos 0)))) }
{
    sum.checked_add(number.unwrap_or(0)).ok_or(TooMany)
}

// The number or date that a number of a column stands for, a date in nanoseconds.
fn number_in(column: &Column, encoded: u64) -> Option<i128>
    ensures { result ≡ number_of (encoded_key column.now.keys encoded) }
{
    match column.column_type() {
        ColumnType::I64 | ColumnType::DateTime => {
            Some(i128::from(encoded) - i128::from(FROM_ZERO))
        }
        ColumnType::U64 => Some(i128::from(encoded)),
        ColumnType::Bool | ColumnType::Str | ColumnType::IpAddr => None,
    }
}
