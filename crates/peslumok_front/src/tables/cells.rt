//! The cells of groups and of totals.
ghost use Rattle.std.specs.Prelude.{◌≡◌, IfOk, codes, decimal, false, option_map, string_bytes};
ghost use Rattle.std.specs.Prelude.{[], if◌then◌else◌, true};
ghost use Rattle.peslumok_texts.specs.fields.Shown.{IsNumberText, IsShownKeyText};
ghost use Rattle.peslumok_front.specs.tables.Cells.{is_total, shown_by, shown_cells, shows_number};
ghost use Rattle.peslumok_front.specs.tables.Columns.{is_key};
ghost use Rattle.peslumok_front.specs.tables.Groups.{IsGroupCell, IsKeyCell, IsMetricCell};
ghost use Rattle.peslumok_front.specs.tables.Groups.{IsTotalCell, ShowsGroup, ShowsTotals};
ghost use Rattle.peslumok_front.specs.tables.Groups.{metric_number, metric_value, number_shown};

use crate::tables::{Columns, Row, TableCell, TableColumn};
use agg_results::final_results::{
    AggregationResult, AggregationResults, CompositeBucketEntry, MetricResult,
};
use agg_values::{CompositeKey, OutOfMemory, Text};
use itoa::Buffer;
use peslumok_texts::fields::{FieldType, write_number, write_shown_key};
use std::alloc::Global;

/// The line of a group.
pub fn cells_of_group(
    alloc: Global,
    columns: &Columns,
    entry: &CompositeBucketEntry,
) -> Result<Row, OutOfMemory>
    ensures kind { IfOk result (λ row. is_total row ≡ false) }
    ensures cells { IfOk result (λ row. ShowsGroup columns.now entry.now (shown_cells row)) }
{
    let mut cells = Vec::new(alloc);
    for column in columns.as_slice() {
        cells.push(group_cell(alloc, column, entry)?)?;
    }
    Ok(Row {
        is_total: false,
        cells,
    })
}

/// The line of the totals of all documents: `total` in the first column of a key, and nothing in
/// the others.
pub fn cells_of_total(
    alloc: Global,
    columns: &Columns,
    doc_count: u64,
    metrics: &AggregationResults,
) -> Result<Row, OutOfMemory>
    ensures kind { IfOk result (λ row. is_total row ≡ true) }
    ensures cells { IfOk result (λ row.
        ShowsTotals (codes "total") doc_count metrics.now columns.now (shown_cells row)) }
{
    let mut cells = Vec::new(alloc);
    let mut label = "total";
    for column in columns.as_slice() {
        cells.push(total_cell(alloc, column, label, doc_count, metrics)?)?;
        label = label_after(column, label);
    }
    Ok(Row {
        is_total: true,
        cells,
    })
}

// What a group has in a column.
fn group_cell(
    alloc: Global,
    column: &TableColumn,
    entry: &CompositeBucketEntry,
) -> Result<TableCell, OutOfMemory>
    ensures { IfOk result (λ cell. IsGroupCell entry.now column.now (shown_by cell)) }
{
    match column {
        TableColumn::Key { name, of } => key_cell(alloc, entry.key.get(name), of),
        TableColumn::Count => count_cell(alloc, entry.doc_count),
        TableColumn::Metric { name, of } => metric_cell(alloc, &entry.sub_aggregation, name, of),
    }
}

// What the totals have in a column.
fn total_cell(
    alloc: Global,
    column: &TableColumn,
    label: &str,
    doc_count: u64,
    metrics: &AggregationResults,
) -> Result<TableCell, OutOfMemory>
    ensures { IfOk result (λ cell.
        IsTotalCell label.now doc_count metrics.now column.now (shown_by cell)) }
{
    match column {
        TableColumn::Key { .. } => Ok(TableCell::Text(String::from_str(alloc, label)?)),
        TableColumn::Count => count_cell(alloc, doc_count),
        TableColumn::Metric { name, of } => metric_cell(alloc, metrics, name, of),
    }
}

// What the totals have in the next column of a key.
fn label_after<'a>(column: &TableColumn, label: &'a str) -> &'a str
    ensures { result.now ≡ (if is_key column.now then [] else label.now) }
{
    if column.is_key() { "" } else { label }
}

// What a key shows.
fn key_cell(
    alloc: Global,
    key: Option<&CompositeKey>,
    of: &FieldType,
) -> Result<TableCell, OutOfMemory>
    ensures { IfOk result (λ cell.
        IsKeyCell of.now (option_map (λ k. k.now) key.entry) (shown_by cell)) }
{
    let Some(key) = key else {
        return Ok(TableCell::Missing);
    };
    match key {
        CompositeKey::Null => Ok(TableCell::Missing),
        CompositeKey::Bool(b) => Ok(TableCell::Bool(*b)),
        CompositeKey::Str(_) => Ok(TableCell::Text(shown_key(alloc, key, *of)?)),
        CompositeKey::I64(_) | CompositeKey::U64(_) => {
            Ok(number_cell(shown_key(alloc, key, *of)?, of))
        }
    }
}

fn shown_key(alloc: Global, key: &CompositeKey, of: FieldType) -> Result<String, OutOfMemory>
    ensures { IfOk result (λ shown. IsShownKeyText of key.now (string_bytes shown)) }
{
    let mut shown = String::new(alloc);
    write_shown_key(&mut shown, key, of)?;
    Ok(shown)
}

// A number of documents.
fn count_cell(alloc: Global, doc_count: u64) -> Result<TableCell, OutOfMemory>
    ensures { IfOk result (λ cell. shown_by cell ≡ shows_number (decimal doc_count)) }
{
    let mut digits = Buffer::new();
    Ok(TableCell::Number(String::from_str(alloc, digits.format(doc_count))?))
}

// What a metric shows, by its name.
fn metric_cell(
    alloc: Global,
    metrics: &AggregationResults,
    name: &Text,
    of: &FieldType,
) -> Result<TableCell, OutOfMemory>
    ensures { IfOk result (λ cell.
        IsMetricCell of.now (metric_number name.now metrics.now) (shown_by cell)) }
{
    match value_of_metric(metrics, name) {
        Some(number) => Ok(number_cell(shown_number(alloc, number, *of)?, of)),
        None => Ok(TableCell::Missing),
    }
}

fn shown_number(alloc: Global, number: i128, of: FieldType) -> Result<String, OutOfMemory>
    ensures { IfOk result (λ shown. IsNumberText of number (string_bytes shown)) }
{
    let mut shown = String::new(alloc);
    write_number(&mut shown, number, of)?;
    Ok(shown)
}

// The value of a metric, by its name.
fn value_of_metric(metrics: &AggregationResults, name: &Text) -> Option<i128>
    ensures { result ≡ metric_number name.now metrics.now }
{
    match metrics.0.get(name) {
        Some(AggregationResult::MetricResult(metric)) => value_of(*metric),
        Some(AggregationResult::BucketResult(_)) | None => None,
    }
}

fn value_of(metric: MetricResult) -> Option<i128>
    ensures { result ≡ metric_value metric }
{
    match metric {
        MetricResult::Count(single)
        | MetricResult::Max(single)
        | MetricResult::Min(single)
        | MetricResult::Sum(single) => single.value,
    }
}

// The text of a number, which is a date's where the type is one of dates.
fn number_cell(shown: String, of: &FieldType) -> TableCell
    ensures { shown_by result ≡ number_shown of.now (string_bytes shown) }
{
    match of {
        FieldType::Date | FieldType::DateNumber(_) => TableCell::Text(shown),
        FieldType::Plain | FieldType::Text | FieldType::Decimal(_) => TableCell::Number(shown),
    }
}
