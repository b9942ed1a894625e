//! The columns of the output.
ghost use Rattle.std.specs.Prelude.{◌≡◌, ◌++◌, IfErr, IfOk, IfNone, IfSome, OnOk, map};
ghost use Rattle.peslumok_texts.specs.fields.Types.{type_of};
ghost use Rattle.peslumok_front.specs.tables.Columns.{header_of};
ghost use Rattle.peslumok_front.specs.front.Columns as spec;

use crate::front::failure::Failure;
use crate::grouping::{Grouping, column_of, metric_name};
use crate::tables::{Columns, TableColumn};
use agg_values::{OutOfMemory, Text};
use peslumok_texts::fields::{FieldType, FieldTypes};
use peslumok_texts::words::{BySpec, Metric, MetricKind};
use std::alloc::Global;

/// A column for each source, the number of records, and a column for each metric, each of a name of
/// its own.
pub fn columns_of(alloc: Global, grouping: &Grouping<'_>) -> Result<Columns, Failure>
    ensures columns { IfOk result (λ columns. columns ≡ spec.columns_asked grouping.now) }
    ensures apart { OnOk result (spec.HaveOwnHeaders (spec.columns_asked grouping.now)) }
    ensures cause { IfErr result (spec.HaveNoColumns (spec.columns_asked grouping.now)) }
{
    let columns = all_columns(alloc, grouping)?;
    match shared_header(columns.as_slice()) {
        Some(header) => Err(Failure::SameColumn(Text::copy_of(alloc, header)?)),
        None => Ok(columns),
    }
}

// The name that two columns have, if any two have one.
fn shared_header(columns: &[TableColumn]) -> Option<&str>
    ensures shared { IfSome result (λ name. spec.ShareHeader name.now columns.now) }
    ensures apart { IfNone result (spec.HaveOwnHeaders columns.now) }
{
    for (place, column) in columns.iter().enumerate() {
        if has_header(&columns[..place], column.header()) {
            return Some(column.header());
        }
    }
    None
}

// Whether a column has this name.
fn has_header(columns: &[TableColumn], header: &str) -> bool
    ensures { result ≡ spec.has_header header.now columns.now }
{
    columns.iter().any(|column| column.header() == header)
}

fn all_columns(alloc: Global, grouping: &Grouping<'_>) -> Result<Columns, OutOfMemory>
    ensures { IfOk result (λ columns. columns ≡ spec.columns_asked grouping.now) }
{
    let mut columns = Columns::new(alloc);
    for by in grouping.by.iter() {
        let column = key_column(alloc, by, &grouping.types)?;
        columns.push(column)?;
    }
    columns.push(TableColumn::Count)?;
    for metric in grouping.metrics.iter() {
        let column = metric_column(alloc, metric, &grouping.types)?;
        columns.push(column)?;
    }
    Ok(columns)
}

// The column of a source.
fn key_column(
    alloc: Global,
    by: &BySpec<'_>,
    types: &FieldTypes,
) -> Result<TableColumn, OutOfMemory>
    ensures { IfOk result (λ column. column ≡ spec.key_column types.now by.now) }
{
    Ok(TableColumn::Key {
        name: Text::copy_of(alloc, column_of(by))?,
        of: types.get(&Text::copy_of(alloc, by.field)?),
    })
}

// The column of a metric.
fn metric_column(
    alloc: Global,
    metric: &Metric<'_>,
    types: &FieldTypes,
) -> Result<TableColumn, OutOfMemory>
    ensures { IfOk result (λ column. column ≡ spec.metric_column types.now metric.now) }
{
    let of = types.get(&Text::copy_of(alloc, metric.field)?);
    Ok(TableColumn::Metric {
        name: metric_name(alloc, metric)?,
        of: metric_type(metric.kind, of),
    })
}

// The type in which a metric of a field is shown: a number of values is no value of the field, and
// neither is a sum of dates.
fn metric_type(kind: MetricKind, of: FieldType) -> FieldType
    ensures { result ≡ spec.metric_type kind of }
{
    match (kind, of) {
        (MetricKind::Count, _) => FieldType::Plain,
        (MetricKind::Sum, FieldType::Date | FieldType::DateNumber(_)) => FieldType::Plain,
        (_, of) => of,
    }
}
