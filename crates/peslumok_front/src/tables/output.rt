//! Rows in the format that is asked for.
ghost use Rattle.std.specs.Prelude.{◌≡◌, ◌++◌, IfOk, OnOk, flat_map, map, string_bytes};
ghost use Rattle.peslumok_front.specs.tables.Columns.{header_of};
ghost use Rattle.peslumok_front.specs.tables.JsonLines.{json_line};
ghost use Rattle.peslumok_front.specs.tables.Output.{AppendsRows, ReadBack, csv_lines, csv_record};
ghost use Rattle.peslumok_front.specs.tables.Output.{csv_records, header_records};

use crate::tables::csv_lines::write_csv_line;
use crate::tables::json_lines::write_json_line;
use crate::tables::table::write_table;
use crate::tables::{Columns, Row};
use agg_values::OutOfMemory;
use peslumok_texts::formats::OutputFormat;
use std::alloc::Global;

/// Appends rows, after the header where there is to be one. JSON lines have none.
pub fn write_rows(
    alloc: Global,
    out: &mut String,
    format: OutputFormat,
    columns: &Columns,
    rows: &[Row],
    has_header: bool,
) -> Result<(), OutOfMemory>
    ensures { OnOk result (AppendsRows format columns.now rows.now has_header
        (string_bytes out.old) (string_bytes out.new)) }
{
    match format {
        OutputFormat::Table => write_table(alloc, out, columns, rows, has_header),
        OutputFormat::JsonLines => write_json_lines(alloc, out, columns, rows),
        OutputFormat::Csv => write_csv(alloc, out, columns, rows, has_header),
    }
}

fn write_json_lines(
    alloc: Global,
    out: &mut String,
    columns: &Columns,
    rows: &[Row],
) -> Result<(), OutOfMemory>
    ensures { OnOk result (string_bytes out.new
        ≡ string_bytes out.old ++ flat_map (json_line columns.now) rows.now) }
{
    for row in rows {
        write_json_line(alloc, out, columns, row)?;
    }
    Ok(())
}

fn write_csv(
    alloc: Global,
    out: &mut String,
    columns: &Columns,
    rows: &[Row],
    has_header: bool,
) -> Result<(), OutOfMemory>
    ensures appends { OnOk result (string_bytes out.new
        ≡ string_bytes out.old
        ++ csv_lines (csv_records has_header columns.now rows.now)) }
    ensures reads_back { ReadBack (csv_records has_header columns.now rows.now) }
{
    write_csv_header(alloc, out, columns, has_header)?;
    write_csv_rows(alloc, out, rows)
}

// Appends the header, where there is to be one.
fn write_csv_header(
    alloc: Global,
    out: &mut String,
    columns: &Columns,
    has_header: bool,
) -> Result<(), OutOfMemory>
    ensures { OnOk result (string_bytes out.new
        ≡ string_bytes out.old ++ csv_lines (header_records has_header columns.now)) }
{
    if !has_header {
        return Ok(());
    }
    let headers = headers(alloc, columns)?;
    write_csv_line(out, headers.as_slice())
}

fn write_csv_rows(alloc: Global, out: &mut String, rows: &[Row]) -> Result<(), OutOfMemory>
    ensures { OnOk result (string_bytes out.new
        ≡ string_bytes out.old ++ csv_lines (map csv_record rows.now)) }
{
    for row in rows {
        let texts = texts(alloc, row)?;
        write_csv_line(out, texts.as_slice())?;
    }
    Ok(())
}

fn headers(alloc: Global, columns: &Columns) -> Result<Vec<&str>, OutOfMemory>
    ensures { IfOk result (λ headers.
        map (λ header. header.now) headers.items ≡ map header_of columns.now) }
{
    let mut headers = Vec::new(alloc);
    for column in columns.as_slice() {
        headers.push(column.header())?;
    }
    Ok(headers)
}

fn texts(alloc: Global, row: &Row) -> Result<Vec<&str>, OutOfMemory>
    ensures { IfOk result (λ texts. map (λ text. text.now) texts.items ≡ csv_record row.now) }
{
    let mut texts = Vec::new(alloc);
    for cell in row.cells() {
        texts.push(cell.text().unwrap_or(""))?;
    }
    Ok(texts)
}
