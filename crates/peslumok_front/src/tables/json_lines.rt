//! Lines of JSON: an object for each row.
ghost use Rattle.std.specs.Prelude.{◌≡◌, ◌++◌, [], OnOk, codes, false, if◌then◌else◌, map, not};
ghost use Rattle.std.specs.Prelude.{string_bytes};
ghost use Rattle.json.specs.Print.{quoted};
ghost use Rattle.agg_results.specs.final_results.Appending.{more_items};
ghost use Rattle.agg_results.specs.final_results.ResultsText.{comma_unless, member_text};
ghost use Rattle.peslumok_front.specs.tables.Cells.{is_total, shown_by, shown_cells};
ghost use Rattle.peslumok_front.specs.tables.Columns.{header_of};
ghost use Rattle.peslumok_front.specs.tables.JsonLines.{column_members, json_line, json_text};

use crate::tables::{Columns, Row, TableCell, TableColumn};
use agg_values::OutOfMemory;
use json::Writer;
use std::alloc::Global;
use std::mem;

/// Appends a row as an object whose members are in the order of the columns. The row of the totals
/// begins with `"total":true` in place of its keys.
pub fn write_json_line(
    alloc: Global,
    out: &mut String,
    columns: &Columns,
    row: &Row,
) -> Result<(), OutOfMemory>
    ensures { OnOk result
        (string_bytes out.new ≡ string_bytes out.old ++ json_line columns.now row.now) }
{
    out.push('{')?;
    write_total(out, row.is_total())?;
    write_members(alloc, out, columns.as_slice(), row)?;
    out.push_str("}\n")?;
    Ok(())
}

// Appends that a row is one of totals, where it is.
fn write_total(out: &mut String, is_total: bool) -> Result<(), OutOfMemory>
    ensures { OnOk result (string_bytes out.new
        ≡ string_bytes out.old ++ (if is_total then codes "\"total\":true" else [])) }
{
    if is_total {
        out.push_str("\"total\":true")?;
    }
    Ok(())
}

// Appends a member for each column, but in the totals none for a key.
fn write_members(
    alloc: Global,
    out: &mut String,
    columns: &[TableColumn],
    row: &Row,
) -> Result<(), OutOfMemory>
    ensures { OnOk result (string_bytes out.new
        ≡ string_bytes out.old
        ++ more_items (not (is_total row.now))
        (column_members (is_total row.now) columns.now (shown_cells row.now))) }
{
    let is_total = row.is_total();
    let mut is_first = !is_total;
    for (column, cell) in columns.iter().zip(row.cells()) {
        if is_total && column.is_key() {
            continue;
        }
        write_comma(out, &mut is_first)?;
        write_member(alloc, out, column, cell)?;
    }
    Ok(())
}

// Appends a comma, unless what comes is the first. The next is not the first.
fn write_comma(out: &mut String, is_first: &mut bool) -> Result<(), OutOfMemory>
    ensures comma { OnOk result
        (string_bytes out.new ≡ string_bytes out.old ++ comma_unless is_first.old) }
    ensures next { is_first.new ≡ false }
{
    if !mem::replace(is_first, false) {
        out.push(',')?;
    }
    Ok(())
}

// Appends the header of a column and the value of a cell.
fn write_member(
    alloc: Global,
    out: &mut String,
    column: &TableColumn,
    cell: &TableCell,
) -> Result<(), OutOfMemory>
    ensures { OnOk result (string_bytes out.new
        ≡ string_bytes out.old
        ++ member_text (header_of column.now) (json_text (shown_by cell.now))) }
{
    write_quoted(alloc, out, column.header())?;
    out.push(':')?;
    write_json_cell(alloc, out, cell)
}

// Appends a cell as a value.
fn write_json_cell(alloc: Global, out: &mut String, cell: &TableCell) -> Result<(), OutOfMemory>
    ensures { OnOk result
        (string_bytes out.new ≡ string_bytes out.old ++ json_text (shown_by cell.now)) }
{
    match cell {
        TableCell::Text(text) => write_quoted(alloc, out, text.as_str())?,
        TableCell::Number(number) => out.push_str(number.as_str())?,
        TableCell::Bool(true) => out.push_str("true")?,
        TableCell::Bool(false) => out.push_str("false")?,
        TableCell::Missing => out.push_str("null")?,
    }
    Ok(())
}

// Appends a text as a JSON string.
#[tactic(auto, unfolding(json::specs::Print::print_from))]
fn write_quoted(alloc: Global, out: &mut String, text: &str) -> Result<(), OutOfMemory>
    ensures { OnOk result (string_bytes out.new ≡ string_bytes out.old ++ quoted text.now) }
{
    let mut writer = Writer::new(Vec::new(alloc));
    writer.string(text)?;
    let quoted = String::from_utf8(writer.into_inner()).unwrap();
    out.push_str(quoted.as_str())?;
    Ok(())
}
