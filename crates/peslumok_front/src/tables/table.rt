//! Tables whose columns are aligned.
ghost use Rattle.std.specs.Prelude.{◌≡◌, ◌++◌, IfOk, OnOk, replicate, string_bytes};
ghost use Rattle.peslumok_front.specs.tables.Table.{padded};
ghost use Rattle.peslumok_front.specs.tables.Visible.{visible};

use crate::tables::visible::write_visible;
use crate::tables::{Columns, Row, TableCell, TableColumn};
use agg_values::OutOfMemory;
use std::alloc::Global;
use unicode_width::UnicodeWidthStr;

// The side of a column where a text stands.
#[derive(Clone, Copy, Debug)]
enum Side {
    Left,
    Right,
}

// A text of a table with its side.
#[derive(Debug, Drop)]
struct Placed {
    text: String,
    side: Side,
}

/// Appends rows as a table, a line each, under the names of the columns if it has a header: texts
/// to the left, numbers to the right, and two spaces between columns.
pub fn write_table(
    alloc: Global,
    out: &mut String,
    columns: &Columns,
    rows: &[Row],
    has_header: bool,
) -> Result<(), OutOfMemory> {
    let sides = column_sides(alloc, columns.as_slice(), rows)?;
    let mut lines = Vec::new(alloc);
    if has_header {
        lines.push(header_line(alloc, columns.as_slice(), sides.as_slice())?)?;
    }
    for row in rows {
        lines.push(row_line(alloc, row, sides.as_slice())?)?;
    }
    let widths = column_widths(alloc, lines.as_slice())?;
    for line in lines.as_slice() {
        write_line(alloc, out, line.as_slice(), widths.as_slice())?;
    }
    Ok(())
}

// The side of each column's header and of what is missing in it.
fn column_sides(
    alloc: Global,
    columns: &[TableColumn],
    rows: &[Row],
) -> Result<Vec<Side>, OutOfMemory> {
    let mut sides = Vec::new(alloc);
    for place in 0..columns.len() {
        sides.push(side_of_column(rows, place))?;
    }
    Ok(sides)
}

// The right where the groups have numbers and no texts in a column.
fn side_of_column(rows: &[Row], place: usize) -> Side {
    let mut side = Side::Left;
    for row in rows {
        match row.cells().get(place) {
            Some(TableCell::Number(_)) => side = Side::Right,
            Some(TableCell::Text(_) | TableCell::Bool(_)) if !row.is_total() => return Side::Left,
            _ => {}
        }
    }
    side
}

fn header_line(
    alloc: Global,
    columns: &[TableColumn],
    sides: &[Side],
) -> Result<Vec<Placed>, OutOfMemory> {
    let mut line = Vec::new(alloc);
    for (column, side) in columns.iter().zip(sides) {
        line.push(Placed {
            text: visible_text(alloc, column.header())?,
            side: *side,
        })?;
    }
    Ok(line)
}

fn row_line(alloc: Global, row: &Row, sides: &[Side]) -> Result<Vec<Placed>, OutOfMemory> {
    let mut line = Vec::new(alloc);
    for (cell, side) in row.cells().iter().zip(sides) {
        line.push(Placed {
            text: visible_text(alloc, cell.text().unwrap_or("-"))?,
            side: side_of_cell(cell, *side),
        })?;
    }
    Ok(line)
}

fn side_of_cell(cell: &TableCell, column: Side) -> Side {
    match cell {
        TableCell::Text(_) | TableCell::Bool(_) => Side::Left,
        TableCell::Number(_) => Side::Right,
        TableCell::Missing => column,
    }
}

fn visible_text(alloc: Global, text: &str) -> Result<String, OutOfMemory>
    ensures { IfOk result (λ shown. string_bytes shown ≡ visible text.now) }
{
    let mut visible = String::new(alloc);
    write_visible(&mut visible, text)?;
    Ok(visible)
}

// The width of each column: that of its widest text.
fn column_widths(alloc: Global, lines: &[Vec<Placed>]) -> Result<Vec<usize>, OutOfMemory> {
    let mut widths = Vec::new(alloc);
    for line in lines {
        for (place, cell) in line.iter().enumerate() {
            let width = cell.text.as_str().width();
            match widths.get_mut(place) {
                Some(widest) => *widest = width.max(*widest),
                None => widths.push(width)?,
            }
        }
    }
    Ok(widths)
}

// Appends a line, two spaces between columns and none at its end.
fn write_line(
    alloc: Global,
    out: &mut String,
    cells: &[Placed],
    widths: &[usize],
) -> Result<(), OutOfMemory> {
    let mut line = String::new(alloc);
    for (cell, width) in cells.iter().zip(widths) {
        write_cell(&mut line, cell, *width)?;
        line.push_str("  ")?;
    }
    out.push_str(line.as_str().trim_end_matches(' '))?;
    out.push('\n')?;
    Ok(())
}

// Appends a text at its side of a column, and as many spaces as fill it.
fn write_cell(out: &mut String, cell: &Placed, column: usize) -> Result<(), OutOfMemory>
    ensures { OnOk result (string_bytes out.new
        ≡ string_bytes out.old ++ padded cell.now.side column (string_bytes cell.now.text)) }
{
    let text = cell.text.as_str();
    let spaces = column.saturating_sub(text.width());
    match cell.side {
        Side::Left => {
            out.push_str(text)?;
            write_spaces(out, spaces)
        }
        Side::Right => {
            write_spaces(out, spaces)?;
            out.push_str(text)?;
            Ok(())
        }
    }
}

// Appends so many spaces.
fn write_spaces(out: &mut String, count: usize) -> Result<(), OutOfMemory>
    ensures { OnOk result (string_bytes out.new ≡ string_bytes out.old ++ replicate count 32) }
{
    for _ in 0..count {
        out.push(' ')?;
    }
    Ok(())
}
