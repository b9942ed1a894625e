//! Rows of CSV and TSV under a header.
ghost use Rattle.std.specs.Prelude.{◌≡◌, ◌++◌, ◌∷◌, [], ℕ, List, true, false, map};
ghost use Rattle.std.specs.Prelude.{IfOk, OnOk, IfErr};
ghost use Rattle.agg_values.specs.Nothing.{NoneIs};
ghost use Rattle.peslumok_records.specs.held.Causes.{is_encoding, is_fault};
ghost use Rattle.peslumok_records.specs.held.Documents.{AreRead};
ghost use Rattle.peslumok_records.specs.held.Held.{Adds, held_documents};
ghost use Rattle.peslumok_records.specs.cells.Cells.{row_document};
ghost use Rattle.peslumok_records.specs.cells.Csv.{AreRowsOf};
ghost use Rattle.peslumok_records.specs.cells.Rows.{HasNoDocuments, HasRead, HasReadAll, ReadsRow};
ghost use Rattle.peslumok_records.specs.cells.Table.{ArePlaces, AreTableDocuments};

use crate::cells::cells::{add_row, places_of};
use crate::cells::place::line_of_row;
use crate::cells::quotes::ends_in_quotes;
use crate::cells::rows::{CellRows, RowError};
use crate::held::{AskedField, AskedFields, RecordCause, RecordError, Records};
use agg_values::OutOfMemory;
use csv::StringRecord;
use std::alloc::Global;

/// Appends the records of a text of cells, whose first row is the header.
pub fn read_table(
    alloc: Global,
    delimiter: u8,
    bytes: &[u8],
    asked: &AskedFields,
    into: &mut Records,
) -> Result<(), RecordError>
    ensures ok { OnOk result
        (Adds (AreTableDocuments delimiter bytes.now asked.now) into.old into.new) }
    ensures cause { IfErr result (λ error. is_encoding error.cause ≡ false) }
    ensures none { IfErr result (λ error. is_fault error.cause ≡ true
        → NoneIs (AreTableDocuments delimiter bytes.now asked.now)) }
{
    let mut rows = CellRows::new(alloc, delimiter, bytes);
    let Err(error) = read_rows(alloc, &mut rows, asked, into) else {
        return Ok(());
    };
    let line = line_of_row(bytes, rows.start());
    if rows.end() >= bytes.len() && ends_in_quotes(bytes, delimiter) {
        let error = RecordError::of(RecordCause::UnclosedQuote);
        return Err(error.on_line(line));
    }
    Err(error.on_line(line))
}

// Appends the records of the rows under the first one.
fn read_rows(
    alloc: Global,
    rows: &mut CellRows<'_>,
    asked: &AskedFields,
    into: &mut Records,
) -> Result<(), RecordError>
    ensures ok { OnOk result ((delimiter : ℕ) (text : List ℕ) → HasRead delimiter text [] rows.old
        → Adds (AreTableDocuments delimiter text asked.now) into.old into.new) }
    ensures cause { IfErr result (λ error. is_encoding error.cause ≡ false) }
    ensures none { IfErr result (λ error. is_fault error.cause ≡ true
        → (delimiter : ℕ) (text : List ℕ) → HasRead delimiter text [] rows.old
        → NoneIs (AreTableDocuments delimiter text asked.now)) }
{
    if !next_row(alloc, rows, asked.as_slice(), &[])? {
        return Ok(());
    }
    see_header(into, rows.row())?;
    let places = places_of(alloc, rows.row(), asked.as_slice())?;
    read_rest(alloc, rows, asked, places.as_slice(), into)
}

// Appends the records of the rows that are left.
fn read_rest(
    alloc: Global,
    rows: &mut CellRows<'_>,
    asked: &AskedFields,
    places: &[Option<usize>],
    into: &mut Records,
) -> Result<(), RecordError>
    ensures ok { OnOk result ((delimiter : ℕ) (text : List ℕ) (before : List (List (List ℕ)))
        → HasRead delimiter text before rows.old
        → (more : List (List (List ℕ))) × AreRowsOf delimiter text (before ++ more)
        × Adds (AreRead (map (row_document asked.now places.now) more)) into.old into.new) }
    ensures cause { IfErr result (λ error. is_encoding error.cause ≡ false) }
    ensures none { IfErr result (λ error. is_fault error.cause ≡ true
        → (delimiter : ℕ) (text : List ℕ) (header : List (List ℕ))
        (before : List (List (List ℕ))) → HasRead delimiter text (header ∷ before) rows.old
        → ArePlaces header asked.now places.now
        → NoneIs (AreTableDocuments delimiter text asked.now)) }
{
    'rows: for _ in 0..u64::MAX {
        if !next_row(alloc, rows, asked.as_slice(), places)? {
            return Ok(());
        }
        add_row(alloc, into, asked, places, rows.row())?;
    }
    // No memory holds so many rows.
    Err(RecordError::of(RecordCause::OutOfMemory))
}

// Reads the next row, if there is one. The asked fields have these places in it.
fn next_row(
    alloc: Global,
    rows: &mut CellRows<'_>,
    asked: &[AskedField],
    places: &[Option<usize>],
) -> Result<bool, RecordError>
    ensures more { IfOk result (λ found. found ≡ true → ReadsRow rows.old rows.new) }
    ensures end { IfOk result (λ found. found ≡ false → HasReadAll rows.old) }
    ensures cause { IfErr result (λ error. is_encoding error.cause ≡ false) }
    ensures none { IfErr result (λ error. is_fault error.cause ≡ true
        → HasNoDocuments rows.old) }
{
    match rows.read() {
        Ok(found) => Ok(found),
        Err(error) => Err(error_of_row(alloc, error, asked, places)),
    }
}

// The error of a row: of the field in whose cell it is, if it is in one.
fn error_of_row(
    alloc: Global,
    error: RowError,
    asked: &[AskedField],
    places: &[Option<usize>],
) -> RecordError
    ensures encoding { is_encoding error.cause ≡ false → is_encoding result.cause ≡ false }
    ensures fault { is_fault result.cause ≡ true → is_fault error.cause ≡ true }
{
    match field_in(error.cell, asked, places) {
        Some(field) => RecordError::of_field(alloc, &field.name, error.cause),
        None => RecordError::of(error.cause),
    }
}

// The asked field in whose place a cell is.
fn field_in<'f>(
    cell: Option<usize>,
    asked: &'f [AskedField],
    places: &[Option<usize>],
) -> Option<&'f AskedField> {
    let cell = cell?;
    let index = places.iter().position(|place| *place == Some(cell))?;
    asked.get(index)
}

// Keeps the names of a header.
fn see_header(records: &mut Records, header: &StringRecord) -> Result<(), OutOfMemory>
    ensures { held_documents records.new ≡ held_documents records.old }
{
    for name in header {
        records.see_name(name)?;
    }
    Ok(())
}
