//! Rows of cells as documents: the cells under the asked names.
ghost use Rattle.std.specs.Prelude.{◌≡◌, ◌↔◌, [], None, Some, true, false, IfErr, IfOk, IsTrue};
ghost use Rattle.std.specs.Prelude.{OnOk, option_and_then, option_map};
ghost use Rattle.csv.specs.Records.{field_at, fields_of};
ghost use Rattle.agg_values.specs.Nothing.{NoneIs};
ghost use Rattle.agg_segment.specs.Segment.{gathered_documents};
ghost use Rattle.peslumok_records.specs.held.Causes.{is_encoding, is_fault};
ghost use Rattle.peslumok_records.specs.held.Documents.{IsRead};
ghost use Rattle.peslumok_records.specs.held.Held.{Holds, held_documents};
ghost use Rattle.peslumok_records.specs.held.Values.{Gains, named_values};
ghost use Rattle.peslumok_records.specs.cells.Cells.{cell_at, cell_values, values_at, row_document};
ghost use Rattle.peslumok_records.specs.cells.Cells.{values_of_row};
ghost use Rattle.peslumok_records.specs.cells.Table.{ArePlaces, IsPlaceOf};

use crate::cells::scalars::value_of_cell;
use crate::held::{AskedField, AskedFields, RecordCause, RecordError, Records};
use agg_segment::SegmentBuilder;
use csv::StringRecord;
use std::alloc::Global;

/// Appends the document of a row. The asked fields have these places in it.
pub fn add_row(
    alloc: Global,
    records: &mut Records,
    asked: &AskedFields,
    places: &[Option<usize>],
    row: &StringRecord,
) -> Result<(), RecordError>
    ensures ok { OnOk result (Holds (row_document asked.now places.now (fields_of row.now))
        records.old records.new) }
    ensures cause { IfErr result (λ error. is_encoding error.cause ≡ false) }
    ensures none { IfErr result (λ error. is_fault error.cause ≡ true → NoneIs (IsRead
        (row_document asked.now places.now (fields_of row.now)))) }
{
    if try_row(alloc, records, asked, places, row)? {
        return Ok(());
    }
    if try_row(alloc, records, asked, places, row)? {
        return Ok(());
    }
    Err(RecordError::of(RecordCause::MixedNumbers))
}

// Appends the document of a row. False where the next segment has begun in its place.
fn try_row(
    alloc: Global,
    records: &mut Records,
    asked: &AskedFields,
    places: &[Option<usize>],
    row: &StringRecord,
) -> Result<bool, RecordError>
    ensures taken { IfOk result (λ taken. taken ≡ true
        → Holds (row_document asked.now places.now (fields_of row.now))
        records.old records.new) }
    ensures left { IfOk result (λ taken. taken ≡ false
        → held_documents records.new ≡ held_documents records.old) }
    ensures fresh { IfOk result (λ taken. taken ≡ false
        → gathered_documents records.new.builder ≡ []) }
    ensures mixed { IfOk result (λ taken. taken ≡ false
        → gathered_documents records.old.builder ≡ []
        → NoneIs (IsRead (row_document asked.now places.now (fields_of row.now)))) }
    ensures cause { IfErr result (λ error. is_encoding error.cause ≡ false) }
    ensures none { IfErr result (λ error. is_fault error.cause ≡ true → NoneIs (IsRead
        (row_document asked.now places.now (fields_of row.now)))) }
{
    records.forget_open();
    push_row(alloc, &mut records.builder, asked.as_slice(), places, row)?;
    Ok(records.close(asked)?)
}

// Appends the values of the asked cells to the open document.
fn push_row(
    alloc: Global,
    builder: &mut SegmentBuilder,
    asked: &[AskedField],
    places: &[Option<usize>],
    row: &StringRecord,
) -> Result<(), RecordError>
    ensures ok { OnOk result
        (Gains (values_of_row asked.now places.now (fields_of row.now)) builder.old builder.new) }
    ensures documents { gathered_documents builder.new ≡ gathered_documents builder.old }
    ensures cause { IfErr result (λ error. is_encoding error.cause ≡ false) }
    ensures none { IfErr result (λ error. is_fault error.cause ≡ true
        → values_of_row asked.now places.now (fields_of row.now) ≡ None) }
{
    for index in 0..asked.len() {
        let field = &asked[index];
        let cell = cell_of(row, places, index);
        if let Err(cause) = push_cell(alloc, builder, field, cell) {
            return Err(RecordError::of_field(alloc, &field.name, cause));
        }
    }
    Ok(())
}

// The cell at a field's place, if it has one.
fn cell_of<'r>(row: &'r StringRecord, places: &[Option<usize>], index: usize) -> Option<&'r str>
    ensures { option_map (λ cell. cell.now) result
        ≡ cell_at places.now index (fields_of row.now) }
{
    let place = *places.get(index)?;
    row.get(place?)
}

// Appends the value of a cell, if it has one.
fn push_cell(
    alloc: Global,
    builder: &mut SegmentBuilder,
    field: &AskedField,
    cell: Option<&str>,
) -> Result<(), RecordCause>
    ensures ok { OnOk result (Gains (option_map (named_values field.now.name)
        (values_at field.now.of (option_map (λ text. text.now) cell.entry)))
        builder.old builder.new) }
    ensures documents { gathered_documents builder.new ≡ gathered_documents builder.old }
    ensures cause { IfErr result (λ cause. is_encoding cause ≡ false) }
    ensures none { IfErr result (λ cause. is_fault cause ≡ true
        → values_at field.now.of (option_map (λ text. text.now) cell.entry) ≡ None) }
{
    let Some(cell) = cell else {
        return Ok(());
    };
    if let Some(value) = value_of_cell(alloc, cell, field.of)? {
        let number = builder.field(field.name.as_str())?;
        builder.push(number, value)?;
    }
    Ok(())
}

/// The places of the asked fields under a header.
pub fn places_of(
    alloc: Global,
    header: &StringRecord,
    asked: &[AskedField],
) -> Result<Vec<Option<usize>>, RecordError>
    ensures ok { IfOk result
        (λ places. ArePlaces (fields_of header.now) asked.now places.items) }
    ensures cause { IfErr result (λ error. is_encoding error.cause ≡ false) }
    ensures none { IfErr result (λ error. is_fault error.cause ≡ true
        → NoneIs (ArePlaces (fields_of header.now) asked.now)) }
{
    let mut places = Vec::new(alloc);
    for field in asked {
        let place = match place_of(header, field.name.as_str()) {
            Ok(place) => place,
            Err(cause) => return Err(RecordError::of_field(alloc, &field.name, cause)),
        };
        if places.push(place).is_err() {
            return Err(RecordError::of(RecordCause::OutOfMemory));
        }
    }
    Ok(places)
}

// The place of the one cell of a header that is this name.
fn place_of(header: &StringRecord, name: &str) -> Result<Option<usize>, RecordCause>
    ensures ok { IfOk result (λ place. IsPlaceOf (fields_of header.now) name.now place) }
    ensures cause { IfErr result (λ cause. is_encoding cause ≡ false) }
    ensures none { IfErr result (λ cause. is_fault cause ≡ true
        → NoneIs (IsPlaceOf (fields_of header.now) name.now)) }
{
    let mut found = None;
    for place in 0..header.len() {
        if is_at(header, place, name) {
            if found.is_some() {
                return Err(RecordCause::SameName);
            }
            found = Some(place);
        }
    }
    Ok(found)
}

// Whether the cell at a place of a header is this name.
fn is_at(header: &StringRecord, place: usize, name: &str) -> bool
    ensures { IsTrue result ↔ (field_at (fields_of header.now) place ≡ Some name.now) }
{
    match header.get(place) {
        Some(cell) => cell == name,
        None => false,
    }
}
