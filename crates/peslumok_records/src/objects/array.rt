//! One JSON array of objects.
ghost use Rattle.std.specs.Prelude.{◌≡◌, ◌≢◌, ◌<◌, ◌-◌, ◌∷◌, ◌↔◌, List, Some, None, IfErr, IsTrue};
ghost use Rattle.std.specs.Prelude.{OnOk, false, length, true};
ghost use Rattle.json.specs.Json.{Json, max_depth, value};
ghost use Rattle.json.specs.Reads.{token_of};
ghost use Rattle.json.specs.Token.{Token as SpecToken};
ghost use Rattle.agg_values.specs.Nothing.{NoneIs};
ghost use Rattle.peslumok_records.specs.held.Documents.{IsRead};
ghost use Rattle.peslumok_records.specs.held.Causes.{is_encoding, is_fault};
ghost use Rattle.peslumok_records.specs.held.Held.{Adds};
ghost use Rattle.peslumok_records.specs.objects.JsonRecords.{AreItemDocuments, HoldsNext};
ghost use Rattle.peslumok_records.specs.objects.Objects.{object_document};

use crate::held::{AskedFields, RecordCause, RecordError, Records, line_of};
use crate::objects::objects::add_object;
use crate::objects::place::offset_of;
use json::{Error, MAX_DEPTH, Reader, Scratch, Token, Value};
use std::alloc::Global;

/// Appends the records of an array of objects.
pub fn read_array(
    alloc: Global,
    text: &str,
    asked: &AskedFields,
    into: &mut Records,
) -> Result<(), RecordError>
    ensures ok { OnOk result (Adds (AreItemDocuments asked.now text.now) into.old into.new) }
    ensures cause { IfErr result (λ error. is_encoding error.cause ≡ false) }
    ensures none { IfErr result (λ error. is_fault error.cause ≡ true
        → NoneIs (AreItemDocuments asked.now text.now)) }
{
    let mut scratch = Scratch::new(alloc);
    let Ok(mut reader) = Reader::new(text, &mut scratch) else {
        return Err(RecordError::of(RecordCause::OutOfMemory));
    };
    if !take_begin_array(&mut reader) {
        return Err(fault(text, 0, RecordError::of(RecordCause::NotAnArray)));
    }
    'items: while !reader.take_end_array() {
        let start = reader.offset();
        if let Err(error) = read_item(alloc, &mut reader, asked, into) {
            let offset = match error.cause {
                RecordCause::NotJson => reader.offset(),
                _ => offset_in(alloc, text, start, asked, &error),
            };
            return Err(fault(text, offset, error));
        }
    }
    if reader.next().is_some() {
        let error = RecordError::of(RecordCause::NotJson);
        return Err(fault(text, reader.offset(), error));
    }
    Ok(())
}

// Takes the bracket that begins an array. False where anything else comes next.
fn take_begin_array(reader: &mut Reader<'_>) -> bool
    ensures begins { IsTrue result → reader.old ≡ SpecToken.begin_array ∷ reader.new }
    ensures other { result ≡ false
        → (rest : List SpecToken) → reader.old ≢ SpecToken.begin_array ∷ rest }
{
    match reader.next() {
        Some(token) => is_begin_array(token),
        None => false,
    }
}

fn is_begin_array(token: Token<'_>) -> bool
    ensures { IsTrue result ↔ (token_of token.entry ≡ SpecToken.begin_array) }
{
    matches!(token, Token::BeginArray)
}

// Appends the record that is the next item.
fn read_item(
    alloc: Global,
    reader: &mut Reader<'_>,
    asked: &AskedFields,
    into: &mut Records,
) -> Result<(), RecordError>
    ensures holds { OnOk result
        (HoldsNext asked.now reader.old reader.new into.old into.new) }
    ensures shorter { OnOk result (length reader.new < length reader.old) }
    ensures cause { IfErr result (λ error. is_encoding error.cause ≡ false) }
    ensures none { IfErr result (λ error. is_fault error.cause ≡ true
        → (object : Json) (rest : List SpecToken)
        → value (max_depth - 1) reader.old ≡ Some (object, rest)
        → NoneIs (IsRead (object_document asked.now object))) }
{
    match Value::read(alloc, reader, MAX_DEPTH - 1) {
        Ok(value) => add_object(alloc, into, asked, &value),
        Err(Error::OutOfMemory) => Err(RecordError::of(RecordCause::OutOfMemory)),
        Err(_) => Err(RecordError::of(RecordCause::NotJson)),
    }
}

// The byte where the record is wrong that begins at a byte of a text.
fn offset_in(
    alloc: Global,
    text: &str,
    start: usize,
    asked: &AskedFields,
    error: &RecordError,
) -> usize {
    match text.get(start..) {
        Some(record) => start.saturating_add(offset_of(alloc, record, asked, error)),
        None => start,
    }
}

// The error at a byte of a text.
fn fault(text: &str, offset: usize, error: RecordError) -> RecordError
    ensures { result.cause ≡ error.cause }
{
    let (line, column) = line_of(text.as_bytes(), offset);
    error.at(line, column)
}
