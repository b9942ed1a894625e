//! JSON lines: an object on each line.
ghost use Rattle.std.specs.Prelude.{◌≡◌, IfErr, IfOk, OnOk, false, true};
ghost use Rattle.agg_values.specs.Nothing.{NoneIs};
ghost use Rattle.peslumok_records.specs.held.Documents.{IsRead};
ghost use Rattle.peslumok_records.specs.held.Causes.{is_encoding, is_fault};
ghost use Rattle.peslumok_records.specs.held.Held.{Adds, Holds, held_documents};
ghost use Rattle.peslumok_records.specs.objects.JsonRecords.{text_document};
ghost use Rattle.peslumok_records.specs.objects.Lines.{AreLineDocuments, IsFirstFault, is_blank};
ghost use Rattle.peslumok_records.specs.objects.Lines.{lines_of};

use crate::held::{AskedFields, RecordCause, RecordError, Records};
use crate::objects::objects::add_object;
use crate::objects::place::offset_of;
use crate::objects::tokens::push_text;
use json::{Error, Scratch, Value};
use std::alloc::Global;

/// Appends the records of the lines of a text. Blank lines are passed over.
pub fn read_lines(
    alloc: Global,
    text: &str,
    asked: &AskedFields,
    into: &mut Records,
) -> Result<(), RecordError>
    ensures ok { OnOk result
        (Adds (AreLineDocuments asked.now (lines_of text.now)) into.old into.new) }
    ensures cause { IfErr result (λ error. is_encoding error.cause ≡ false) }
    ensures none { IfErr result (λ error. is_fault error.cause ≡ true
        → NoneIs (AreLineDocuments asked.now (lines_of text.now))) }
    ensures line { IfErr result (λ error. is_fault error.cause ≡ true
        → IsFirstFault asked.now text.now error.line) }
{
    let mut scratch = Scratch::new(alloc);
    let mut number = 0u64;
    for line in text.split('\n') {
        number = number.saturating_add(1);
        if !is_blank(line) {
            if let Err(error) = read_line(alloc, line, &mut scratch, asked, into) {
                let column = offset_of(alloc, line, asked, &error).saturating_add(1);
                return Err(error.at(number, column));
            }
        }
    }
    Ok(())
}

// Appends the record of a line.
fn read_line(
    alloc: Global,
    line: &str,
    scratch: &mut Scratch,
    asked: &AskedFields,
    into: &mut Records,
) -> Result<(), RecordError>
    ensures ok { OnOk result (Holds (text_document asked.now line.now) into.old into.new) }
    ensures cause { IfErr result (λ error. is_encoding error.cause ≡ false) }
    ensures none { IfErr result (λ error. is_fault error.cause ≡ true
        → NoneIs (IsRead (text_document asked.now line.now))) }
{
    if add_tokens(alloc, line, scratch, asked, into)? {
        return Ok(());
    }
    match Value::parse(alloc, line, scratch) {
        Ok(value) => add_object(alloc, into, asked, &value),
        Err(Error::OutOfMemory) => Err(RecordError::of(RecordCause::OutOfMemory)),
        Err(_) => Err(RecordError::of(RecordCause::NotJson)),
    }
}

// Appends the record of a line, read from its tokens. False where it has to be read from its tree
// of values, as that of an object whose names are looked at.
fn add_tokens(
    alloc: Global,
    line: &str,
    scratch: &mut Scratch,
    asked: &AskedFields,
    into: &mut Records,
) -> Result<bool, RecordError>
    ensures taken { IfOk result (λ taken. taken ≡ true
        → Holds (text_document asked.now line.now) into.old into.new) }
    ensures left { IfOk result (λ taken. taken ≡ false
        → held_documents into.new ≡ held_documents into.old) }
    ensures cause { IfErr result (λ error. is_encoding error.cause ≡ false) }
    ensures memory { IfErr result (λ error. is_fault error.cause ≡ false) }
{
    if into.wants_names() {
        return Ok(false);
    }
    into.forget_open();
    if !push_text(alloc, &mut into.builder, asked.cut(), line, scratch) {
        return Ok(false);
    }
    Ok(into.close(asked)?)
}

// Whether a line has nothing but blanks.
fn is_blank(line: &str) -> bool
    ensures { result ≡ is_blank line.now }
{
    line.as_bytes()
        .iter()
        .all(|b| *b == b' ' || *b == b'\t' || *b == b'\r')
}
