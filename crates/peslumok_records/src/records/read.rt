//! Records of each format.
ghost use Rattle.std.specs.Prelude.{◌≡◌, ◌++◌, ◌↔◌, List, IfOk, IfErr, IsErrAnd, IsTrue, OnOk};
ghost use Rattle.std.specs.Prelude.{false, true};
ghost use Rattle.std.specs.Str.{IsUtf8};
ghost use Rattle.csv.specs.Reading.{strip_bom};
ghost use Rattle.agg_values.specs.Nothing.{NoneIs};
ghost use Rattle.agg_segment.specs.storage.Document.{Fields};
ghost use Rattle.peslumok_records.specs.held.Causes.{is_encoding, is_fault};
ghost use Rattle.peslumok_records.specs.held.Held.{held_documents};
ghost use Rattle.peslumok_records.specs.objects.Lines.{IsFirstFault};
ghost use Rattle.peslumok_records.specs.records.Encodings.{begins_as_gzip, begins_as_utf16};
ghost use Rattle.peslumok_records.specs.records.Formats.{AreDocumentsOf};

use crate::cells::{read_table, without_mark};
use crate::held::{AskedFields, RecordCause, RecordError, Records, line_of};
use crate::objects::{read_array, read_lines};
use crate::records::encoding::refuse_other_encodings;
use peslumok_texts::formats::RecordFormat;
use std::alloc::Global;
use std::str::from_utf8;

/// Appends the records of a text. After an error some of them may have been appended.
pub fn read_records(
    alloc: Global,
    format: RecordFormat,
    bytes: &[u8],
    asked: &AskedFields,
    into: &mut Records,
) -> Result<(), RecordError>
    ensures held { OnOk result ((documents : List Fields)
        × AreDocumentsOf format asked.now bytes.now documents
        × (held_documents into.new ≡ held_documents into.old ++ documents)) }
    ensures utf16 { IsErrAnd result (λ error. error.cause ≡ RecordCause.Utf16)
        ↔ IsTrue (begins_as_utf16 bytes.now) }
    ensures gzip { IsErrAnd result (λ error. error.cause ≡ RecordCause.Gzip)
        ↔ IsTrue (begins_as_gzip bytes.now) }
    ensures none { IfErr result (λ error. is_fault error.cause ≡ true
        → NoneIs (AreDocumentsOf format asked.now bytes.now)) }
    ensures line { IfErr result (λ error. is_fault error.cause ≡ true
        → format ≡ RecordFormat.JsonLines → IsUtf8 (strip_bom bytes.now)
        → IsFirstFault asked.now (strip_bom bytes.now) error.line) }
{
    if let Err(cause) = refuse_other_encodings(bytes) {
        return Err(RecordError::of(cause));
    }
    into.number_fields(asked)?;
    match format {
        RecordFormat::Csv => read_table(alloc, b',', bytes, asked, into),
        RecordFormat::Tsv => read_table(alloc, b'\t', bytes, asked, into),
        RecordFormat::JsonLines => read_lines(alloc, text_of(bytes)?, asked, into),
        RecordFormat::Json => read_array(alloc, text_of(bytes)?, asked, into),
    }
}

// The text that bytes are, without a byte order mark.
fn text_of(bytes: &[u8]) -> Result<&str, RecordError>
    ensures ok { IfOk result (λ text.
        (text.now ≡ strip_bom bytes.now) × IsUtf8 (strip_bom bytes.now)) }
    ensures none { IfErr result (λ error. ¬ (IsUtf8 (strip_bom bytes.now))) }
    ensures cause { IfErr result (λ error. is_encoding error.cause ≡ false) }
{
    let bytes = without_mark(bytes);
    match from_utf8(bytes) {
        Ok(text) => Ok(text),
        Err(error) => {
            let (line, column) = line_of(bytes, error.valid_up_to());
            Err(RecordError::of(RecordCause::NotText).at(line, column))
        }
    }
}
