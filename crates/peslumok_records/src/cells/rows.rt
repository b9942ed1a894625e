//! The rows of a text of cells, one after the other.
ghost use Rattle.std.specs.Prelude.{◌≡◌, ◌++◌, ◌∷◌, [], ℕ, List, None, true, false};
ghost use Rattle.std.specs.Prelude.{IfErr, IfOk, IfSome};
ghost use Rattle.csv.specs.Reading.{strip_bom};
ghost use Rattle.csv.specs.Records.{fields_of};
ghost use Rattle.peslumok_records.specs.held.Causes.{is_encoding, is_fault};

use crate::cells::quotes::{ends_in_quotes, may_end_in_quotes};
use crate::held::RecordCause;
use csv::{ErrorKind, Reader, ReaderBuilder, StringRecord};
use std::alloc::Global;
use std::mem;

/// The rows of a text of cells, read one after the other into the same room.
#[derive(Drop)]
pub struct CellRows<'a> {
    reader: Reader<&'a [u8]>,
    text: &'a [u8],
    delimiter: u8,
    row: StringRecord,
    next: StringRecord,
    start: u64,
}

/// Why a row can't be read, and in which of its cells.
#[derive(Drop)]
pub struct RowError {
    pub cause: RecordCause,
    pub cell: Option<usize>,
}

impl<'a> CellRows<'a> {
    ghost use Rattle.peslumok_records.specs.cells.Csv.{IsClosed};
    ghost use Rattle.peslumok_records.specs.cells.Quotes.{MayBeOpenAfter};
    ghost use Rattle.peslumok_records.specs.cells.Rows.{HasNoDocuments, HasRead, HasReadAll};
    ghost use Rattle.peslumok_records.specs.cells.Rows.{ReadsRow};

    /// The rows of a text, of which none is read yet.
    pub fn new(alloc: Global, delimiter: u8, text: &'a [u8]) -> CellRows<'a>
        ensures { HasRead delimiter text.now [] result }
    {
        CellRows {
            reader: ReaderBuilder::new()
                .delimiter(delimiter)
                .has_headers(false)
                .from_reader(alloc, text),
            text,
            delimiter,
            row: StringRecord::new(alloc),
            next: StringRecord::new(alloc),
            start: 0,
        }
    }

    /// Reads the next row, if there is one.
    pub fn read(&mut self) -> Result<bool, RowError>
        ensures more { IfOk result (λ found. found ≡ true → ReadsRow self.old self.new) }
        ensures end { IfOk result (λ found. found ≡ false → HasReadAll self.old) }
        ensures cause { IfErr result (λ error. is_encoding error.cause ≡ false) }
        ensures none { IfErr result (λ error. is_fault error.cause ≡ true
            → HasNoDocuments self.old) }
    {
        let start = self.reader.position().byte();
        match self.reader.read_record(&mut self.next) {
            Ok(true) => {
                self.start = start;
                mem::swap(&mut self.row, &mut self.next);
                Ok(true)
            }
            Ok(false) => {
                if self.is_cut_off() {
                    return Err(RowError::of(RecordCause::UnclosedQuote));
                }
                Ok(false)
            }
            Err(error) => {
                self.start = start;
                Err(RowError::from_kind(error.into_kind()))
            }
        }
    }

    // Whether a quote is open where the text ends, after its last row. The text is looked through
    // only where the last cell doesn't tell.
    fn is_cut_off(&self) -> bool
        ensures unclosed { result ≡ true → ¬ (IsClosed self.now.delimiter self.now.text.now) }
        ensures closed { result ≡ false
            → MayBeOpenAfter (strip_bom self.now.text.now) (fields_of self.now.row)
            → IsClosed self.now.delimiter self.now.text.now }
    {
        match last_cell(&self.row) {
            Some(cell) => {
                may_end_in_quotes(self.text, cell) && ends_in_quotes(self.text, self.delimiter)
            }
            None => false,
        }
    }

    /// The row that was read last.
    pub fn row(&self) -> &StringRecord
        ensures { result.now ≡ self.now.row }
    {
        &self.row
    }

    /// How many bytes stand before the row that was read last.
    pub fn start(&self) -> usize {
        self.start as usize
    }

    /// How many bytes were read.
    pub fn end(&self) -> usize {
        self.reader.position().byte() as usize
    }
}

// The last cell of a row.
fn last_cell(row: &StringRecord) -> Option<&str>
    ensures some { IfSome result (λ cell. (cells : List (List ℕ))
        × (fields_of row.now ≡ cells ++ cell.now ∷ [])) }
    ensures none { result ≡ None → fields_of row.now ≡ [] }
{
    row.get(row.len().checked_sub(1)?)
}

impl RowError {
    ghost use Rattle.peslumok_records.specs.cells.Rows.{refuses_row};

    // Of no cell.
    fn of(cause: RecordCause) -> RowError
        ensures { result.cause ≡ cause }
    {
        RowError { cause, cell: None }
    }

    // What an error of the reader of cells is. A text in memory can always be read, so what is not
    // of a row is of memory.
    fn from_kind(kind: ErrorKind) -> RowError
        ensures cause { is_encoding result.cause ≡ false }
        ensures row { is_fault result.cause ≡ refuses_row kind }
    {
        match kind {
            ErrorKind::UnequalLengths {
                expected_len,
                len,
                ..
            } => RowError::of(RecordCause::Cells {
                expected: expected_len,
                found: len,
            }),
            ErrorKind::Utf8 { err, .. } => RowError {
                cause: RecordCause::NotText,
                cell: Some(err.field() as usize),
            },
            _ => RowError::of(RecordCause::OutOfMemory),
        }
    }
}
