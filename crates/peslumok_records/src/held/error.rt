//! Where and why records cannot be read.
ghost use Rattle.std.specs.Prelude.{◌≡◌, ◌≢◌, false, true};
ghost use Rattle.peslumok_records.specs.held.Causes.{is_encoding, is_fault};

use agg_values::{OutOfMemory, Text};
use peslumok_texts::fields::ValueError;
use std::alloc::Global;
use std::fmt;
use thiserror::Error;

// How many bytes of a value a message shows.
const LONGEST_SHOWN: usize = 80;

/// Why records cannot be read.
#[derive(Debug, Drop, Error)]
pub enum RecordCause {
    #[error("the text is UTF-16; convert it to UTF-8")]
    Utf16,
    #[error("the file is compressed by gzip; unpack it first")]
    Gzip,
    #[error("the text is not UTF-8")]
    NotText,
    #[error("this is not JSON")]
    NotJson,
    #[error("a record has to be an object")]
    NotAnObject,
    #[error("the text has to be one array of objects")]
    NotAnArray,
    #[error("holds an object; ask for one of its members, as FIELD.NAME")]
    HoldsObject,
    #[error("holds an array inside an array")]
    HoldsArray,
    #[error("{} {why}", .shown.as_str())]
    Value { shown: Text, why: ValueError },
    #[error("holds a negative number and one above 9223372036854775807 in one record")]
    MixedNumbers,
    #[error("{found} cells, where the header has {expected}")]
    Cells { expected: u64, found: u64 },
    #[error("two columns have this name")]
    SameName,
    #[error("a quote is not closed")]
    UnclosedQuote,
    #[error("out of memory")]
    OutOfMemory,
}

impl From<OutOfMemory> for RecordCause {
    ghost from_gives = { λ _ cause. (is_encoding cause ≡ false) × (is_fault cause ≡ false) };

    fn from(_error: OutOfMemory) -> RecordCause {
        RecordCause::OutOfMemory
    }
}

impl RecordCause {
    /// That a value is none of its field. The message shows the first bytes of its text.
    pub(crate) fn of_value(alloc: Global, text: &str, why: ValueError) -> RecordCause
        ensures encoding { is_encoding result ≡ false }
        ensures fault { is_fault result ≡ true → why ≢ ValueError.OutOfMemory }
    {
        if let ValueError::OutOfMemory = why {
            return RecordCause::OutOfMemory;
        }
        let end = text.floor_char_boundary(LONGEST_SHOWN);
        match Text::copy_of(alloc, &text[..end]) {
            Ok(shown) => RecordCause::Value { shown, why },
            Err(OutOfMemory) => RecordCause::OutOfMemory,
        }
    }
}

/// Where and why records cannot be read.
#[derive(Debug, Drop)]
pub struct RecordError {
    /// The line, from 1, and 0 where it is of no line.
    pub line: u64,
    /// The byte of the line, from 1.
    pub column: Option<usize>,
    pub field: Option<Text>,
    pub cause: RecordCause,
}

impl From<OutOfMemory> for RecordError {
    ghost from_gives = { λ _ error.
        (is_encoding error.cause ≡ false) × (is_fault error.cause ≡ false) };

    fn from(_error: OutOfMemory) -> RecordError {
        RecordError::of(RecordCause::OutOfMemory)
    }
}

impl RecordError {
    /// Of no line and no field.
    pub fn of(cause: RecordCause) -> RecordError
        ensures { result.cause ≡ cause }
    {
        RecordError {
            line: 0,
            column: None,
            field: None,
            cause,
        }
    }

    /// Of a field, and of no line.
    pub fn of_field(alloc: Global, field: &Text, cause: RecordCause) -> RecordError
        ensures encoding { is_encoding cause ≡ false → is_encoding result.cause ≡ false }
        ensures fault { is_fault result.cause ≡ true → is_fault cause ≡ true }
    {
        match field.try_clone(alloc) {
            Ok(field) => RecordError {
                line: 0,
                column: None,
                field: Some(field),
                cause,
            },
            Err(error) => RecordError::from(error),
        }
    }

    /// The same on a line.
    pub fn on_line(self, line: u64) -> RecordError
        ensures { result.cause ≡ self.cause }
    {
        RecordError { line, ..self }
    }

    /// The same at a place of a line.
    pub fn at(self, line: u64, column: usize) -> RecordError
        ensures cause { result.cause ≡ self.cause }
        ensures line { result.line ≡ line }
    {
        RecordError {
            line,
            column: Some(column),
            ..self
        }
    }
}

// To stand after the name of a file and a colon.
impl fmt::Display for RecordError {
    fn fmt<W: fmt::Write>(&self, f: &mut fmt::Formatter<W>) -> fmt::Result {
        if self.line > 0 {
            write!(f, "{}:", self.line)?;
            if let Some(column) = self.column {
                write!(f, "{column}:")?;
            }
        }
        f.write_str(" ")?;
        if let Some(field) = &self.field {
            write!(f, "{}: ", field.as_str())?;
        }
        write!(f, "{}", self.cause)
    }
}

impl std::error::Error for RecordError {}
