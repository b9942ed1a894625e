//! Places where a record of JSON is wrong.
use crate::held::{AskedField, AskedFields, RecordCause, RecordError};
use agg_values::Text;
use json::{MAX_DEPTH, Reader, Scratch};
use std::alloc::Global;

/// The byte where the text of a record is wrong.
pub fn offset_of(alloc: Global, record: &str, asked: &AskedFields, error: &RecordError) -> usize {
    let found = match (&error.field, &error.cause) {
        (Some(name), _) => offset_of_asked(alloc, record, asked, name),
        (None, RecordCause::NotJson) => offset_of_fault(alloc, record),
        _ => offset_of_start(alloc, record),
    };
    found.unwrap_or(0)
}

// The byte where a text begins that has blanks before it.
fn offset_of_start(alloc: Global, text: &str) -> Option<usize> {
    let mut scratch = Scratch::new(alloc);
    let reader = Reader::new(text, &mut scratch).ok()?;
    Some(reader.offset())
}

// The byte where a text stops being one JSON value.
fn offset_of_fault(alloc: Global, text: &str) -> Option<usize> {
    let mut scratch = Scratch::new(alloc);
    let mut reader = Reader::new(text, &mut scratch).ok()?;
    let _ = reader.skip_value(MAX_DEPTH);
    Some(reader.offset())
}

// The byte where the value of an asked field begins.
fn offset_of_asked(alloc: Global, record: &str, asked: &AskedFields, name: &Text) -> Option<usize> {
    let field = asked.as_slice().iter().find(|field| field.name == *name)?;
    offset_of_field(alloc, record, field)
}

fn offset_of_field(alloc: Global, record: &str, field: &AskedField) -> Option<usize> {
    match offset_of_member(alloc, record, &field.name) {
        Some(offset) => Some(offset),
        None => offset_of_path(alloc, record, field.path.as_slice()),
    }
}

// The byte where the value at the end of a path begins.
fn offset_of_path(alloc: Global, record: &str, path: &[Text]) -> Option<usize> {
    let mut offset = 0usize;
    for name in path {
        let inside = record.get(offset..)?;
        offset = offset.checked_add(offset_of_member(alloc, inside, name)?)?;
    }
    Some(offset)
}

// The byte where the value of the last member of a name begins, in the object that a text begins
// with.
fn offset_of_member(alloc: Global, text: &str, name: &Text) -> Option<usize> {
    let mut scratch = Scratch::new(alloc);
    let mut reader = Reader::new(text, &mut scratch).ok()?;
    reader.next()?;
    let mut found = None;
    'members: while let Ok(Some(key)) = reader.next_key() {
        if key == name.as_str() {
            found = Some(reader.offset());
        }
        reader.skip_value(MAX_DEPTH).ok()?;
    }
    found
}
