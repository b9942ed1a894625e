//! The lines of an input: a header, and then snapshots with their documents.

use crate::findings::Finding;
use crate::findings::findings::Findings;
use crate::findings::grammar::{Form, Shape};
use crate::findings::object::check_value;
use crate::findings::path::{Path, fault_place};
use crate::findings::words::Nearest;
use agg_values::OutOfMemory;
use json::{Error, Scratch, Value};
use serde_json::Category;
use std::alloc::Global;

const NO_HEADER: &str = "expected the header, an object with request, name and schema";

// More levels than a line has.
const MAX_LEVELS: usize = 200;

// What may stand on a line.
#[derive(Clone, Copy)]
enum Stage {
    Header,
    FirstSnapshot,
    Documents,
}

/// What was found in the lines of a text, line by line, and then of fields that no document has.
/// Once 100 things are found no more lines are looked at.
pub fn check_lines(alloc: Global, text: &str) -> Result<Vec<Finding>, OutOfMemory> {
    let mut found = Findings::new(alloc);
    let mut scratch = Scratch::new(alloc);
    let mut stage = Stage::Header;
    for line in text.split('\n') {
        found.line = found.line.saturating_add(1);
        let line = line.strip_suffix('\r').unwrap_or(line);
        if !is_blank(line) && !found.is_full() {
            stage = check_line(&mut found, line, stage, &mut scratch)?;
        }
    }
    if let Stage::Header = stage {
        found.line = 1;
        found.at(0, NO_HEADER)?;
    }
    found.tell_unseen()?;
    Ok(found.list)
}

/// The number, from 1, and the text of the first line that isn't blank, without its end; 1 and an
/// empty text where all are blank.
pub fn header_line(text: &str) -> (u64, &str) {
    let mut number = 0u64;
    for line in text.split('\n') {
        number = number.saturating_add(1);
        let line = line.strip_suffix('\r').unwrap_or(line);
        if !is_blank(line) {
            return (number, line);
        }
    }
    (1, "")
}

// Whether a line has nothing but spaces and tabs.
fn is_blank(line: &str) -> bool {
    line.as_bytes().iter().all(|b| *b == b' ' || *b == b'\t')
}

// Tells what is wrong with a line. The answer is what may stand on the next one.
fn check_line(
    found: &mut Findings,
    line: &str,
    stage: Stage,
    scratch: &mut Scratch,
) -> Result<Stage, OutOfMemory> {
    match (stage, line.strip_prefix("snapshot ")) {
        (Stage::Header, _) => {
            check_header(found, line, scratch)?;
            Ok(Stage::FirstSnapshot)
        }
        (_, Some(digits)) => {
            check_page_size(found, digits)?;
            Ok(Stage::Documents)
        }
        (Stage::FirstSnapshot, None) => {
            check_other(
                found,
                line,
                "expected a line 'snapshot N', as 'snapshot 10'",
            )?;
            Ok(Stage::FirstSnapshot)
        }
        (Stage::Documents, None) => {
            if line != "segment" {
                check_document(found, line, scratch)?;
            }
            Ok(Stage::Documents)
        }
    }
}

fn check_header(
    found: &mut Findings,
    line: &str,
    scratch: &mut Scratch,
) -> Result<(), OutOfMemory> {
    if !line.trim_start().starts_with('{') {
        return found.at(0, NO_HEADER);
    }
    if let Some(value) = parse(found, line, scratch)? {
        let root = Path::Root("header");
        check_value(
            found,
            line,
            &root,
            &value,
            (Form::Object(Shape::Header), MAX_LEVELS),
        )?;
    }
    Ok(())
}

// Tells where digits are no page size, or 0.
fn check_page_size(found: &mut Findings, digits: &str) -> Result<(), OutOfMemory> {
    let is_signed = digits.starts_with('+');
    match digits.parse::<u32>() {
        Ok(0) => found.at(9, "the page size is 0"),
        Ok(_) if !is_signed => Ok(()),
        _ => found.at(9, "expected the digits of a page size from 1 to 4294967295"),
    }
}

fn check_document(
    found: &mut Findings,
    line: &str,
    scratch: &mut Scratch,
) -> Result<(), OutOfMemory> {
    if !line.trim_start().starts_with('{') {
        return check_other(found, line, "expected a document, as {\"field\":1}");
    }
    let Some(value) = parse(found, line, scratch)? else {
        return Ok(());
    };
    if let Value::Object(members) = &value {
        found.see_document();
        for member in members.iter() {
            found.see_field(member.0)?;
        }
    }
    let root = Path::Root("");
    check_value(
        found,
        line,
        &root,
        &value,
        (Form::Object(Shape::Document), MAX_LEVELS),
    )
}

// Tells that a line is of another kind than was expected.
fn check_other(found: &mut Findings, line: &str, expected: &str) -> Result<(), OutOfMemory> {
    let alloc = found.alloc;
    let word = line.split(' ').next().unwrap_or(line);
    let mut nearest = Nearest::new();
    nearest.look_at(alloc, word, "snapshot")?;
    nearest.look_at(alloc, word, "segment")?;
    let mut what = String::from_str(alloc, expected)?;
    if let Some(word) = nearest.word {
        write!(what, "; did you mean '{word}'?")?;
    }
    found.at(0, what.as_str())
}

// The value of a line, or None where it is told that there is none.
fn parse<'a>(
    found: &mut Findings,
    line: &'a str,
    scratch: &'a mut Scratch,
) -> Result<Option<Value<'a>>, OutOfMemory> {
    match Value::parse(found.alloc, line, scratch) {
        Ok(value) => Ok(Some(value)),
        Err(Error::OutOfMemory) => Err(OutOfMemory),
        Err(_) => {
            tell_fault(found, line)?;
            Ok(None)
        }
    }
}

// Tells where a line stops being JSON.
fn tell_fault(found: &mut Findings, line: &str) -> Result<(), OutOfMemory> {
    if is_cut_short(found.alloc, line)? {
        return found.at(line.len(), "the line ends in the middle of a value");
    }
    let place = fault_place(found.alloc, line).unwrap_or(0);
    found.at(place, expected_at(line, place))
}

// Whether a line is the beginning of JSON.
fn is_cut_short(alloc: Global, line: &str) -> Result<bool, OutOfMemory> {
    match serde_json::Value::from_str(alloc, line) {
        Ok(_) => Ok(false),
        Err(error) => match error.classify() {
            Category::Memory => Err(OutOfMemory),
            Category::Eof => Ok(true),
            _ => Ok(false),
        },
    }
}

// What was expected at a byte where a line stops being JSON.
fn expected_at(line: &str, place: usize) -> &'static str {
    let before = line.as_bytes().get(..place).unwrap_or(&[]);
    let last = before.iter().rev().find(|b| !b.is_ascii_whitespace());
    match last {
        None => "this is not JSON: expected an object",
        Some(b'{') => "this is not JSON: expected a name in quotes, or '}'",
        Some(b'[') => "this is not JSON: expected a value, or ']'",
        Some(b',') => "this is not JSON: expected another value, or a name in quotes",
        Some(b':') => "this is not JSON: expected a value",
        Some(b'"') => "this is not JSON: expected ':', ',' or the end of the object or array",
        Some(_) => "this is not JSON: expected ',' or the end of the object or array",
    }
}
