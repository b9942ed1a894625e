//! The members and items that lead to a value, and the byte of a line where it stands.

use agg_values::{OutOfMemory, Text};
use json::{MAX_DEPTH, Reader, Scratch};
use std::alloc::Global;

/// What leads to a value of a line.
#[derive(Drop)]
pub enum Path<'p> {
    /// The value of the line itself, under this name.
    Root(&'p str),
    Member(&'p Path<'p>, Text),
    Item(&'p Path<'p>, usize),
}

impl<'p> Path<'p> {
    /// What leads to the member of a name in a value.
    pub fn below(alloc: Global, outer: &'p Path<'p>, name: &str) -> Result<Path<'p>, OutOfMemory> {
        let name = Text::copy_of(alloc, name)?;
        Ok(Path::Member(outer, name))
    }

    /// Appends it as `header.request.by_shop.composite.sources[0]`.
    pub fn write(&self, out: &mut String) -> Result<(), OutOfMemory> {
        match self {
            Path::Root(name) => Ok(out.push_str(name)?),
            Path::Member(Path::Root(""), name) => Ok(out.push_str(name.as_str())?),
            Path::Member(outer, name) => {
                outer.write(out)?;
                out.push('.')?;
                Ok(out.push_str(name.as_str())?)
            }
            Path::Item(outer, index) => {
                outer.write(out)?;
                Ok(write!(out, "[{index}]")?)
            }
        }
    }

    /// The byte of a line where the value begins, None where it isn't found. Of members of one name
    /// it is the last.
    pub fn value_place(&self, alloc: Global, line: &str) -> Option<usize> {
        match self {
            Path::Root(_) => Some(place_of_start(alloc, line)?),
            Path::Member(outer, name) => {
                let start = outer.value_place(alloc, line)?;
                let (_, value) = member_places(alloc, line.get(start..)?, name.as_str())?;
                start.checked_add(value)
            }
            Path::Item(outer, index) => {
                let start = outer.value_place(alloc, line)?;
                start.checked_add(item_place(alloc, line.get(start..)?, *index)?)
            }
        }
    }

    /// The byte of a line where the name of the member begins, or, where the path leads to no
    /// member, the value; None where it isn't found.
    pub fn name_place(&self, alloc: Global, line: &str) -> Option<usize> {
        let Path::Member(outer, name) = self else {
            return self.value_place(alloc, line);
        };
        let start = outer.value_place(alloc, line)?;
        let (key, _) = member_places(alloc, line.get(start..)?, name.as_str())?;
        start.checked_add(key)
    }
}

// The byte of a text where its value begins.
fn place_of_start(alloc: Global, text: &str) -> Option<usize> {
    let mut scratch = Scratch::new(alloc);
    let reader = Reader::new(text, &mut scratch).ok()?;
    Some(reader.offset())
}

/// The byte of a text where it stops being one JSON value.
pub fn fault_place(alloc: Global, text: &str) -> Option<usize> {
    let mut scratch = Scratch::new(alloc);
    let mut reader = Reader::new(text, &mut scratch).ok()?;
    if reader.skip_value(MAX_DEPTH).is_ok() {
        let _ = reader.next();
    }
    Some(reader.offset())
}

// Where the name and the value of the last member of a name begin, in the object that a text
// begins with.
fn member_places(alloc: Global, text: &str, name: &str) -> Option<(usize, usize)> {
    let mut scratch = Scratch::new(alloc);
    let mut reader = Reader::new(text, &mut scratch).ok()?;
    reader.next()?;
    let mut found = None;
    let mut start = reader.offset();
    'members: while let Ok(Some(key)) = reader.next_key() {
        if key == name {
            found = Some((start, reader.offset()));
        }
        reader.skip_value(MAX_DEPTH).ok()?;
        start = reader.offset();
    }
    found
}

// Where an item begins, in the array that a text begins with.
fn item_place(alloc: Global, text: &str, index: usize) -> Option<usize> {
    let mut scratch = Scratch::new(alloc);
    let mut reader = Reader::new(text, &mut scratch).ok()?;
    reader.next()?;
    for _ in 0..index {
        skip_value(&mut reader)?;
    }
    Some(reader.offset())
}

// Reads past a value, if there is one.
fn skip_value(reader: &mut Reader<'_>) -> Option<()> {
    reader.skip_value(MAX_DEPTH).ok()
}
