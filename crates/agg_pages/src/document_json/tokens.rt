//! A document, from the tokens of its line: no tree of values is built.
ghost use Rattle.std.specs.Prelude.{◌≡◌, ℕ, List, true, false, IfOk, IsErrOf, IsTrue};
ghost use Rattle.std.specs.List.Sorted.{IsStrictlyIncreasing};
ghost use Rattle.json.specs.Lex.{tokens};
ghost use Rattle.agg_segment.specs.Segment.{gathered_documents, no_fields, open_document};
ghost use Rattle.agg_pages.specs.document_json.DocumentLine.{IsDocumentLine};
ghost use Rattle.agg_pages.specs.document_json.AddedDocument.{HasNoDocument, HoldsLine};
ghost use Rattle.agg_pages.specs.document_json.Tokens.{AreDistinct, TakesMembers};

pub(crate) mod number;
mod value;
mod values;

use crate::document_json::InputError;
use crate::document_json::plain::PlainReader;
use crate::document_json::token_reader::{LineToken, TokenReader};
use agg_segment::SegmentBuilder;
use agg_values::OutOfMemory;
use json::{Reader, Scratch};
use std::alloc::Global;
use values::read_values;

// A line of more bytes than these gives back the room that it took.
const LONGEST_KEPT: usize = 65_536;

/// Room that is kept from line to line, so that reading one takes no new memory.
#[derive(Drop)]
pub struct LineRoom {
    tokens: Scratch,
    // The numbers of the fields of a line.
    fields: Vec<u32>,
}

impl LineRoom {
    /// Room that grows with the lines.
    pub fn new(alloc: Global) -> LineRoom {
        LineRoom {
            tokens: Scratch::new(alloc),
            fields: Vec::new(alloc),
        }
    }

    // Gives back the room that a long line took.
    fn give_back(&mut self, alloc: Global, line: &str) {
        if line.len() > LONGEST_KEPT {
            self.tokens = Scratch::new(alloc);
        }
    }
}

/// Appends the document of a line to a segment, read from its tokens. False where the line has to
/// be read in another way, as one that names a field twice or has a number that isn't whole. No
/// document has come then, and one may be open.
pub fn read_document_tokens(
    alloc: Global,
    builder: &mut SegmentBuilder,
    line: &str,
    room: &mut LineRoom,
) -> Result<bool, InputError>
    ensures ok { IfOk result (λ taken. taken ≡ true
        → HoldsLine line.now builder.old builder.new) }
    ensures left { IfOk result (λ taken. taken ≡ false
        → gathered_documents builder.new ≡ gathered_documents builder.old) }
    ensures not_input { IsErrOf result InputError.NotInput → HasNoDocument line.now builder.old }
{
    let taken = open_line(alloc, builder, line, room)?;
    room.give_back(alloc, line);
    if !taken {
        return Ok(false);
    }
    builder.finish()?;
    Ok(true)
}

// Makes the document of a line the open one. A line that isn't plain is indexed first.
fn open_line(
    alloc: Global,
    builder: &mut SegmentBuilder,
    line: &str,
    room: &mut LineRoom,
) -> Result<bool, OutOfMemory>
    ensures taken { IfOk result (λ taken. IsTrue taken
        → IsDocumentLine line.now (open_document builder.new)) }
    ensures documents { gathered_documents builder.new ≡ gathered_documents builder.old }
{
    let mut plain = PlainReader::new(line);
    if open_tokens(alloc, builder, &mut plain, &mut room.fields)? {
        return Ok(true);
    }
    let Ok(mut reader) = Reader::new(line, &mut room.tokens) else {
        return Err(OutOfMemory);
    };
    open_tokens(alloc, builder, &mut reader, &mut room.fields)
}

// Makes the document of a line's tokens the open one.
fn open_tokens<'a, R: TokenReader<'a>>(
    alloc: Global,
    builder: &mut SegmentBuilder,
    reader: &mut R,
    fields: &mut Vec<u32>,
) -> Result<bool, OutOfMemory>
    ensures taken { IfOk result (λ taken. IsTrue taken
        → (line : List ℕ) → R.tokens reader.old ≡ tokens line
        → IsDocumentLine line (open_document builder.new)) }
    ensures documents { gathered_documents builder.new ≡ gathered_documents builder.old }
{
    builder.discard();
    let Some(LineToken::BeginObject) = reader.next_token() else {
        return Ok(false);
    };
    if !read_members(alloc, builder, reader, fields)? {
        return Ok(false);
    }
    if !reader.has_ended() {
        return Ok(false);
    }
    Ok(are_distinct(fields))
}

// Appends the members of an object to the open document. Their fields are then in `fields`.
fn read_members<'a, R: TokenReader<'a>>(
    alloc: Global,
    builder: &mut SegmentBuilder,
    reader: &mut R,
    fields: &mut Vec<u32>,
) -> Result<bool, OutOfMemory>
    requires { open_document builder.old ≡ no_fields }
    ensures taken { IfOk result (λ taken. IsTrue taken
        → TakesMembers (R.tokens reader.old) (R.tokens reader.new)
        fields.new.items builder.new) }
    ensures documents { gathered_documents builder.new ≡ gathered_documents builder.old }
{
    fields.clear();
    'members: loop {
        let Ok(found) = reader.next_name() else {
            return Ok(false);
        };
        let Some(name) = found else {
            return Ok(true);
        };
        let field = builder.field(name)?;
        fields.push(field)?;
        if !read_values(alloc, builder, field, reader)? {
            return Ok(false);
        }
    }
}

// Whether no number is there twice. Numbers that don't ascend are sorted by it.
fn are_distinct(numbers: &mut Vec<u32>) -> bool
    ensures { IsTrue result → AreDistinct numbers.old.items }
{
    if ascend(numbers) {
        return true;
    }
    let count = numbers.len();
    numbers.sort_unstable();
    numbers.dedup();
    numbers.len() == count
}

// Whether each number is above the one before it.
fn ascend(numbers: &[u32]) -> bool
    ensures { IsTrue result → IsStrictlyIncreasing numbers.now }
{
    let mut i = 1;
    while i < numbers.len() {
        if numbers[i - 1] >= numbers[i] {
            return false;
        }
        i += 1;
    }
    true
}
