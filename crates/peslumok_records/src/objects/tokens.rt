//! The values of an object's asked members, from its tokens: no tree of values is built.
ghost use Rattle.std.specs.Prelude.{◌≡◌, ◌≢◌, ◌<◌, false, true, IfSome, IsTrue, length};
ghost use Rattle.std.specs.Prelude.{slice_index_or, slice_set};
ghost use Rattle.std.specs.List.{All};
ghost use Rattle.json.specs.Reads.{token_of};
ghost use Rattle.json.specs.Value.{value_view};
ghost use Rattle.agg_segment.specs.Segment.{IsNameOf, gathered_documents};
ghost use Rattle.peslumok_records.specs.held.Asked.{IsCut};
ghost use Rattle.peslumok_records.specs.objects.Tokens.{IsOther, IsPlaceOf, IsScalar, TakesItems};
ghost use Rattle.peslumok_records.specs.objects.Tokens.{TakesMembers};
ghost use Rattle.peslumok_records.specs.objects.Tokens.{TakesScalar, TakesText, TakesValue};

use crate::held::AskedField;
use crate::objects::objects::push_item;
use agg_segment::SegmentBuilder;
use json::{MAX_DEPTH, Reader, Scratch, Token, Value};
use std::alloc::Global;

// How many asked fields are told apart here.
const MOST_ASKED: usize = 32;

// Which asked field a member is of. It is unclear where a name is asked twice, or where the field's
// value stands inside of the member.
#[derive(Clone, Copy)]
enum Place {
    Field(usize),
    Other,
    Unclear,
}

/// Appends the values of the asked members of the object that a text is to the open document. False
/// where they have to be read from a tree of values: where a member comes twice, where a value
/// stands inside of an object, and where the text or a value is wrong.
pub fn push_text(
    alloc: Global,
    builder: &mut SegmentBuilder,
    asked: &[AskedField],
    text: &str,
    scratch: &mut Scratch,
) -> bool
    requires { All IsCut asked.now }
    ensures taken { IsTrue result → TakesText asked.now text.now builder.old builder.new }
    ensures documents { gathered_documents builder.new ≡ gathered_documents builder.old }
{
    let Ok(mut reader) = Reader::new(text, scratch) else {
        return false;
    };
    let Some(Token::BeginObject) = reader.next() else {
        return false;
    };
    if !push_members(alloc, builder, asked, &mut reader) {
        return false;
    }
    reader.next().is_none()
}

// Appends the values of the asked members of an object, after its brace.
fn push_members(
    alloc: Global,
    builder: &mut SegmentBuilder,
    asked: &[AskedField],
    reader: &mut Reader<'_>,
) -> bool
    requires { All IsCut asked.now }
    ensures taken { IsTrue result
        → TakesMembers asked.now reader.old reader.new builder.old builder.new }
    ensures documents { gathered_documents builder.new ≡ gathered_documents builder.old }
{
    let mut seen = [false; MOST_ASKED];
    'members: loop {
        let Ok(key) = reader.next_key() else {
            return false;
        };
        let Some(name) = key else {
            return true;
        };
        match place_of(asked, name) {
            Place::Field(index) => {
                if !mark(&mut seen, index) {
                    return false;
                }
                if !push_value(alloc, builder, &asked[index], reader) {
                    return false;
                }
            }
            Place::Other => {
                if reader.skip_value(MAX_DEPTH - 1).is_err() {
                    return false;
                }
            }
            Place::Unclear => return false,
        }
    }
}

// Which field a member of a name is of.
fn place_of(asked: &[AskedField], name: &str) -> Place
    requires { All IsCut asked.now }
    ensures { IsPlaceOf asked.now name.now result }
{
    let mut found = None;
    for index in 0..asked.len() {
        if may_hold(&asked[index], name) {
            if found.is_some() {
                return Place::Unclear;
            }
            if asked[index].name.as_str() != name {
                return Place::Unclear;
            }
            found = Some(index);
        }
    }
    match found {
        Some(index) => Place::Field(index),
        None => Place::Other,
    }
}

// Whether a member of a name may have values of a field.
fn may_hold(field: &AskedField, name: &str) -> bool
    requires { IsCut field.now }
    ensures { result ≡ false → IsOther name.now field.now }
{
    if name == field.name.as_str() {
        return true;
    }
    match field.path.first() {
        Some(first) => name == first.as_str(),
        None => true,
    }
}

// Marks a field as seen. False where it was seen before, or has no mark.
fn mark(seen: &mut [bool], index: usize) -> bool
    ensures new { IsTrue result → slice_index_or seen.old index true ≡ false }
    ensures marked { IsTrue result → seen.new ≡ slice_set seen.old index true }
{
    if index >= seen.len() || seen[index] {
        return false;
    }
    seen[index] = true;
    true
}

// Appends the values of a member to its field: one, or those of an array.
fn push_value(
    alloc: Global,
    builder: &mut SegmentBuilder,
    field: &AskedField,
    reader: &mut Reader<'_>,
) -> bool
    ensures taken { IsTrue result
        → TakesValue field.now reader.old reader.new builder.old builder.new }
    ensures documents { gathered_documents builder.new ≡ gathered_documents builder.old }
{
    let Ok(number) = builder.field(field.name.as_str()) else {
        return false;
    };
    match reader.next() {
        Some(Token::BeginArray) => push_array(alloc, builder, number, field, reader),
        Some(token) => push_scalar(alloc, builder, number, field, token),
        None => false,
    }
}

// Appends the values of the items of an array, after its bracket.
fn push_array(
    alloc: Global,
    builder: &mut SegmentBuilder,
    number: u32,
    field: &AskedField,
    reader: &mut Reader<'_>,
) -> bool
    requires { IsNameOf builder.old number field.now.name }
    ensures taken { IsTrue result
        → TakesItems field.now reader.old reader.new builder.old builder.new }
    ensures documents { gathered_documents builder.new ≡ gathered_documents builder.old }
{
    'items: while !reader.take_end_array() {
        let Some(token) = reader.next() else {
            return false;
        };
        if !push_scalar(alloc, builder, number, field, token) {
            return false;
        }
    }
    true
}

// Appends the value that a token is.
fn push_scalar(
    alloc: Global,
    builder: &mut SegmentBuilder,
    number: u32,
    field: &AskedField,
    token: Token<'_>,
) -> bool
    requires { IsNameOf builder.old number field.now.name }
    ensures taken { IsTrue result
        → TakesScalar field.now (token_of token.entry) builder.old builder.new }
    ensures documents { gathered_documents builder.new ≡ gathered_documents builder.old }
    ensures names { builder.new.names ≡ builder.old.names }
{
    let Some(value) = scalar_of(token) else {
        return false;
    };
    push_item(alloc, builder, number, field, &value).is_ok()
}

// The value that a token is.
fn scalar_of<'a>(token: Token<'a>) -> Option<Value<'a>>
    ensures { IfSome result (λ seen. IsScalar (token_of token.entry) (value_view seen)) }
{
    match token {
        Token::String(text) => Some(Value::String(text)),
        Token::Number(text) => Some(Value::Number(text)),
        Token::Bool(b) => Some(Value::Bool(b)),
        Token::Null => Some(Value::Null),
        _ => None,
    }
}
