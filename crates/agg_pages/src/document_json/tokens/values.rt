//! The values of a field, from their tokens.
ghost use Rattle.std.specs.Prelude.{◌≡◌, ◌∷◌, ℕ, List, IfOk, IsTrue};
ghost use Rattle.json.specs.Token.{Token as SpecToken};
ghost use Rattle.agg_segment.specs.Segment.{IsNameOf, gathered_documents};
ghost use Rattle.agg_pages.specs.document_json.LineTokens.{StandsFor};
ghost use Rattle.agg_pages.specs.document_json.Tokens.{TakesItem, TakesItems, TakesValues};

use super::value::read_value;
use crate::document_json::token_reader::{LineToken, TokenReader};
use agg_segment::SegmentBuilder;
use agg_values::OutOfMemory;
use std::alloc::Global;

/// Appends the values of a field to the open document: one, those of an array, or none for `null`.
/// False where they are of another form.
#[inline(always)]
pub fn read_values<'a, R: TokenReader<'a>>(
    alloc: Global,
    builder: &mut SegmentBuilder,
    field: u32,
    reader: &mut R,
) -> Result<bool, OutOfMemory>
    requires { (name : List ℕ) × IsNameOf builder.old field name }
    ensures taken { IfOk result (λ taken. IsTrue taken
        → TakesValues field (R.tokens reader.old) (R.tokens reader.new)
        builder.old builder.new) }
    ensures documents { gathered_documents builder.new ≡ gathered_documents builder.old }
{
    match reader.next_token() {
        Some(LineToken::BeginArray) => read_items(alloc, builder, field, reader),
        Some(token) => read_item(alloc, builder, field, token, reader),
        None => Ok(false),
    }
}

// The items of an array, after its bracket.
fn read_items<'a, R: TokenReader<'a>>(
    alloc: Global,
    builder: &mut SegmentBuilder,
    field: u32,
    reader: &mut R,
) -> Result<bool, OutOfMemory>
    requires { (name : List ℕ) × IsNameOf builder.old field name }
    ensures taken { IfOk result (λ taken. IsTrue taken
        → TakesItems field (R.tokens reader.old) (R.tokens reader.new)
        builder.old builder.new) }
    ensures documents { gathered_documents builder.new ≡ gathered_documents builder.old }
{
    'items: while !reader.take_array_end() {
        let Some(token) = reader.next_token() else {
            return Ok(false);
        };
        if !read_item(alloc, builder, field, token, reader)? {
            return Ok(false);
        }
    }
    Ok(true)
}

// The item that begins with a token: a value, or `null`, which is none.
#[inline(always)]
fn read_item<'a, R: TokenReader<'a>>(
    alloc: Global,
    builder: &mut SegmentBuilder,
    field: u32,
    token: LineToken<'a>,
    reader: &mut R,
) -> Result<bool, OutOfMemory>
    requires { (name : List ℕ) × IsNameOf builder.old field name }
    ensures taken { IfOk result (λ taken. IsTrue taken → (first : SpecToken)
        → StandsFor token.entry first → TakesItem field (first ∷ R.tokens reader.old)
        (R.tokens reader.new) builder.old builder.new) }
    ensures documents { gathered_documents builder.new ≡ gathered_documents builder.old }
{
    if let LineToken::Null = token {
        return Ok(true);
    }
    if let LineToken::Text(text) = token {
        builder.push_text(field, text)?;
        return Ok(true);
    }
    let Some(value) = read_value(alloc, token, reader)? else {
        return Ok(false);
    };
    builder.push(field, value)?;
    Ok(true)
}
