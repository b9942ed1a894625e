//! A value of a field, from its tokens.
ghost use Rattle.std.specs.Prelude.{◌∷◌, codes, IfOk, IfSome};
ghost use Rattle.json.specs.Token.{Token as SpecToken};
ghost use Rattle.agg_segment.specs.storage.Document.{key_of};
ghost use Rattle.agg_pages.specs.document_json.LineTokens.{StandsFor};
ghost use Rattle.agg_pages.specs.document_json.Tokens.{IsOnlyMember, TakesValue};

use crate::document_json::token_reader::{LineToken, TokenReader};
use agg_segment::FieldValue;
use agg_values::{Address, OutOfMemory, Text};
use std::alloc::Global;

/// The value that begins with a token, and is no text. None where there is none, or one of another
/// form.
#[inline(always)]
pub fn read_value<'a, R: TokenReader<'a>>(
    alloc: Global,
    token: LineToken<'a>,
    reader: &mut R,
) -> Result<Option<FieldValue>, OutOfMemory>
    ensures { IfOk result (λ found. IfSome found (λ value. (first : SpecToken)
        → StandsFor token.entry first
        → TakesValue (first ∷ R.tokens reader.old) (key_of value) (R.tokens reader.new))) }
{
    match token {
        LineToken::Bool(b) => Ok(Some(FieldValue::Bool(b))),
        LineToken::Number(n) => Ok(Some(n.value())),
        LineToken::BeginObject => read_object(alloc, reader),
        _ => Ok(None),
    }
}

// A date or an address, after the brace that begins it.
fn read_object<'a, R: TokenReader<'a>>(
    alloc: Global,
    reader: &mut R,
) -> Result<Option<FieldValue>, OutOfMemory>
    ensures { IfOk result (λ found. IfSome found (λ value. TakesValue
        (SpecToken.begin_object ∷ R.tokens reader.old) (key_of value) (R.tokens reader.new))) }
{
    let Ok(Some(name)) = reader.next_name() else {
        return Ok(None);
    };
    let Some(token) = reader.next_token() else {
        return Ok(None);
    };
    let Some(value) = read_member(alloc, name, token)? else {
        return Ok(None);
    };
    let Ok(None) = reader.next_name() else {
        return Ok(None);
    };
    Ok(Some(value))
}

// A date or an address, by its one member.
fn read_member(
    alloc: Global,
    name: &str,
    token: LineToken<'_>,
) -> Result<Option<FieldValue>, OutOfMemory>
    ensures { IfOk result (λ found. IfSome found (λ value. (first : SpecToken)
        → StandsFor token.entry first → IsOnlyMember name.now first (key_of value))) }
{
    if name == "dt" {
        return Ok(read_date(token));
    }
    if name == "ip" {
        return read_address(alloc, token);
    }
    Ok(None)
}

// A date, by its nanoseconds.
fn read_date(token: LineToken<'_>) -> Option<FieldValue>
    ensures { IfSome result (λ value. (first : SpecToken)
        → StandsFor token.entry first → IsOnlyMember (codes "dt") first (key_of value)) }
{
    let LineToken::Number(n) = token else {
        return None;
    };
    n.date()
}

// An address, by its text.
fn read_address(alloc: Global, token: LineToken<'_>) -> Result<Option<FieldValue>, OutOfMemory>
    ensures { IfOk result (λ found. IfSome found (λ value. (first : SpecToken)
        → StandsFor token.entry first → IsOnlyMember (codes "ip") first (key_of value))) }
{
    let LineToken::Text(text) = token else {
        return Ok(None);
    };
    let Some(address) = Address::read(&Text::copy_of(alloc, text)?) else {
        return Ok(None);
    };
    Ok(Some(FieldValue::Ip(address)))
}
