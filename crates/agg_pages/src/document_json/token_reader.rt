//! Readers of the tokens of a line, so that a document is read by one code from each of them.
ghost use Rattle.std.specs.Prelude.{◌≡◌, ◌∷◌, [], List, Some, IfOk, IfSome, IsTrue, option_map};
ghost use Rattle.std.specs.Bool.{MatchBool};
ghost use Rattle.json.specs.Json.{after_end_array, read_key};
ghost use Rattle.json.specs.Token.{Token as SpecToken};
ghost use Rattle.agg_pages.specs.document_json.LineTokens.{StandsFor};

use crate::document_json::tokens::number::{WholeNumber, whole_number};
use json::{Reader, Token};

/// The line is not to be read this way.
#[derive(Clone, Copy, Drop)]
pub struct Unread;

/// A token that begins a value of a line.
#[derive(Clone, Copy, Drop)]
pub enum LineToken<'a> {
    BeginObject,
    BeginArray,
    Null,
    Bool(bool),
    Text(&'a str),
    Number(WholeNumber),
}

/// What reads the tokens of a line one by one. Where it answers nothing, no clause says what stands
/// there, and the line is read in another way.
pub trait TokenReader<'a> {
    /// The tokens that are still to come.
    ghost tokens: { Self → List SpecToken };

    /// The name of the next member, after its colon. None after the brace that ends the object.
    fn next_name(&mut self) -> Result<Option<&'a str>, Unread>
        ensures { IfOk result (λ name. read_key (tokens self.old)
            ≡ Some (option_map (λ s. s.now) name, tokens self.new)) };

    /// The token that begins the next value.
    fn next_token(&mut self) -> Option<LineToken<'a>>
        ensures { IfSome result (λ token. (first : SpecToken)
            × StandsFor token first × (tokens self.old ≡ first ∷ tokens self.new)) };

    /// Takes the bracket that ends an array, if it comes next.
    fn take_array_end(&mut self) -> bool
        ensures { MatchBool result (after_end_array (tokens self.old) ≡ Some (tokens self.new))
            (tokens self.new ≡ tokens self.old) };

    /// Whether no token is left.
    fn has_ended(&mut self) -> bool
        ensures { IsTrue result → tokens self.old ≡ [] };
}

impl<'a> TokenReader<'a> for Reader<'a> {
    ghost tokens = { λ reader. reader };

    #[inline(always)]
    fn next_name(&mut self) -> Result<Option<&'a str>, Unread> {
        self.next_key().map_err(|_| Unread)
    }

    #[inline(always)]
    fn next_token(&mut self) -> Option<LineToken<'a>> {
        match self.next()? {
            Token::BeginObject => Some(LineToken::BeginObject),
            Token::BeginArray => Some(LineToken::BeginArray),
            Token::Null => Some(LineToken::Null),
            Token::Bool(b) => Some(LineToken::Bool(b)),
            Token::String(text) => Some(LineToken::Text(text)),
            Token::Number(text) => Some(LineToken::Number(whole_number(text)?)),
            _ => None,
        }
    }

    #[inline(always)]
    fn take_array_end(&mut self) -> bool {
        self.take_end_array()
    }

    #[inline(always)]
    fn has_ended(&mut self) -> bool {
        self.next().is_none()
    }
}
