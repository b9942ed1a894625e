//! The tokens of a plain line.
ghost use Rattle.std.specs.Prelude.{◌≡◌, ◌∷◌, Some, IfSome, IsTrue};
ghost use Rattle.std.specs.Bool.{MatchBool};
ghost use Rattle.json.specs.Lex.{after_value, may_begin, may_close, tokens};
ghost use Rattle.json.specs.Token as spec;
ghost use Rattle.json.specs.Token.{Token as SpecToken};
ghost use Rattle.serde_json.specs.Read.{number_of};
ghost use Rattle.agg_pages.specs.document_json.Plain.{IsWord, place_of, text_of};
ghost use Rattle.agg_pages.specs.document_json.Tokens.{num_of};

use crate::document_json::plain::cursor::Cursor;
use crate::document_json::token_reader::{LineToken, TokenReader, Unread};
use crate::document_json::tokens::number::WholeNumber;
use std::marker::Model;

// What the grammar allows at a place of a line.
#[derive(Clone, Copy, Drop)]
enum Place {
    Begun,
    AfterValue,
    AfterComma,
}

impl Place {
    #[inline(always)]
    fn may_begin(self) -> bool
        ensures { result ≡ may_begin (place_of self) }
    {
        matches!(self, Place::Begun | Place::AfterComma)
    }

    #[inline(always)]
    fn may_close(self) -> bool
        ensures { result ≡ may_close (place_of self) }
    {
        matches!(self, Place::Begun | Place::AfterValue)
    }

    #[inline(always)]
    fn is_after_value(self) -> bool
        ensures { IsTrue result → place_of self ≡ after_value }
    {
        matches!(self, Place::AfterValue)
    }
}

/// A reader of a plain line. Contracts see the tokens that are still to come.
#[derive(Drop)]
pub struct PlainReader<'a> {
    cursor: Cursor<'a>,
    place: Place,
}

impl<'a> Model for PlainReader<'a> {
    ghost use Rattle.std.specs.Prelude.{List};
    ghost use Rattle.json.specs.Token.{Token as SpecToken, tokens_code};
    ghost use Rattle.agg_pages.specs.document_json.Plain.{tokens_from};

    ghost Value = { List SpecToken };

    ghost coded = { tokens_code };

    ghost view = { λ r. tokens_from r.place r.cursor };
}

impl<'a> PlainReader<'a> {
    /// A reader of a whole line.
    #[inline(always)]
    pub fn new(line: &'a str) -> PlainReader<'a>
        ensures { result ≡ tokens line.now }
    {
        PlainReader {
            cursor: Cursor::new(line),
            place: Place::Begun,
        }
    }

    // Passes the comma after a value, and the spaces after it.
    #[inline(always)]
    fn pass_comma(&mut self)
        ensures { self.new ≡ self.old }
    {
        if !self.place.is_after_value() {
            return;
        }
        if !self.cursor.take(b',') {
            return;
        }
        self.cursor.skip_spaces();
        self.place = Place::AfterComma;
    }

    // Takes the brace that begins an object.
    #[inline(always)]
    fn take_object(&mut self) -> bool
        ensures { IsTrue result → self.old ≡ spec.begin_object ∷ self.new }
    {
        if !self.place.may_begin() {
            return false;
        }
        if !self.cursor.take(b'{') {
            return false;
        }
        self.place = Place::Begun;
        true
    }

    // Takes the bracket that begins an array.
    #[inline(always)]
    fn take_array(&mut self) -> bool
        ensures { IsTrue result → self.old ≡ spec.begin_array ∷ self.new }
    {
        if !self.place.may_begin() {
            return false;
        }
        if !self.cursor.take(b'[') {
            return false;
        }
        self.place = Place::Begun;
        true
    }

    // Takes the brace that ends an object.
    #[inline(always)]
    fn take_object_end(&mut self) -> bool
        ensures { MatchBool result (self.old ≡ spec.end_object ∷ self.new) (self.new ≡ self.old) }
    {
        if !self.place.may_close() {
            return false;
        }
        if !self.cursor.take(b'}') {
            return false;
        }
        self.place = Place::AfterValue;
        true
    }

    // Takes a word that is a value.
    #[inline(always)]
    fn take_word(&mut self, word: &str) -> bool
        ensures { IsTrue result → (value : SpecToken) → IsWord value word.now
            → self.old ≡ value ∷ self.new }
    {
        if !self.place.may_begin() {
            return false;
        }
        if !self.cursor.take_word(word) {
            return false;
        }
        self.place = Place::AfterValue;
        true
    }

    #[inline(always)]
    fn name(&mut self) -> Option<&'a str>
        ensures { IfSome result (λ name. self.old ≡ spec.key name.now ∷ self.new) }
    {
        if !self.place.may_begin() {
            return None;
        }
        let name = self.cursor.name()?;
        self.place = Place::Begun;
        Some(name)
    }

    #[inline(always)]
    fn text(&mut self) -> Option<&'a str>
        ensures { IfSome result (λ text. self.old ≡ spec.string text.now ∷ self.new) }
    {
        if !self.place.may_begin() {
            return None;
        }
        let text = self.cursor.text()?;
        self.place = Place::AfterValue;
        Some(text)
    }

    #[inline(always)]
    fn number(&mut self) -> Option<WholeNumber>
        ensures value { IfSome result (λ n. self.old ≡ spec.number (text_of n) ∷ self.new) }
        ensures reads { IfSome result (λ n. number_of (text_of n) ≡ Some (num_of n)) }
    {
        if !self.place.may_begin() {
            return None;
        }
        let number = self.cursor.number()?;
        self.place = Place::AfterValue;
        Some(number)
    }
}

impl<'a> TokenReader<'a> for PlainReader<'a> {
    ghost tokens = { λ reader. reader };

    #[inline(always)]
    fn next_name(&mut self) -> Result<Option<&'a str>, Unread> {
        self.pass_comma();
        if self.take_object_end() {
            return Ok(None);
        }
        let Some(name) = self.name() else {
            return Err(Unread);
        };
        Ok(Some(name))
    }

    #[inline(always)]
    fn next_token(&mut self) -> Option<LineToken<'a>> {
        self.pass_comma();
        match self.cursor.next_byte() {
            b'"' => {
                let text = self.text()?;
                Some(LineToken::Text(text))
            }
            b'{' => self.take_object().then_some(LineToken::BeginObject),
            b'[' => self.take_array().then_some(LineToken::BeginArray),
            b't' => self.take_word("true").then_some(LineToken::Bool(true)),
            b'f' => self.take_word("false").then_some(LineToken::Bool(false)),
            b'n' => self.take_word("null").then_some(LineToken::Null),
            _ => {
                let number = self.number()?;
                Some(LineToken::Number(number))
            }
        }
    }

    #[inline(always)]
    fn take_array_end(&mut self) -> bool {
        if !self.place.may_close() {
            return false;
        }
        if !self.cursor.take(b']') {
            return false;
        }
        self.place = Place::AfterValue;
        true
    }

    #[inline(always)]
    fn has_ended(&mut self) -> bool {
        if !self.place.may_close() {
            return false;
        }
        self.cursor.is_at_end()
    }
}
