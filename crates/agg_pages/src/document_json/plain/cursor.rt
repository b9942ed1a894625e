//! A place in a line, and what is read from there.
ghost use Rattle.std.specs.Prelude.{◌≡◌, ◌∷◌, [], ◌++◌, ◌+◌, ◌≤◌, decimal, drop, length};
ghost use Rattle.std.specs.Prelude.{IfSome, IsTrue, Some};
ghost use Rattle.std.specs.Bool.{MatchBool};
ghost use Rattle.std.specs.List.{prefix_len};
ghost use Rattle.json.specs.Lex.{between, colon, lex, token};
ghost use Rattle.json.specs.Print.{IsNumber};
ghost use Rattle.json.specs.Run.{is_plain};
ghost use Rattle.json.specs.Token.{number, string};
ghost use Rattle.json.specs.Word.{head};
ghost use Rattle.serde_json.specs.Read.{number_of};
ghost use Rattle.agg_pages.specs.document_json.Plain.{EndsValue, IsPlain, text_of};
ghost use Rattle.agg_pages.specs.document_json.Tokens.{num_of};

use crate::document_json::plain::digits::{digits_from, negative, unsigned};
use crate::document_json::tokens::number::WholeNumber;
use std::marker::Model;

/// A place in a line. Contracts see the bytes that follow.
#[derive(Drop)]
pub struct Cursor<'a> {
    line: &'a str,
    at: usize,
}

impl<'a> Model for Cursor<'a> {
    ghost use Rattle.std.specs.Prelude.{List, ℕ, drop, length, ◌≤◌};

    ghost Value = { List ℕ };

    ghost view = { λ c. drop c.at c.line.now };

    ghost invariant = { λ c. c.at ≤ length c.line.now };
}

impl<'a> Cursor<'a> {
    /// The start of a line.
    #[inline(always)]
    pub fn new(line: &'a str) -> Cursor<'a>
        ensures { result ≡ line.now }
    {
        Cursor { line, at: 0 }
    }

    /// The byte that follows. At the end it is a space.
    #[inline(always)]
    pub fn next_byte(&self) -> u8
        ensures { result ≡ head self.now }
    {
        let bytes = self.line.as_bytes();
        if self.at < bytes.len() {
            bytes[self.at]
        } else {
            b' '
        }
    }

    /// Whether this byte follows, which is passed then.
    #[inline(always)]
    pub fn take(&mut self, byte: u8) -> bool
        ensures { MatchBool result (self.old ≡ byte ∷ self.new) (self.new ≡ self.old) }
    {
        let bytes = self.line.as_bytes();
        if self.at < bytes.len() && bytes[self.at] == byte {
            self.at += 1;
            true
        } else {
            false
        }
    }

    /// Whether the line is over.
    #[inline(always)]
    pub fn is_at_end(&self) -> bool
        ensures { IsTrue result → self.now ≡ [] }
    {
        self.at >= self.line.len()
    }

    /// Passes the spaces that follow.
    #[inline(always)]
    #[tactic(auto, using(crate::proofs::lemmas::document_json::PlainLexemes::lex_space))]
    pub fn skip_spaces(&mut self)
        ensures { lex between self.new ≡ lex between self.old }
    {
        'spaces: while self.take(b' ') {}
    }

    /// The name of a member, with the colon and the spaces after it.
    #[inline(always)]
    pub fn name(&mut self) -> Option<&'a str>
        ensures { IfSome result (λ name. lex between self.old
            ≡ token (string name.now) ∷ colon ∷ lex between self.new) }
    {
        let name = self.quoted()?;
        if !self.take(b':') {
            return None;
        }
        self.skip_spaces();
        Some(name)
    }

    /// A text that ends a value.
    #[inline(always)]
    pub fn text(&mut self) -> Option<&'a str>
        ensures value { IfSome result
            (λ text. lex between self.old ≡ token (string text.now) ∷ lex between self.new) }
        ensures ended { IfSome result (λ _. EndsValue self.new) }
    {
        let text = self.quoted()?;
        if !self.ends_value() {
            return None;
        }
        Some(text)
    }

    // What stands between quotes, if it has no escapes.
    #[inline(always)]
    fn quoted(&mut self) -> Option<&'a str>
        ensures { IfSome result
            (λ text. lex between self.old ≡ token (string text.now) ∷ lex between self.new) }
    {
        if !self.take(b'"') {
            return None;
        }
        let text = self.before_quote()?;
        Some(text)
    }

    // The plain bytes before a quote, which is passed with them.
    #[inline(always)]
    fn before_quote(&mut self) -> Option<&'a str>
        ensures { IfSome result
            (λ text. IsPlain text.now × (self.old ≡ text.now ++ 34 ∷ self.new)) }
    {
        let (text, after) = text_from(self.line, self.at)?;
        self.at = after;
        Some(text)
    }

    /// Takes a word that ends a value, if it follows.
    #[inline(always)]
    pub fn take_word(&mut self, word: &str) -> bool
        ensures word { IsTrue result → self.old ≡ word.now ++ self.new }
        ensures ended { IsTrue result → EndsValue self.new }
    {
        if !self.take_all(word.as_bytes()) {
            return false;
        }
        self.ends_value()
    }

    // Takes these bytes, if they follow.
    #[inline(always)]
    fn take_all(&mut self, bytes: &[u8]) -> bool
        ensures { IsTrue result → self.old ≡ bytes.now ++ self.new }
    {
        for byte in bytes {
            if !self.take(*byte) {
                return false;
            }
        }
        true
    }

    /// A whole number that ends a value.
    #[inline(always)]
    pub fn number(&mut self) -> Option<WholeNumber>
        ensures value { IfSome result
            (λ n. lex between self.old ≡ token (number (text_of n)) ∷ lex between self.new) }
        ensures reads { IfSome result (λ n. number_of (text_of n) ≡ Some (num_of n)) }
    {
        let whole = self.whole_number()?;
        if !self.ends_value() {
            return None;
        }
        Some(whole)
    }

    // Whether the bytes here may follow a value.
    #[inline(always)]
    fn ends_value(&self) -> bool
        ensures { IsTrue result → EndsValue self.now }
    {
        let next = self.next_byte();
        next == b',' || next == b'}' || next == b']'
    }

    #[inline(always)]
    fn whole_number(&mut self) -> Option<WholeNumber>
        ensures value { IfSome result (λ n. self.old ≡ text_of n ++ self.new) }
        ensures number { IfSome result (λ n. IsNumber (text_of n)) }
        ensures reads { IfSome result (λ n. number_of (text_of n) ≡ Some (num_of n)) }
    {
        if self.take(b'-') {
            let n = self.digits()?;
            negative(n)
        } else {
            let n = self.digits()?;
            Some(unsigned(n))
        }
    }

    // The number that the next digits write.
    #[inline(always)]
    fn digits(&mut self) -> Option<u64>
        ensures { IfSome result (λ n. self.old ≡ decimal n ++ self.new) }
    {
        let (n, after) = digits_from(self.line.as_bytes(), self.at)?;
        self.at = after;
        Some(n)
    }
}

// The plain bytes of a line from a place up to a quote, and the place after the quote.
#[inline(always)]
fn text_from(line: &str, from: usize) -> Option<(&str, usize)>
    requires { from ≤ length line.now }
    ensures value { IfSome result
        (λ r. IsPlain r.0.now × (drop from line.now ≡ r.0.now ++ 34 ∷ drop r.1 line.now)) }
    ensures bound { IfSome result (λ r. r.1 ≤ length line.now) }
{
    let bytes = line.as_bytes();
    let quote = plain_end(bytes, from);
    if quote >= bytes.len() {
        return None;
    }
    if bytes[quote] != b'"' {
        return None;
    }
    let plain = line.get(from..quote)?;
    Some((plain, quote + 1))
}

// The place of the first byte from here on that isn't plain: a quote, a backslash or a control
// byte. Out of line, so that its loop stays in registers.
#[inline(never)]
fn plain_end(bytes: &[u8], from: usize) -> usize
    requires { from ≤ length bytes.now }
    ensures value { result ≡ from + prefix_len is_plain (drop from bytes.now) }
    ensures bound { result ≤ length bytes.now }
{
    let mut i = from;
    while i < bytes.len() && bytes[i] != b'"' && bytes[i] != b'\\' && bytes[i] >= 0x20 {
        i += 1;
    }
    i
}
