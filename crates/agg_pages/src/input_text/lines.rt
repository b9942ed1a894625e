//! The lines of an input.
ghost use Rattle.std.specs.Prelude.{◌≡◌, ◌∷◌, []};
ghost use Rattle.std.specs.Option.{option_map_or};
ghost use Rattle.std.specs.Iterator.{YieldsFirstRef, item_count};
ghost use Rattle.std.specs.Str.Lines.{strip_carriage_return};
ghost use Rattle.agg_pages.specs.input_text.Lines.{all_lines_of, is_blank, lines_of};

use memchr::memchr;
use std::marker::Model;

/// The lines of a text that say something, seen by contracts as the list of those that are left.
#[derive(Drop)]
pub struct Lines<'a> {
    // What stands after the last line feed, None at the end.
    left: Option<&'a str>,
}

impl<'a> Model for Lines<'a> {
    ghost use Rattle.std.specs.Prelude.{List, ℕ, []};
    ghost use Rattle.std.specs.Option.{option_map_or};
    ghost use Rattle.agg_pages.specs.input_text.Lines.{lines_of};

    ghost Value = { List (List ℕ) };

    ghost view = { λ lines. option_map_or (λ text. lines_of text.now) lines.left [] };
}

impl<'a> Lines<'a> {
    /// The lines of a text.
    pub fn new(text: &'a str) -> Lines<'a>
        ensures { result ≡ lines_of text.now }
    {
        Lines { left: Some(text) }
    }
}

impl<'a> Iterator for Lines<'a> {
    type Item = &'a str;

    ghost next_gives = { YieldsFirstRef (λ lines. lines) };

    ghost remaining = { item_count (λ lines. lines) };

    fn next(&mut self) -> Option<&'a str> {
        while let Some(text) = self.left {
            let (line, left) = cut_line(text);
            self.left = left;
            if !is_blank(line) {
                return Some(line);
            }
        }
        None
    }
}

// The first line, and what stands after its line feed, if it has one.
fn cut_line(text: &str) -> (&str, Option<&str>)
    ensures { all_lines_of text.now
        ≡ result.0.now ∷ option_map_or (λ left. all_lines_of left.now) result.1 [] }
{
    match memchr(b'\n', text.as_bytes()) {
        Some(feed) => (without_return(&text[..feed]), Some(&text[feed + 1..])),
        None => (without_return(text), None),
    }
}

// The line without the one carriage return at its end, if it has one.
fn without_return(line: &str) -> &str
    ensures { result.now ≡ strip_carriage_return line.now }
{
    line.strip_suffix('\r').unwrap_or(line)
}

// Whether a line has nothing but spaces and tabs.
fn is_blank(line: &str) -> bool
    ensures { result ≡ is_blank line.now }
{
    line.as_bytes().iter().all(|b| *b == b' ' || *b == b'\t')
}
