//! Words about names: which may stand in a place, and which is meant by a misspelt one.

use crate::findings::Severity;
use crate::findings::grammar::{Form, Need, Shape};
use agg_values::OutOfMemory;
use std::alloc::Global;
use strsim::levenshtein;

// A name within so many edits is meant.
const MANY_EDITS: usize = 2;

// A longer name is no misspelt one.
const LONGEST_NAME: usize = 40;

/// The words about a member without a meaning: the name that is meant, or, where none is and it is
/// a mistake, all names.
pub fn other_words(
    alloc: Global,
    name: &str,
    severity: Severity,
    shape: Shape,
) -> Result<String, OutOfMemory> {
    let mut out = String::from_str(alloc, "it is passed over")?;
    if let Severity::Mistake = severity {
        out = String::from_str(alloc, "no such member is known")?;
    }
    let mut nearest = Nearest::new();
    for (known, form, _) in shape.members() {
        if is_offered(*form) {
            nearest.look_at(alloc, name, known)?;
        }
    }
    match (nearest.word, severity) {
        (Some(word), _) => write!(out, "; did you mean '{word}'?")?,
        (None, Severity::Mistake) => {
            let names = names_of(alloc, shape)?;
            write!(out, "; expected {names}")?;
        }
        (None, Severity::Warning) => {}
    }
    Ok(out)
}

/// The words about a word that is none of these, None where it is one of them.
pub fn word_fault(
    alloc: Global,
    word: &str,
    words: &[&'static str],
) -> Result<Option<String>, OutOfMemory> {
    let mut out = String::from_str(alloc, "expected one of ")?;
    let mut nearest = Nearest::new();
    let mut before = "";
    for known in words {
        if *known == word {
            return Ok(None);
        }
        nearest.look_at(alloc, word, known)?;
        write!(out, "{before}{known}")?;
        before = ", ";
    }
    write!(out, "; found '{word}'")?;
    if let Some(word) = nearest.word {
        write!(out, "; did you mean '{word}'?")?;
    }
    Ok(Some(out))
}

/// The names that tell a kind, or, where none does, that have a meaning.
pub fn names_of(alloc: Global, shape: Shape) -> Result<String, OutOfMemory> {
    let mut out = String::new(alloc);
    let mut before = "";
    for (name, form, need) in shape.members() {
        let tells = matches!(need, Need::Kind | Need::Leaf) || !shape.has_kinds();
        if tells && is_offered(*form) {
            write!(out, "{before}{name}")?;
            before = ", ";
        }
    }
    if before.is_empty() {
        out.push_str("no member")?;
    }
    Ok(out)
}

// Whether a name of this form is one to write.
fn is_offered(form: Form) -> bool {
    !matches!(form, Form::LeftOut | Form::Taken | Form::Null)
}

/// The nearest word so far.
#[derive(Drop)]
pub struct Nearest {
    pub word: Option<&'static str>,
    edits: usize,
}

impl Nearest {
    /// No word so far.
    pub fn new() -> Nearest {
        Nearest {
            word: None,
            edits: MANY_EDITS.saturating_add(1),
        }
    }

    /// Takes a known word, if it is nearer to what was written than those before, or as near and
    /// begins alike.
    pub fn look_at(
        &mut self,
        alloc: Global,
        written: &str,
        known: &'static str,
    ) -> Result<(), OutOfMemory> {
        if written.len() > LONGEST_NAME {
            return Ok(());
        }
        let edits = levenshtein(alloc, written, known)?;
        let is_nearer = edits < self.edits || edits == self.edits && begins_alike(written, known);
        if is_nearer && edits < known.len() {
            self.edits = edits;
            self.word = Some(known);
        }
        Ok(())
    }
}

// Whether two words have the same first byte.
fn begins_alike(one: &str, other: &str) -> bool {
    one.as_bytes().first() == other.as_bytes().first()
}
