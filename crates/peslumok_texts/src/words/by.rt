ghost use Rattle.std.specs.Prelude.{◌≡◌, Some, None, IfErr, MatchResult, option_map};
ghost use Rattle.std.specs.List.{position};
ghost use Rattle.peslumok_texts.specs.words.By as spec;
ghost use Rattle.peslumok_texts.specs.words.By.{AreUnknownWords, Parts};
ghost use Rattle.peslumok_texts.specs.words.Cut.{cut as cut_of, cut_at as cut_at_of};

use crate::words::cut::{cut, cut_at};
use thiserror::Error;

/// Whether records without a value have a group, and where it stands.
#[derive(Clone, Copy, Debug, PartialEq, Eq)]
pub enum Missing {
    /// They have none.
    NoGroup,
    /// Where the order puts it.
    ByOrder,
    /// Before all others.
    First,
    /// After all others.
    Last,
}

/// What groups are made by.
#[derive(Clone, Copy, Debug, PartialEq, Eq)]
pub struct BySpec<'a> {
    /// What its column is called, where it isn't called as the field.
    pub name: Option<&'a str>,
    pub field: &'a str,
    /// How wide a group is, as it was written.
    pub interval: Option<&'a str>,
    /// By how much each group begins later, as it was written, with its sign.
    pub offset: Option<&'a str>,
    pub is_descending: bool,
    pub missing: Missing,
    /// The least value that has a group, as it was written.
    pub min: Option<&'a str>,
}

/// What is wrong with a text of `--by`.
#[derive(Clone, Copy, Debug, PartialEq, Eq, Error)]
pub enum BySpecError<'a> {
    #[error("no field is named")]
    NoField,
    #[error("no name before `=`")]
    NoName,
    #[error("no interval after `:`")]
    NoInterval,
    #[error("no offset after its sign")]
    NoOffset,
    #[error("the words after the first comma are `desc`, then `missing`, `missing=first` or \
        `missing=last`, then `min=VALUE`")]
    UnknownWords(&'a str),
}

/// What a text of `--by` stands for:
/// `[NAME=]FIELD[:INTERVAL[OFFSET]][,desc][,missing][,min=VALUE]`, where `missing` may be
/// `missing=first` or `missing=last`. The first `+` or `-` of an interval begins its offset, and
/// what stands after the first `,min=` is a value.
pub fn read_by(text: &str) -> Result<BySpec<'_>, BySpecError<'_>>
    ensures stands { MatchResult
        result
        (λ by. spec.by_of text.now ≡ Some (spec.parts by))
        (λ error. spec.by_of text.now ≡ None) }
    ensures cause { IfErr result (spec.IsByFault text.now) }
{
    let by = match split_parts(text) {
        Ok(by) => by,
        Err(words) => return Err(BySpecError::UnknownWords(words)),
    };
    if by.field.is_empty() {
        return Err(BySpecError::NoField);
    }
    if is_blank(by.name) {
        return Err(BySpecError::NoName);
    }
    if is_blank(by.interval) {
        return Err(BySpecError::NoInterval);
    }
    if is_lone_sign(by.offset) {
        return Err(BySpecError::NoOffset);
    }
    Ok(by)
}

// The parts of a text, which may be empty, or its unknown words.
fn split_parts(text: &str) -> Result<BySpec<'_>, &str>
    ensures { MatchResult
        result
        (λ by. spec.written text.now ≡ Some (spec.parts by))
        (λ words. AreUnknownWords (cut_of 44 (cut_at_of spec.min_word text.now).0).1 words.now) }
{
    let (front, min) = cut_at(text, ",min=");
    let (head, words) = cut(front, ',');
    let (is_descending, missing) = read_optional_words(words)?;
    let (name, rest) = split_name(head);
    let (field, division) = cut(rest, ':');
    let (interval, offset) = split_division(division);
    Ok(BySpec {
        name,
        field,
        interval,
        offset,
        is_descending,
        missing,
        min,
    })
}

// What the words after the first comma say, if any stand there, or else the unknown words.
fn read_optional_words(words: Option<&str>) -> Result<(bool, Missing), &str>
    ensures { MatchResult
        result
        (λ said. spec.words_after (option_map (λ words. words.now) words.entry) ≡ Some said)
        (λ unknown. AreUnknownWords (option_map (λ words. words.now) words.entry) unknown.now) }
{
    match words {
        None => Ok((false, Missing::NoGroup)),
        Some(words) => read_words(words).ok_or(words),
    }
}

// The name before an equals sign, and what stands after it.
fn split_name(head: &str) -> (Option<&str>, &str)
    ensures { (option_map (λ name. name.now) result.0, result.1.now)
        ≡ spec.name_and_rest (cut_of 61 head.now) }
{
    match cut(head, '=') {
        (name, Some(rest)) => (Some(name), rest),
        (_, None) => (None, head),
    }
}

// An interval, and the offset that begins at its first sign.
fn split_division(division: Option<&str>) -> (Option<&str>, Option<&str>)
    ensures { (
      option_map (λ interval. interval.now) result.0,
      option_map (λ offset. offset.now) result.1,
    )
        ≡ spec.interval_and_offset (option_map (λ text. text.now) division.entry) }
{
    let Some(text) = division else {
        return (None, None);
    };
    match sign_place(text) {
        Some(at) => {
            let (interval, offset) = text.split_at(at);
            (Some(interval), Some(offset))
        }
        None => (Some(text), None),
    }
}

// Where the first sign stands.
fn sign_place(text: &str) -> Option<usize>
    ensures { result ≡ position spec.is_sign text.now }
{
    text.as_bytes()
        .iter()
        .position(|byte| matches!(byte, b'+' | b'-'))
}

// Whether a part is written, and empty.
fn is_blank(part: Option<&str>) -> bool
    ensures { result ≡ spec.is_blank (option_map (λ text. text.now) part.entry) }
{
    match part {
        Some(text) => text.is_empty(),
        None => false,
    }
}

// Whether an offset is a sign alone.
fn is_lone_sign(offset: Option<&str>) -> bool
    ensures { result ≡ spec.is_lone_sign (option_map (λ text. text.now) offset.entry) }
{
    match offset {
        Some(text) => text.len() == 1,
        None => false,
    }
}

// What the words after the first comma say.
#[tactic(auto, using(crate::proofs::lemmas::words::Words::other), unfolding(crate::specs::words::By::words_of))]
fn read_words(words: &str) -> Option<(bool, Missing)>
    ensures { result ≡ spec.words_of words.now }
{
    match words {
        "desc" => Some((true, Missing::NoGroup)),
        "missing" => Some((false, Missing::ByOrder)),
        "missing=first" => Some((false, Missing::First)),
        "missing=last" => Some((false, Missing::Last)),
        "desc,missing" => Some((true, Missing::ByOrder)),
        "desc,missing=first" => Some((true, Missing::First)),
        "desc,missing=last" => Some((true, Missing::Last)),
        _ => None,
    }
}

/// What a spec is written as stands for it.
pub fn by_texts_read_back()
    ensures { (p : Parts) → spec.IsPlain p → spec.by_of (spec.by_text p) ≡ Some p }
{}
