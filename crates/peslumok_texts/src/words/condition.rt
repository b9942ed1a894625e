ghost use Rattle.std.specs.Prelude.{◌≡◌, Some, None, IfErr, MatchResult, option_map};
ghost use Rattle.std.specs.List.{position};
ghost use Rattle.peslumok_texts.specs.words.Condition as spec;

use thiserror::Error;

/// What a value has to be.
#[derive(Clone, Copy, Debug, PartialEq, Eq)]
pub enum Test<'a> {
    /// `FIELD=VALUE`
    Is(&'a str),
    /// `FIELD!=VALUE`
    IsNot(&'a str),
    /// `FIELD<VALUE`
    Below(&'a str),
    /// `FIELD<=VALUE`
    AtMost(&'a str),
    /// `FIELD>VALUE`
    Above(&'a str),
    /// `FIELD>=VALUE`
    AtLeast(&'a str),
    /// `FIELD?`: there is a value.
    Exists,
}

/// A test of a field's value.
#[derive(Clone, Copy, Debug, PartialEq, Eq)]
pub struct Condition<'a> {
    pub field: &'a str,
    pub test: Test<'a>,
}

/// What is wrong with a text of `--where`.
#[derive(Clone, Copy, Debug, PartialEq, Eq, Error)]
pub enum ConditionError {
    #[error("no field is named")]
    NoField,
    #[error("expected FIELD=VALUE, FIELD!=VALUE, `<`, `<=`, `>`, `>=` or FIELD?")]
    NoTest,
    #[error("`!` may stand after a field only in `!=`")]
    LoneExclamation,
    #[error("nothing may stand after FIELD?")]
    AfterQuestion,
}

/// What a text of `--where` stands for. The first of `=`, `!`, `<`, `>` and `?` ends the field.
pub fn read_condition(text: &str) -> Result<Condition<'_>, ConditionError>
    ensures stands { MatchResult
        result
        (λ condition. spec.condition_of text.now ≡ Some (spec.parts condition))
        (λ error. spec.condition_of text.now ≡ None) }
    ensures cause { IfErr result (spec.IsConditionFault text.now) }
{
    let Some((field, rest)) = split_at_sign(text) else {
        return Err(ConditionError::NoTest);
    };
    if field.is_empty() {
        return Err(ConditionError::NoField);
    }
    match read_test(rest) {
        Some(test) => Ok(Condition { field, test }),
        None if rest.starts_with('!') => Err(ConditionError::LoneExclamation),
        None => Err(ConditionError::AfterQuestion),
    }
}

// A text up to its first sign, and from there on.
fn split_at_sign(text: &str) -> Option<(&str, &str)>
    ensures { option_map (λ parts. (parts.0.now, parts.1.now)) result ≡ spec.at_sign text.now }
{
    match sign_place(text) {
        Some(at) => Some(text.split_at(at)),
        None => None,
    }
}

// Where the first sign stands.
fn sign_place(text: &str) -> Option<usize>
    ensures { result ≡ position spec.is_sign text.now }
{
    text.as_bytes().iter().position(|byte| is_sign(*byte))
}

// Whether a byte ends a field.
fn is_sign(byte: u8) -> bool
    ensures { result ≡ spec.is_sign byte }
{
    matches!(byte, b'=' | b'!' | b'<' | b'>' | b'?')
}

// What a text says from its sign on.
#[tactic(auto, using(crate::proofs::lemmas::words::Words::other))]
fn read_test(text: &str) -> Option<Test<'_>>
    ensures { option_map spec.demand result ≡ spec.test_of text.now }
{
    if let Some(value) = after_prefix(text, "!=") {
        Some(Test::IsNot(value))
    } else if let Some(value) = after_prefix(text, "<=") {
        Some(Test::AtMost(value))
    } else if let Some(value) = after_prefix(text, ">=") {
        Some(Test::AtLeast(value))
    } else if let Some(value) = after_prefix(text, "=") {
        Some(Test::Is(value))
    } else if let Some(value) = after_prefix(text, "<") {
        Some(Test::Below(value))
    } else if let Some(value) = after_prefix(text, ">") {
        Some(Test::Above(value))
    } else if text == "?" {
        Some(Test::Exists)
    } else {
        None
    }
}

// What stands after a prefix.
fn after_prefix<'a>(text: &'a str, prefix: &str) -> Option<&'a str>
    ensures { option_map (λ rest. rest.now) result ≡ spec.after_prefix prefix.now text.now }
{
    text.strip_prefix(prefix)
}
