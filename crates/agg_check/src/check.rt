//! The findings of an input.
ghost use Rattle.std.specs.Prelude.{◌≡◌, IfOk, IfSome, MatchOption, false, true};
ghost use Rattle.agg_pages.specs.input_text.Input.{AreNoInput, IsInput};
ghost use Rattle.agg_pages.specs.input_text.StoredInput.{input_of};
ghost use Rattle.agg_check.specs.Check.{known_builders as known};
ghost use Rattle.agg_check.specs.Check.{GoesOn, MayBeWalked};
ghost use Rattle.agg_check.specs.findings.Findings.{has_mistake, is_mistake};

use crate::findings::{check_lines, header_line};
use crate::refused::refusal_finding;
use crate::verdict::{BuilderName, known_builders, refusal_of};
use crate::{Finding, Severity};
use agg_pages::input_text::{Input, InputError, MAX_INPUT_BYTES, read_input};
use agg_values::{OutOfMemory, Text};
use memchr::{memchr_iter, memrchr};
use std::alloc::Global;
use std::str::from_utf8;

// Where no line by itself shows it.
const NO_INPUT: &str = "this is not an input of walk; see that no field of a segment has both a \
    negative number and one above 9223372036854775807";

/// What is wrong with an input of `walk`. There is a mistake exactly where `walk` doesn't go on to
/// its pages, whose limits and ranges aren't looked at.
pub fn check_input(alloc: Global, bytes: &[u8]) -> Result<Vec<Finding>, OutOfMemory>
    ensures silent { IfOk result
        (λ found. has_mistake found.items ≡ false → GoesOn bytes.now) }
    ensures mistaken { IfOk result
        (λ found. has_mistake found.items ≡ true → ¬ (GoesOn bytes.now)) }
{
    let found = findings_of(alloc, bytes)?;
    match mistake_of(alloc, bytes)? {
        Some(mistake) => with_mistake(found, mistake),
        None => warnings_of(alloc, found),
    }
}

// A mistake, where the walk doesn't go on.
fn mistake_of(alloc: Global, bytes: &[u8]) -> Result<Option<Finding>, OutOfMemory>
    ensures some { IfOk result (λ found. IfSome found (λ finding. is_mistake finding ≡ true)) }
    ensures goes_on { IfOk result
        (λ found. MatchOption found (GoesOn bytes.now) (λ finding. ¬ (GoesOn bytes.now))) }
{
    match read_known(alloc, bytes)? {
        Some(input) => mistake_in(alloc, bytes, &input),
        None => Ok(Some(mistake(alloc, 1, 1, NO_INPUT)?)),
    }
}

// The input that bytes are, if they are one.
fn read_known(alloc: Global, bytes: &[u8]) -> Result<Option<Input<BuilderName>>, OutOfMemory>
    ensures { IfOk result (λ found. MatchOption found
        (AreNoInput known (λ b. b.name) bytes.now)
        (λ i. IsInput known (λ b. b.name) bytes.now (input_of i))) }
{
    let builders = known_builders(alloc)?;
    match read_input(alloc, builders, bytes) {
        Ok(input) => Ok(Some(input)),
        Err(InputError::NotInput) => Ok(None),
        Err(InputError::OutOfMemory) => Err(OutOfMemory),
    }
}

// A mistake, where the request of an input is refused.
fn mistake_in(
    alloc: Global,
    bytes: &[u8],
    input: &Input<BuilderName>,
) -> Result<Option<Finding>, OutOfMemory>
    ensures some { IfOk result (λ found. IfSome found (λ finding. is_mistake finding ≡ true)) }
    ensures walked { IfOk result (λ found. MatchOption found (MayBeWalked (input_of input.now))
        (λ finding. ¬ (MayBeWalked (input_of input.now)))) }
{
    match refusal_of(alloc, input)? {
        Some(error) => {
            let finding = refusal_finding(alloc, header_of(bytes), &input.header, &error)?;
            Ok(Some(finding))
        }
        None => Ok(None),
    }
}

// The number and the text of the header's line.
fn header_of(bytes: &[u8]) -> (u64, &str) {
    header_line(from_utf8(bytes).unwrap_or(""))
}

// What is found in bytes.
fn findings_of(alloc: Global, bytes: &[u8]) -> Result<Vec<Finding>, OutOfMemory> {
    if bytes.len() > MAX_INPUT_BYTES {
        let what = "an input has at most 67108864 bytes";
        return only(alloc, mistake(alloc, 1, 1, what)?);
    }
    match from_utf8(bytes) {
        Ok(text) => check_lines(alloc, text),
        Err(error) => {
            let (line, column) = place_of(bytes, error.valid_up_to());
            only(
                alloc,
                mistake(alloc, line, column, "the text is not UTF-8")?,
            )
        }
    }
}

// The line and the column of a byte, both from 1.
fn place_of(bytes: &[u8], offset: usize) -> (u64, usize) {
    let before = bytes.get(..offset).unwrap_or(bytes);
    let feeds = memchr_iter(b'\n', before).count() as u64;
    let column = match memrchr(b'\n', before) {
        Some(feed) => before.len().saturating_sub(feed),
        None => before.len().saturating_add(1),
    };
    (feeds.saturating_add(1), column)
}

// A mistake of no member.
fn mistake(alloc: Global, line: u64, column: usize, what: &str) -> Result<Finding, OutOfMemory>
    ensures { IfOk result (λ finding. is_mistake finding ≡ true) }
{
    Ok(Finding {
        line,
        column,
        severity: Severity::Mistake,
        path: Text::copy_of(alloc, "")?,
        what: Text::copy_of(alloc, what)?,
    })
}

fn only(alloc: Global, finding: Finding) -> Result<Vec<Finding>, OutOfMemory> {
    let mut found = Vec::new(alloc);
    found.push(finding)?;
    Ok(found)
}

// These findings, with another mistake where they have none.
fn with_mistake(found: Vec<Finding>, otherwise: Finding) -> Result<Vec<Finding>, OutOfMemory>
    requires { is_mistake otherwise ≡ true }
    ensures { IfOk result (λ found. has_mistake found.items ≡ true) }
{
    let mut found = found;
    if !has_mistake(found.as_slice()) {
        found.push(otherwise)?;
    }
    Ok(found)
}

fn has_mistake(found: &[Finding]) -> bool
    ensures { result ≡ has_mistake found.now }
{
    found.iter().any(|finding| finding.is_mistake())
}

// The warnings alone.
fn warnings_of(alloc: Global, found: Vec<Finding>) -> Result<Vec<Finding>, OutOfMemory>
    ensures { IfOk result (λ warnings. has_mistake warnings.items ≡ false) }
{
    let mut warnings = Vec::new(alloc);
    for finding in found {
        if !finding.is_mistake() {
            warnings.push(finding)?;
        }
    }
    Ok(warnings)
}
