ghost use Rattle.std.specs.Prelude.{◌≡◌, ◌≤◌, ◌<◌, ◌^◌, ◌*◌, ◌≤ℤ◌, ℤ, [], pos, neg_ℤ};
ghost use Rattle.std.specs.Prelude.{unsigned_abs, length, IfOk, IfSome, Ok, Err, MatchResult};
ghost use Rattle.std.specs.Option.{SomeIff};
ghost use Rattle.std.specs.List.{prefix_len};
ghost use Rattle.std.specs.Char.{is_ascii_digit};
ghost use Rattle.std.specs.Str.Parse.{IsNumeral, digits_value, starts_with_minus};
ghost use Rattle.std.specs.Str.Parse.{without_leading_sign};
ghost use Rattle.jiff_core.specs.Calendar.{IsBetween};
ghost use Rattle.agg_calendar.specs.IntervalText.{digits_of, unit_of, unit_ms, read_interval};
ghost use Rattle.agg_calendar.specs.IntervalText.{read_offset, spelled};
ghost use Rattle.agg_calendar.specs.Refusal.{in_request, IsAnswer};

use agg_values::{AggregationError, DateHistogramParseError, OutOfMemory, RequestError, Text};
use std::alloc::Global;

// What is wrong with an interval text.
#[derive(Clone, Copy, Debug, PartialEq, Eq)]
pub(crate) enum Fault {
    NoNumber,
    NoUnit,
    UnknownUnit,
    TooLarge,
}

/// The milliseconds of an interval text. Memory is taken for the text of an error alone.
pub fn parse_into_milliseconds(alloc: Global, input: &Text) -> Result<i64, RequestError>
    ensures value { IsAnswer (in_request (read_interval input.now)) result }
    ensures bound { IfOk result (IsBetween (pos 0) (pos 9_223_372_036_854)) }
{
    let text = input.as_str();
    match interval_ms(text) {
        Ok(ms) => Ok(ms),
        Err(fault) => Err(refusal(alloc, text, fault)),
    }
}

/// The milliseconds of an offset text. Memory is taken for the text of an error alone.
#[tactic(auto, using(crate::proofs::IntervalTexts::after_sign))]
pub fn parse_offset_into_milliseconds(alloc: Global, input: &Text) -> Result<i64, RequestError>
    ensures value { IsAnswer (in_request (read_offset input.now)) result }
    ensures bound { IfOk
        result
        (IsBetween (neg_ℤ (pos 9_223_372_036_854)) (pos 9_223_372_036_854)) }
{
    let text = input.as_str();
    if text.is_empty() {
        return Err(empty_offset(alloc));
    }
    let (is_minus, unsigned) = split_sign(text);
    match interval_ms(unsigned) {
        Ok(ms) if is_minus => Ok(-ms),
        Ok(ms) => Ok(ms),
        Err(fault) => Err(refusal(alloc, unsigned, fault)),
    }
}

// Whether a text begins with a minus, and what follows its sign.
fn split_sign(text: &str) -> (bool, &str)
    ensures minus { result.0 ≡ starts_with_minus text.now }
    ensures rest { result.1.now ≡ without_leading_sign text.now }
{
    if let Some(rest) = text.strip_prefix('-') {
        return (true, rest);
    }
    match text.strip_prefix('+') {
        Some(rest) => (false, rest),
        None => (false, text),
    }
}

// The refusal of an empty offset text.
#[tactic(auto, unfolding(crate::specs::IntervalText::read_offset))]
fn empty_offset(alloc: Global) -> RequestError
    ensures { IsAnswer (in_request (read_offset [])) (Err result) }
{
    match Text::copy_of(alloc, "") {
        Ok(text) => RequestError::Aggregation(AggregationError::DateHistogramParseError(
            DateHistogramParseError::InvalidOffset(text),
        )),
        Err(OutOfMemory) => RequestError::OutOfMemory,
    }
}

// The refusal of a text for its fault.
fn refusal(alloc: Global, text: &str, fault: Fault) -> RequestError
    ensures { IsAnswer {T = ℤ} (in_request (Err (spelled text.now fault))) (Err result) }
{
    match parse_error(alloc, text, fault) {
        Ok(error) => RequestError::Aggregation(AggregationError::DateHistogramParseError(error)),
        Err(OutOfMemory) => RequestError::OutOfMemory,
    }
}

// A fault with its text.
fn parse_error(
    alloc: Global,
    text: &str,
    fault: Fault,
) -> Result<DateHistogramParseError, OutOfMemory>
    ensures { IfOk result (λ error. error ≡ spelled text.now fault) }
{
    match fault {
        Fault::NoNumber => Ok(DateHistogramParseError::NumberMissing(Text::copy_of(alloc, text)?)),
        Fault::NoUnit => Ok(DateHistogramParseError::UnitMissing(Text::copy_of(alloc, text)?)),
        Fault::UnknownUnit => Ok(DateHistogramParseError::UnitNotRecognized(Text::copy_of(
            alloc,
            split_digits(text).1,
        )?)),
        Fault::TooLarge => Ok(DateHistogramParseError::OutOfBounds(Text::copy_of(alloc, text)?)),
    }
}

// The milliseconds of an interval text, or its first fault. It takes no memory.
#[tactic(auto, using(crate::proofs::IntervalTexts::reading))]
fn interval_ms(text: &str) -> Result<i64, Fault>
    ensures value { MatchResult
        result
        (λ ms. read_interval text.now ≡ Ok ms)
        (λ fault. read_interval text.now ≡ Err (spelled text.now fault)) }
    ensures bound { IfOk result (IsBetween (pos 0) (pos 9_223_372_036_854)) }
{
    let (digits, unit) = split_digits(text);
    if digits.is_empty() {
        return Err(Fault::NoNumber);
    }
    if unit.is_empty() {
        return Err(Fault::NoUnit);
    }
    let Some(count) = count_of(digits) else {
        return Err(Fault::NoNumber);
    };
    let Some(factor) = unit_factor(unit) else {
        return Err(Fault::UnknownUnit);
    };
    match in_ms(count, factor) {
        Some(ms) => Ok(ms),
        None => Err(Fault::TooLarge),
    }
}

// The number that digits are, where it fits.
fn count_of(digits: &str) -> Option<i64>
    requires { IsNumeral 10 digits.now }
    ensures { SomeIff
        result
        (digits_value 10 digits.now < 2 ^ 63)
        (pos (digits_value 10 digits.now)) }
{
    match digits.parse::<i64>() {
        Ok(count) => Some(count),
        Err(_) => None,
    }
}

// So many of a unit in milliseconds, where their nanoseconds fit.
fn in_ms(count: i64, factor: u32) -> Option<i64>
    requires { pos 0 ≤ℤ count }
    ensures bound { IfSome result (IsBetween (pos 0) (pos 9_223_372_036_854)) }
    ensures value { SomeIff
        result
        (unsigned_abs count * factor * 1_000_000 < 2 ^ 63)
        (pos (unsigned_abs count * factor)) }
{
    let ms = count.checked_mul(i64::from(factor))?;
    ms.checked_mul(1_000_000)?;
    Some(ms)
}

// The digits at the front, and what follows them.
#[tactic(auto, using(crate::proofs::IntervalTexts::digits_boundary))]
fn split_digits(text: &str) -> (&str, &str)
    ensures digits { result.0.now ≡ digits_of text.now }
    ensures unit { result.1.now ≡ unit_of text.now }
{
    text.split_at(digits_len(text))
}

// How many digits stand at the front.
fn digits_len(text: &str) -> usize
    ensures len { result ≡ prefix_len is_ascii_digit text.now }
    ensures within { result ≤ length text.now }
{
    text.as_bytes()
        .iter()
        .take_while(|b| b.is_ascii_digit())
        .count()
}

// The milliseconds of a unit.
#[tactic(auto, using(crate::proofs::Units::other), unfolding(crate::specs::IntervalText::unit_ms))]
fn unit_factor(unit: &str) -> Option<u32>
    ensures { result ≡ unit_ms unit.now }
{
    match unit {
        "ms" | "milliseconds" => Some(1),
        "s" | "seconds" => Some(1_000),
        "m" | "minutes" => Some(60_000),
        "h" | "hours" => Some(3_600_000),
        "d" | "days" => Some(86_400_000),
        _ => None,
    }
}
