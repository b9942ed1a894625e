ghost use Rattle.std.specs.Prelude.{◌≡◌, ◌≤◌, ◌<◌, ◌+◌, ◌-◌, ◌*◌, ◌^◌, length, option_map, IfOk};
ghost use Rattle.std.specs.Prelude.{if◌then◌else◌, pos, neg_ℤ};
ghost use Rattle.std.specs.List.{list_all, prefix_len};
ghost use Rattle.std.specs.Option.{SomeIff};
ghost use Rattle.std.specs.Char.{is_ascii_digit};
ghost use Rattle.peslumok_texts.specs.decimals.Decimal as spec;

use crate::decimals::{DecimalError, Places};

/// The whole number of the last place that a text is: 12.50 in two places is 1250.
pub fn read_decimal(text: &str, places: Places) -> Result<i64, DecimalError>
    ensures { result ≡ spec.decimal_of places text.now }
{
    let (is_minus, body) = split_sign(text.as_bytes());
    Ok(with_sign(is_minus, magnitude(body, places.get())?))
}

// A magnitude with its sign.
fn with_sign(is_minus: bool, number: u64) -> i64
    requires { number < 2 ^ 63 }
    ensures { result ≡ (if is_minus then neg_ℤ (pos number) else pos number) }
{
    if is_minus {
        -(number as i64)
    } else {
        number as i64
    }
}

// Whether a minus stands first, and what stands after it.
fn split_sign(text: &[u8]) -> (bool, &[u8])
    ensures minus { result.0 ≡ (spec.sign text.now).0 }
    ensures body { result.1.now ≡ (spec.sign text.now).1 }
{
    match text.split_first() {
        Some((b'-', rest)) => (true, rest),
        _ => (false, text),
    }
}

// The number of the last place that an unsigned text is.
#[tactic(auto, unfolding(crate::specs::decimals::Decimal::magnitude))]
fn magnitude(body: &[u8], places: u32) -> Result<u64, DecimalError>
    requires { places ≤ 18 }
    ensures value { result ≡ spec.magnitude places body.now }
    ensures bound { IfOk result (λ number. number < 2 ^ 63) }
{
    let (whole, rest) = body.split_at(digits_len(body));
    if whole.is_empty() {
        return Err(DecimalError::NotANumber);
    }
    let Some(part) = fraction(rest) else {
        return Err(DecimalError::NotANumber);
    };
    if part.len() > places as usize {
        return Err(DecimalError::TooManyDecimals);
    }
    match in_places(places, whole, part) {
        Some(number) if number < 1 << 63 => Ok(number),
        _ => Err(DecimalError::TooLarge),
    }
}

// The digits after a point.
fn fraction(rest: &[u8]) -> Option<&[u8]>
    ensures { option_map (λ part. part.now) result ≡ spec.fraction rest.now }
{
    match rest.split_first() {
        None => Some(rest),
        Some((b'.', part)) if !part.is_empty() && all_digits(part) => Some(part),
        Some(_) => None,
    }
}

fn all_digits(part: &[u8]) -> bool
    ensures { result ≡ list_all is_ascii_digit part.now }
{
    part.iter().all(|digit| digit.is_ascii_digit())
}

// How many digits stand first.
fn digits_len(text: &[u8]) -> usize
    ensures len { result ≡ prefix_len is_ascii_digit text.now }
    ensures within { result ≤ length text.now }
{
    text.iter().take_while(|b| b.is_ascii_digit()).count()
}

// Digits before and after the point as a number of the last place, where it fits.
#[tactic(auto, using(crate::proofs::lemmas::decimals::Digits::after_append))]
fn in_places(places: u32, whole: &[u8], part: &[u8]) -> Option<u64>
    requires fewer { length part.now ≤ places }
    requires most { places ≤ 18 }
    ensures { SomeIff
        result
        (spec.in_places places whole.now part.now < 2 ^ 64)
        (spec.in_places places whole.now part.now) }
{
    let Some(front) = push_digits(0, whole) else {
        return None;
    };
    let Some(number) = push_digits(front, part) else {
        return None;
    };
    number.checked_mul(10u64.pow(places - part.len() as u32))
}

// The number that digits write when they follow those of another, where it fits.
#[tactic(auto, using(crate::proofs::lemmas::decimals::Digits::stuck, crate::proofs::lemmas::decimals::Digits::at_end))]
fn push_digits(number: u64, digits: &[u8]) -> Option<u64>
    ensures { SomeIff
        result
        (spec.number_after number digits.now < 2 ^ 64)
        (spec.number_after number digits.now) }
{
    let mut value = number;
    for digit in digits {
        match push_digit(value, *digit) {
            Some(more) => value = more,
            None => return None,
        }
    }
    Some(value)
}

// The number with one digit more, where it fits.
fn push_digit(number: u64, digit: u8) -> Option<u64>
    ensures { SomeIff
        result
        (number * 10 + (digit - 48) < 2 ^ 64)
        (number * 10 + (digit - 48)) }
{
    number
        .checked_mul(10)?
        .checked_add(u64::from(digit.saturating_sub(b'0')))
}
