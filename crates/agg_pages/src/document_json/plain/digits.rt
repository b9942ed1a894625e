//! Whole numbers from their digits.
ghost use Rattle.std.specs.Prelude.{◌≡◌, ◌∷◌, ◌++◌, ◌+◌, ◌*◌, ◌-◌, ◌^◌, ◌<◌, ◌≤◌, negsuc};
ghost use Rattle.std.specs.Prelude.{decimal, drop, length, IfSome, Some};
ghost use Rattle.json.specs.Print.{IsNumber};
ghost use Rattle.serde_json.specs.Read.{number_of};
ghost use Rattle.agg_pages.specs.document_json.Plain.{text_of};
ghost use Rattle.agg_pages.specs.document_json.Tokens.{num_of};

use crate::document_json::tokens::number::WholeNumber;

const GREATEST_NEGATED: u64 = 9_223_372_036_854_775_807;

/// The number that digits write.
#[inline(always)]
pub fn unsigned(n: u64) -> WholeNumber
    ensures text { text_of result ≡ decimal n }
    ensures number { IsNumber (text_of result) }
    ensures reads { number_of (text_of result) ≡ Some (num_of result) }
{
    WholeNumber::Unsigned(n)
}

/// The number that digits write after a minus sign. None for zero, which is a float there, and for
/// one whose digits are above those of the greatest i64.
#[inline(always)]
pub fn negative(n: u64) -> Option<WholeNumber>
    ensures text { IfSome result (λ whole. text_of whole ≡ 45 ∷ decimal n) }
    ensures number { IfSome result (λ whole. IsNumber (text_of whole)) }
    ensures reads { IfSome result (λ whole. number_of (text_of whole) ≡ Some (num_of whole)) }
{
    if n == 0 || n > GREATEST_NEGATED {
        return None;
    }
    Some(negated(n))
}

#[inline(always)]
fn negated(n: u64) -> WholeNumber
    requires { (0 < n) × (n < 2 ^ 63) }
    ensures { result ≡ WholeNumber.Negative (negsuc (n - 1)) }
{
    WholeNumber::Negative(-(n as i64))
}

/// The number whose digits begin at a place, and the place after them. A zero ends it.
#[inline(never)]
pub fn digits_from(bytes: &[u8], from: usize) -> Option<(u64, usize)>
    requires { from ≤ length bytes.now }
    ensures value { IfSome result
        (λ r. drop from bytes.now ≡ decimal r.0 ++ drop r.1 bytes.now) }
    ensures bound { IfSome result (λ r. r.1 ≤ length bytes.now) }
{
    if from >= bytes.len() {
        return None;
    }
    let first = digit(bytes[from])?;
    let mut n = first as u64;
    let mut i = from + 1;
    if n == 0 {
        return Some((0, i));
    }
    while i < bytes.len() {
        let Some(next) = digit(bytes[i]) else {
            return Some((n, i));
        };
        n = with_digit(n, next)?;
        i += 1;
    }
    Some((n, i))
}

// A number with one digit more, where it is within u64.
#[inline(always)]
fn with_digit(n: u64, digit: u8) -> Option<u64>
    ensures { IfSome result (λ longer. longer ≡ n * 10 + digit) }
{
    n.checked_mul(10)?.checked_add(digit as u64)
}

// The value of a digit.
#[inline(always)]
fn digit(byte: u8) -> Option<u8>
    ensures { IfSome result (λ value. (byte ≡ 48 + value) × (value < 10)) }
{
    if byte >= b'0' && byte <= b'9' {
        Some(byte - b'0')
    } else {
        None
    }
}
