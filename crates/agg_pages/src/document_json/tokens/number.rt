//! Whole numbers of 64 bits, from their tokens.
ghost use Rattle.std.specs.Prelude.{◌≡◌, ◌==◌, ◌<◌, Some, IfSome, IsTrue, length, slice_index};
ghost use Rattle.std.specs.Prelude.{option_map, true, false};
ghost use Rattle.serde_json.specs.Find.{as_i64, as_integer};
ghost use Rattle.serde_json.specs.Read.{number_from, number_of};
ghost use Rattle.agg_segment.specs.storage.Document.{key_of};
ghost use Rattle.agg_values.specs.TypedKey.{typed_number};
ghost use Rattle.agg_values.specs.declared.typed_key.CompositeIntermediateKey.TheVariants as key;
ghost use Rattle.agg_pages.specs.document_json.Tokens.{num_of};

use agg_segment::FieldValue;
use fast_float::Numeral;

/// A whole number within u64 or i64.
#[derive(Clone, Copy, Drop)]
pub enum WholeNumber {
    Unsigned(u64),
    Negative(i64),
}

impl WholeNumber {
    /// The number as a value of a field.
    pub fn value(self) -> FieldValue
        ensures { option_map typed_number (as_integer (num_of self)) ≡ Some (key_of result) }
    {
        match self {
            WholeNumber::Unsigned(n) => FieldValue::U64(n),
            WholeNumber::Negative(n) => FieldValue::I64(n),
        }
    }

    /// The date at that many nanoseconds, where they are within i64.
    pub fn date(self) -> Option<FieldValue>
        ensures { option_map key_of result ≡ option_map key.DateTime (as_i64 (num_of self)) }
    {
        match self {
            WholeNumber::Unsigned(n) => Some(FieldValue::Date(i64::try_from(n).ok()?)),
            WholeNumber::Negative(n) => Some(FieldValue::Date(n)),
        }
    }
}

/// The whole number that the text of a number token writes. None where it writes another number.
#[inline(always)]
pub fn whole_number(text: &str) -> Option<WholeNumber>
    ensures { IfSome result (λ n. number_of text.now ≡ Some (num_of n)) }
{
    let bytes = text.as_bytes();
    if has_minus(bytes) {
        negative(&Numeral::scan(&bytes[1..]))
    } else {
        unsigned(&Numeral::scan(bytes))
    }
}

// A number with no minus sign.
#[inline(always)]
fn unsigned(numeral: &Numeral<'_>) -> Option<WholeNumber>
    ensures { IfSome result (λ n. number_from false numeral.now ≡ Some (num_of n)) }
{
    Some(WholeNumber::Unsigned(numeral.to_u64()?))
}

// A number after its minus sign. Zero there is a float.
fn negative(numeral: &Numeral<'_>) -> Option<WholeNumber>
    ensures { IfSome result (λ n. number_from true numeral.now ≡ Some (num_of n)) }
{
    let n = numeral.to_i64(true)?;
    if n < 0 {
        Some(WholeNumber::Negative(n))
    } else {
        None
    }
}

// Whether a minus sign comes first.
#[inline(always)]
fn has_minus(bytes: &[u8]) -> bool
    ensures value { result ≡ (slice_index bytes.now 0 == 45) }
    ensures some { IsTrue result → 0 < length bytes.now }
{
    !bytes.is_empty() && bytes[0] == b'-'
}
