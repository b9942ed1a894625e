//! Texts that are exactly how a whole number is written.
ghost use Rattle.std.specs.Prelude.{◌≡◌, IsTrue, IfSome};
ghost use Rattle.peslumok_texts.specs.fields.Wholes as spec;

/// The whole number that a text is exactly how one writes, within i64 or u64.
pub(crate) fn whole_number(text: &str) -> Option<i128>
    ensures value { result ≡ spec.whole_of text.now }
    ensures bound { IfSome result (λ number. IsTrue (spec.has_64_bits number)) }
{
    if !begins_bare(text.as_bytes()) {
        return None;
    }
    match text.parse::<i128>() {
        Ok(number) if has_64_bits(number) => Some(number),
        _ => None,
    }
}

// Whether a text begins as a number is written: with no plus, no zero before a digit, and no minus
// before a zero.
fn begins_bare(text: &[u8]) -> bool
    ensures { result ≡ spec.begins_bare text.now }
{
    match text {
        [] => false,
        [digit] => digit.is_ascii_digit(),
        [first, second, ..] => {
            matches!(first, b'1'..=b'9') || *first == b'-' && matches!(second, b'1'..=b'9')
        }
    }
}

fn has_64_bits(number: i128) -> bool
    ensures { result ≡ spec.has_64_bits number }
{
    i128::from(i64::MIN) <= number && number <= i128::from(u64::MAX)
}
