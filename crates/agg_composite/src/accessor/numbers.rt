//! Signed numbers, moved up by 2^63 as columns have them.
ghost use Rattle.std.specs.Prelude.{◌≡◌, ◌-ℤ◌, ◌^◌, pos};
ghost use Rattle.agg_composite.specs.accessor.Places.{moved_up};

const FROM_ZERO: u64 = 9_223_372_036_854_775_808;

/// The number plus 2^63, as columns of signed numbers and dates have it.
pub fn moved_up(number: i64) -> u64
    ensures { result ≡ moved_up number }
{
    if number < 0 {
        return (number - i64::MIN) as u64;
    }
    number as u64 + FROM_ZERO
}

/// The number less 2^63.
pub fn moved_down(number: u64) -> i64
    ensures { result ≡ pos number -ℤ pos (2 ^ 63) }
{
    if number < FROM_ZERO {
        return number as i64 + i64::MIN;
    }
    (number - FROM_ZERO) as i64
}
