ghost use Rattle.std.specs.Prelude.{◌≡◌, ◌^◌, ◌<◌, ◌≤◌, ◌≤ℤ◌, ◌<ℤ◌, pos, unsigned_abs};
ghost use Rattle.std.specs.Ordering.{int_cmp};

use std::cmp::Ordering;

/// A number's place among the numbers of another type.
#[derive(Clone, Copy, Debug, PartialEq, Eq)]
pub enum ProjectedNumber<T> {
    /// The number itself.
    Exact(T),
    /// The number is not of the type, and this is the next one that is.
    Next(T),
    /// The number is above each of the type.
    AfterLast,
}

/// How two numbers compare by value.
pub fn cmp_i64_u64(left_i: i64, right_u: u64) -> Ordering
    ensures { result ≡ int_cmp left_i (pos right_u) }
{
    i128::from(left_i).cmp(&i128::from(right_u))
}

/// A number's place among the unsigned numbers.
pub fn i64_to_u64(value: i64) -> ProjectedNumber<u64>
    ensures negative { value <ℤ pos 0 → result ≡ ProjectedNumber.Next 0 }
    ensures exact { pos 0 ≤ℤ value → result ≡ ProjectedNumber.Exact (unsigned_abs value) }
{
    match u64::try_from(value) {
        Ok(number) => ProjectedNumber::Exact(number),
        Err(_) => ProjectedNumber::Next(0),
    }
}

/// A number's place among the signed numbers.
pub fn u64_to_i64(value: u64) -> ProjectedNumber<i64>
    ensures exact { value < 2 ^ 63 → result ≡ ProjectedNumber.Exact (pos value) }
    ensures above { 2 ^ 63 ≤ value → result ≡ ProjectedNumber.AfterLast }
{
    match i64::try_from(value) {
        Ok(number) => ProjectedNumber::Exact(number),
        Err(_) => ProjectedNumber::AfterLast,
    }
}
