use agg_expect::expect_equal_for;
use agg_values::{ProjectedNumber, cmp_i64_u64, i64_to_u64, u64_to_i64};
use std::cmp::Ordering;
use std::test::Fail;

// Two numbers, and how they compare by value.
const COMPARED: &[(i64, u64, Ordering)] = &[
    (-1, 0, Ordering::Less),
    (i64::MIN, 0, Ordering::Less),
    (i64::MIN, u64::MAX, Ordering::Less),
    (0, 0, Ordering::Equal),
    (1, 0, Ordering::Greater),
    (1, 1, Ordering::Equal),
    (0, 1, Ordering::Less),
    (5, 10, Ordering::Less),
    (10, 5, Ordering::Greater),
    (i64::MAX, 9_223_372_036_854_775_807, Ordering::Equal),
    (i64::MAX, 9_223_372_036_854_775_808, Ordering::Less),
    (i64::MAX, u64::MAX, Ordering::Less),
];

// Signed numbers, as projected to unsigned ones.
const TO_UNSIGNED: &[(i64, ProjectedNumber<u64>)] = &[
    (-1, ProjectedNumber::Next(0)),
    (i64::MIN, ProjectedNumber::Next(0)),
    (0, ProjectedNumber::Exact(0)),
    (42, ProjectedNumber::Exact(42)),
    (i64::MAX, ProjectedNumber::Exact(9_223_372_036_854_775_807)),
];

// Unsigned numbers, as projected to signed ones.
const TO_SIGNED: &[(u64, ProjectedNumber<i64>)] = &[
    (0, ProjectedNumber::Exact(0)),
    (42, ProjectedNumber::Exact(42)),
    (9_223_372_036_854_775_807, ProjectedNumber::Exact(i64::MAX)),
    (9_223_372_036_854_775_808, ProjectedNumber::AfterLast),
    (u64::MAX, ProjectedNumber::AfterLast),
];

#[test]
fn compares_by_value() -> Result<(), Fail> {
    for &(left, right, order) in COMPARED {
        expect_equal_for((left, right), cmp_i64_u64(left, right), order)?;
    }
    Ok(())
}

#[test]
fn projects_signed_numbers_by_value() -> Result<(), Fail> {
    for &(number, projected) in TO_UNSIGNED {
        expect_equal_for(number, i64_to_u64(number), projected)?;
    }
    Ok(())
}

#[test]
fn projects_unsigned_numbers_by_value() -> Result<(), Fail> {
    for &(number, projected) in TO_SIGNED {
        expect_equal_for(number, u64_to_i64(number), projected)?;
    }
    Ok(())
}
