ghost use Rattle.std.specs.Prelude.{◌≤◌};

use agg_cache::{AggregationLimitsGuard, LimitsLedger};
use agg_expect::expect_equal;
use agg_values::AggregationError;
use std::test::Fail;

// The limits that are given for memory and buckets, and what a new ledger tells.
const LIMITS: &[(Option<u64>, Option<u32>, (u64, u64, u32))] = &[
    (None, Some(7), (0, 500_000_000, 7)),
    (Some(9), None, (0, 9, 65_000)),
];

#[test]
fn a_limit_that_is_not_given_is_the_default() -> Result<(), Fail> {
    for &(memory_limit, bucket_limit, expected) in LIMITS {
        let limits = LimitsLedger::new(memory_limit, bucket_limit);
        let told = (
            limits.in_use(),
            limits.memory_limit(),
            limits.bucket_limit(),
        );
        expect_equal(told, expected)?;
    }
    Ok(())
}

// A limit, bytes that a guard charges and then more bytes, what comes of these, and what is then in
// use: a charge above the limit changes nothing.
const CHARGES: &[(u64, u64, u64, Result<(), u64>, u64)] = &[
    (1_000, 512, 488, Ok(()), 1_000),
    (1_000, 512, 489, Err(1_001), 512),
    (1_000, 1_000, 0, Ok(()), 1_000),
    (1_000, 1_000, u64::MAX, Err(u64::MAX), 1_000),
    (u64::MAX, u64::MAX, 1, Err(u64::MAX), u64::MAX),
];

// What comes of a charge: the bytes that would be in use, where they are too many.
fn charge(
    guard: &mut AggregationLimitsGuard,
    limits: &mut LimitsLedger,
    bytes: u64,
) -> Result<(), u64>
    requires { guard.old ≤ limits.old.in_use }
    ensures { guard.new ≤ limits.new.in_use }
{
    match guard.add_memory_consumed(limits, bytes) {
        Err(AggregationError::MemoryExceeded { current, .. }) => Err(current),
        _ => Ok(()),
    }
}

#[test]
fn a_charge_above_the_limit_changes_nothing() -> Result<(), Fail> {
    for &(limit, first, more, expected, in_use) in CHARGES {
        let mut limits = LimitsLedger::new(Some(limit), None);
        let mut guard = limits.guard();
        let before = charge(&mut guard, &mut limits, first);
        let charged = charge(&mut guard, &mut limits, more);
        expect_equal((before, charged), (Ok(()), expected))?;
        expect_equal((limits.in_use(), guard.allocated()), (in_use, in_use))?;
        guard.give_back(&mut limits);
        expect_equal(limits.in_use(), 0)?;
    }
    Ok(())
}
