//! How bytes are charged that may be more than 64 bits.
ghost use Rattle.std.specs.Prelude.{◌≡◌, ◌≤◌, ◌+◌, ◌-◌, ◌<◌, ◌^◌, ℕ, IfErr, IfOk, OnErr, OnOk};
ghost use Rattle.std.specs.Prelude.{Some};
ghost use Rattle.agg_cache.specs.Limits.{charged};
ghost use Rattle.agg_engine_tree.specs.held_bytes.Checked.{IsChecked};
ghost use Rattle.agg_engine.specs.snapshot_results.ChargedTrees.{IsFixedCause};

use crate::snapshot_results::ChargeError;
use agg_cache::{AggregationLimitsGuard, LimitsLedger};
use agg_values::AggregationError;

/// Charges bytes to a guard and to the ledger, and answers how many. They are refused where they
/// aren't given, since they are more than 64 bits hold.
pub fn charge(
    guard: &mut AggregationLimitsGuard,
    bytes: Option<u64>,
    limits: &mut LimitsLedger,
) -> Result<u64, ChargeError>
    requires { guard.old ≤ limits.old.in_use }
    ensures amount { IfOk result (λ amount. bytes ≡ Some amount) }
    ensures ledger { IfOk result (λ amount. limits.new ≡ charged amount limits.old) }
    ensures guard { IfOk result (λ amount. guard.new ≡ guard.old + amount) }
    ensures within { OnOk result (limits.new.in_use ≤ limits.new.memory_limit) }
    ensures cause { (amount : ℕ) → IsChecked amount bytes
        → IfErr result (IsFixedCause amount limits.old) }
    ensures kept { OnErr result (limits.new ≡ limits.old) }
    ensures guard_kept { OnErr result (guard.new ≡ guard.old) }
{
    let Some(bytes) = bytes else {
        return Err(past_64_bits(limits));
    };
    charge_bytes(guard, bytes, limits)?;
    Ok(bytes)
}

/// Charges bytes to a guard and to the ledger.
pub fn charge_bytes(
    guard: &mut AggregationLimitsGuard,
    bytes: u64,
    limits: &mut LimitsLedger,
) -> Result<(), ChargeError>
    requires { guard.old ≤ limits.old.in_use }
    ensures ledger { OnOk result (limits.new ≡ charged bytes limits.old) }
    ensures guard { OnOk result (guard.new ≡ guard.old + bytes) }
    ensures within { OnOk result (limits.new.in_use ≤ limits.new.memory_limit) }
    ensures cause { IfErr result (IsFixedCause bytes limits.old) }
    ensures kept { OnErr result (limits.new ≡ limits.old) }
    ensures guard_kept { OnErr result (guard.new ≡ guard.old) }
{
    match guard.add_memory_consumed(limits, bytes) {
        Ok(()) => Ok(()),
        Err(AggregationError::MemoryExceeded { limit, current }) => {
            Err(ChargeError::MemoryExceeded { limit, current })
        }
        // A charge is refused for memory alone.
        Err(
            AggregationError::DateHistogramParseError(_)
            | AggregationError::BucketLimitExceeded { .. },
        ) => unreachable!(),
    }
}

/// The refusal of more bytes than 64 bits hold.
pub fn past_64_bits(limits: &LimitsLedger) -> ChargeError
    ensures told { result ≡ ChargeError.MemoryExceeded limits.now.memory_limit (2 ^ 64 - 1) }
    ensures low { limits.now.memory_limit < 2 ^ 64 }
{
    ChargeError::MemoryExceeded {
        limit: limits.memory_limit(),
        current: u64::MAX,
    }
}
