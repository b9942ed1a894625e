//! Counts of tuples, one for each distinct tuple.
ghost use Rattle.std.specs.Prelude.{◌≡◌, ◌≤◌, ◌^◌, IfOk, IsErrOf};
ghost use Rattle.std.specs.List.{sum_by};
ghost use Rattle.std.specs.declared.cmp.Ordering.TheVariants.{Equal};
ghost use Rattle.agg_composite.specs.tuple_counts.Counted.{counted};

use crate::buckets::VisitError;
use agg_values::freeing::FreeingIter;
use std::alloc::Global;
use std::mem;

/// The distinct tuples, ascending, each with the sum of its counts.
pub fn grouped<S: Ord + Drop>(
    alloc: Global,
    counts: Vec<(S, u64)>,
) -> Result<Vec<(S, u64)>, VisitError>
    requires exact { (t u : S) → S.cmp t u ≡ Equal → t ≡ u }
    ensures ok { IfOk result (λ groups. groups.items ≡ counted S.cmp counts.items) }
    ensures again { IfOk result (λ groups. counted S.cmp groups.items ≡ groups.items) }
    ensures too_many { IsErrOf result VisitError.TooMany
        → 2 ^ 64 ≤ sum_by (λ e. e.1) counts.items }
{
    let mut sorted = counts;
    sorted.sort_unstable_by(|left, right| left.0.cmp(&right.0));
    let mut groups = Vec::new(alloc);
    let mut rest = FreeingIter::new(sorted);
    let Some((mut tuple, mut count)) = rest.next() else {
        return Ok(groups);
    };
    for (next, more) in rest {
        if next == tuple {
            count = count.checked_add(more).ok_or(VisitError::TooMany)?;
        } else {
            groups.push((
                mem::replace(&mut tuple, next),
                mem::replace(&mut count, more),
            ))?;
        }
    }
    groups.push((tuple, count))?;
    Ok(groups)
}
