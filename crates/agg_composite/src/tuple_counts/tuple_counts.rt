ghost use Rattle.std.specs.Prelude.{◌≡◌, ◌≤◌, ◌^◌, [], IfOk, IsErrOf, OnOk, take};
ghost use Rattle.std.specs.List.{sum_by};
ghost use Rattle.std.specs.declared.cmp.Ordering.TheVariants.{Equal};
ghost use Rattle.agg_composite.specs.buckets.Cut.{add_count};

use crate::buckets::VisitError;
use crate::tuple_counts::grouped::grouped;
use agg_values::freeing::FreeingIter;
use std::alloc::Global;
use std::marker::Model;
use std::mem;

// A list of so many counts isn't grouped yet.
const FEW: usize = 4_096;

/// How often each tuple came. They stand in a list, which is sorted and grouped in the end, and
/// whenever it is twice as long as when it was last grouped. Contracts see the distinct tuples,
/// ascending, each with its count.
#[derive(Drop)]
pub struct TupleCounts<S: Ord> {
    alloc: Global,
    counts: Vec<(S, u64)>,
    // So many counts may stand there before they are grouped.
    longest: usize,
}

impl<S: Ord> Model for TupleCounts<S> {
    ghost use Rattle.std.specs.Prelude.{ℕ, List};
    ghost use Rattle.agg_composite.specs.tuple_counts.Counted.{counted};

    ghost Value = { List (S × ℕ) };

    ghost view = { λ c. counted S.cmp c.counts.items };
}

impl<S: Ord> TupleCounts<S> {
    /// No tuple came. So many counts may stand there before they are first grouped.
    pub fn new(alloc: Global, longest: usize) -> TupleCounts<S>
        ensures { result ≡ [] }
    {
        TupleCounts {
            alloc,
            counts: Vec::new(alloc),
            longest: FEW.max(longest),
        }
    }

    /// Counts a tuple once more. Nothing is said of what is there after an error.
    pub fn count(&mut self, tuple: S) -> Result<(), VisitError>
    where
        S: Drop,
        requires exact { (t u : S) → S.cmp t u ≡ Equal → t ≡ u }
        ensures ok { OnOk result (self.new ≡ add_count S.cmp self.old tuple 1) }
        ensures too_many { IsErrOf result VisitError.TooMany
            → 2 ^ 64 ≤ sum_by (λ e. e.1) self.old }
    {
        if self.counts.len() >= self.longest {
            self.group()?;
        }
        self.counts.push((tuple, 1))?;
        Ok(())
    }

    // Groups the counts.
    fn group(&mut self) -> Result<(), VisitError>
    where
        S: Drop,
        requires exact { (t u : S) → S.cmp t u ≡ Equal → t ≡ u }
        ensures ok { OnOk result (self.new ≡ self.old) }
        ensures too_many { IsErrOf result VisitError.TooMany
            → 2 ^ 64 ≤ sum_by (λ e. e.1) self.old }
    {
        let counts = mem::replace(&mut self.counts, Vec::new(self.alloc));
        self.counts = grouped(self.alloc, counts)?;
        self.longest = FEW.max(self.counts.len().saturating_mul(2));
        Ok(())
    }

    /// The lowest distinct tuples, so many at most, ascending, each with its count.
    pub fn into_ascending(self, most: usize) -> Result<FreeingIter<(S, u64)>, VisitError>
    where
        S: Drop,
        requires exact { (t u : S) → S.cmp t u ≡ Equal → t ≡ u }
        ensures ok { IfOk result (λ counts. counts ≡ take most self) }
        ensures too_many { IsErrOf result VisitError.TooMany
            → 2 ^ 64 ≤ sum_by (λ e. e.1) self }
    {
        let TupleCounts { alloc, counts, .. } = self;
        let mut lowest = grouped(alloc, counts)?;
        lowest.truncate(most);
        Ok(FreeingIter::new(lowest))
    }
}
