//! Two ascending lists of entries as one.
ghost use Rattle.std.specs.Prelude.{◌≡◌, ◌++◌, ◌∷◌, ◌⊎◌, [], IfNone, IfOk, IfSome, IsErrOf, IsTrue};
ghost use Rattle.std.specs.Prelude.{OnOk};
ghost use Rattle.std.specs.List.Sorted.{IsStrictlySortedBy};
ghost use Rattle.std.specs.Map.{keys_of};
ghost use Rattle.agg_values.specs.KeyOrder.{tuple_order};
ghost use Rattle.agg_results.specs.metric_results.Merges.{Merges};
ghost use Rattle.agg_results.specs.intermediate_results.Intermediate.{Entries, TupleEntry};
ghost use Rattle.agg_results.specs.intermediate_results.Merging.{JoinEntries, SomeTied};
ghost use Rattle.agg_results.specs.intermediate_results.Outcome.{AreBelow, BelowDiffer, DoneUnless};
ghost use Rattle.agg_results.specs.intermediate_results.Outcome.{EntriesPass};
ghost use Rattle.agg_results.specs.declared.intermediate_results.entry.IntermediateTermBucketEntry
    as held;

use crate::intermediate_results::IntermediateTermBucketEntry;
use crate::metric_results::MergeError;
use agg_values::tuple_map::tuple_ordering;
use agg_values::{MissingOrder, Order, OutOfMemory, Tuple};
use std::alloc::Global;
use std::cmp::Ordering;
use std::collections::VecDeque;

type HeldEntry = (Tuple, IntermediateTermBucketEntry);

/// Two ascending lists of entries as one, with those of one tuple merged. Of lists that don't
/// overlap the higher is moved as a whole. Where a sum is too large, `passed` is raised, and the
/// entries mean nothing but their tuples.
#[cycle(merging)]
pub(crate) fn merge_lists(
    alloc: Global,
    orders: &[(Order, MissingOrder)],
    left: Vec<HeldEntry>,
    right: Vec<HeldEntry>,
    passed: &mut bool,
) -> Result<Vec<HeldEntry>, MergeError>
    requires ascending { IsStrictlySortedBy (tuple_order orders.now) (keys_of left.items) }
    requires other_ascending { IsStrictlySortedBy (tuple_order orders.now) (keys_of right.items) }
    ensures ok { OnOk result (Merges passed.old passed.new
        (SomeTied (tuple_order orders.now) BelowDiffer left.items right.items)
        (SomeTied (tuple_order orders.now) EntriesPass left.items right.items)) }
    ensures merged { IfOk result (λ whole. JoinEntries (tuple_order orders.now)
        (DoneUnless passed.new) left.items right.items whole.items) }
    ensures mismatch { IsErrOf result MergeError.Mismatch
        → SomeTied (tuple_order orders.now) BelowDiffer left.items right.items }
    ensures too_many { ¬ (IsErrOf result MergeError.TooMany) }
{
    if is_below(orders, &left, &right) {
        return Ok(joined(left, right)?);
    }
    if is_below(orders, &right, &left) {
        return Ok(joined(right, left)?);
    }
    merge_ascending(
        alloc,
        orders,
        VecDeque::from_vec(left),
        VecDeque::from_vec(right),
        passed,
    )
}

// Whether each entry of a list is below each of another. Their ends tell it.
fn is_below(orders: &[(Order, MissingOrder)], lower: &[HeldEntry], upper: &[HeldEntry]) -> bool
    requires ascending { IsStrictlySortedBy (tuple_order orders.now) (keys_of lower.now) }
    requires other_ascending { IsStrictlySortedBy (tuple_order orders.now) (keys_of upper.now) }
    ensures { IsTrue result → AreBelow (tuple_order orders.now) lower.now upper.now }
{
    let Some(last) = lower.last() else {
        return true;
    };
    let Some(first) = upper.first() else {
        return true;
    };
    tuple_ordering(orders, last.0.as_slice(), first.0.as_slice()).is_lt()
}

// A list after another.
fn joined(
    mut lower: Vec<HeldEntry>,
    mut upper: Vec<HeldEntry>,
) -> Result<Vec<HeldEntry>, OutOfMemory>
    ensures { IfOk result (λ whole. whole.items ≡ lower.items ++ upper.items) }
{
    if lower.is_empty() {
        return Ok(upper);
    }
    lower.append(&mut upper)?;
    Ok(lower)
}

// Two ascending lists of entries as one, entry by entry. Where a sum is too large, `passed` is
// raised, and the entries mean nothing but their tuples.
#[cycle(merging)]
fn merge_ascending(
    alloc: Global,
    orders: &[(Order, MissingOrder)],
    mut left: VecDeque<HeldEntry>,
    mut right: VecDeque<HeldEntry>,
    passed: &mut bool,
) -> Result<Vec<HeldEntry>, MergeError>
    requires ascending { IsStrictlySortedBy (tuple_order orders.now) (keys_of left.items) }
    requires other_ascending { IsStrictlySortedBy (tuple_order orders.now) (keys_of right.items) }
    ensures ok { IfOk result (λ whole. Merges passed.old passed.new
        (SomeTied (tuple_order orders.now) BelowDiffer left.items right.items)
        (SomeTied (tuple_order orders.now) EntriesPass left.items right.items)) }
    ensures merged { IfOk result (λ whole. JoinEntries (tuple_order orders.now)
        (DoneUnless passed.new) left.items right.items whole.items) }
    ensures mismatch { IsErrOf result MergeError.Mismatch
        → SomeTied (tuple_order orders.now) BelowDiffer left.items right.items }
    ensures too_many { ¬ (IsErrOf result MergeError.TooMany) }
{
    let mut whole = with_room(alloc, left.len().saturating_add(right.len()))?;
    while let Some(order) = order_of_first(orders, &left, &right) {
        match order {
            Ordering::Less => {
                move_first(&mut left, &mut whole)?;
            }
            Ordering::Greater => {
                move_first(&mut right, &mut whole)?;
            }
            Ordering::Equal => {
                move_both(&mut left, &mut right, &mut whole, passed)?;
            }
        }
    }
    move_all(left, &mut whole)?;
    move_all(right, &mut whole)?;
    Ok(whole)
}

// An empty list with room for some entries.
fn with_room(alloc: Global, len: usize) -> Result<Vec<HeldEntry>, OutOfMemory>
    ensures { IfOk result (λ entries. entries.items ≡ []) }
{
    Ok(Vec::with_capacity(alloc, len)?)
}

// How the first entries compare, None where one list has ended.
fn order_of_first(
    orders: &[(Order, MissingOrder)],
    left: &VecDeque<HeldEntry>,
    right: &VecDeque<HeldEntry>,
) -> Option<Ordering>
    ensures some { IfSome result (λ order.
        (e : TupleEntry) × (f : TupleEntry) × (es : Entries) × (fs : Entries)
        × (left.now.items ≡ e ∷ es) × (right.now.items ≡ f ∷ fs)
        × (tuple_order orders.now e.0 f.0 ≡ order)) }
    ensures none { IfNone result ((left.now.items ≡ []) ⊎ (right.now.items ≡ [])) }
{
    let first = left.front()?;
    let other = right.front()?;
    Some(tuple_ordering(orders, first.0.as_slice(), other.0.as_slice()))
}

// Moves the first entry, if there is one, after others.
fn move_first(from: &mut VecDeque<HeldEntry>, whole: &mut Vec<HeldEntry>) -> Result<(), OutOfMemory>
    ensures { OnOk result ((e : TupleEntry) (es : Entries)
        → from.old.items ≡ e ∷ es
        → (whole.new.items ≡ whole.old.items ++ e ∷ []) × (from.new.items ≡ es)) }
{
    let Some(entry) = from.pop_front() else {
        return Ok(());
    };
    whole.push(entry)?;
    Ok(())
}

// Moves the first entries of both lists, which have one tuple, after others as one.
#[cycle(merging)]
fn move_both(
    left: &mut VecDeque<HeldEntry>,
    right: &mut VecDeque<HeldEntry>,
    whole: &mut Vec<HeldEntry>,
    passed: &mut bool,
) -> Result<(), MergeError>
    ensures ok { OnOk result ((e : TupleEntry) (f : TupleEntry) (es : Entries) (fs : Entries)
        → left.old.items ≡ e ∷ es
        → right.old.items ≡ f ∷ fs
        → Merges passed.old passed.new (BelowDiffer e.1 f.1) (EntriesPass e.1 f.1)) }
    ensures merged { OnOk result ((e : TupleEntry) (f : TupleEntry) (es : Entries) (fs : Entries)
        → left.old.items ≡ e ∷ es
        → right.old.items ≡ f ∷ fs
        → (w : held.IntermediateTermBucketEntry)
        × (whole.new.items ≡ whole.old.items ++ (e.0, w) ∷ [])
        × DoneUnless passed.new e.1 f.1 w
        × (left.new.items ≡ es) × (right.new.items ≡ fs)) }
    ensures mismatch { IsErrOf result MergeError.Mismatch
        → (e : TupleEntry) (f : TupleEntry) (es : Entries) (fs : Entries)
        → left.old.items ≡ e ∷ es
        → right.old.items ≡ f ∷ fs
        → BelowDiffer e.1 f.1 }
    ensures too_many { ¬ (IsErrOf result MergeError.TooMany) }
{
    let Some((key, mut entry)) = left.pop_front() else {
        return Ok(());
    };
    let Some((_, other)) = right.pop_front() else {
        return Ok(());
    };
    entry.merge_all(other, passed)?;
    whole.push((key, entry))?;
    Ok(())
}

// Moves all entries after others.
fn move_all(mut from: VecDeque<HeldEntry>, whole: &mut Vec<HeldEntry>) -> Result<(), OutOfMemory>
    ensures { OnOk result (whole.new.items ≡ whole.old.items ++ from.items) }
{
    while let Some(entry) = from.pop_front() {
        whole.push(entry)?;
    }
    Ok(())
}
