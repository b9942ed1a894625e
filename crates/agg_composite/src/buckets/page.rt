//! The buckets of one parent.
ghost use Rattle.std.specs.Prelude.{◌≡◌, ◌<◌, ◌≤◌, ◌+◌, ◌⊎◌, None, IfOk, IsErrOf, MatchOption};
ghost use Rattle.std.specs.Prelude.{◌^◌, OnErr, OnOk, false, length, true};
ghost use Rattle.std.specs.BTreeMap.{insert_entry, is_at};
ghost use Rattle.std.specs.Map.{lookup};
ghost use Rattle.agg_composite.specs.buckets.Page.{
  AddsAtMost,
  HasRoom,
  IsAbove,
  IsAbsent,
  IsCountedMore,
  IsFull,
  PageTakes,
  opened,
};

use crate::buckets::bucket::Bucket;
use crate::buckets::visit_error::VisitError;
use agg_cache::{BucketId, BucketIdProvider};
use agg_heap_map::LazyHeapMap;
use agg_values::{OutOfMemory, Steps};
use std::hash::Hash;
use std::sync::ledger::Ledger;

/// Visits a tuple: it is looked up once. A new one above a full page is left out, and one below its
/// greatest takes the place of that one. Answers the id of its bucket. Whatever it answers, each
/// bucket more takes an id, and no other tuple comes onto the page.
pub fn visit_page<S: Ord + Hash + Clone + Drop, L: Ledger>(
    page: &mut LazyHeapMap<S, Bucket>,
    ids: &mut BucketIdProvider,
    tuple: &S,
    size: usize,
    steps: &mut Steps<L>,
) -> Result<Option<BucketId>, VisitError>
    requires clones { (t q : S) → S.is_clone t q → q ≡ t }
    ensures ok { IfOk result (PageTakes S.cmp size tuple.now ids.old ids.new page.old page.new) }
    ensures too_many { IsErrOf result VisitError.TooMany
        → (4294967295 < ids.old + 1) ⊎ IsFull S.cmp page.old tuple.now }
    ensures held { AddsAtMost S.cmp tuple.now page.old page.new }
    ensures ids { length page.new + ids.old ≤ length page.old + ids.new }
    ensures ids_fit { ids.old < 2 ^ 32 → ids.new < 2 ^ 32 }
    ensures most { steps.new ≤ steps.old + 3 }
    ensures least { steps.old + 1 ≤ steps.new }
{
    if let Some(id) = count_more(page, tuple, steps)? {
        return Ok(Some(id));
    }
    if !make_room(page, tuple, size, steps)? {
        return Ok(None);
    }
    let id = ids.next_bucket_id()?;
    open(page, tuple, id, steps)?;
    Ok(Some(id))
}

// Counts a document more in the bucket of a tuple, if there is one, and answers its id. This is one
// step.
fn count_more<S: Ord + Hash, L: Ledger>(
    page: &mut LazyHeapMap<S, Bucket>,
    tuple: &S,
    steps: &mut Steps<L>,
) -> Result<Option<BucketId>, VisitError>
    ensures ok { IfOk result (λ found. MatchOption found
        ((page.new ≡ page.old) × IsAbsent S.cmp page.old tuple.now)
        (λ id. IsCountedMore S.cmp tuple.now id page.old page.new)) }
    ensures too_many { IsErrOf result VisitError.TooMany → IsFull S.cmp page.old tuple.now }
    ensures err { OnErr result (page.new ≡ page.old) }
    ensures as_many { length page.new ≡ length page.old }
    ensures steps { steps.new ≡ steps.old + 1 }
{
    let Some(bucket) = page.get_mut(tuple, steps) else {
        return Ok(None);
    };
    bucket.count = bucket.count.checked_add(1).ok_or(VisitError::TooMany)?;
    Ok(Some(bucket.id))
}

// Makes room for a new tuple on a full page, in the place of the greatest that is above it. Whether
// there is room.
fn make_room<S: Ord + Hash + Clone + Drop, L: Ledger>(
    page: &mut LazyHeapMap<S, Bucket>,
    tuple: &S,
    size: usize,
    steps: &mut Steps<L>,
) -> Result<bool, OutOfMemory>
    requires clones { (t q : S) → S.is_clone t q → q ≡ t }
    requires absent { IsAbsent S.cmp page.old tuple.now }
    ensures room { IfOk result (λ room. room ≡ true
        → HasRoom S.cmp size tuple.now page.old page.new) }
    ensures none { IfOk result (λ room. room ≡ false
        → (page.new ≡ page.old) × IsAbove S.cmp size page.old tuple.now) }
    ensures err { OnErr result (page.new ≡ page.old) }
    ensures no_more { length page.new ≤ length page.old }
    ensures most { steps.new ≤ steps.old + 1 }
    ensures least { steps.old ≤ steps.new }
{
    if page.size() < size {
        return Ok(true);
    }
    page.evict_above(tuple, steps)
}

// Opens a bucket of a new tuple, with one document. This is one step.
fn open<S: Ord + Hash + Clone + Drop, L: Ledger>(
    page: &mut LazyHeapMap<S, Bucket>,
    tuple: &S,
    id: BucketId,
    steps: &mut Steps<L>,
) -> Result<(), OutOfMemory>
    requires clones { (t q : S) → S.is_clone t q → q ≡ t }
    requires absent { lookup (is_at (S.cmp tuple.now)) page.old ≡ None }
    ensures ok { OnOk result (page.new ≡ insert_entry S.cmp page.old tuple.now (opened id)) }
    ensures err { OnErr result (page.new ≡ page.old) }
    ensures one_more { length page.new ≤ length page.old + 1 }
    ensures most { steps.new ≤ steps.old + 1 }
    ensures least { steps.old ≤ steps.new }
{
    page.insert_new(tuple.clone()?, Bucket { count: 1, id }, steps)
}
