ghost use Rattle.std.specs.Prelude.{◌≡◌, ◌≢◌, ◌<◌, ◌++◌, ◌∷◌, ◌↔◌, [], ℕ, Some, false, length};
ghost use Rattle.std.specs.Prelude.{All, IfOk, IsErrOf, IsTrue, OnErr, OnOk};
ghost use Rattle.std.specs.BTreeMap.{is_at};
ghost use Rattle.std.specs.List.{remove, slice_get};
ghost use Rattle.std.specs.Map.{keys_of, remove_entry, values_of};
ghost use Rattle.std.specs.declared.cmp.Ordering.TheVariants.{Less};
ghost use Rattle.std_collections.specs.Layout.Columns.{set_value_at};
ghost use Rattle.agg_values.specs.KeyOrder.{tuple_order};
ghost use Rattle.agg_results.specs.metric_results.Merges.{Merges};
ghost use Rattle.agg_results.specs.intermediate_results.Intermediate.{Entries, composite};
ghost use Rattle.agg_results.specs.intermediate_results.Intermediate.{composite_of, entries_of};
ghost use Rattle.agg_results.specs.intermediate_results.Intermediate.{orders_of, target_size_of};
ghost use Rattle.agg_results.specs.intermediate_results.Merging.{BothWithRoom, CompositesMerged};
ghost use Rattle.agg_results.specs.intermediate_results.Merging.{CountsPass, JoinEntries};
ghost use Rattle.agg_results.specs.intermediate_results.Merging.{JoinNames, MergedTo, PagesDiffer};
ghost use Rattle.agg_results.specs.intermediate_results.Merging.{PartsDiffer, PartsPass};
ghost use Rattle.agg_results.specs.intermediate_results.Merging.{ShapesDiffer, SomeOfBoth};
ghost use Rattle.agg_results.specs.intermediate_results.Merging.{SomeTied, trimmed_to};
ghost use Rattle.agg_results.specs.intermediate_results.Outcome.{BelowDiffer, EntriesPass};
ghost use Rattle.agg_results.specs.intermediate_results.Outcome.{IsMergedEntry};
ghost use Rattle.agg_results.specs.declared.intermediate_results.entry.IntermediateTermBucketEntry
    as held;

use crate::intermediate_results::merging::merge_lists;
use crate::intermediate_results::{IntermediateCompositeBucketEntry, IntermediateTermBucketEntry};
use crate::metric_results::MergeError;
use agg_values::tuple_map::TupleMap;
use agg_values::{MissingOrder, Order, OutOfMemory, Tuple};
use std::alloc::Global;

/// The lowest groups of a composite: entries by tuple, ascending by the sources' orders, and how
/// many of them a page has room for.
#[derive(Drop)]
#[cycle(held_results)]
pub struct IntermediateCompositeBucketResult {
    pub(crate) entries: TupleMap<IntermediateTermBucketEntry>,
    pub(crate) target_size: u32,
}

impl IntermediateCompositeBucketResult {
    /// A page without sources and without entries.
    pub fn new(alloc: Global, target_size: u32) -> IntermediateCompositeBucketResult
        ensures { result ≡ composite_of [] target_size [] }
    {
        IntermediateCompositeBucketResult {
            entries: TupleMap::new(alloc),
            target_size,
        }
    }

    /// Appends the order of one more source.
    pub fn add_order(
        &mut self,
        order: Order,
        missing_order: MissingOrder,
    ) -> Result<(), OutOfMemory>
        requires empty { entries_of self.now ≡ [] }
        ensures ok { OnOk result (self.new
            ≡ composite_of (orders_of self.old ++ (order, missing_order) ∷ [])
            (target_size_of self.old) []) }
        ensures err { OnErr result (self.new ≡ self.old) }
    {
        self.entries.add_order(order, missing_order)
    }

    /// Makes room for so many more entries.
    pub fn reserve(&mut self, additional: usize) -> Result<(), OutOfMemory>
        ensures { self.new ≡ self.old }
    {
        self.entries.reserve(additional)
    }

    /// Adds an entry; where the tuple is held, the two are merged. After an error the tuple isn't
    /// held. A tuple above all that are held is found to be so at once.
    pub fn add_entry(
        &mut self,
        key: Tuple,
        entry: IntermediateCompositeBucketEntry,
    ) -> Result<(), MergeError>
        requires room { target_size_of self.now ≢ 0 }
        ensures ok { OnOk result ((whole : Entries)
            × (self.new ≡ composite_of (orders_of self.old) (target_size_of self.old) whole)
            × JoinEntries (tuple_order (orders_of self.old)) IsMergedEntry
            (entries_of self.old) ((key, entry) ∷ []) whole) }
        ensures shapes { OnOk result (¬ (SomeTied (tuple_order (orders_of self.old)) BelowDiffer
            (entries_of self.old) ((key, entry) ∷ []))) }
        ensures counts { OnOk result (¬ (SomeTied (tuple_order (orders_of self.old)) EntriesPass
            (entries_of self.old) ((key, entry) ∷ []))) }
        ensures mismatch { IsErrOf result MergeError.Mismatch
            → SomeTied (tuple_order (orders_of self.old)) BelowDiffer (entries_of self.old)
            ((key, entry) ∷ []) }
        ensures too_many { IsErrOf result MergeError.TooMany
            → ¬ (SomeTied (tuple_order (orders_of self.old)) BelowDiffer (entries_of self.old)
            ((key, entry) ∷ []))
            × SomeTied (tuple_order (orders_of self.old)) EntriesPass (entries_of self.old)
            ((key, entry) ∷ []) }
        ensures left { OnErr result (self.new
            ≡ composite_of (orders_of self.old) (target_size_of self.old)
            (remove_entry (is_at (tuple_order (orders_of self.old) key))
            (entries_of self.old))) }
    {
        match self.entries.search(&key) {
            Ok(at) => self.merge_at(at, entry),
            Err(at) => {
                self.entries.insert(at, key, entry)?;
                Ok(())
            }
        }
    }

    /// Adds an entry with a tuple above all that are held.
    pub fn push_last(
        &mut self,
        key: Tuple,
        entry: IntermediateCompositeBucketEntry,
    ) -> Result<(), OutOfMemory>
        requires { All (λ k. tuple_order (orders_of self.now) k key ≡ Less)
            (keys_of (entries_of self.now)) }
        ensures ok { OnOk result (self.new
            ≡ composite_of (orders_of self.old) (target_size_of self.old)
            (entries_of self.old ++ (key, entry) ∷ [])) }
        ensures err { OnErr result (self.new ≡ self.old) }
    {
        self.entries.push_last(key, entry)
    }

    // Merges an entry into that of a place. After an error the place's is removed.
    fn merge_at(
        &mut self,
        at: usize,
        entry: IntermediateCompositeBucketEntry,
    ) -> Result<(), MergeError>
        requires within { at < length (entries_of self.now) }
        ensures ok { OnOk result ((e : held.IntermediateTermBucketEntry)
            → slice_get (values_of (entries_of self.old)) at ≡ Some e
            → ¬ (BelowDiffer e entry) × ¬ (EntriesPass e entry)
            × (w : held.IntermediateTermBucketEntry) × IsMergedEntry e entry w
            × (self.new ≡ composite_of (orders_of self.old) (target_size_of self.old)
            (set_value_at (entries_of self.old) at w))) }
        ensures mismatch { IsErrOf result MergeError.Mismatch
            → (e : held.IntermediateTermBucketEntry)
            → slice_get (values_of (entries_of self.old)) at ≡ Some e → BelowDiffer e entry }
        ensures too_many { IsErrOf result MergeError.TooMany
            → (e : held.IntermediateTermBucketEntry)
            → slice_get (values_of (entries_of self.old)) at ≡ Some e
            → ¬ (BelowDiffer e entry) × EntriesPass e entry }
        ensures left { OnErr result (self.new
            ≡ composite_of (orders_of self.old) (target_size_of self.old)
            (remove (entries_of self.old) at)) }
    {
        if let Err(error) = self.entries.value_mut(at).merge_fruits(entry) {
            self.entries.remove(at);
            return Err(error);
        }
        Ok(())
    }

    /// This and another as one: the entries of both, trimmed where they are more than twice the
    /// target size, and of one without a target size the other's. Where a sum is too large,
    /// `passed` is raised, and what is answered means nothing.
    #[cycle(merging)]
    pub(crate) fn merged_with(
        self,
        other: IntermediateCompositeBucketResult,
        passed: &mut bool,
    ) -> Result<IntermediateCompositeBucketResult, MergeError>
        ensures ok { IfOk result (λ w. Merges passed.old passed.new
            (PartsDiffer (SomeOfBoth ShapesDiffer) (composite self) (composite other))
            (PartsPass (SomeOfBoth CountsPass) (composite self) (composite other))) }
        ensures merged { IfOk result (λ w. passed.new ≡ false
            → (depth : ℕ) → CompositesMerged (JoinNames (MergedTo depth)) self other w) }
        ensures mismatch { IsErrOf result MergeError.Mismatch
            → PartsDiffer (SomeOfBoth ShapesDiffer) (composite self) (composite other) }
        ensures too_many { ¬ (IsErrOf result MergeError.TooMany) }
    {
        if self.differs_from(&other) {
            return Err(MergeError::Mismatch);
        }
        if self.target_size == 0 {
            return Ok(other);
        }
        if other.target_size == 0 {
            return Ok(self);
        }
        let target_size = self.target_size;
        let alloc = self.entries.allocator();
        let (orders, left) = self.entries.into_parts();
        let (_, right) = other.entries.into_parts();
        let entries = merge_lists(alloc, &orders, left, right, passed)?;
        let mut whole = IntermediateCompositeBucketResult {
            entries: TupleMap::from_parts(orders, entries),
            target_size,
        };
        whole.trim();
        Ok(whole)
    }

    // Whether both have room for a page, of another size or in another order.
    fn differs_from(&self, other: &IntermediateCompositeBucketResult) -> bool
        ensures { IsTrue result
            ↔ BothWithRoom (PagesDiffer self.now other.now) self.now other.now }
    {
        self.target_size > 0
            && other.target_size > 0
            && (self.target_size != other.target_size
                || self.entries.orders() != other.entries.orders())
    }

    // Where more than twice the target size is held, keeps the lowest entries, as many as it.
    fn trim(&mut self)
        ensures { self.new ≡ trimmed_to self.old (entries_of self.old) }
    {
        if self.entries.len() as u64 > 2 * u64::from(self.target_size) {
            self.entries.truncate(self.target_size as usize);
        }
    }
}
