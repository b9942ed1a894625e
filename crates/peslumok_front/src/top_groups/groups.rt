//! The groups with the most documents.
ghost use Rattle.std.specs.Prelude.{◌≡◌, ◌≤◌, ◌++◌, ◌∷◌, [], List, OnOk, length, nat_lt, vec_len};
ghost use Rattle.std.specs.List.{position_or_len};
ghost use Rattle.std.specs.List.Sorted.{IsSortedBy};
ghost use Rattle.agg_results.specs.declared.final_results.types.CompositeBucketEntry.{
  CompositeBucketEntry,
};
ghost use Rattle.peslumok_front.specs.top_groups.Top.{AreTop, has_more};

use agg_results::final_results::CompositeBucketEntry;
use agg_values::OutOfMemory;
use std::alloc::Global;

/// The groups with the most documents, of those that were added: most first, and those with as many
/// in the order in which they were added.
#[derive(Drop)]
pub struct TopGroups {
    /// How many there are at most.
    pub count: usize,
    /// Of the groups that were added, those with the most documents.
    pub groups: Vec<CompositeBucketEntry>,
    ghost few: { vec_len groups ≤ count },
}

impl TopGroups {
    /// No groups, with room for so many.
    pub fn new(alloc: Global, count: u32) -> TopGroups
        ensures count { result.count ≡ count }
        ensures groups { AreTop count [] result.groups.items }
    {
        TopGroups {
            count: count as usize,
            groups: Vec::new(alloc),
        }
    }

    /// The groups.
    pub fn as_slice(&self) -> &[CompositeBucketEntry]
        ensures { result.now ≡ self.now.groups.items }
    {
        self.groups.as_slice()
    }

    /// Adds groups.
    pub fn add_all(&mut self, groups: Vec<CompositeBucketEntry>) -> Result<(), OutOfMemory>
        ensures count { self.new.count ≡ self.old.count }
        ensures groups { OnOk result ((before : List CompositeBucketEntry)
            → AreTop self.old.count before self.old.groups.items
            → AreTop self.old.count (before ++ groups.items) self.new.groups.items) }
    {
        for group in groups {
            self.add(group)?;
        }
        Ok(())
    }

    // Adds a group.
    fn add(&mut self, group: CompositeBucketEntry) -> Result<(), OutOfMemory>
        ensures count { self.new.count ≡ self.old.count }
        ensures groups { OnOk result ((before : List CompositeBucketEntry)
            → AreTop self.old.count before self.old.groups.items
            → AreTop self.old.count (before ++ group ∷ []) self.new.groups.items) }
    {
        let place = rank_of(&self.groups, group.doc_count);
        if place >= self.count {
            return Ok(());
        }
        if self.groups.len() == self.count {
            self.groups.truncate(self.count - 1);
        }
        self.groups.insert(place, group)?;
        Ok(())
    }
}

// The place of a group of so many documents: after each that has as many or more.
fn rank_of(groups: &[CompositeBucketEntry], doc_count: u64) -> usize
    ensures place { IsSortedBy has_more groups.now
        → result ≡ position_or_len (λ g. nat_lt g.doc_count doc_count) groups.now }
    ensures within { result ≤ length groups.now }
{
    if let Some(last) = groups.last()
        && last.doc_count >= doc_count
    {
        return groups.len();
    }
    groups.partition_point(|group| group.doc_count >= doc_count)
}
