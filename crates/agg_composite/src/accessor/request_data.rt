//! What a collector is asked in a segment.
ghost use Rattle.std.specs.Prelude.{◌≡◌, ◌+◌, ◌*◌, ◌-◌, ◌^◌, MatchBool, length, min};
ghost use Rattle.std.specs.Io.Iter.{u64_saturate};
ghost use Rattle.agg_values.specs.Names.{Named};
ghost use Rattle.agg_values.specs.declared.after_key.AfterKey.{AfterKey};
ghost use Rattle.agg_segment.specs.Segment.{Stored, documents_at};
ghost use Rattle.agg_request_tree.specs.Uncut.{counted};
ghost use Rattle.agg_composite.specs.accessor.Accessors.{Fits};
ghost use Rattle.agg_composite.specs.accessor.Ranges.{AreAllInRange};

use crate::accessor::CompositeSourceAccessors;
use crate::accessor::occurrences::count_occurrences;
use crate::accessor::ranges::are_sources_in_range;
use agg_request_tree::CompositeAggregation;
use agg_values::{DocId, ItemList, Text};

/// A composite in a segment: how many groups its page has room for, and the accessors of each of
/// its sources. They say where the page begins, not the composite's own after key.
#[derive(Drop)]
pub struct CompositeAggReqData<'s> {
    pub name: Text,
    pub req: &'s CompositeAggregation,
    pub size: u32,
    pub composite_accessors: ItemList<CompositeSourceAccessors<'s>>,
}

impl<'s> CompositeAggReqData<'s> {
    /// How many bytes of a memory limit it takes: 256, and 256 for each source.
    pub fn get_memory_consumption(&self) -> u64
        ensures { result
            ≡ min (256 * (1 + length self.now.req.now.sources)) (2 ^ 64 - 1) }
    {
        let parts = (self.req.sources.as_slice().len() as u64).saturating_add(1);
        parts.saturating_mul(256)
    }

    /// Whether the starts of all values that the sources read in the documents of these numbers
    /// lie within 64 bits.
    pub fn are_starts_in_range(&self, docs: &[DocId]) -> bool
        requires { (segment : Stored) × (after : Named AfterKey) × Fits segment after self.now }
        ensures { (segment : Stored) (after : Named AfterKey) → Fits segment after self.now
            → MatchBool result
            (AreAllInRange segment self.now.req.now.sources docs.now)
            (¬ (AreAllInRange segment self.now.req.now.sources docs.now)) }
    {
        let sources = self.req.sources.as_slice();
        are_sources_in_range(sources, self.composite_accessors.as_slice(), docs)
    }

    /// How many documents of these numbers the composite counts, without bound or size: each once
    /// for each of its occurrences. The count ends at the greatest u64.
    pub fn count_occurrences(&self, docs: &[DocId]) -> u64
        requires { (segment : Stored) × (after : Named AfterKey) × Fits segment after self.now }
        ensures { (segment : Stored) (after : Named AfterKey) → Fits segment after self.now
            → result ≡ u64_saturate
            (length (counted self.now.req.now (documents_at segment docs.now))) }
    {
        let sources = self.req.sources.as_slice();
        count_occurrences(sources, self.composite_accessors.as_slice(), docs)
    }
}
