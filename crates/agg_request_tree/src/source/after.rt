//! The after values of sources.
ghost use Rattle.std.specs.Prelude.{◌≡◌, ◌↔◌, IsTrue, MatchBool, option_map};
ghost use Rattle.agg_request_tree.specs.Faults.{IsNullAfter, IsOfOtherType, IsOtherAfter};
ghost use Rattle.agg_request_tree.specs.Source.{after_of};

use crate::CompositeAggregationSource;
use agg_values::{AfterKey, CompositeIntermediateKey, NameMap};

impl CompositeAggregationSource {
    /// The after value of the source, by its name.
    pub fn after_value<'a>(
        &self,
        after: &'a NameMap<AfterKey>,
    ) -> Option<&'a CompositeIntermediateKey>
        ensures { option_map (λ k. k.now) result ≡ after_of after.now self.now }
    {
        Some(&after.get(self.name())?.0)
    }

    /// Whether an after value is Null, and documents without a value have no bucket.
    pub fn is_null_after(&self, after_opt: Option<&CompositeIntermediateKey>) -> bool
        ensures { IsTrue result ↔ IsNullAfter self.now (option_map (λ k. k.now) after_opt.entry) }
    {
        match after_opt {
            Some(CompositeIntermediateKey::Null) => !self.missing_bucket(),
            _ => false,
        }
    }

    /// Whether an after value is neither Null nor of the type of the source's keys.
    pub fn is_other_after(&self, after_opt: Option<&CompositeIntermediateKey>) -> bool
        ensures { MatchBool result
            (IsOtherAfter self.now (option_map (λ k. k.now) after_opt.entry))
            (¬ (IsOtherAfter self.now (option_map (λ k. k.now) after_opt.entry))) }
    {
        match after_opt {
            Some(after) => is_of_other_type(self, after),
            None => false,
        }
    }
}

// Whether a key is neither Null nor of the type of a source's keys.
fn is_of_other_type(source: &CompositeAggregationSource, key: &CompositeIntermediateKey) -> bool
    ensures { MatchBool result (IsOfOtherType source.now key.now)
        (¬ (IsOfOtherType source.now key.now)) }
{
    match source {
        CompositeAggregationSource::Terms(_) => false,
        CompositeAggregationSource::Histogram(_) => !matches!(
            key,
            CompositeIntermediateKey::I64(_)
                | CompositeIntermediateKey::U64(_)
                | CompositeIntermediateKey::Null
        ),
        CompositeAggregationSource::DateHistogram(_) => !matches!(
            key,
            CompositeIntermediateKey::DateTime(_) | CompositeIntermediateKey::Null
        ),
    }
}
