//! Sums of how many documents the aggregations of a request list.
ghost use Rattle.std.specs.Prelude.{◌≡◌, ◌≤◌, ◌+◌, ◌++◌, ◌^◌, ◌↔◌, List, Any, IsTrue, length, map};
ghost use Rattle.std.specs.Prelude.{zip};
ghost use Rattle.std.specs.Io.Iter.{u64_saturate};
ghost use Rattle.agg_segment.specs.storage.Document.{Fields};
ghost use Rattle.agg_segment.specs.Query.{matches};
ghost use Rattle.agg_segment.specs.declared.query.QueryTree.{QueryTree};
ghost use Rattle.agg_request_tree.specs.Request.{Request};
ghost use Rattle.agg_request_tree.specs.Uncut.{CountsTooMany};
ghost use Rattle.agg_engine_tree.specs.uncut.Uncut.{uncut_lengths};

use std::marker::Model;

// So many documents are too many.
const TOO_MANY: u64 = 1 << 32;

/// How many documents each aggregation of a request lists, summed up over blocks of documents.
/// Contracts see it as the list of these counts, each of which ends at the greatest u64.
#[derive(Debug, Drop)]
pub struct UncutCounts {
    counts: Vec<u64>,
}

impl Model for UncutCounts {
    ghost use Rattle.std.specs.Prelude.{ℕ, List};

    ghost Value = { List ℕ };

    ghost view = { λ sums. sums.counts.items };
}

impl UncutCounts {
    /// The counts of a block, as `uncut_lengths` gives them. Those of no documents are all 0.
    pub fn new(counts: Vec<u64>) -> UncutCounts
        ensures { result ≡ counts.items }
    {
        UncutCounts { counts }
    }

    /// Adds the counts of another block, aggregation by aggregation.
    pub fn add(&mut self, counts: &[u64])
        ensures sums { length self.old ≡ length counts.now
            → self.new ≡ map (λ p. u64_saturate (p.0 + p.1)) (zip self.old counts.now) }
        ensures documents { (request : Request QueryTree) (documents : List Fields)
            (others : List Fields) → self.old ≡ uncut_lengths request documents
            → counts.now ≡ uncut_lengths request others
            → self.new ≡ uncut_lengths request (documents ++ others) }
    {
        for (index, count) in self.counts.iter_mut().enumerate() {
            *count = count.saturating_add(counts.get(index).copied().unwrap_or(0));
        }
    }

    /// Whether an aggregation lists 2^32 documents or more, which are too many.
    pub fn is_too_many(&self) -> bool
        ensures limit { IsTrue result ↔ Any (λ count. 2 ^ 32 ≤ count) self.now }
        ensures documents { (request : Request QueryTree) (documents : List Fields)
            → self.now ≡ uncut_lengths request documents
            → IsTrue result ↔ CountsTooMany matches request documents }
    {
        self.counts.iter().any(|count| *count >= TOO_MANY)
    }

    /// The counts, an aggregation before those below it.
    pub fn as_slice(&self) -> &[u64]
        ensures { result.now ≡ self.now }
    {
        &self.counts
    }
}
