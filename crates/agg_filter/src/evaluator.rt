//! The documents of a segment that a query matches, by their numbers.
ghost use Rattle.std.specs.Prelude.{◌≡◌, ◌++◌, IfOk, OnOk, filter, length};
ghost use Rattle.agg_filter.specs.Matching.{is_matching};
ghost use Rattle.agg_segment.specs.Marks.{AreMarks, mark_at};
ghost use Rattle.agg_segment.specs.Query.{matches};
ghost use Rattle.agg_segment.specs.Segment.{Stored};
ghost use Rattle.agg_segment.specs.declared.query.QueryTree.{QueryTree};

use agg_segment::{Matches, QueryTree, SegmentReader};
use agg_values::{DocId, ItemList, OutOfMemory};
use std::alloc::Global;
use std::marker::Model;

/// Tells the documents of a segment that a query matches, seen by contracts as a truth value for
/// each document. The query is matched once, when the evaluator is made.
#[derive(Drop)]
pub struct DocumentQueryEvaluator {
    matching: Matches,
    num_docs: u32,
}

impl Model for DocumentQueryEvaluator {
    ghost use Rattle.std.specs.Prelude.{◌≡◌, Bool, List, length};

    ghost Value = { List Bool };

    ghost view = { λ evaluator. evaluator.matching };

    ghost invariant = { λ evaluator. evaluator.num_docs ≡ length evaluator.matching };
}

impl DocumentQueryEvaluator {
    /// The evaluator of a query in a segment.
    pub fn new(
        alloc: Global,
        tree: &QueryTree,
        segment: &SegmentReader,
    ) -> Result<DocumentQueryEvaluator, OutOfMemory>
        ensures { IfOk result (AreMarks (matches tree.now) segment.now) }
    {
        Ok(DocumentQueryEvaluator {
            matching: Matches::new(alloc, tree, segment)?,
            num_docs: segment.num_docs(),
        })
    }

    /// Whether a document of the segment has this number, which the query matches.
    pub fn matches_document(&self, doc: DocId) -> bool
        ensures mark { result ≡ mark_at self.now doc }
        ensures query { (tree : QueryTree) (segment : Stored)
            → AreMarks (matches tree) segment self.now → result ≡ is_matching tree segment doc }
    {
        self.matching.contains(doc)
    }

    /// Appends the matching documents, in order, as often as they stand there.
    pub fn filter_batch(
        &self,
        docs: &[DocId],
        output: &mut ItemList<DocId>,
    ) -> Result<(), OutOfMemory>
        ensures marked { OnOk result
            (output.new ≡ output.old ++ filter (mark_at self.now) docs.now) }
        ensures matching { (tree : QueryTree) (segment : Stored)
            → AreMarks (matches tree) segment self.now
            → OnOk result (output.new ≡ output.old ++ filter (is_matching tree segment) docs.now) }
    {
        for doc in docs {
            if self.matches_document(*doc) {
                output.push(*doc)?;
            }
        }
        Ok(())
    }

    /// The number of documents of the segment.
    pub(crate) fn num_docs(&self) -> u32
        ensures { result ≡ length self.now }
    {
        self.num_docs
    }
}
