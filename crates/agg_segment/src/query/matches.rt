ghost use Rattle.std.specs.Prelude.{◌≡◌, ◌&&◌, Bool, IfOk, map, filter, length, not};
ghost use Rattle.agg_segment.specs.storage.Document.{Fields};
ghost use Rattle.agg_segment.specs.Marks.{AreMarks, mark_at, marked_docs};
ghost use Rattle.agg_segment.specs.Query.{all_match, matches, some_matches};
ghost use Rattle.agg_segment.specs.Segment.{Stored, documents_at, documents_of};
ghost use Rattle.agg_segment.specs.declared.query.QueryTree.{QueryTree};

use super::QueryTree;
use super::key_test::KeyTest;
use super::marks::{add_marks, field_marks, keep_marks, same_marks, take_marks};
use crate::SegmentReader;
use agg_values::{DocId, OutOfMemory};
use std::alloc::Global;
use std::marker::Model;

/// The documents of a segment that a query matches, seen by contracts as a truth value for each
/// document.
#[derive(Drop)]
pub struct Matches {
    marks: Vec<bool>,
}

impl Model for Matches {
    ghost use Rattle.std.specs.Prelude.{List, Bool, ◌≤◌, length};
    ghost use Rattle.agg_segment.specs.SegmentLimits.{max_documents};

    ghost Value = { List Bool };

    ghost view = { λ m. m.marks.items };

    ghost invariant = { λ m. length m.marks.items ≤ max_documents };
}

impl Matches {
    /// The documents that a query matches.
    pub fn new(
        alloc: Global,
        tree: &QueryTree,
        segment: &SegmentReader,
    ) -> Result<Matches, OutOfMemory>
        ensures { IfOk result (λ found. found ≡ map (matches tree.now) (documents_of segment.now)) }
    {
        let marks = tree_marks(alloc, tree, segment)?;
        Ok(Matches { marks })
    }

    /// Whether a document is among them.
    pub fn contains(&self, doc: DocId) -> bool
        ensures { result ≡ mark_at self.now doc }
    {
        match self.marks.get(doc as usize) {
            Some(mark) => *mark,
            None => false,
        }
    }

    /// The documents, ascending.
    pub fn docs(&self, alloc: Global) -> Result<Vec<DocId>, OutOfMemory>
        ensures docs { IfOk result (λ docs. docs.items ≡ marked_docs self.now) }
        ensures documents { IfOk result (λ docs. (tree : QueryTree) (segment : Stored)
            → self.now ≡ map (matches tree) (documents_of segment)
            → documents_at segment docs.items ≡ filter (matches tree) (documents_of segment)) }
    {
        let count = self.marks.iter().filter(|mark| **mark).count();
        let mut docs = Vec::with_capacity(alloc, count)?;
        for (doc, mark) in self.marks.iter().enumerate() {
            if *mark {
                docs.push(doc as DocId)?;
            }
        }
        Ok(docs)
    }
}

#[cycle(marks)]
fn tree_marks(
    alloc: Global,
    tree: &QueryTree,
    segment: &SegmentReader,
) -> Result<Vec<bool>, OutOfMemory>
    ensures { IfOk result (λ marks. AreMarks (matches tree.now) segment.now marks.items) }
{
    match tree {
        QueryTree::All => same_marks(alloc, segment, true),
        QueryTree::Empty => same_marks(alloc, segment, false),
        QueryTree::Term { field, value } => {
            field_marks(alloc, segment, field, KeyTest::Value(value))
        }
        QueryTree::Range {
            field,
            lower,
            upper,
        } => field_marks(alloc, segment, field, KeyTest::Between(lower, upper)),
        QueryTree::Exists { field } => field_marks(alloc, segment, field, KeyTest::Any),
        QueryTree::Boolean {
            must,
            should,
            must_not,
        } => {
            if must.as_slice().is_empty() {
                let marks = any_marks(alloc, should.as_slice(), segment)?;
                return unmatched_marks(alloc, marks, must_not.as_slice(), segment);
            }
            let marks = each_marks(alloc, must.as_slice(), segment)?;
            unmatched_marks(alloc, marks, must_not.as_slice(), segment)
        }
    }
}

// The marks of documents that none of the queries matches.
#[cycle(marks)]
fn unmatched_marks(
    alloc: Global,
    mut marks: Vec<bool>,
    trees: &[QueryTree],
    segment: &SegmentReader,
) -> Result<Vec<bool>, OutOfMemory>
    requires { length marks.items ≡ length (documents_of segment.now) }
    ensures { IfOk result (λ left. (is_such : Fields → Bool)
        → AreMarks is_such segment.now marks.items
        → AreMarks (λ document. is_such document && not (some_matches matches trees.now document))
        segment.now left.items) }
{
    let others = any_marks(alloc, trees, segment)?;
    take_marks(&mut marks, &others);
    Ok(marks)
}

#[cycle(marks)]
fn each_marks(
    alloc: Global,
    trees: &[QueryTree],
    segment: &SegmentReader,
) -> Result<Vec<bool>, OutOfMemory>
    ensures { IfOk result
        (λ marks. AreMarks (all_match matches trees.now) segment.now marks.items) }
{
    let mut marks = same_marks(alloc, segment, true)?;
    for tree in trees {
        let others = tree_marks(alloc, tree, segment)?;
        keep_marks(&mut marks, &others);
    }
    Ok(marks)
}

#[cycle(marks)]
fn any_marks(
    alloc: Global,
    trees: &[QueryTree],
    segment: &SegmentReader,
) -> Result<Vec<bool>, OutOfMemory>
    ensures { IfOk result
        (λ marks. AreMarks (some_matches matches trees.now) segment.now marks.items) }
{
    let mut marks = same_marks(alloc, segment, false)?;
    for tree in trees {
        let others = tree_marks(alloc, tree, segment)?;
        add_marks(&mut marks, &others);
    }
    Ok(marks)
}
