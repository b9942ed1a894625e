ghost use Rattle.std.specs.Prelude.{◌≡◌, IfOk};

mod hit;
mod key_test;
mod laws;
mod marks;
mod matches;
mod span;

use crate::storage::FieldValue;
use agg_values::{ItemList, OutOfMemory, Text};
pub use laws::classes_match_in_any_order;
pub use matches::Matches;
use std::alloc::Global;

/// An end of a range. A value that is out of its class is on no side of it.
#[derive(Debug, Drop)]
pub enum RangeBound {
    Unbounded,
    Included(FieldValue),
    Excluded(FieldValue),
}

impl RangeBound {
    /// An equal bound.
    pub fn try_clone(&self, alloc: Global) -> Result<RangeBound, OutOfMemory>
        ensures { IfOk result (λ bound. bound ≡ self.now) }
    {
        Ok(match self {
            RangeBound::Unbounded => RangeBound::Unbounded,
            RangeBound::Included(value) => RangeBound::Included(value.try_clone(alloc)?),
            RangeBound::Excluded(value) => RangeBound::Excluded(value.try_clone(alloc)?),
        })
    }
}

/// A query, by the documents that it matches.
#[derive(Debug, Drop)]
pub enum QueryTree {
    /// Every document.
    All,
    /// No document.
    Empty,
    /// Those with this value in the field.
    Term {
        field: Text,
        value: FieldValue,
    },
    /// Those with a value of the field between the bounds.
    Range {
        field: Text,
        lower: RangeBound,
        upper: RangeBound,
    },
    /// Those with a value in the field.
    Exists {
        field: Text,
    },
    /// Those that match every `must`, or some `should` where `must` is empty, and no `must_not`.
    Boolean {
        must: ItemList<QueryTree>,
        should: ItemList<QueryTree>,
        must_not: ItemList<QueryTree>,
    },
}

impl QueryTree {
    /// An equal tree.
    #[cycle(clones)]
    pub fn try_clone(&self, alloc: Global) -> Result<QueryTree, OutOfMemory>
        ensures { IfOk result (λ tree. tree ≡ self.now) }
    {
        Ok(match self {
            QueryTree::All => QueryTree::All,
            QueryTree::Empty => QueryTree::Empty,
            QueryTree::Term { field, value } => QueryTree::Term {
                field: field.try_clone(alloc)?,
                value: value.try_clone(alloc)?,
            },
            QueryTree::Range {
                field,
                lower,
                upper,
            } => QueryTree::Range {
                field: field.try_clone(alloc)?,
                lower: lower.try_clone(alloc)?,
                upper: upper.try_clone(alloc)?,
            },
            QueryTree::Exists { field } => QueryTree::Exists {
                field: field.try_clone(alloc)?,
            },
            QueryTree::Boolean {
                must,
                should,
                must_not,
            } => QueryTree::Boolean {
                must: clone_trees(must, alloc)?,
                should: clone_trees(should, alloc)?,
                must_not: clone_trees(must_not, alloc)?,
            },
        })
    }
}

#[cycle(clones)]
fn clone_trees(
    trees: &ItemList<QueryTree>,
    alloc: Global,
) -> Result<ItemList<QueryTree>, OutOfMemory>
    ensures { IfOk result (λ copies. copies ≡ trees.now) }
{
    let trees = trees.as_slice();
    let mut copies = Vec::with_capacity(alloc, trees.len())?;
    for tree in trees {
        copies.push(tree.try_clone(alloc)?)?;
    }
    Ok(ItemList::from_vec(copies))
}
