//! Whether two queries are the same.
ghost use Rattle.std.specs.Prelude.{◌≡◌, ◌↔◌, IsTrue};

use agg_segment::{QueryTree, RangeBound};
use agg_values::ItemList;

/// Whether two queries have the same parts.
#[cycle(trees)]
pub(super) fn is_same_tree(tree: &QueryTree, other: &QueryTree) -> bool
    ensures { IsTrue result ↔ tree.now ≡ other.now }
{
    match (tree, other) {
        (QueryTree::All, QueryTree::All) | (QueryTree::Empty, QueryTree::Empty) => true,
        (QueryTree::Term { field, value }, QueryTree::Term { field: f, value: v }) => {
            field == f && value == v
        }
        (
            QueryTree::Range {
                field,
                lower,
                upper,
            },
            QueryTree::Range {
                field: f,
                lower: l,
                upper: u,
            },
        ) => field == f && is_same_bound(lower, l) && is_same_bound(upper, u),
        (QueryTree::Exists { field }, QueryTree::Exists { field: f }) => field == f,
        (
            QueryTree::Boolean {
                must,
                should,
                must_not,
            },
            QueryTree::Boolean {
                must: m,
                should: s,
                must_not: n,
            },
        ) => are_same_trees(must, m) && are_same_trees(should, s) && are_same_trees(must_not, n),
        _ => false,
    }
}

// Whether two lists have the same queries.
#[cycle(trees)]
fn are_same_trees(trees: &ItemList<QueryTree>, others: &ItemList<QueryTree>) -> bool
    ensures { IsTrue result ↔ trees.now ≡ others.now }
{
    let mut others = others.as_slice().iter();
    for tree in trees.as_slice() {
        let Some(other) = others.next() else {
            return false;
        };
        if !is_same_tree(tree, other) {
            return false;
        }
    }
    others.next().is_none()
}

// Whether two bounds have the same value on the same side.
fn is_same_bound(bound: &RangeBound, other: &RangeBound) -> bool
    ensures { IsTrue result ↔ bound.now ≡ other.now }
{
    match (bound, other) {
        (RangeBound::Unbounded, RangeBound::Unbounded) => true,
        (RangeBound::Included(value), RangeBound::Included(other)) => value == other,
        (RangeBound::Excluded(value), RangeBound::Excluded(other)) => value == other,
        _ => false,
    }
}
