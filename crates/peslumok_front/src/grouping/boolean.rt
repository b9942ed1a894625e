//! Queries of other queries.
ghost use Rattle.std.specs.Prelude.{◌≡◌, IfOk, not};
ghost use Rattle.agg_segment.specs.storage.Document.{Fields};
ghost use Rattle.agg_segment.specs.Query.{all_match, matches, some_matches};

use agg_segment::QueryTree;
use agg_values::{ItemList, OutOfMemory};
use std::alloc::Global;

/// The query of what all of these match.
pub(crate) fn all_of(alloc: Global, must: ItemList<QueryTree>) -> QueryTree
    ensures { (document : Fields) → matches result document ≡ all_match matches must document }
{
    if must.as_slice().is_empty() {
        return QueryTree::All;
    }
    QueryTree::Boolean {
        must,
        should: ItemList::new(alloc),
        must_not: ItemList::new(alloc),
    }
}

/// The query of what some of these matches.
pub(crate) fn some_of(alloc: Global, should: ItemList<QueryTree>) -> QueryTree
    ensures { (document : Fields)
        → matches result document ≡ some_matches matches should document }
{
    QueryTree::Boolean {
        must: ItemList::new(alloc),
        should,
        must_not: ItemList::new(alloc),
    }
}

/// The query of what this one does not match.
pub(crate) fn none_of(alloc: Global, tree: QueryTree) -> Result<QueryTree, OutOfMemory>
    ensures { IfOk result (λ query. (document : Fields)
        → matches query document ≡ not (matches tree document)) }
{
    let mut must = ItemList::new(alloc);
    must.push(QueryTree::All)?;
    let mut must_not = ItemList::new(alloc);
    must_not.push(tree)?;
    Ok(QueryTree::Boolean {
        must,
        should: ItemList::new(alloc),
        must_not,
    })
}
