//! Queries to JSON.
ghost use Rattle.std.specs.Prelude.{◌≡◌, IfOk, map};
ghost use Rattle.serde_json.specs.Data.{object};
ghost use Rattle.serde_json.specs.View.{items_view, view};
ghost use Rattle.agg_request.specs.json_values.Json.{EachIs};
ghost use Rattle.agg_request.specs.json_values.Query.{IsQuery};
ghost use Rattle.agg_request.specs.ReadBack.{IsWritten, SaysFilter};
ghost use Rattle.agg_request.specs.WrittenJson.{data_of_query, list_members};

mod leaves;

use super::objects::object_of;
use agg_segment::QueryTree;
use agg_values::{ItemList, OutOfMemory};
use leaves::{write_exists, write_range, write_term};
use serde_json::{Map, Value, json};
use std::alloc::Global;

/// The filter that says a query.
pub fn write_query(alloc: Global, tree: &QueryTree) -> Result<Value, OutOfMemory>
    ensures { IfOk result (λ value. IsWritten data_of_query IsQuery (view value) tree.now) }
{
    write_filter(alloc, tree)
}

#[cycle(filters)]
fn write_filter(alloc: Global, tree: &QueryTree) -> Result<Value, OutOfMemory>
    ensures { IfOk result (λ value. IsWritten data_of_query SaysFilter (view value) tree.now) }
{
    match tree {
        QueryTree::All => object_of(alloc, "all", Value::from(Map::new(alloc))),
        QueryTree::Empty => object_of(alloc, "empty", Value::from(Map::new(alloc))),
        QueryTree::Term { field, value } => {
            object_of(alloc, "term", write_term(alloc, field, value)?)
        }
        QueryTree::Range {
            field,
            lower,
            upper,
        } => object_of(alloc, "range", write_range(alloc, field, lower, upper)?),
        QueryTree::Exists { field } => object_of(alloc, "exists", write_exists(alloc, field)?),
        QueryTree::Boolean {
            must,
            should,
            must_not,
        } => {
            let must = write_trees(alloc, must)?;
            let should = write_trees(alloc, should)?;
            let must_not = write_trees(alloc, must_not)?;
            object_of(alloc, "bool", lists(alloc, must, should, must_not)?)
        }
    }
}

#[cycle(filters)]
fn write_trees(alloc: Global, trees: &ItemList<QueryTree>) -> Result<Vec<Value>, OutOfMemory>
    ensures { IfOk result (λ items.
        EachIs (IsWritten data_of_query SaysFilter) (items_view items.items) trees.now) }
{
    let mut items = Vec::new(alloc);
    for tree in trees.as_slice() {
        items.push(write_filter(alloc, tree)?)?;
    }
    Ok(items)
}

// The body of three lists of filters.
fn lists(
    alloc: Global,
    must: Vec<Value>,
    should: Vec<Value>,
    must_not: Vec<Value>,
) -> Result<Value, OutOfMemory>
    ensures { IfOk result (λ value. view value ≡ object (list_members
        (map view must.items) (map view should.items) (map view must_not.items))) }
{
    Ok(json!(in alloc; {"must": must, "must_not": must_not, "should": should})?)
}
