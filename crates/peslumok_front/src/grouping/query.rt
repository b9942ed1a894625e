//! The query of a grouping.
ghost use Rattle.std.specs.Prelude.{◌≡◌, Some, IfOk, IfErr};
ghost use Rattle.serde_json.specs.Read.{read};
ghost use Rattle.serde_json.specs.View.{view};
ghost use Rattle.agg_segment.specs.storage.Document.{Fields};
ghost use Rattle.agg_segment.specs.Query.{all_match, matches};
ghost use Rattle.peslumok_front.specs.grouping.Query.{HasNoQuery, IsQueryOf, RefusesConditions};
ghost use Rattle.peslumok_front.specs.grouping.Query.{RefusesSaid, SaysQuery, meets_all};

use crate::grouping::Grouping;
use crate::grouping::boolean::all_of;
use crate::grouping::condition::tree_of;
use crate::grouping::error::{GroupingError, QueryFault};
use agg_request::json_values::read_query;
use agg_segment::QueryTree;
use agg_values::ItemList;
use serde_json::{Category, Value};
use std::alloc::Global;

/// The query that matches the records that meet all conditions and match the query of the text.
pub fn query_of(alloc: Global, grouping: &Grouping<'_>) -> Result<QueryTree, GroupingError>
    ensures met { IfOk result (IsQueryOf grouping.now) }
    ensures cause { IfErr result (HasNoQuery grouping.now) }
{
    let mut must = trees_of(alloc, grouping)?;
    let Some(text) = grouping.query else {
        return Ok(all_of(alloc, must));
    };
    let said = query_said(alloc, text)?;
    must.push(said)?;
    Ok(all_of(alloc, must))
}

// The query of each condition.
fn trees_of(alloc: Global, grouping: &Grouping<'_>) -> Result<ItemList<QueryTree>, GroupingError>
    ensures met { IfOk result (λ trees. (document : Fields)
        → all_match matches trees document ≡ meets_all grouping.now document) }
    ensures cause { IfErr result (RefusesConditions grouping.now) }
{
    let mut trees = ItemList::new(alloc);
    for condition in grouping.conditions.iter() {
        let tree = tree_of(alloc, condition, &grouping.types)?;
        trees.push(tree)?;
    }
    Ok(trees)
}

// The query that a text says as JSON.
fn query_said(alloc: Global, text: &str) -> Result<QueryTree, GroupingError>
    ensures said { IfOk result (SaysQuery text.now) }
    ensures cause { IfErr result (RefusesSaid text.now) }
{
    let value = parse(alloc, text)?;
    Ok(read_query(alloc, &value)?)
}

// The JSON value of a text.
fn parse(alloc: Global, text: &str) -> Result<Value, GroupingError>
    ensures value { IfOk result (λ value. read text.now ≡ Some (view value)) }
    ensures cause { IfErr result (RefusesSaid text.now) }
{
    match Value::from_str(alloc, text) {
        Ok(value) => Ok(value),
        Err(error) => Err(match error.classify() {
            Category::Memory => GroupingError::OutOfMemory,
            _ => GroupingError::Query(QueryFault::NoJson {
                line: error.line(),
                column: error.column(),
            }),
        }),
    }
}
