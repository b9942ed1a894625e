//! Queries from JSON.
ghost use Rattle.std.specs.Prelude.{◌≡◌, ◌≢◌, ◌<◌, ◌⊎◌, ℕ, [], Err, IfOk, IsErrOf};
ghost use Rattle.serde_json.specs.Data.{depth, items_depth};
ghost use Rattle.serde_json.specs.View.{view, items_view};
ghost use Rattle.agg_request.specs.json_values.Json.{EachIs};
ghost use Rattle.agg_request.specs.json_values.Json.{IsListAt};
ghost use Rattle.agg_request.specs.json_values.Unsupported.{HasUnsupportedItem, HasUnsupportedList};
ghost use Rattle.agg_request.specs.json_values.Unsupported.{HasUnsupportedBody};
ghost use Rattle.agg_request.specs.json_values.Unsupported.{HasUnsupportedFilter, HasUnsupportedIn};
ghost use Rattle.agg_request.specs.json_values.Unsupported.{HasUnsupportedQuery};
ghost use Rattle.agg_request.specs.json_values.Query.{IsBoolean, IsFilter, IsNoQueryAtAll};
ghost use Rattle.agg_request.specs.json_values.Query.{IsOfKind, IsQuery};
ghost use Rattle.agg_values.specs.Nothing.{NoneIs};
ghost use Rattle.agg_request.specs.json_values.Reading.{IsReading};

mod leaves;
mod values;

use crate::json_values::ReadError;
use crate::json_values::json_value::only_member;
use crate::json_values::members::has_only;
use agg_segment::QueryTree;
use agg_values::{ItemList, OutOfMemory};
use leaves::{read_exists, read_plain, read_range, read_term};
use serde_json::Value;
use std::alloc::Global;

/// The query that a JSON value says. A text in place of a query, and a value of a type that isn't
/// supported, are refused as such.
pub fn read_query(alloc: Global, value: &Value) -> Result<QueryTree, ReadError>
    ensures ok { IfOk result (IsQuery (view value.now)) }
    ensures unsupported { IsErrOf result ReadError.Unsupported
        → HasUnsupportedQuery (view value.now) }
    ensures grammar { IsErrOf result ReadError.Grammar → IsNoQueryAtAll (view value.now) }
    ensures none { IsErrOf result ReadError.Unsupported ⊎ IsErrOf result ReadError.Grammar
        → NoneIs (IsQuery (view value.now)) }
    ensures kinds { result ≢ Err ReadError.UnknownBuilder }
{
    if value.as_str().is_some() {
        return Err(ReadError::Unsupported);
    }
    read_filter(alloc, value)
}

#[cycle(filters)]
fn read_filter(alloc: Global, value: &Value) -> Result<QueryTree, ReadError>
    ensures { (n : ℕ) → depth (view value.now) < n
        → IsReading (λ lenient. IsFilter lenient n (view value.now))
        (HasUnsupportedFilter n (view value.now)) result }
{
    let Some((kind, body)) = only_member(value) else {
        return Err(ReadError::Grammar);
    };
    read_kind(alloc, kind, body)
}

#[cycle(filters)]
fn read_kind(alloc: Global, kind: &str, body: &Value) -> Result<QueryTree, ReadError>
    ensures { (n : ℕ) → depth (view body.now) < n
        → IsReading (λ lenient. IsOfKind lenient (IsFilter lenient n) kind.now (view body.now))
        (HasUnsupportedIn (HasUnsupportedFilter n) kind.now (view body.now)) result }
{
    match kind {
        "all" => read_plain(body, QueryTree::All),
        "empty" => read_plain(body, QueryTree::Empty),
        "term" => read_term(alloc, body),
        "range" => read_range(alloc, body),
        "exists" => read_exists(alloc, body),
        "bool" => read_bool(alloc, body),
        _ => Err(ReadError::Grammar),
    }
}

#[cycle(filters)]
fn read_bool(alloc: Global, body: &Value) -> Result<QueryTree, ReadError>
    ensures { (n : ℕ) → depth (view body.now) < n
        → IsReading (λ lenient. IsBoolean (IsFilter lenient n) (view body.now))
        (HasUnsupportedBody (HasUnsupportedFilter n) (view body.now)) result }
{
    if !has_only(body, &["must", "should", "must_not"]) {
        return Err(ReadError::Grammar);
    }
    let must = read_list(alloc, body, "must")?;
    let should = read_list(alloc, body, "should")?;
    let must_not = read_list(alloc, body, "must_not")?;
    Ok(QueryTree::Boolean {
        must,
        should,
        must_not,
    })
}

// The filters at a member, none where it is absent.
#[cycle(filters)]
fn read_list(alloc: Global, body: &Value, name: &str) -> Result<ItemList<QueryTree>, ReadError>
    ensures { (n : ℕ) → depth (view body.now) < n
        → IsReading (λ lenient. IsListAt (IsFilter lenient n) name.now (view body.now))
        (HasUnsupportedList (HasUnsupportedFilter n) name.now (view body.now)) result }
{
    let Some(found) = body.get(name) else {
        return Ok(ItemList::new(alloc));
    };
    let Some(items) = found.as_array() else {
        return Err(ReadError::Grammar);
    };
    read_items(alloc, items.as_slice())
}

#[cycle(filters)]
fn read_items(alloc: Global, items: &[Value]) -> Result<ItemList<QueryTree>, ReadError>
    ensures { (n : ℕ) → items_depth (items_view items.now) < n
        → IsReading (λ lenient. EachIs (IsFilter lenient n) (items_view items.now))
        (HasUnsupportedItem (HasUnsupportedFilter n) (items_view items.now)) result }
{
    let mut trees = room_for(alloc, items.len())?;
    for item in items {
        trees.push(read_filter(alloc, item)?)?;
    }
    Ok(trees)
}

// The empty list, with room for so many queries.
fn room_for(alloc: Global, count: usize) -> Result<ItemList<QueryTree>, OutOfMemory>
    ensures { IfOk result (λ trees. trees ≡ []) }
{
    Ok(ItemList::from_vec(Vec::with_capacity(alloc, count)?))
}
