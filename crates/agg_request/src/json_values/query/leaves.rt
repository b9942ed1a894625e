//! Filters with no filters inside.
ghost use Rattle.std.specs.Prelude.{codes};
ghost use Rattle.serde_json.specs.View.{view};
ghost use Rattle.agg_request.specs.json_values.Query.{IsBound, IsExists};
ghost use Rattle.agg_request.specs.json_values.Unsupported.{HasUnsupportedAt, HasUnsupportedBound};
ghost use Rattle.agg_request.specs.json_values.Unsupported.{HasUnsupportedEnd};
ghost use Rattle.agg_request.specs.json_values.Query.{IsPlain, IsRange, IsTerm};
ghost use Rattle.agg_request.specs.json_values.Reading.{IsReading};

use super::values::read_value_at;
use crate::json_values::ReadError;
use crate::json_values::members::{has_only, read_field};
use agg_segment::{QueryTree, RangeBound};
use serde_json::Value;
use std::alloc::Global;

/// This query, where the body has no members.
pub fn read_plain(body: &Value, tree: QueryTree) -> Result<QueryTree, ReadError>
    ensures { IsReading (λ lenient. IsPlain tree (view body.now)) ⊥ result }
{
    if !has_only(body, &[]) {
        return Err(ReadError::Grammar);
    }
    Ok(tree)
}

/// A query for a value.
pub fn read_term(alloc: Global, body: &Value) -> Result<QueryTree, ReadError>
    ensures { IsReading (λ lenient. IsTerm lenient (view body.now))
        (HasUnsupportedAt (codes "value") (view body.now)) result }
{
    if !has_only(body, &["field", "value"]) {
        return Err(ReadError::Grammar);
    }
    let field = read_field(alloc, body)?;
    let value = read_value_at(alloc, body, "value")?;
    Ok(QueryTree::Term { field, value })
}

/// A query for values between bounds.
pub fn read_range(alloc: Global, body: &Value) -> Result<QueryTree, ReadError>
    ensures { IsReading (λ lenient. IsRange lenient (view body.now))
        (HasUnsupportedBound (view body.now)) result }
{
    if !has_only(body, &["field", "gt", "gte", "lt", "lte"]) {
        return Err(ReadError::Grammar);
    }
    let field = read_field(alloc, body)?;
    let lower = read_bound(alloc, body, "gte", "gt")?;
    let upper = read_bound(alloc, body, "lte", "lt")?;
    Ok(QueryTree::Range {
        field,
        lower,
        upper,
    })
}

/// A query for any value.
pub fn read_exists(alloc: Global, body: &Value) -> Result<QueryTree, ReadError>
    ensures { IsReading (λ lenient. IsExists (view body.now)) ⊥ result }
{
    if !has_only(body, &["field"]) {
        return Err(ReadError::Grammar);
    }
    Ok(QueryTree::Exists {
        field: read_field(alloc, body)?,
    })
}

// The bound at the one of two members that is there.
fn read_bound(
    alloc: Global,
    body: &Value,
    including: &str,
    excluding: &str,
) -> Result<RangeBound, ReadError>
    ensures { IsReading (λ lenient. IsBound lenient including.now excluding.now (view body.now))
        (HasUnsupportedEnd including.now excluding.now (view body.now)) result }
{
    match (body.get(including).is_some(), body.get(excluding).is_some()) {
        (false, false) => Ok(RangeBound::Unbounded),
        (true, false) => Ok(RangeBound::Included(read_value_at(alloc, body, including)?)),
        (false, true) => Ok(RangeBound::Excluded(read_value_at(alloc, body, excluding)?)),
        (true, true) => Err(ReadError::Grammar),
    }
}
