//! Requests to JSON.
ghost use Rattle.std.specs.Prelude.{◌≡◌, IfOk, OnOk, true};
ghost use Rattle.serde_json.specs.View.{members_view, view};
ghost use Rattle.agg_request.specs.json_values.Json.{EachNamedIs};
ghost use Rattle.agg_request.specs.Written.{all_may_be_written, may_be_written};
ghost use Rattle.agg_request.specs.ReadBack.{IsWritten, ReadsBack, SaysAggregation};
ghost use Rattle.agg_request.specs.WrittenJson.{data_of_aggregation, data_of_request, with_below};

mod composite;
mod kind;
mod objects;
mod query;
mod sources;
mod words;
mod writable;

use crate::reading::HasName;
use agg_request_tree::{Aggregation, Aggregations};
use agg_values::{NameMap, OutOfMemory};
use kind::{kind_word, write_kind};
use serde_json::{Map, Value, put};
use std::alloc::Global;
pub use writable::may_be_written;

/// The JSON value that says a request that `may_be_written` accepts: read with builders of the same
/// names as the request's, in the order in which it lists them, it is the same request with these
/// in their places.
pub fn write_aggregations(alloc: Global, request: &Aggregations) -> Result<Value, OutOfMemory>
    requires { all_may_be_written request.now ≡ true }
    ensures written { IfOk result
        (λ value. view value ≡ data_of_request (λ b. b.name) request.now) }
    ensures back { IfOk result (λ value. ReadsBack (λ b. b.name) (view value) request.now) }
{
    Ok(Value::from(write_request(alloc, request)?))
}

// The aggregations by their names.
#[cycle(written)]
fn write_request<B: HasName>(
    alloc: Global,
    request: &NameMap<Aggregation<B>>,
) -> Result<Map<String, Value>, OutOfMemory>
    requires { all_may_be_written request.now ≡ true }
    ensures { IfOk result (λ members. EachNamedIs
        (IsWritten (data_of_aggregation B.name_of) (SaysAggregation B.name_of))
        (members_view members.entries) request.now) }
{
    let mut members = Map::new(alloc);
    for (name, aggregation) in request.iter() {
        put(
            &mut members,
            alloc,
            name.as_str(),
            write_aggregation(alloc, aggregation)?,
        )?;
    }
    Ok(members)
}

// An aggregation: its kind, and those below it.
#[cycle(written)]
fn write_aggregation<B: HasName>(
    alloc: Global,
    aggregation: &Aggregation<B>,
) -> Result<Value, OutOfMemory>
    requires { may_be_written aggregation.now ≡ true }
    ensures { IfOk result (λ value. IsWritten (data_of_aggregation B.name_of)
        (SaysAggregation B.name_of) (view value) aggregation.now) }
{
    let body = write_kind(alloc, &aggregation.agg)?;
    let mut members = Map::new(alloc);
    put(&mut members, alloc, kind_word(&aggregation.agg), body)?;
    put_below(
        alloc,
        &mut members,
        write_request(alloc, &aggregation.sub_aggregation)?,
    )?;
    Ok(Value::from(members))
}

// Adds the aggregations below, where there are any.
fn put_below(
    alloc: Global,
    members: &mut Map<String, Value>,
    below: Map<String, Value>,
) -> Result<(), OutOfMemory>
    ensures { OnOk result (members_view members.new.entries
        ≡ with_below (members_view below.entries) (members_view members.old.entries)) }
{
    if !below.is_empty() {
        put(members, alloc, "aggs", Value::from(below))?;
    }
    Ok(())
}
