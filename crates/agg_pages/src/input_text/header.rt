//! The header: what a walk is asked for.
ghost use Rattle.std.specs.Prelude.{◌≡◌, ◌≤◌, Some, None, IfOk, IsErrOf};
ghost use Rattle.std.specs.Prelude.{codes};
ghost use Rattle.std.specs.Prelude.{option_and_then};
ghost use Rattle.serde_json.specs.Find.{as_str, get};
ghost use Rattle.serde_json.specs.View.{view};
ghost use Rattle.agg_request.specs.json_values.Json.{text_at};
ghost use Rattle.agg_pages.specs.input_text.Header.{IsBucketLimitOf, IsHeader, IsHeaderLine};
ghost use Rattle.agg_pages.specs.input_text.Header.{IsMemoryLimitOf, IsQueryOf, IsRequestAt};
ghost use Rattle.agg_pages.specs.input_text.Header.{counted_member, header_members, texts_of};
ghost use Rattle.agg_values.specs.Nothing.{NoneIs};

use crate::document_json::{InputError, parse};
use agg_request::json_values::json_value::{has_members, read_text, small_number};
use agg_request::{Aggregation, HasName, NamedBuilder, read_query, read_request};
use agg_segment::{QueryTree, Schema};
use agg_values::{NameMap, Text};
use serde_json::Value;
use std::alloc::Global;

/// What a walk is asked for. `B` makes the queries of filters that have none of their own.
#[derive(Drop)]
pub struct Header<B = NamedBuilder> {
    pub request: NameMap<Aggregation<B>>,
    pub name: Text,
    pub schema: Schema,
    pub query: QueryTree,
    /// The bytes that the collectors of the walk may hold, if they are limited here.
    pub memory_limit: Option<u64>,
    pub bucket_limit: Option<u32>,
}

/// The header of a line. A filter of its request takes the first unused builder of the name that it
/// asks for.
pub fn read_header<B: HasName>(
    alloc: Global,
    builders: Vec<B>,
    line: &str,
) -> Result<Header<B>, InputError>
    ensures ok { IfOk result
        (λ header. IsHeaderLine builders.items B.name_of line.now header) }
    ensures not_input { IsErrOf result InputError.NotInput
        → NoneIs (IsHeaderLine builders.items B.name_of line.now) }
{
    let value = parse(alloc, line)?;
    header_of_value(alloc, builders, &value)
}

// Exactly a request, a name and a schema, and a query, a memory limit and a bucket limit if there
// are any.
fn header_of_value<B: HasName>(
    alloc: Global,
    builders: Vec<B>,
    value: &Value,
) -> Result<Header<B>, InputError>
    ensures ok { IfOk result
        (λ header. IsHeader builders.items B.name_of (view value.now) header) }
    ensures not_input { IsErrOf result InputError.NotInput
        → NoneIs (IsHeader builders.items B.name_of (view value.now)) }
{
    if !has_members(value, header_members(value)) {
        return Err(InputError::NotInput);
    }
    let request = request_in(alloc, builders, value)?;
    let name = name_in(alloc, value)?;
    let schema = schema_in(alloc, value)?;
    let query = query_of(alloc, value)?;
    let memory_limit = memory_limit_of(value)?;
    let bucket_limit = bucket_limit_of(value)?;
    Ok(Header {
        request,
        name,
        schema,
        query,
        memory_limit,
        bucket_limit,
    })
}

// The request of a header.
fn request_in<B: HasName>(
    alloc: Global,
    builders: Vec<B>,
    value: &Value,
) -> Result<NameMap<Aggregation<B>>, InputError>
    ensures ok { IfOk result (λ request. IsRequestAt builders.items B.name_of
        (get (codes "request") (view value.now)) request) }
    ensures not_input { IsErrOf result InputError.NotInput
        → NoneIs (IsRequestAt builders.items B.name_of
        (get (codes "request") (view value.now))) }
{
    Ok(read_request(alloc, member(value, "request")?, builders)?)
}

// The name of a header.
fn name_in(alloc: Global, value: &Value) -> Result<Text, InputError>
    ensures ok { IfOk result (λ name. text_at (codes "name") (view value.now) ≡ Some name) }
    ensures not_input { IsErrOf result InputError.NotInput
        → text_at (codes "name") (view value.now) ≡ None }
{
    text_of(alloc, member(value, "name")?)
}

// The schema of a header.
fn schema_in(alloc: Global, value: &Value) -> Result<Schema, InputError>
    ensures ok { IfOk result (λ schema.
        option_and_then texts_of (get (codes "schema") (view value.now)) ≡ Some schema) }
    ensures not_input { IsErrOf result InputError.NotInput
        → option_and_then texts_of (get (codes "schema") (view value.now)) ≡ None }
{
    read_schema(alloc, member(value, "schema")?)
}

// How many members a header has.
fn header_members(value: &Value) -> usize
    ensures { result ≡ header_members (view value.now) }
{
    3 + counted_member(value, "query")
        + counted_member(value, "memory_limit")
        + counted_member(value, "bucket_limit")
}

// One, where there is a member of this name.
fn counted_member(value: &Value, name: &str) -> usize
    ensures counted { result ≡ counted_member name.now (view value.now) }
    ensures few { result ≤ 1 }
{
    usize::from(value.get(name).is_some())
}

// The query of a header, all documents where it has none.
fn query_of(alloc: Global, value: &Value) -> Result<QueryTree, InputError>
    ensures ok { IfOk result (λ query. IsQueryOf (get (codes "query") (view value.now)) query) }
    ensures not_input { IsErrOf result InputError.NotInput
        → NoneIs (IsQueryOf (get (codes "query") (view value.now))) }
{
    match value.get("query") {
        Some(query) => Ok(read_query(alloc, query)?),
        None => Ok(QueryTree::All),
    }
}

// The memory limit of a header, if it has one.
fn memory_limit_of(value: &Value) -> Result<Option<u64>, InputError>
    ensures ok { IfOk result
        (IsMemoryLimitOf (get (codes "memory_limit") (view value.now))) }
    ensures not_input { IsErrOf result InputError.NotInput
        → NoneIs (IsMemoryLimitOf (get (codes "memory_limit") (view value.now))) }
{
    match value.get("memory_limit") {
        Some(limit) => Ok(Some(limit.as_u64().ok_or(InputError::NotInput)?)),
        None => Ok(None),
    }
}

// The bucket limit of a header, if it has one.
fn bucket_limit_of(value: &Value) -> Result<Option<u32>, InputError>
    ensures ok { IfOk result
        (IsBucketLimitOf (get (codes "bucket_limit") (view value.now))) }
    ensures not_input { IsErrOf result InputError.NotInput
        → NoneIs (IsBucketLimitOf (get (codes "bucket_limit") (view value.now))) }
{
    match value.get("bucket_limit") {
        Some(limit) => Ok(Some(small_number(limit).ok_or(InputError::NotInput)?)),
        None => Ok(None),
    }
}

// The member of this name, which has to be there.
fn member<'a>(value: &'a Value, name: &str) -> Result<&'a Value, InputError>
    ensures ok { IfOk result (λ found. get name.now (view value.now) ≡ Some (view found.now)) }
    ensures not_input { IsErrOf result InputError.NotInput → get name.now (view value.now) ≡ None }
{
    value.get(name).ok_or(InputError::NotInput)
}

// The copy of a value that has to be a text.
fn text_of(alloc: Global, value: &Value) -> Result<Text, InputError>
    ensures ok { IfOk result (λ text. as_str (view value.now) ≡ Some text) }
    ensures not_input { IsErrOf result InputError.NotInput → as_str (view value.now) ≡ None }
{
    read_text(alloc, value)?.ok_or(InputError::NotInput)
}

// An array of texts.
fn read_schema(alloc: Global, value: &Value) -> Result<Schema, InputError>
    ensures ok { IfOk result (λ schema. texts_of (view value.now) ≡ Some schema) }
    ensures not_input { IsErrOf result InputError.NotInput → texts_of (view value.now) ≡ None }
{
    let names = value.as_array().ok_or(InputError::NotInput)?;
    let mut schema = Schema::new(alloc);
    for name in names {
        schema.add_field(text_of(alloc, name)?)?;
    }
    Ok(schema)
}
