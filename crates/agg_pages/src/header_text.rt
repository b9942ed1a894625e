//! The header of an input of `walk`, as a line of text.
ghost use Rattle.std.specs.Prelude.{◌≡◌, IfOk, Some, string_bytes, true};
ghost use Rattle.serde_json.specs.View.{members_view, view};
ghost use Rattle.agg_request.specs.json_values.Query.{IsQuery};
ghost use Rattle.agg_request_tree.specs.Request.{builders_of};
ghost use Rattle.agg_request.specs.Written.{all_may_be_written};
ghost use Rattle.agg_pages.specs.input_text.Header.{IsHeader, texts_of};
ghost use Rattle.agg_pages.specs.header_text.HeaderText.{HasQuery, IsHeaderText, filter_request};
ghost use Rattle.agg_pages.specs.header_text.HeaderText.{header_of, plain_members};

use agg_request::{
    Aggregation, AggregationVariants, Aggregations, FilterAggregation, FilterQuery,
    write_aggregations,
};
use agg_segment::{QueryTree, Schema};
use agg_values::{NameMap, OutOfMemory, Text};
use serde_json::{Map, Value, put};
use std::alloc::Global;

/// The line of a header without limits: read with the request's builders it is just this header,
/// unless it is nested deeper than JSON is read.
pub fn header_line(
    alloc: Global,
    request: &Aggregations,
    name: &Text,
    schema: &Schema,
    query: QueryTree,
) -> Result<String, OutOfMemory>
    requires { all_may_be_written request.now ≡ true }
    ensures { IfOk result (λ line. IsHeaderText
        (builders_of request.now) (λ b. b.name) (string_bytes line)
        (header_of request.now name.now schema.now query)) }
{
    let value = header_value(alloc, request, name, schema, query)?;
    Ok(value.to_string(alloc)?)
}

// The JSON value of a header.
fn header_value(
    alloc: Global,
    request: &Aggregations,
    name: &Text,
    schema: &Schema,
    query: QueryTree,
) -> Result<Value, OutOfMemory>
    requires { all_may_be_written request.now ≡ true }
    ensures { IfOk result (λ value. IsHeader
        (builders_of request.now) (λ b. b.name) (view value)
        (header_of request.now name.now schema.now query)) }
{
    let asked = write_aggregations(alloc, request)?;
    let named = Value::try_from_str(alloc, name.as_str())?;
    let fields = write_schema(alloc, schema)?;
    let members = plain_members(alloc, asked, named, fields)?;
    match query {
        QueryTree::All => Ok(Value::from(members)),
        query => {
            let whole = with_query(alloc, members, query)?;
            Ok(Value::from(whole))
        }
    }
}

// The members of a header of all documents.
fn plain_members(
    alloc: Global,
    request: Value,
    name: Value,
    schema: Value,
) -> Result<Map<String, Value>, OutOfMemory>
    ensures { IfOk result (λ members. members_view members.entries
        ≡ plain_members (view request) (view name) (view schema)) }
{
    let mut members = Map::new(alloc);
    put(&mut members, alloc, "name", name)?;
    put(&mut members, alloc, "request", request)?;
    put(&mut members, alloc, "schema", schema)?;
    Ok(members)
}

// The members with a query.
fn with_query(
    alloc: Global,
    mut members: Map<String, Value>,
    query: QueryTree,
) -> Result<Map<String, Value>, OutOfMemory>
    ensures { IfOk result (λ whole.
        HasQuery (members_view members.entries) query (members_view whole.entries)) }
{
    let matched = query_value(alloc, query)?;
    put(&mut members, alloc, "query", matched)?;
    Ok(members)
}

// The JSON value of a query: the body of a filter by it.
fn query_value(alloc: Global, query: QueryTree) -> Result<Value, OutOfMemory>
    ensures { IfOk result (λ value. IsQuery (view value) query) }
{
    let request: Aggregations = filter_request(alloc, query)?;
    let value = write_aggregations(alloc, &request)?;
    Ok(value["query"]["filter"].clone()?)
}

// The request of one filter, by a query.
fn filter_request<B: Drop>(
    alloc: Global,
    query: QueryTree,
) -> Result<NameMap<Aggregation<B>>, OutOfMemory>
    ensures { IfOk result (λ request. request ≡ filter_request query) }
{
    let by_query = FilterAggregation::of(FilterQuery::Tree(query));
    let filter = Aggregation {
        agg: AggregationVariants::Filter(by_query),
        sub_aggregation: NameMap::new(alloc),
    };
    let name = Text::copy_of(alloc, "query")?;
    let mut request = NameMap::new(alloc);
    request.insert(name, filter)?;
    Ok(request)
}

// The names of fields as an array.
fn write_schema(alloc: Global, schema: &Schema) -> Result<Value, OutOfMemory>
    ensures { IfOk result (λ value. texts_of (view value) ≡ Some schema.now) }
{
    let mut names = Vec::new(alloc);
    for field in schema.fields() {
        let name = Value::try_from_str(alloc, field.as_str())?;
        names.push(name)?;
    }
    Ok(Value::from(names))
}
