use agg_expect::expect_equal_for;
use agg_request::{
    Aggregation, AggregationVariants, Aggregations, FilterAggregation, MaxAggregation,
    NamedBuilder, QueryBuildError, QueryBuilder, may_be_written, read_aggregations,
    write_aggregations,
};
use agg_segment::{QueryTree, Schema};
use agg_values::{NameMap, OutOfMemory, Text};
use serde_json::Value;
use std::alloc::Global;
use std::test::Fail;

// Requests, with what is written of them.
const REQUESTS: &[(&str, &str)] = &[
    ("{}", "{}"),
    (
        r#"{"b":{"max":{"field":"v"}},"a":{"value_count":{"field":""}}}"#,
        r#"{"a":{"value_count":{"field":""}},"b":{"max":{"field":"v"}}}"#,
    ),
    (
        r#"{"a":{"min":{"field":"v","missing":null}},"b":{"sum":{"field":"é\""},"aggs":{}}}"#,
        r#"{"a":{"min":{"field":"v"}},"b":{"sum":{"field":"é\""}}}"#,
    ),
    (
        r#"{"f":{"filter":{"all":{}}}}"#,
        r#"{"f":{"filter":{"all":{}}}}"#,
    ),
    (
        r#"{"f":{"filter":{"empty":{}}}}"#,
        r#"{"f":{"filter":{"empty":{}}}}"#,
    ),
    (
        r#"{"f":{"filter":{"builder":"any_field"}}}"#,
        r#"{"f":{"filter":{"builder":"any_field"}}}"#,
    ),
    (
        r#"{"f":{"filter":{"exists":{"field":"a"}}}}"#,
        r#"{"f":{"filter":{"exists":{"field":"a"}}}}"#,
    ),
    (
        r#"{"f":{"filter":{"term":{"value":"i64:-05","field":"a"}}}}"#,
        r#"{"f":{"filter":{"term":{"field":"a","value":"i64:-5"}}}}"#,
    ),
    (
        r#"{"f":{"filter":{"term":{"field":"a","value":"str:a:b"}}}}"#,
        r#"{"f":{"filter":{"term":{"field":"a","value":"str:a:b"}}}}"#,
    ),
    (
        r#"{"f":{"filter":{"term":{"field":"a","value":"ip:1.2.3.4"}}}}"#,
        r#"{"f":{"filter":{"term":{"field":"a","value":"ip:::ffff:1.2.3.4"}}}}"#,
    ),
    (
        r#"{"f":{"filter":{"range":{"field":"a"}}}}"#,
        r#"{"f":{"filter":{"range":{"field":"a"}}}}"#,
    ),
    (
        r#"{"f":{"filter":{"range":{"lte":"u64:9","gte":"u64:1","field":"a"}}}}"#,
        r#"{"f":{"filter":{"range":{"field":"a","gte":"u64:1","lte":"u64:9"}}}}"#,
    ),
    (
        r#"{"f":{"filter":{"range":{"gt":"dt:1","lt":"dt:+9","field":"a"}}}}"#,
        r#"{"f":{"filter":{"range":{"field":"a","gt":"dt:1","lt":"dt:9"}}}}"#,
    ),
    (
        r#"{"f":{"filter":{"range":{"field":"a","lt":"bool:true"}}}}"#,
        r#"{"f":{"filter":{"range":{"field":"a","lt":"bool:true"}}}}"#,
    ),
    (
        r#"{"f":{"filter":{"bool":{}}}}"#,
        r#"{"f":{"filter":{"bool":{"must":[],"should":[],"must_not":[]}}}}"#,
    ),
    (
        concat!(
            r#"{"f":{"filter":{"bool":{"should":[{"all":{}},{"empty":{}}],"#,
            r#""must_not":[{"bool":{"must":[{"exists":{"field":"b"}}]}}]}}}}"#,
        ),
        concat!(
            r#"{"f":{"filter":{"bool":{"must":[],"should":[{"all":{}},{"empty":{}}],"#,
            r#""must_not":[{"bool":{"must":[{"exists":{"field":"b"}}],"should":[],"#,
            r#""must_not":[]}}]}}}}"#,
        ),
    ),
    (
        r#"{"g":{"composite":{"sources":[],"size":0,"after":{}}}}"#,
        r#"{"g":{"composite":{"sources":[],"size":0}}}"#,
    ),
    (
        concat!(
            r#"{"g":{"composite":{"sources":[{"b":{"terms":{"field":"f","order":"desc"}}},"#,
            r#"{"a":{"terms":{"field":"g","missing_bucket":true,"missing_order":"last"}}}],"#,
            r#""size":4294967295,"after":{"b":"null:","a":"u64:05"},"format":1}}}"#,
        ),
        concat!(
            r#"{"g":{"composite":{"sources":[{"b":{"terms":{"field":"f","order":"desc","#,
            r#""missing_bucket":false,"missing_order":"default"}}},{"a":{"terms":{"field":"g","#,
            r#""order":"asc","missing_bucket":true,"missing_order":"last"}}}],"size":4294967295,"#,
            r#""after":{"b":"null:","a":"u64:5"}}}}"#,
        ),
    ),
    (
        concat!(
            r#"{"g":{"composite":{"sources":[{"a":{"histogram":{"field":"f","#,
            r#""interval":-9223372036854775808}}},{"b":{"histogram":{"field":"f","interval":5,"#,
            r#""missing_order":"first"}}}],"size":1}}}"#,
        ),
        concat!(
            r#"{"g":{"composite":{"sources":[{"a":{"histogram":{"field":"f","#,
            r#""interval":-9223372036854775808,"order":"asc","missing_bucket":false,"#,
            r#""missing_order":"default"}}},{"b":{"histogram":{"field":"f","interval":5,"#,
            r#""order":"asc","missing_bucket":false,"missing_order":"first"}}}],"size":1}}}"#,
        ),
    ),
    (
        concat!(
            r#"{"g":{"composite":{"sources":[{"a":{"date_histogram":{"field":"f","#,
            r#""fixed_interval":"1d","calendar_interval":null}}},"#,
            r#"{"b":{"date_histogram":{"field":"f","calendar_interval":"week"}}}],"size":1}}}"#,
        ),
        concat!(
            r#"{"g":{"composite":{"sources":[{"a":{"date_histogram":{"field":"f","#,
            r#""fixed_interval":"1d","order":"asc","missing_bucket":false,"#,
            r#""missing_order":"default"}}},{"b":{"date_histogram":{"field":"f","#,
            r#""calendar_interval":"week","order":"asc","missing_bucket":false,"#,
            r#""missing_order":"default"}}}],"size":1}}}"#,
        ),
    ),
    (
        concat!(
            r#"{"g":{"composite":{"sources":[{"a":{"terms":{"field":"f","min":"ip:1.2.3.4"}}},"#,
            r#"{"b":{"histogram":{"field":"f","interval":5,"min":"i64:+05"}}},"#,
            r#"{"c":{"date_histogram":{"field":"f","fixed_interval":"1d","offset":"+6h","#,
            r#""min":"dt:-0"}}},{"d":{"date_histogram":{"field":"f","#,
            r#""calendar_interval":"week","offset":null,"min":null}}}],"size":1}}}"#,
        ),
        concat!(
            r#"{"g":{"composite":{"sources":[{"a":{"terms":{"field":"f","#,
            r#""min":"ip:::ffff:1.2.3.4","order":"asc","missing_bucket":false,"#,
            r#""missing_order":"default"}}},{"b":{"histogram":{"field":"f","interval":5,"#,
            r#""min":"i64:5","order":"asc","missing_bucket":false,"#,
            r#""missing_order":"default"}}},{"c":{"date_histogram":{"field":"f","#,
            r#""fixed_interval":"1d","offset":"+6h","min":"dt:0","order":"asc","#,
            r#""missing_bucket":false,"missing_order":"default"}}},{"d":{"date_histogram":{"#,
            r#""field":"f","calendar_interval":"week","order":"asc","missing_bucket":false,"#,
            r#""missing_order":"default"}}}],"size":1}}}"#,
        ),
    ),
    (
        concat!(
            r#"{"f":{"aggs":{"g":{"filter":{"empty":{}},"aggs":{"n":{"max":{"field":"v"}}}}},"#,
            r#""filter":{"all":{}}}}"#,
        ),
        concat!(
            r#"{"f":{"aggs":{"g":{"aggs":{"n":{"max":{"field":"v"}}},"filter":{"empty":{}}}},"#,
            r#""filter":{"all":{}}}}"#,
        ),
    ),
    (
        concat!(
            r#"{"g":{"composite":{"sources":[{"a":{"terms":{"field":"a"}}},"#,
            r#"{"d":{"date_histogram":{"field":"d","calendar_interval":"month"}}}],"size":10,"#,
            r#""after":{"a":"str:x"}},"aggs":{"n":{"value_count":{"field":"v"}},"#,
            r#""f":{"filter":{"builder":"any_field"}}}}}"#,
        ),
        concat!(
            r#"{"g":{"composite":{"sources":[{"a":{"terms":{"field":"a","order":"asc","#,
            r#""missing_bucket":false,"missing_order":"default"}}},"#,
            r#"{"d":{"date_histogram":{"field":"d","calendar_interval":"month","order":"asc","#,
            r#""missing_bucket":false,"missing_order":"default"}}}],"size":10,"#,
            r#""after":{"a":"str:x"}},"aggs":{"n":{"value_count":{"field":"v"}},"#,
            r#""f":{"filter":{"builder":"any_field"}}}}}"#,
        ),
    ),
    (
        r#"{"g":{"composite":{"sources":[{"a":{"terms":{"field":"f"}}}],"size":10}}}"#,
        concat!(
            r#"{"g":{"composite":{"sources":[{"a":{"terms":{"field":"f","order":"asc","#,
            r#""missing_bucket":false,"missing_order":"default"}}}],"size":10}}}"#,
        ),
    ),
    (
        concat!(
            r#"{"g":{"composite":{"sources":[{"a":{"terms":{"field":"f","order":"asc","#,
            r#""missing_bucket":false,"missing_order":"default"}}}],"size":1,"after":{}}}}"#,
        ),
        concat!(
            r#"{"g":{"composite":{"sources":[{"a":{"terms":{"field":"f","order":"asc","#,
            r#""missing_bucket":false,"missing_order":"default"}}}],"size":1}}}"#,
        ),
    ),
    (
        concat!(
            r#"{"g":{"composite":{"sources":[{"a":{"terms":{"field":"f","order":"desc","#,
            r#""missing_bucket":true,"missing_order":"first"}}}],"size":1}}}"#,
        ),
        concat!(
            r#"{"g":{"composite":{"sources":[{"a":{"terms":{"field":"f","order":"desc","#,
            r#""missing_bucket":true,"missing_order":"first"}}}],"size":1}}}"#,
        ),
    ),
    (
        concat!(
            r#"{"g":{"composite":{"sources":[{"b":{"terms":{"field":"f","#,
            r#""missing_order":"last"}}},{"a":{"terms":{"field":"g"}}},"#,
            r#"{"b":{"terms":{"field":""}}}],"size":4294967295}}}"#,
        ),
        concat!(
            r#"{"g":{"composite":{"sources":[{"b":{"terms":{"field":"f","order":"asc","#,
            r#""missing_bucket":false,"missing_order":"last"}}},{"a":{"terms":{"field":"g","#,
            r#""order":"asc","missing_bucket":false,"missing_order":"default"}}},"#,
            r#"{"b":{"terms":{"field":"","order":"asc","missing_bucket":false,"#,
            r#""missing_order":"default"}}}],"size":4294967295}}}"#,
        ),
    ),
    (
        r#"{"g":{"composite":{"sources":[],"size":0}}}"#,
        r#"{"g":{"composite":{"sources":[],"size":0}}}"#,
    ),
    (
        concat!(
            r#"{"g":{"composite":{"sources":[{"a":{"terms":{"field":"f","size":"x"}}}],"size":1,"#,
            r#""format":null}}}"#,
        ),
        concat!(
            r#"{"g":{"composite":{"sources":[{"a":{"terms":{"field":"f","order":"asc","#,
            r#""missing_bucket":false,"missing_order":"default"}}}],"size":1}}}"#,
        ),
    ),
    (
        concat!(
            r#"{"g":{"composite":{"sources":[],"size":1,"after":{"g":"null:","f":"dt:7","#,
            r#""e":"ip:::1","d":"u64:5","c":"i64:-1","b":"str:x:y","a":"bool:true"}}}}"#,
        ),
        concat!(
            r#"{"g":{"composite":{"sources":[],"size":1,"after":{"a":"bool:true","b":"str:x:y","#,
            r#""c":"i64:-1","d":"u64:5","e":"ip:::1","f":"dt:7","g":"null:"}}}}"#,
        ),
    ),
    (
        r#"{"g":{"composite":{"sources":[],"size":1,"after":{"":"null:anything"}}}}"#,
        r#"{"g":{"composite":{"sources":[],"size":1,"after":{"":"null:"}}}}"#,
    ),
    (
        concat!(
            r#"{"g":{"composite":{"sources":[{"a":{"terms":{"field":"f","interval":0.5}}}],"#,
            r#""size":1}}}"#,
        ),
        concat!(
            r#"{"g":{"composite":{"sources":[{"a":{"terms":{"field":"f","order":"asc","#,
            r#""missing_bucket":false,"missing_order":"default"}}}],"size":1}}}"#,
        ),
    ),
    (
        concat!(
            r#"{"g":{"composite":{"sources":[{"a":{"histogram":{"field":"f","interval":5}}}],"#,
            r#""size":1}}}"#,
        ),
        concat!(
            r#"{"g":{"composite":{"sources":[{"a":{"histogram":{"field":"f","interval":5,"#,
            r#""order":"asc","missing_bucket":false,"missing_order":"default"}}}],"size":1}}}"#,
        ),
    ),
    (
        concat!(
            r#"{"g":{"composite":{"sources":[{"a":{"histogram":{"field":"f","#,
            r#""interval":-9223372036854775808,"order":"asc","missing_bucket":false,"#,
            r#""missing_order":"default"}}}],"size":1}}}"#,
        ),
        concat!(
            r#"{"g":{"composite":{"sources":[{"a":{"histogram":{"field":"f","#,
            r#""interval":-9223372036854775808,"order":"asc","missing_bucket":false,"#,
            r#""missing_order":"default"}}}],"size":1}}}"#,
        ),
    ),
    (
        concat!(
            r#"{"g":{"composite":{"sources":[{"a":{"histogram":{"field":"f","#,
            r#""interval":9223372036854775807,"order":"desc","missing_bucket":true,"#,
            r#""missing_order":"first"}}}],"size":1}}}"#,
        ),
        concat!(
            r#"{"g":{"composite":{"sources":[{"a":{"histogram":{"field":"f","#,
            r#""interval":9223372036854775807,"order":"desc","missing_bucket":true,"#,
            r#""missing_order":"first"}}}],"size":1}}}"#,
        ),
    ),
    (
        concat!(
            r#"{"g":{"composite":{"sources":[{"a":{"histogram":{"field":"","interval":0,"#,
            r#""fixed_interval":1,"offset":null}}}],"size":1}}}"#,
        ),
        concat!(
            r#"{"g":{"composite":{"sources":[{"a":{"histogram":{"field":"","interval":0,"#,
            r#""order":"asc","missing_bucket":false,"missing_order":"default"}}}],"size":1}}}"#,
        ),
    ),
    (
        concat!(
            r#"{"g":{"composite":{"sources":[{"a":{"date_histogram":{"field":"f","#,
            r#""fixed_interval":"1d"}}}],"size":1}}}"#,
        ),
        concat!(
            r#"{"g":{"composite":{"sources":[{"a":{"date_histogram":{"field":"f","#,
            r#""fixed_interval":"1d","order":"asc","missing_bucket":false,"#,
            r#""missing_order":"default"}}}],"size":1}}}"#,
        ),
    ),
    (
        concat!(
            r#"{"g":{"composite":{"sources":[{"a":{"date_histogram":{"field":"f","#,
            r#""calendar_interval":"year","order":"desc"}}}],"size":1}}}"#,
        ),
        concat!(
            r#"{"g":{"composite":{"sources":[{"a":{"date_histogram":{"field":"f","#,
            r#""calendar_interval":"year","order":"desc","missing_bucket":false,"#,
            r#""missing_order":"default"}}}],"size":1}}}"#,
        ),
    ),
    (
        concat!(
            r#"{"g":{"composite":{"sources":[{"a":{"date_histogram":{"field":"f","#,
            r#""calendar_interval":"month","missing_bucket":true}}}],"size":1}}}"#,
        ),
        concat!(
            r#"{"g":{"composite":{"sources":[{"a":{"date_histogram":{"field":"f","#,
            r#""calendar_interval":"month","order":"asc","missing_bucket":true,"#,
            r#""missing_order":"default"}}}],"size":1}}}"#,
        ),
    ),
    (
        concat!(
            r#"{"g":{"composite":{"sources":[{"a":{"date_histogram":{"field":"f","#,
            r#""calendar_interval":"week","missing_order":"last"}}}],"size":1}}}"#,
        ),
        concat!(
            r#"{"g":{"composite":{"sources":[{"a":{"date_histogram":{"field":"f","#,
            r#""calendar_interval":"week","order":"asc","missing_bucket":false,"#,
            r#""missing_order":"last"}}}],"size":1}}}"#,
        ),
    ),
    (
        concat!(
            r#"{"g":{"composite":{"sources":[{"a":{"date_histogram":{"field":"f","#,
            r#""fixed_interval":null,"calendar_interval":"month"}}}],"size":1}}}"#,
        ),
        concat!(
            r#"{"g":{"composite":{"sources":[{"a":{"date_histogram":{"field":"f","#,
            r#""calendar_interval":"month","order":"asc","missing_bucket":false,"#,
            r#""missing_order":"default"}}}],"size":1}}}"#,
        ),
    ),
    (
        concat!(
            r#"{"g":{"composite":{"sources":[{"a":{"date_histogram":{"field":"f","#,
            r#""fixed_interval":"x","calendar_interval":null}}}],"size":1}}}"#,
        ),
        concat!(
            r#"{"g":{"composite":{"sources":[{"a":{"date_histogram":{"field":"f","#,
            r#""fixed_interval":"x","order":"asc","missing_bucket":false,"#,
            r#""missing_order":"default"}}}],"size":1}}}"#,
        ),
    ),
    (
        concat!(
            r#"{"g":{"composite":{"sources":[{"a":{"date_histogram":{"field":"f","#,
            r#""fixed_interval":"1d","calendar_interval":"week"}}}],"size":1}}}"#,
        ),
        concat!(
            r#"{"g":{"composite":{"sources":[{"a":{"date_histogram":{"field":"f","#,
            r#""fixed_interval":"1d","calendar_interval":"week","order":"asc","#,
            r#""missing_bucket":false,"missing_order":"default"}}}],"size":1}}}"#,
        ),
    ),
    (
        r#"{"g":{"composite":{"sources":[{"a":{"date_histogram":{"field":"f"}}}],"size":1}}}"#,
        concat!(
            r#"{"g":{"composite":{"sources":[{"a":{"date_histogram":{"field":"f","order":"asc","#,
            r#""missing_bucket":false,"missing_order":"default"}}}],"size":1}}}"#,
        ),
    ),
    (
        concat!(
            r#"{"g":{"composite":{"sources":[{"a":{"date_histogram":{"field":"f","#,
            r#""fixed_interval":null,"calendar_interval":null,"interval":1.5}}}],"size":1}}}"#,
        ),
        concat!(
            r#"{"g":{"composite":{"sources":[{"a":{"date_histogram":{"field":"f","order":"asc","#,
            r#""missing_bucket":false,"missing_order":"default"}}}],"size":1}}}"#,
        ),
    ),
    (
        r#"{"f":{"filter":{"term":{"field":"a","value":"bool:true"}}}}"#,
        r#"{"f":{"filter":{"term":{"field":"a","value":"bool:true"}}}}"#,
    ),
    (
        r#"{"f":{"filter":{"term":{"field":"a","value":"i64:-5"}}}}"#,
        r#"{"f":{"filter":{"term":{"field":"a","value":"i64:-5"}}}}"#,
    ),
    (
        r#"{"f":{"filter":{"term":{"field":"a","value":"u64:5"}}}}"#,
        r#"{"f":{"filter":{"term":{"field":"a","value":"u64:5"}}}}"#,
    ),
    (
        r#"{"f":{"filter":{"term":{"field":"a","value":"dt:7"}}}}"#,
        r#"{"f":{"filter":{"term":{"field":"a","value":"dt:7"}}}}"#,
    ),
    (
        r#"{"f":{"filter":{"term":{"field":"a","value":"ip:::1"}}}}"#,
        r#"{"f":{"filter":{"term":{"field":"a","value":"ip:::1"}}}}"#,
    ),
    (
        r#"{"f":{"filter":{"range":{"field":"a","gt":"u64:1","lt":"u64:9"}}}}"#,
        r#"{"f":{"filter":{"range":{"field":"a","gt":"u64:1","lt":"u64:9"}}}}"#,
    ),
    (
        r#"{"f":{"filter":{"range":{"field":"a","gte":"u64:1","lte":"u64:9"}}}}"#,
        r#"{"f":{"filter":{"range":{"field":"a","gte":"u64:1","lte":"u64:9"}}}}"#,
    ),
    (
        r#"{"f":{"filter":{"range":{"field":"a","lt":"dt:9"}}}}"#,
        r#"{"f":{"filter":{"range":{"field":"a","lt":"dt:9"}}}}"#,
    ),
    (
        concat!(
            r#"{"f":{"filter":{"bool":{"must":[{"all":{}},{"empty":{}}],"should":[],"#,
            r#""must_not":[{"bool":{"should":[{"all":{}}]}}]}}}}"#,
        ),
        concat!(
            r#"{"f":{"filter":{"bool":{"must":[{"all":{}},{"empty":{}}],"should":[],"#,
            r#""must_not":[{"bool":{"must":[],"should":[{"all":{}}],"must_not":[]}}]}}}}"#,
        ),
    ),
    (
        r#"{"f":{"filter":{"term":{"field":"f64:1","value":"u64:1"}}}}"#,
        r#"{"f":{"filter":{"term":{"field":"f64:1","value":"u64:1"}}}}"#,
    ),
    (
        r#"{"a":{"filter":{"all":{}}}}"#,
        r#"{"a":{"filter":{"all":{}}}}"#,
    ),
    (
        r#"{"a":{"filter":{"term":{"field":"f","value":"u64:5"}}}}"#,
        r#"{"a":{"filter":{"term":{"field":"f","value":"u64:5"}}}}"#,
    ),
    (
        r#"{"a":{"composite":{"sources":[],"size":10,"format":1}}}"#,
        r#"{"a":{"composite":{"sources":[],"size":10}}}"#,
    ),
    (
        concat!(
            r#"{"d":{"sum":{"field":"x"}},"c":{"min":{"field":"y"}},"b":{"max":{"field":"z"}},"#,
            r#""a":{"value_count":{"field":""}}}"#,
        ),
        concat!(
            r#"{"a":{"value_count":{"field":""}},"b":{"max":{"field":"z"}},"#,
            r#""c":{"min":{"field":"y"}},"d":{"sum":{"field":"x"}}}"#,
        ),
    ),
    (
        r#"{"a":{"max":{"field":"f","missing":null,"script":5}}}"#,
        r#"{"a":{"max":{"field":"f"}}}"#,
    ),
    (
        r#"{"a":{"min":{"field":"f"},"aggs":{}}}"#,
        r#"{"a":{"min":{"field":"f"}}}"#,
    ),
    (
        r#"{"key":{"sum":{"field":"f"}},"doc_count":{"sum":{"field":"g"}}}"#,
        r#"{"doc_count":{"sum":{"field":"g"}},"key":{"sum":{"field":"f"}}}"#,
    ),
    (
        concat!(
            r#"{"a":{"aggs":{"n":{"max":{"field":"f"}},"m":{"composite":{"sources":[],"size":2},"#,
            r#""aggs":{"o":{"filter":{"empty":{}}}}}},"composite":{"sources":[],"size":1}}}"#,
        ),
        concat!(
            r#"{"a":{"aggs":{"m":{"aggs":{"o":{"filter":{"empty":{}}}},"composite":{"sources":[],"#,
            r#""size":2}},"n":{"max":{"field":"f"}}},"composite":{"sources":[],"size":1}}}"#,
        ),
    ),
    (
        r#"{"a":{"filter":{"all":{}},"aggs":{"aggs":{"max":{"field":"f"}}}}}"#,
        r#"{"a":{"aggs":{"aggs":{"max":{"field":"f"}}},"filter":{"all":{}}}}"#,
    ),
];

// A builder of the query for every document.
#[derive(Drop)]
struct AllOfThem {}

impl QueryBuilder for AllOfThem {
    ghost use Rattle.std.specs.Prelude.{Some};
    ghost use Rattle.agg_segment.specs.declared.query.QueryTree.TheVariants.{All as AllOf};

    ghost tree_for = { λ _ fields. Some AllOf };

    fn build_query(&self, alloc: Global, schema: &Schema) -> Result<QueryTree, QueryBuildError> {
        let _ = alloc;
        let _ = schema;
        Ok(QueryTree::All)
    }
}

// What is written of a request, none where it may not be written.
fn shown(alloc: Global, request: &Aggregations) -> Result<Option<String>, Fail> {
    if !may_be_written(request) {
        return Ok(None);
    }
    Ok(Some(write_aggregations(alloc, request)?.to_string(alloc)?))
}

// The builder that a request may name.
fn builders(alloc: Global) -> Result<Vec<NamedBuilder>, Fail> {
    let mut builders = Vec::new(alloc);
    builders.push(NamedBuilder {
        name: Text::copy_of(alloc, "any_field")?,
        builder: Box::new(alloc, AllOfThem {})?,
    })?;
    Ok(builders)
}

// The request of a value.
fn read_value(alloc: Global, value: &Value) -> Result<Aggregations, Fail> {
    let builders = builders(alloc)?;
    Ok(read_aggregations(alloc, value, builders)?)
}

// The request of a text.
fn read(alloc: Global, text: &str) -> Result<Aggregations, Fail> {
    read_value(alloc, &Value::from_str(alloc, text)?)
}

// What is written of the request of a text.
fn written(alloc: Global, text: &str) -> Result<Option<String>, Fail> {
    shown(alloc, &read(alloc, text)?)
}

// A JSON value without spaces and line ends between its members.
fn compact(alloc: Global, text: &str) -> Result<String, Fail> {
    Ok(Value::from_str(alloc, text)?.to_string(alloc)?)
}

// What stands above others.
#[derive(Clone, Copy)]
enum Above {
    Metric,
    Filter,
}

// Aggregations built by hand with those below them, and what is written of them: nothing where they
// could not be read.
const BUILT: &[(Above, &str, Option<&str>)] = &[
    (Above::Metric, "{}", Some(r#"{"a":{"max":{"field":"v"}}}"#)),
    (Above::Metric, r#"{"b":{"min":{"field":"w"}}}"#, None),
    (
        Above::Filter,
        r#"{"b":{"min":{"field":"w"}}}"#,
        Some(r#"{"a":{"filter":{"all":{}},"aggs":{"b":{"min":{"field":"w"}}}}}"#),
    ),
    (Above::Filter, r#"{"key":{"min":{"field":"w"}}}"#, None),
    (
        Above::Filter,
        r#"{"doc_count":{"min":{"field":"w"}}}"#,
        None,
    ),
];

fn agg_of(alloc: Global, above: Above) -> Result<AggregationVariants, Fail> {
    Ok(match above {
        Above::Metric => AggregationVariants::Max(MaxAggregation {
            field: Text::copy_of(alloc, "v")?,
        }),
        Above::Filter => {
            AggregationVariants::Filter(FilterAggregation::new_with_tree(QueryTree::All))
        }
    })
}

// The request of one aggregation under a name.
fn request_of(
    alloc: Global,
    name: Text,
    aggregation: Aggregation,
) -> Result<Aggregations, OutOfMemory> {
    let mut request = NameMap::new(alloc);
    request.insert(name, aggregation)?;
    Ok(request)
}

// An aggregation that stands above those of a text.
fn aggregation_of(alloc: Global, above: Above, below: &str) -> Result<Aggregation, Fail> {
    Ok(Aggregation {
        agg: agg_of(alloc, above)?,
        sub_aggregation: read(alloc, below)?,
    })
}

// What is written of an aggregation that stands above those of a text.
fn written_above(alloc: Global, above: Above, below: &str) -> Result<Option<String>, Fail> {
    let name = Text::copy_of(alloc, "a")?;
    let aggregation = aggregation_of(alloc, above, below)?;
    shown(alloc, &request_of(alloc, name, aggregation)?)
}

#[test]
fn writes_what_was_read_and_reads_it_back(rt: HostRuntime) -> Result<(), Fail> {
    let alloc = rt.alloc();
    for &(text, expected) in REQUESTS {
        let shown = Some(compact(alloc, expected)?);
        expect_equal_for(text, &written(alloc, text)?, &shown)?;
        expect_equal_for(text, &written(alloc, expected)?, &shown)?;
    }
    Ok(())
}

#[test]
fn writes_no_request_that_could_not_be_read(rt: HostRuntime) -> Result<(), Fail> {
    let alloc = rt.alloc();
    for &(above, below, expected) in BUILT {
        let found = written_above(alloc, above, below)?;
        let expected = match expected {
            Some(text) => Some(compact(alloc, text)?),
            None => None,
        };
        expect_equal_for(below, found, expected)?;
    }
    Ok(())
}
