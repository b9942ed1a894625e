//! Which builder a filter of a request gets.
use agg_expect::expect_equal_for;
use agg_request::{
    Aggregation, AggregationVariants, Aggregations, FilterQuery, NamedBuilder, QueryBuildError,
    QueryBuilder, read_aggregations,
};
use agg_segment::{QueryTree, Schema};
use agg_values::Text;
use serde_json::Value;
use std::alloc::Global;
use std::test::Fail;

// The unused builders, in order: their names, and whether a query of theirs matches everything.
const BUILDERS: &[(&str, bool)] = &[("b", true), ("c", true), ("b", false)];

// Requests, with each filter by a builder, down to the second level: its name, and the builder and
// its query.
const REQUESTS: &[(&str, &str)] = &[
    (r#"{"a":{"filter":{"builder":"c"}}}"#, "a by c: all; "),
    (
        r#"{"z":{"filter":{"builder":"b"}},"y":{"filter":{"builder":"b"}}}"#,
        "y by b: all; z by b: none; ",
    ),
    (
        r#"{"a":{"aggs":{"c":{"filter":{"builder":"b"}}},"filter":{"builder":"b"}}}"#,
        "a by b: all; c by b: none; ",
    ),
    (
        concat!(
            r#"{"a":{"filter":{"all":{}},"aggs":{"c":{"filter":{"builder":"b"}}}},"#,
            r#""b":{"filter":{"builder":"b"}}}"#,
        ),
        "c by b: all; b by b: none; ",
    ),
];

// A builder of a query for every document, or for none.
#[derive(Drop)]
struct Marked {
    matches: bool,
}

impl QueryBuilder for Marked {
    ghost use Rattle.std.specs.Prelude.{Some, if◌then◌else◌};
    ghost use Rattle.agg_segment.specs.declared.query.QueryTree.TheVariants.{All as AllOf};
    ghost use Rattle.agg_segment.specs.declared.query.QueryTree.TheVariants.{Empty as NoneOf};

    ghost tree_for = { λ builder _. (if builder.matches then Some AllOf else Some NoneOf) };

    fn build_query(&self, _alloc: Global, _schema: &Schema) -> Result<QueryTree, QueryBuildError> {
        if self.matches {
            Ok(QueryTree::All)
        } else {
            Ok(QueryTree::Empty)
        }
    }
}

// A builder under a name.
fn builder_of(alloc: Global, name: &str, matches: bool) -> Result<NamedBuilder, Fail> {
    Ok(NamedBuilder {
        name: Text::copy_of(alloc, name)?,
        builder: Box::new(alloc, Marked { matches })?,
    })
}

/// The unused builders.
pub fn builders(alloc: Global) -> Result<Vec<NamedBuilder>, Fail> {
    let mut builders = Vec::new(alloc);
    for &(name, matches) in BUILDERS {
        builders.push(builder_of(alloc, name, matches)?)?;
    }
    Ok(builders)
}

// Whether a builder makes a query for all documents.
fn asks_for_all(alloc: Global, builder: &NamedBuilder) -> Result<bool, Fail> {
    let schema = Schema::new(alloc);
    let tree = builder.builder.build_query(alloc, &schema)?;
    Ok(matches!(&tree, QueryTree::All))
}

// Appends a filter that has this builder.
fn show_builder(
    alloc: Global,
    shown: &mut String,
    name: &Text,
    builder: &NamedBuilder,
) -> Result<(), Fail> {
    shown.push_str(name.as_str())?;
    shown.push_str(" by ")?;
    shown.push_str(builder.name.as_str())?;
    let is_all = asks_for_all(alloc, builder)?;
    shown.push_str(if is_all { ": all; " } else { ": none; " })?;
    Ok(())
}

// Appends an aggregation, if it is a filter by a builder.
fn show(
    alloc: Global,
    shown: &mut String,
    name: &Text,
    aggregation: &Aggregation,
) -> Result<(), Fail> {
    if let AggregationVariants::Filter(filter) = &aggregation.agg {
        if let FilterQuery::CustomBuilder(builder) = filter.query() {
            show_builder(alloc, shown, name, builder)?;
        }
    }
    Ok(())
}

// The filters by builders of a request, each before those below it.
fn shown(alloc: Global, request: &Aggregations) -> Result<String, Fail> {
    let mut shown = String::new(alloc);
    for (name, aggregation) in request.iter() {
        show(alloc, &mut shown, name, aggregation)?;
        for (name, below) in aggregation.sub_aggregation.iter() {
            show(alloc, &mut shown, name, below)?;
        }
    }
    Ok(shown)
}

// The request of a text with those builders.
fn read(alloc: Global, text: &str) -> Result<Aggregations, Fail> {
    let value = Value::from_str(alloc, text)?;
    Ok(read_aggregations(alloc, &value, builders(alloc)?)?)
}

#[test]
fn a_filter_gets_the_first_unused_builder(rt: HostRuntime) -> Result<(), Fail> {
    for &(text, expected) in REQUESTS {
        let shown = shown(rt.alloc(), &read(rt.alloc(), text)?)?;
        expect_equal_for(text, shown.as_str(), expected)?;
    }
    Ok(())
}
