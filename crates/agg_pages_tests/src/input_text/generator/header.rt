//! What a generated input asks for.
use agg_expect::expect_equal;
use agg_pages::generator::generated_input;
use agg_pages::input_text::{Header, Input, InputError, read_input};
use agg_request::{Aggregations, NamedBuilder, may_be_written, write_aggregations};
use agg_segment::QueryTree;
use std::alloc::Global;
use std::test::Fail;

// The header as a line.
const LINE: &str = concat!(
    r#"{"request":{"g":{"composite":{"sources":[{"a":{"terms":{"field":"a"}}},"#,
    r#"{"b":{"terms":{"field":"b","order":"desc","missing_bucket":true}}}],"size":100},"#,
    r#""aggs":{"n":{"value_count":{"field":"d"}}}}},"name":"g","schema":["a","b","d"]}"#,
);

// The input of that line.
fn read_line(alloc: Global) -> Result<Input, InputError> {
    let builders: Vec<NamedBuilder> = Vec::new(alloc);
    read_input(alloc, builders, LINE.as_bytes())
}

// What is written of a request.
fn shown(alloc: Global, request: &Aggregations) -> Result<String, Fail> {
    if !may_be_written(request) {
        return Err("it may not be written")?;
    }
    Ok(write_aggregations(alloc, request)?.to_string(alloc)?)
}

fn asks_for_all(header: &Header) -> bool {
    matches!(&header.query, QueryTree::All)
}

// Two headers say the same, and both ask for all documents.
fn expect_same(alloc: Global, made: &Header, read: &Header) -> Result<(), Fail> {
    expect_equal(shown(alloc, &made.request)?, shown(alloc, &read.request)?)?;
    expect_equal(&made.name, &read.name)?;
    expect_equal(made.schema.fields(), read.schema.fields())?;
    expect_equal((asks_for_all(made), asks_for_all(read)), (true, true))?;
    expect_equal(made.memory_limit, read.memory_limit)?;
    expect_equal(made.bucket_limit, read.bucket_limit)
}

#[test]
fn the_header_is_that_of_its_line(rt: HostRuntime) -> Result<(), Fail> {
    let read: Input = read_line(rt.alloc())?;
    let made: Input = generated_input(rt.alloc(), 7)?;
    expect_same(rt.alloc(), &made.header, &read.header)
}
