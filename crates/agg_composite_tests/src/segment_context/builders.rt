use agg_engine_tree::segment_context::{AggContextParams, SetupError};
use agg_expect::expect_equal;
use agg_request_tree::{
    Aggregation, AggregationVariants, FilterAggregation, FilterQuery, QueryBuildError, QueryBuilder,
};
use agg_segment::{QueryTree, Schema};
use agg_values::{NameMap, OutOfMemory, Text};
use std::alloc::{AllocError, Global};
use std::cell::Cell;
use std::rc::Rc;
use std::test::Fail;

// A builder that matches every document where the schema has a field.
#[derive(Drop)]
struct AllOfSome {}

impl QueryBuilder for AllOfSome {
    ghost use Rattle.std.specs.Prelude.{◌==◌, if◌then◌else◌, None, Some, length};
    ghost use Rattle.agg_segment.specs.declared.query.QueryTree.TheVariants.{All as AllOf};

    ghost tree_for = { λ _ fields. (if (length fields == 0) then None else Some AllOf) };

    fn build_query(&self, alloc: Global, schema: &Schema) -> Result<QueryTree, QueryBuildError> {
        let _ = alloc;
        if schema.fields().is_empty() {
            return Err(QueryBuildError::NoTree);
        }
        Ok(QueryTree::All)
    }
}

// A filter by a builder, with these aggregations below it.
fn filter_by<B>(builder: B, sub_aggregation: NameMap<Aggregation<B>>) -> Aggregation<B> {
    let filter = FilterAggregation::of(FilterQuery::CustomBuilder(builder));
    Aggregation {
        agg: AggregationVariants::Filter(filter),
        sub_aggregation,
    }
}

// Adds a value to a map, under a name.
fn add<T: Drop>(map: &mut NameMap<T>, name: &str, value: T) -> Result<(), OutOfMemory> {
    map.insert(Text::copy_of(map.allocator(), name)?, value)?;
    Ok(())
}

// A filter f by a builder of the first kind.
fn filter_f(alloc: Global) -> Result<NameMap<Aggregation<AllOfSome>>, OutOfMemory> {
    let mut request = NameMap::new(alloc);
    add(
        &mut request,
        "f",
        filter_by(AllOfSome {}, NameMap::new(alloc)),
    )?;
    Ok(request)
}

// Why a request has no context under a schema of these fields, if it has none.
fn refusal(
    alloc: Global,
    request: &NameMap<Aggregation<AllOfSome>>,
    fields: &[&str],
) -> Result<Option<SetupError>, OutOfMemory> {
    let mut schema = Schema::new(alloc);
    for field in fields {
        schema.add_field(Text::copy_of(alloc, field)?)?;
    }
    Ok(AggContextParams::of_request(alloc, request, &schema).err())
}

#[test]
fn asks_the_builders_of_a_request(rt: HostRuntime) -> Result<(), Fail> {
    let request = filter_f(rt.alloc())?;
    let refused = refusal(rt.alloc(), &request, &[])?;
    let taken = refusal(rt.alloc(), &request, &["a"])?;
    expect_equal((refused, taken), (Some(SetupError::QueryBuild), None))
}

// A builder that matches every document, and appends its digit to a number that builders share.
#[derive(Drop)]
struct Noted {
    digit: u32,
    asked: Rc<Cell<u32>>,
}

impl QueryBuilder for Noted {
    ghost use Rattle.std.specs.Prelude.{Some};
    ghost use Rattle.agg_segment.specs.declared.query.QueryTree.TheVariants.{All as AllOf};

    ghost tree_for = { λ _ _. Some AllOf };

    fn build_query(&self, _alloc: Global, _schema: &Schema) -> Result<QueryTree, QueryBuildError> {
        let before = self.asked.get().wrapping_mul(10);
        self.asked.set(before.wrapping_add(self.digit));
        Ok(QueryTree::All)
    }
}

// The builder of a digit.
fn builder_of(digit: u32, asked: &Rc<Cell<u32>>) -> Result<Noted, AllocError> {
    Ok(Noted {
        digit,
        asked: asked.clone()?,
    })
}

// Adds a filter by the builder of a digit, with nothing below it.
fn add_alone(
    filters: &mut NameMap<Aggregation<Noted>>,
    (name, digit): (&str, u32),
    asked: &Rc<Cell<u32>>,
) -> Result<(), OutOfMemory> {
    let builder = builder_of(digit, asked)?;
    let below = NameMap::new(filters.allocator());
    add(filters, name, filter_by(builder, below))
}

// Adds a filter a by the builder of 1, with a filter x below it.
fn add_two(
    filters: &mut NameMap<Aggregation<Noted>>,
    asked: &Rc<Cell<u32>>,
) -> Result<(), OutOfMemory> {
    let builder = builder_of(1, asked)?;
    let mut below = NameMap::new(filters.allocator());
    add_alone(&mut below, ("x", 2), asked)?;
    add(filters, "a", filter_by(builder, below))
}

// A filter a with a filter x below it, and a filter b, which is added first.
fn filters(
    alloc: Global,
    asked: &Rc<Cell<u32>>,
) -> Result<NameMap<Aggregation<Noted>>, OutOfMemory> {
    let mut request = NameMap::new(alloc);
    add_alone(&mut request, ("b", 3), asked)?;
    add_two(&mut request, asked)?;
    Ok(request)
}

// Makes the context of a request under a schema without fields.
fn ask(alloc: Global, request: &NameMap<Aggregation<Noted>>) -> Result<(), SetupError> {
    let _params = AggContextParams::of_request(alloc, request, &Schema::new(alloc))?;
    Ok(())
}

#[test]
fn asks_each_builder_once_in_order(rt: HostRuntime) -> Result<(), Fail> {
    let alloc = rt.alloc();
    let asked = Rc::new(alloc, Cell::new(0))?;
    ask(alloc, &filters(alloc, &asked)?)?;
    expect_equal(asked.get(), 123)
}
