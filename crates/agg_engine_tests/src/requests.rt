//! Walks of a request with filters beside and below a composite, before any snapshot.
ghost use Rattle.std.specs.Prelude.{◌≡◌, ◌<◌};

use agg_cache::LimitsLedger;
use agg_engine::{Snapshot, Walk, WalkError, walk_pages};
use agg_expect::expect_equal;
use agg_request_tests::request_tree::given::{GivenSource, Kind, composite_of, lone, request_of};
use agg_request_tree::{
    Aggregation, AggregationVariants, Aggregations, FilterAggregation, NamedBuilder,
    QueryBuildError, QueryBuilder,
};
use agg_segment::{QueryTree, Schema};
use agg_values::{ItemList, NameMap, OutOfMemory, Steps, Text};
use std::alloc::Global;
use std::marker::Brand;
use std::sync::ledger::{Blank, Ledger};
use std::test::Fail;

// A builder that has a query only where a schema has a field.
#[derive(Drop)]
struct AllOfSome {}

impl QueryBuilder for AllOfSome {
    ghost use Rattle.std.specs.Prelude.{◌==◌, if◌then◌else◌, None, Some, length};
    ghost use Rattle.agg_segment.specs.declared.query.QueryTree.TheVariants.{All as AllOf};

    ghost tree_for = { λ _ fields. (if (length fields == 0) then None else Some AllOf) };

    fn build_query(&self, _alloc: Global, schema: &Schema) -> Result<QueryTree, QueryBuildError> {
        if schema.fields().is_empty() {
            return Err(QueryBuildError::NoTree);
        }
        Ok(QueryTree::All)
    }
}

// A filter by such a builder.
fn built_filter(alloc: Global) -> Result<Aggregation, OutOfMemory> {
    let builder = NamedBuilder {
        name: Text::copy_of(alloc, "all of some")?,
        builder: Box::new(alloc, AllOfSome {})?,
    };
    Ok(Aggregation {
        agg: AggregationVariants::Filter(FilterAggregation::new_with_builder(builder)),
        sub_aggregation: NameMap::new(alloc),
    })
}

// Adds the filter f.
fn add_filter(alloc: Global, request: &mut Aggregations) -> Result<(), OutOfMemory> {
    let name = Text::copy_of(alloc, "f")?;
    request.insert(name, built_filter(alloc)?)?;
    Ok(())
}

// A composite with the filter f below it.
fn above_filter(alloc: Global) -> Result<Aggregation, OutOfMemory> {
    let sources = [GivenSource::of("a", Kind::Terms, false)];
    let mut composite = lone(alloc, composite_of(alloc, &sources, 2)?);
    add_filter(alloc, &mut composite.sub_aggregation)?;
    Ok(composite)
}

// The request of a composite g with the filter f below it, and of a filter f beside it.
fn request_of_three(alloc: Global) -> Result<Aggregations, OutOfMemory> {
    let mut request = request_of(alloc, "g", above_filter(alloc)?)?;
    add_filter(alloc, &mut request)?;
    Ok(request)
}

// The walk of the composite of a name over no snapshot, with a schema of these fields.
fn walk(
    alloc: Global,
    name: &'static str,
    fields: &'static [&'static str],
) -> Result<Result<Walk, WalkError>, Fail> {
    let request = request_of_three(alloc)?;
    let snapshots = ItemList::new(alloc);
    Ok(walk_over::<Brand>(alloc, (name, fields), &request, &snapshots, Blank::new(1)))
}

fn walk_over<L: Ledger>(
    alloc: Global,
    asked: (&'static str, &'static [&'static str]),
    request: &Aggregations,
    snapshots: &ItemList<Snapshot>,
    blank: Blank,
) -> Result<Walk, WalkError>
    requires name { blank.name ≡ L.name }
    requires parts { blank.parts ≡ L.parts }
    requires shared { 0 < L.parts }
{
    let mut steps: Steps<L> = Steps::new(blank);
    let mut limits = LimitsLedger::new(None, None);
    let (name, fields) = asked;
    let name = Text::copy_of(alloc, name)?;
    let mut schema = Schema::new(alloc);
    for field in fields {
        schema.add_field(Text::copy_of(alloc, field)?)?;
    }
    let query = QueryTree::All;
    walk_pages(
        alloc,
        &mut limits,
        &schema,
        request,
        &name,
        &query,
        snapshots,
        &mut steps,
    )
}

#[test]
fn each_builder_is_asked_before_any_snapshot(rt: HostRuntime) -> Result<(), Fail> {
    let refused = walk(rt.alloc(), "g", &[])?;
    expect_equal(refused.err(), Some(WalkError::QueryBuild))?;
    let walk = walk(rt.alloc(), "g", &["a"])??;
    expect_equal((walk.pages.as_slice().len(), walk.ended), (0, false))
}

#[test]
fn a_filter_is_no_composite_to_page_over(rt: HostRuntime) -> Result<(), Fail> {
    let refused = walk(rt.alloc(), "f", &["a"])?;
    expect_equal(refused.err(), Some(WalkError::UnknownComposite))
}
