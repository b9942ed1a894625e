//! The request of a generated input.
ghost use Rattle.std.specs.Prelude.{◌≡◌, [], ◌∷◌, IfOk};
ghost use Rattle.agg_pages.specs.generator.Request.{count_of_dates, generated_composite};
ghost use Rattle.agg_pages.specs.generator.Request.{generated_request, values_source};

use agg_request_tree::{
    Aggregation, AggregationVariants, CompositeAggregation, CompositeAggregationSource,
    CountAggregation, TermCompositeAggregationSource,
};
use agg_values::{ItemList, MissingOrder, NameMap, Order, OutOfMemory, Text};
use std::alloc::Global;

/// The groups, with the number of dates of each.
pub(crate) fn generated_request<B: Drop>(
    alloc: Global,
) -> Result<NameMap<Aggregation<B>>, OutOfMemory>
    ensures { IfOk result (λ request. request ≡ generated_request) }
{
    let groups = Aggregation {
        agg: AggregationVariants::Composite(composite(alloc)?),
        sub_aggregation: named(alloc, "n", count_of_dates(alloc)?)?,
    };
    named(alloc, "g", groups)
}

// How many dates there are.
fn count_of_dates<B: Drop>(alloc: Global) -> Result<Aggregation<B>, OutOfMemory>
    ensures { IfOk result (λ count. count ≡ count_of_dates) }
{
    let field = Text::copy_of(alloc, "d")?;
    Ok(Aggregation {
        agg: AggregationVariants::Count(CountAggregation { field }),
        sub_aggregation: NameMap::new(alloc),
    })
}

// The groups by number and text.
fn composite(alloc: Global) -> Result<CompositeAggregation, OutOfMemory>
    ensures { IfOk result (λ composite. composite ≡ generated_composite) }
{
    let mut sources = ItemList::new(alloc);
    sources.push(source(alloc, "a", Order::Asc, false)?)?;
    sources.push(source(alloc, "b", Order::Desc, true)?)?;
    Ok(CompositeAggregation {
        sources,
        size: 100,
        after: NameMap::new(alloc),
    })
}

// A source of the values of a field.
fn source(
    alloc: Global,
    field: &str,
    order: Order,
    missing_bucket: bool,
) -> Result<CompositeAggregationSource, OutOfMemory>
    ensures { IfOk result (λ source. source ≡ values_source field.now order missing_bucket) }
{
    Ok(CompositeAggregationSource::Terms(TermCompositeAggregationSource {
        name: Text::copy_of(alloc, field)?,
        field: Text::copy_of(alloc, field)?,
        order,
        missing_bucket,
        missing_order: MissingOrder::Default,
        min: None,
    }))
}

// One value under a name.
fn named<T: Drop>(alloc: Global, name: &str, value: T) -> Result<NameMap<T>, OutOfMemory>
    ensures { IfOk result (λ named. named ≡ (name.now, value) ∷ []) }
{
    let mut named = NameMap::new(alloc);
    named.insert(Text::copy_of(alloc, name)?, value)?;
    Ok(named)
}
