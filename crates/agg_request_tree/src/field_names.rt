//! The fields of a request that are read as columns.
ghost use Rattle.std.specs.Prelude.{◌≡◌, ◌∷◌, [], IfOk, OnOk, map};
ghost use Rattle.agg_request_tree.specs.FieldNames.{HasJust, HasMore};
ghost use Rattle.agg_request_tree.specs.Request.{fields_of, listed_in, own_fields};
ghost use Rattle.agg_request_tree.specs.Source.{field_of};

use crate::{Aggregation, AggregationVariants, Aggregations, CompositeAggregation};
use agg_values::{ItemList, NameMap, OutOfMemory, Text};
use std::alloc::Global;

/// The fields of all sources and metrics of a request, at any depth.
pub fn get_fast_field_names(alloc: Global, aggs: &Aggregations) -> Result<NameMap<()>, OutOfMemory>
    ensures { IfOk result (HasJust (fields_of aggs.now)) }
{
    let mut names = NameMap::new(alloc);
    add_request(alloc, aggs, &mut names)?;
    Ok(names)
}

impl<B> AggregationVariants<B> {
    /// The aggregation's own fields, in order: those of a composite's sources, or a metric's.
    pub fn get_fast_field_names(&self, alloc: Global) -> Result<ItemList<Text>, OutOfMemory>
        ensures { IfOk result (λ fields. fields ≡ own_fields self.now) }
    {
        match self {
            AggregationVariants::Filter(filter) => Ok(filter.get_fast_field_names(alloc)),
            AggregationVariants::Composite(composite) => source_fields(alloc, composite),
            AggregationVariants::Count(metric) => only(alloc, metric.field_name()),
            AggregationVariants::Max(metric) => only(alloc, metric.field_name()),
            AggregationVariants::Min(metric) => only(alloc, metric.field_name()),
            AggregationVariants::Sum(metric) => only(alloc, metric.field_name()),
        }
    }
}

// The fields of a composite's sources.
fn source_fields(
    alloc: Global,
    composite: &CompositeAggregation,
) -> Result<ItemList<Text>, OutOfMemory>
    ensures { IfOk result (λ fields. fields ≡ map field_of composite.now.sources) }
{
    let mut fields = ItemList::new(alloc);
    for source in composite.sources.as_slice() {
        fields.push(source.field().try_clone(alloc)?)?;
    }
    Ok(fields)
}

// The list of this field alone.
fn only(alloc: Global, field: &Text) -> Result<ItemList<Text>, OutOfMemory>
    ensures { IfOk result (λ fields. fields ≡ field.now ∷ []) }
{
    let mut fields = ItemList::new(alloc);
    fields.push(field.try_clone(alloc)?)?;
    Ok(fields)
}

// Adds the fields of a request.
#[cycle(fields)]
fn add_request<B: Drop>(
    alloc: Global,
    aggs: &NameMap<Aggregation<B>>,
    names: &mut NameMap<()>,
) -> Result<(), OutOfMemory>
    ensures { OnOk result (HasMore names.old names.new (fields_of aggs.now)) }
{
    for (_, aggregation) in aggs.iter() {
        add_aggregation(alloc, aggregation, names)?;
    }
    Ok(())
}

// Adds the fields of an aggregation, and those below it.
#[cycle(fields)]
fn add_aggregation<B: Drop>(
    alloc: Global,
    aggregation: &Aggregation<B>,
    names: &mut NameMap<()>,
) -> Result<(), OutOfMemory>
    ensures { OnOk result
        (HasMore names.old names.new (listed_in own_fields aggregation.now)) }
{
    add_all(names, aggregation.agg.get_fast_field_names(alloc)?)?;
    add_request(alloc, &aggregation.sub_aggregation, names)
}

// Adds these fields.
fn add_all(names: &mut NameMap<()>, fields: ItemList<Text>) -> Result<(), OutOfMemory>
    ensures { OnOk result (HasMore names.old names.new fields) }
{
    for field in fields.into_vec() {
        names.insert(field, ())?;
    }
    Ok(())
}
