//! The fields that a grouping asks for.
ghost use Rattle.std.specs.Prelude.{◌∷◌, [], IfOk, OnOk, map};
ghost use Rattle.std.specs.List.{flat_map};
ghost use Rattle.peslumok_front.specs.grouping.Fields.{AreAdded, AreFieldsOf, fields_in};

use crate::grouping::Grouping;
use agg_segment::QueryTree;
use agg_values::{ItemList, NameMap, OutOfMemory, Text};
use peslumok_texts::fields::{FieldType, FieldTypes};
use peslumok_texts::words::{BySpec, Metric};
use std::alloc::Global;

/// The fields of a grouping's sources and metrics and of its query, each with its type.
pub fn asked_fields(
    alloc: Global,
    grouping: &Grouping<'_>,
    query: &QueryTree,
) -> Result<NameMap<FieldType>, OutOfMemory>
    ensures asked { IfOk result (AreFieldsOf grouping.now query.now) }
{
    let mut fields = NameMap::new(alloc);
    ask_sources(alloc, &mut fields, &grouping.by, &grouping.types)?;
    ask_metrics(alloc, &mut fields, &grouping.metrics, &grouping.types)?;
    ask_query(alloc, &mut fields, query, &grouping.types)?;
    Ok(fields)
}

// Asks for the field of each source too.
fn ask_sources(
    alloc: Global,
    fields: &mut NameMap<FieldType>,
    sources: &[BySpec<'_>],
    types: &FieldTypes,
) -> Result<(), OutOfMemory>
    ensures { OnOk result
        (AreAdded types.now (map (λ by. by.field.now) sources.now) fields.old fields.new) }
{
    for by in sources {
        let field = Text::copy_of(alloc, by.field)?;
        ask(fields, field, types)?;
    }
    Ok(())
}

// Asks for the field of each metric too.
fn ask_metrics(
    alloc: Global,
    fields: &mut NameMap<FieldType>,
    metrics: &[Metric<'_>],
    types: &FieldTypes,
) -> Result<(), OutOfMemory>
    ensures { OnOk result
        (AreAdded types.now (map (λ metric. metric.field.now) metrics.now) fields.old fields.new) }
{
    for metric in metrics {
        let field = Text::copy_of(alloc, metric.field)?;
        ask(fields, field, types)?;
    }
    Ok(())
}

// Asks for the fields of a query too.
#[cycle(queries)]
fn ask_query(
    alloc: Global,
    fields: &mut NameMap<FieldType>,
    query: &QueryTree,
    types: &FieldTypes,
) -> Result<(), OutOfMemory>
    ensures { OnOk result (AreAdded types.now (fields_in query.now) fields.old fields.new) }
{
    match query {
        QueryTree::All | QueryTree::Empty => Ok(()),
        QueryTree::Term { field, .. } => ask_one(alloc, fields, field, types),
        QueryTree::Range { field, .. } => ask_one(alloc, fields, field, types),
        QueryTree::Exists { field } => ask_one(alloc, fields, field, types),
        QueryTree::Boolean {
            must,
            should,
            must_not,
        } => {
            ask_all(alloc, fields, must, types)?;
            ask_all(alloc, fields, should, types)?;
            ask_all(alloc, fields, must_not, types)
        }
    }
}

// Asks for the fields of each of some queries too.
#[cycle(queries)]
fn ask_all(
    alloc: Global,
    fields: &mut NameMap<FieldType>,
    queries: &ItemList<QueryTree>,
    types: &FieldTypes,
) -> Result<(), OutOfMemory>
    ensures { OnOk result
        (AreAdded types.now (flat_map fields_in queries.now) fields.old fields.new) }
{
    for query in queries.as_slice() {
        ask_query(alloc, fields, query, types)?;
    }
    Ok(())
}

// Asks for a field too.
fn ask_one(
    alloc: Global,
    fields: &mut NameMap<FieldType>,
    field: &Text,
    types: &FieldTypes,
) -> Result<(), OutOfMemory>
    ensures { OnOk result (AreAdded types.now (field.now ∷ []) fields.old fields.new) }
{
    let field = field.try_clone(alloc)?;
    ask(fields, field, types)
}

// Asks for a field too, which is taken.
fn ask(fields: &mut NameMap<FieldType>, field: Text, types: &FieldTypes) -> Result<(), OutOfMemory>
    ensures { OnOk result (AreAdded types.now (field ∷ []) fields.old fields.new) }
{
    let of = types.get(&field);
    fields.insert(field, of)?;
    Ok(())
}
