//! Whether a walk of an input goes on to its pages.
ghost use Rattle.std.specs.Prelude.{◌≡◌, ◌==◌, [], IfOk, MatchBool, MatchOption};
ghost use Rattle.std.specs.List.{list_any};
ghost use Rattle.agg_engine.specs.NamedComposite.{NamesComposite};
ghost use Rattle.agg_pages.specs.input_text.StoredInput.{input_of};
ghost use Rattle.agg_pages.specs.AnyField.{any_field};
ghost use Rattle.agg_request_tree.specs.Faults.{IsSoundRequest};
ghost use Rattle.agg_request_tree.specs.BuiltRequest.{EachMakesTree};
ghost use Rattle.agg_request_tree.specs.Request.{builders_of, listed_in, own_builder};
ghost use Rattle.agg_check.specs.Check.{MayBeWalked, known_builders as builders};

use crate::refusals::refused_composite;
use agg_engine::WalkError;
use agg_pages::input_text::{Header, Input};
use agg_request::reading::HasName;
use agg_request_tree::{Aggregation, AggregationVariants, FilterQuery};
use agg_segment::Snapshot;
use agg_values::{InvalidArgument, NameMap, OutOfMemory, Text};
use std::alloc::Global;

/// The builder that a filter may ask for, known by its name alone.
#[derive(Drop)]
pub struct BuilderName {
    name: Text,
}

impl HasName for BuilderName {
    ghost name_of = { λ b. b.name };

    /// The name of the builder.
    fn name(&self) -> &str {
        self.name.as_str()
    }
}

/// The builders of the program: the one that asks for a value in any field of the schema.
pub fn known_builders(alloc: Global) -> Result<Vec<BuilderName>, OutOfMemory>
    ensures { IfOk result (λ known. known.items ≡ builders) }
{
    let mut builders = Vec::new(alloc);
    let name = Text::copy_of(alloc, "any_field")?;
    builders.push(BuilderName { name })?;
    Ok(builders)
}

/// Why a walk of an input is refused before any snapshot, if it is.
pub fn refusal_of(
    alloc: Global,
    input: &Input<BuilderName>,
) -> Result<Option<WalkError>, OutOfMemory>
    ensures { IfOk result (λ refusal. MatchOption refusal (MayBeWalked (input_of input.now))
        (λ error. ¬ (MayBeWalked (input_of input.now)))) }
{
    match refused_composite(alloc, &input.header.request)? {
        Some(found) => Ok(Some(WalkError::from(found.fault))),
        None => Ok(later_refusal(input)),
    }
}

// Why a walk is refused before any snapshot, if it is, where each composite may be asked.
fn later_refusal(input: &Input<BuilderName>) -> Option<WalkError>
    requires { IsSoundRequest input.now.header.request }
    ensures { MatchOption result (MayBeWalked (input_of input.now))
        (λ error. ¬ (MayBeWalked (input_of input.now))) }
{
    let header = &input.header;
    if some_page_has_no_room(input.snapshots.as_slice()) {
        return Some(WalkError::Invalid(InvalidArgument::ZeroSize));
    }
    if !names_composite(&header.request, &header.name) {
        return Some(WalkError::UnknownComposite);
    }
    if lacks_query(header) {
        return Some(WalkError::QueryBuild);
    }
    None
}

// Whether some filter asks for a builder, which makes no query for this schema.
fn lacks_query(header: &Header<BuilderName>) -> bool
    ensures { MatchBool result
        (¬ (EachMakesTree (λ builder. any_field header.now.schema) header.now.request))
        (EachMakesTree (λ builder. any_field header.now.schema) header.now.request) }
{
    if header.schema.fields().is_empty() {
        return asks_for_builder(&header.request);
    }
    false
}

// Whether the page of some listed snapshot has no room.
fn some_page_has_no_room(snapshots: &[Snapshot]) -> bool
    ensures { result ≡ list_any (λ s. s.page_size == 0) snapshots.now }
{
    snapshots.iter().any(|snapshot| snapshot.page_size == 0)
}

// Whether a name is that of a composite.
fn names_composite<B>(request: &NameMap<Aggregation<B>>, name: &Text) -> bool
    ensures { MatchBool result (NamesComposite name.now request.now)
        (¬ (NamesComposite name.now request.now)) }
{
    match request.get(name) {
        Some(aggregation) => matches!(&aggregation.agg, AggregationVariants::Composite(_)),
        None => false,
    }
}

// Whether some filter of a request asks for a builder.
#[cycle(builders)]
fn asks_for_builder<B>(request: &NameMap<Aggregation<B>>) -> bool
    ensures { MatchBool result (¬ (builders_of request.now ≡ [])) (builders_of request.now ≡ []) }
{
    for (_, aggregation) in request.iter() {
        if has_builder(aggregation) {
            return true;
        }
    }
    false
}

// Whether some filter of an aggregation and those below it asks for a builder.
#[cycle(builders)]
fn has_builder<B>(aggregation: &Aggregation<B>) -> bool
    ensures { MatchBool result (¬ (listed_in own_builder aggregation.now ≡ []))
        (listed_in own_builder aggregation.now ≡ []) }
{
    is_built(&aggregation.agg) || asks_for_builder(&aggregation.sub_aggregation)
}

// Whether an aggregation is a filter that asks for a builder.
fn is_built<B>(agg: &AggregationVariants<B>) -> bool
    ensures { MatchBool result (¬ (own_builder agg.now ≡ [])) (own_builder agg.now ≡ []) }
{
    match agg {
        AggregationVariants::Filter(filter) => {
            matches!(filter.query(), FilterQuery::CustomBuilder(_))
        }
        _ => false,
    }
}
