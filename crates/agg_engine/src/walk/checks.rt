//! What is checked before any snapshot.
ghost use Rattle.std.specs.Prelude.{◌≡◌, ◌↔◌, ◌==◌, None, IfSome};
ghost use Rattle.std.specs.List.{list_any};
ghost use Rattle.agg_engine.specs.NamedComposite.{IsCompositeNamed, NamesComposite};

use super::Snapshot;
use agg_request_tree::{AggregationVariants, Aggregations, CompositeAggregation};
use agg_values::Text;

/// Whether the page of some listed snapshot has no room.
pub fn some_page_has_no_room(snapshots: &[Snapshot]) -> bool
    ensures { result ≡ list_any (λ s. s.page_size == 0) snapshots.now }
{
    snapshots.iter().any(|snapshot| snapshot.page_size == 0)
}

/// The composite of a name, if it is one.
pub fn named_composite<'a>(
    request: &'a Aggregations,
    name: &Text,
) -> Option<&'a CompositeAggregation>
    ensures named { IfSome result
        (λ composite. IsCompositeNamed name.now request.now composite.now) }
    ensures none { result ≡ None ↔ (¬ (NamesComposite name.now request.now)) }
{
    match &request.get(name)?.agg {
        AggregationVariants::Composite(composite) => Some(composite),
        _ => None,
    }
}
