//! The accessors of the sources of a composite.
ghost use Rattle.std.specs.Prelude.{◌≡◌, All, option_map, IfErr, IfOk};
ghost use Rattle.agg_request_tree.specs.Faults.{IsSoundSource};
ghost use Rattle.agg_request_tree.specs.Source.{after_of};
ghost use Rattle.agg_composite.specs.accessor.Accessors.{AllFit};

use crate::segment_context::SetupError;
use agg_composite::accessor::CompositeSourceAccessors;
use agg_request_tree::CompositeAggregationSource;
use agg_segment::SegmentReader;
use agg_values::{AfterKey, CompositeIntermediateKey, ItemList, NameMap};
use std::alloc::Global;

/// The accessors of each source in a segment, for its value in an after key.
pub fn accessors_for<'s>(
    alloc: Global,
    segment: &'s SegmentReader,
    sources: &[CompositeAggregationSource],
    after: &NameMap<AfterKey>,
) -> Result<ItemList<CompositeSourceAccessors<'s>>, SetupError>
    requires sound { All (λ source. IsSoundSource source (after_of after.now source)) sources.now }
    ensures ok { IfOk result (AllFit segment.now after.now sources.now) }
    ensures err { IfErr result (λ error. error ≡ SetupError.OutOfMemory) }
{
    let mut accessors = ItemList::new(alloc);
    for source in sources {
        let value = after_value(after, source);
        let built = CompositeSourceAccessors::build_for_source(alloc, segment, source, value)?;
        accessors.push(built)?;
    }
    Ok(accessors)
}

// The after value of a source, by its name.
fn after_value<'a>(
    after: &'a NameMap<AfterKey>,
    source: &CompositeAggregationSource,
) -> Option<&'a CompositeIntermediateKey>
    ensures { option_map (λ k. k.now) result ≡ after_of after.now source.now }
{
    Some(&after.get(source.name())?.0)
}
