//! What the after values of sources may not be.
ghost use Rattle.std.specs.Prelude.{All, Any, IfNone, IfSome};
ghost use Rattle.agg_request_tree.specs.Faults.{HasInterval, IsSoundSource, SourceHasFault};
ghost use Rattle.agg_request_tree.specs.Source.{after_of};

use crate::CompositeAggregationSource;
use agg_values::{AfterKey, InvalidArgument, NameMap, RequestError};

/// A fault of an after value of a source, if there is any: a Null where documents without a value
/// have no bucket, or a key of another type than its source's.
pub fn find_after_fault(
    sources: &[CompositeAggregationSource],
    after: &NameMap<AfterKey>,
) -> Option<InvalidArgument>
    ensures some { IfSome result (λ fault. Any (λ source. SourceHasFault source
        (after_of after.now source) (RequestError.Invalid fault)) sources.now) }
    ensures none { IfNone result (All (λ source. HasInterval source
        → IsSoundSource source (after_of after.now source)) sources.now) }
{
    for source in sources {
        let value = source.after_value(after);
        if source.is_null_after(value) {
            return Some(InvalidArgument::NullAfter);
        }
        if source.is_other_after(value) {
            return Some(InvalidArgument::AfterType);
        }
    }
    None
}
