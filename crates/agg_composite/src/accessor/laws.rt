//! What holds of encoded keys, as their definitions say it.
ghost use Rattle.std.specs.Prelude.{◌≡◌};
ghost use Rattle.std.specs.Cmp.Lexicographic.{slice_cmp};
ghost use Rattle.std.specs.declared.cmp.Ordering.TheVariants.{Equal};
ghost use Rattle.agg_values.specs.KeyOrder.{tuple_order};
ghost use Rattle.agg_values.specs.Names.{Named};
ghost use Rattle.agg_values.specs.Tuple.{KeyTuple};
ghost use Rattle.agg_values.specs.declared.after_key.AfterKey.{AfterKey};
ghost use Rattle.agg_segment.specs.Segment.{Stored};
ghost use Rattle.agg_request_tree.specs.Source.{rules_of};
ghost use Rattle.agg_composite.specs.accessor.Accessors.{Fits};
ghost use Rattle.agg_composite.specs.accessor.Encoding.{EncodedTuple, StandsForTuple};
ghost use Rattle.agg_composite.specs.declared.accessor.request_data.CompositeAggReqData as declared;

use crate::accessor::encoded::Encoded;

/// In a segment, the encoded tuples of one composite compare as the tuples that they stand for do,
/// and two are equal only for the same tuple.
pub fn encoded_tuples_compare_as_typed()
    ensures compared { (segment : Stored) (after : Named AfterKey)
        → (req : declared.CompositeAggReqData) → Fits segment after req
        → (left right : EncodedTuple) (typed_left typed_right : KeyTuple)
        → StandsForTuple req left typed_left → StandsForTuple req right typed_right
        → tuple_order (rules_of req.req.now.sources) typed_left typed_right
        ≡ slice_cmp ⟦<Encoded as Ord>⟧.cmp left right }
    ensures exact { (segment : Stored) (after : Named AfterKey)
        → (req : declared.CompositeAggReqData) → Fits segment after req
        → (left right : EncodedTuple) (typed_left typed_right : KeyTuple)
        → StandsForTuple req left typed_left → StandsForTuple req right typed_right
        → slice_cmp ⟦<Encoded as Ord>⟧.cmp left right ≡ Equal
        → typed_left ≡ typed_right }
{}
