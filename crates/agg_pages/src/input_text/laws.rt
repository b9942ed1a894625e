//! What holds of inputs, as their definition says it, and of what is put into one from the results
//! before.
ghost use Rattle.std.specs.Prelude.{◌≡◌, ℕ, List, Some, false, codes, length, All};
ghost use Rattle.serde_json.specs.Data.{Data};
ghost use Rattle.serde_json.specs.Find.{get};
ghost use Rattle.serde_json.specs.Read.{read};
ghost use Rattle.agg_values.specs.Tuple.{KeyTuple};
ghost use Rattle.agg_request_tree.specs.BySource.{after_map};
ghost use Rattle.agg_request_tree.specs.Faults.{HaveOwnNames};
ghost use Rattle.agg_request_tree.specs.Occurrences.{bound_of};
ghost use Rattle.agg_request_tree.specs.Source.{Sources};
ghost use Rattle.agg_request_tree.specs.declared.aggregation.CompositeAggregation as declared;
ghost use Rattle.agg_request.specs.reading.CompositeJson.{AreKeys, IsCompositeJson};
ghost use Rattle.agg_pages.specs.input_text.Input.{Input, IsInput};
ghost use Rattle.agg_pages.specs.input_text.PrintedAfterKeys.{IsWithinType, printed_after_key};

/// Bytes are at most one input, for the same builders.
pub fn bytes_are_at_most_one_input<B>()
    ensures { (builders : List B) (name_of : B → List ℕ) (bytes : List ℕ) (one other : Input B)
        → IsInput builders name_of bytes one
        → IsInput builders name_of bytes other
        → one ≡ other }
{}

/// An after key as it is printed is read as that after key. In the body of a composite with the
/// same sources, it is an after key whose bound is the tuple that was printed.
pub fn a_printed_after_key_gives_its_bound()
    ensures reads { (sources : Sources) (tuple : KeyTuple)
        → All IsWithinType tuple
        → (d : Data) × (read (printed_after_key sources tuple) ≡ Some d)
        × AreKeys false d (after_map sources tuple) }
    ensures bound { (composite : declared.CompositeAggregation) (tuple : KeyTuple)
        → (body d : Data)
        → HaveOwnNames composite.sources
        → length tuple ≡ length composite.sources
        → All IsWithinType tuple
        → read (printed_after_key composite.sources tuple) ≡ Some d
        → get (codes "after") body ≡ Some d
        → IsCompositeJson false body composite
        → bound_of composite.sources composite.after ≡ tuple }
{}
