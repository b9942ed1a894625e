//! What holds of results that stand for documents, at any depth.
ghost use Rattle.std.specs.Prelude.{◌≡◌, ◌++◌, ◌^◌, All, Bool, ℕ, List, [], map, take, drop};
ghost use Rattle.std.specs.Prelude.{IsPermutation};
ghost use Rattle.agg_values.specs.KeyOrder.{tuple_order};
ghost use Rattle.agg_values.specs.Tuple.{KeyTuple};
ghost use Rattle.agg_segment.specs.storage.Document.{Fields, HasNumbersOf64Bits};
ghost use Rattle.agg_request_tree.specs.Groups.{Group, Groups};
ghost use Rattle.agg_request_tree.specs.Names.{NamesAscend};
ghost use Rattle.agg_request_tree.specs.Occurrences.{past_occurrences};
ghost use Rattle.agg_request_tree.specs.Page.{Entry, IsPage, group_of};
ghost use Rattle.agg_request_tree.specs.Request.{Request};
ghost use Rattle.agg_request_tree.specs.Source.{Sources, rules_of};
ghost use Rattle.agg_request_tree.specs.Uncut.{ListsAsMany};
ghost use Rattle.agg_results.specs.declared.final_results.types.AggregationResults as shown;
ghost use Rattle.agg_results.specs.intermediate_results.Empty.{empty_results};
ghost use Rattle.agg_results.specs.intermediate_results.Final.{final_results};
ghost use Rattle.agg_results.specs.intermediate_results.Intermediate.{Held};
ghost use Rattle.agg_results.specs.intermediate_results.Merging.{AreMerged, CountsPass};
ghost use Rattle.agg_results.specs.intermediate_results.Merging.{ShapesDiffer, SomeOfBoth};
ghost use Rattle.agg_results.specs.intermediate_results.Outcome.{AreBelow};
ghost use Rattle.agg_results.specs.intermediate_results.Refusals.{HoldsOther, HoldsUnknown};
ghost use Rattle.agg_results.specs.Results.{AreResults};
ghost use Rattle.agg_results.specs.StandsFor.{GroupsStandFor, StandsFor};

/// The groups of a page stand for its documents, and so do the lowest groups of the occurrences
/// past the bound. What is held after a page is above it.
pub fn a_page_stands_for_its_documents()
    ensures page { (sources : Sources) (size : ℕ) (bound : KeyTuple) (documents : List Fields)
        (page : List Entry)
        → IsPage sources size bound documents page
        → GroupsStandFor sources size bound documents (map group_of page) }
    ensures groups { (sources : Sources) (size : ℕ) (bound : KeyTuple) (documents : List Fields)
        (groups : List Group)
        → Groups (rules_of sources) (past_occurrences sources bound documents) groups
        → GroupsStandFor sources size bound documents (take size groups) }
    ensures above { (sources : Sources) (size : ℕ) (bound : KeyTuple) (documents : List Fields)
        (groups : List Group)
        → GroupsStandFor sources size bound documents groups
        → AreBelow (tuple_order (rules_of sources)) (take size groups) (drop size groups) }
{}

/// The empty result of a request stands for no documents. The names of a request ascend, as
/// `check_request` says of one in memory.
pub fn the_empty_result_stands_for_none<B>()
    ensures { (is_match : B → Fields → Bool) (request : Request B)
        → NamesAscend request
        → StandsFor is_match request [] (empty_results request) }
{}

/// What stands for documents merges: the shapes never differ, a sum passes only where some
/// aggregation lists 2^62 documents or more, and the two as one, trimmed or not, stand for the
/// documents of both. The numbers of documents are of 64 bits, as `SegmentReader::num_docs` says of
/// those in a segment.
pub fn merging_joins_the_documents<B>()
    ensures alike { (is_match : B → Fields → Bool) (request : Request B)
        (documents others : List Fields) (held more : Held)
        → StandsFor is_match request documents held
        → StandsFor is_match request others more
        → ¬ (SomeOfBoth ShapesDiffer held more) }
    ensures few { (is_match : B → Fields → Bool) (request : Request B)
        (documents others : List Fields) (held more : Held)
        → All HasNumbersOf64Bits (documents ++ others)
        → StandsFor is_match request documents held
        → StandsFor is_match request others more
        → SomeOfBoth CountsPass held more
        → ListsAsMany is_match (2 ^ 62) request (documents ++ others) }
    ensures joined { (is_match : B → Fields → Bool) (request : Request B)
        (documents others : List Fields) (held more whole : Held)
        → StandsFor is_match request documents held
        → StandsFor is_match request others more
        → AreMerged held more whole
        → StandsFor is_match request (documents ++ others) whole }
{}

/// What stands for documents is final as their results: no name is unknown, and none has another
/// shape.
pub fn final_results_are_those_of_the_documents<B>()
    ensures results { (is_match : B → Fields → Bool) (request : Request B)
        (documents : List Fields) (held : Held)
        → StandsFor is_match request documents held
        → AreResults is_match request documents (final_results request held) }
    ensures known { (is_match : B → Fields → Bool) (request : Request B)
        (documents : List Fields) (held : Held)
        → StandsFor is_match request documents held
        → ¬ (HoldsUnknown request held) }
    ensures alike { (is_match : B → Fields → Bool) (request : Request B)
        (documents : List Fields) (held : Held)
        → StandsFor is_match request documents held
        → ¬ (HoldsOther request held) }
{}

/// A request has results over every list of documents, and only one, whatever the order of the
/// documents.
pub fn each_request_has_one_result<B>()
    ensures exists { (is_match : B → Fields → Bool) (request : Request B) (documents : List Fields)
        → (results : shown.AggregationResults) × AreResults is_match request documents results }
    ensures unique { (is_match : B → Fields → Bool) (request : Request B) (documents : List Fields)
        (results others : shown.AggregationResults)
        → AreResults is_match request documents results
        → AreResults is_match request documents others
        → results ≡ others }
    ensures any_order { (is_match : B → Fields → Bool) (request : Request B)
        (documents permuted : List Fields) (results others : shown.AggregationResults)
        → IsPermutation documents permuted
        → AreResults is_match request documents results
        → AreResults is_match request permuted others
        → results ≡ others }
{}

/// As far as final results tell, the empty result is neutral, and merging is associative and
/// commutative.
pub fn merging_in_any_order_is_final_alike<B>()
    ensures neutral { (is_match : B → Fields → Bool) (request : Request B)
        (documents : List Fields) (held whole : Held)
        → NamesAscend request
        → StandsFor is_match request documents held
        → AreMerged (empty_results request) held whole
        → final_results request whole ≡ final_results request held }
    ensures commutative { (is_match : B → Fields → Bool) (request : Request B)
        (documents others : List Fields) (held more whole turned : Held)
        → StandsFor is_match request documents held
        → StandsFor is_match request others more
        → AreMerged held more whole
        → AreMerged more held turned
        → final_results request turned ≡ final_results request whole }
    ensures associative { (is_match : B → Fields → Bool) (request : Request B)
        (documents others last : List Fields) (held more most first whole second turned : Held)
        → StandsFor is_match request documents held
        → StandsFor is_match request others more
        → StandsFor is_match request last most
        → AreMerged held more first
        → AreMerged first most whole
        → AreMerged more most second
        → AreMerged held second turned
        → final_results request turned ≡ final_results request whole }
{}
