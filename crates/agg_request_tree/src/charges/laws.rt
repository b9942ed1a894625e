//! What holds of roofs, as their definition says it.
ghost use Rattle.std.specs.Prelude.{◌≡◌, ◌≤◌, Bool, ℕ, List, ◌++◌, IsPermutation, length};
ghost use Rattle.std.specs.List.{sum_by};
ghost use Rattle.agg_segment.specs.storage.Document.{Fields};
ghost use Rattle.agg_request_tree.specs.Groups.{Group};
ghost use Rattle.agg_request_tree.specs.Page.{documents_with};
ghost use Rattle.agg_request_tree.specs.Request.{Request};
ghost use Rattle.agg_request_tree.specs.declared.aggregation.CompositeAggregation as declared;
ghost use Rattle.agg_request_tree.specs.charges.Charges.{fixed_charge};
ghost use Rattle.agg_request_tree.specs.charges.Laws.{AreGroupsOf};
ghost use Rattle.agg_request_tree.specs.charges.Roof.{low_roof, over_tuples, past_tuples, roof};
ghost use Rattle.agg_request_tree.specs.charges.Settled.{IsSettled};
ghost use Rattle.agg_request_tree.specs.charges.Within.{Within};

/// The low roof of a request is at least its fixed charge and at most its roof. Where the request
/// is settled, the two roofs are the same.
pub fn low_roofs_are_at_most_roofs<B>()
    ensures fixed { (is_match : B → Fields → Bool) (request : Request B)
        → (documents : ℕ) (matches : List Fields)
        → fixed_charge request documents ≤ low_roof is_match request documents matches }
    ensures lower { (is_match : B → Fields → Bool) (request : Request B)
        → (documents : ℕ) (matches : List Fields)
        → low_roof is_match request documents matches
        ≤ roof is_match request documents matches }
    ensures settled { (is_match : B → Fields → Bool) (request : Request B)
        → (documents : ℕ) (matches : List Fields)
        → IsSettled is_match request matches
        → low_roof is_match request documents matches
        ≡ roof is_match request documents matches }
{}

/// A roof doesn't fall where documents are added, and is the same for any order of them. A request
/// that is settled over documents is settled over those within them.
pub fn roofs_rise_with_documents<B>()
    ensures within { (is_match : B → Fields → Bool) (request : Request B)
        → (documents : ℕ) (matches others : List Fields)
        → Within matches others
        → roof is_match request documents matches ≤ roof is_match request documents others }
    ensures more { (is_match : B → Fields → Bool) (request : Request B)
        → (documents : ℕ) (matches others : List Fields)
        → roof is_match request documents matches
        ≤ roof is_match request documents (matches ++ others) }
    ensures any_order { (is_match : B → Fields → Bool) (request : Request B)
        → (documents : ℕ) (matches others : List Fields)
        → IsPermutation matches others
        → roof is_match request documents matches ≡ roof is_match request documents others }
    ensures low_any_order { (is_match : B → Fields → Bool) (request : Request B)
        → (documents : ℕ) (matches others : List Fields)
        → IsPermutation matches others
        → low_roof is_match request documents matches
        ≡ low_roof is_match request documents others }
    ensures settled { (is_match : B → Fields → Bool) (request : Request B)
        → (matches others : List Fields)
        → Within matches others
        → IsSettled is_match request others
        → IsSettled is_match request matches }
{}

/// The tuples of a composite are those of its groups over the documents: there are as many, and
/// what is counted over them is counted over these.
pub fn tuples_are_those_of_the_groups()
    ensures many { (composite : declared.CompositeAggregation) (documents : List Fields)
        → (groups : List Group)
        → AreGroupsOf composite documents groups
        → length (past_tuples composite documents) ≡ length groups }
    ensures sums { (composite : declared.CompositeAggregation) (documents : List Fields)
        → (groups : List Group)
        → AreGroupsOf composite documents groups
        → (bytes : List Fields → ℕ)
        → over_tuples composite bytes documents
        ≡ sum_by (λ g. bytes (documents_with composite.sources documents g.0)) groups }
{}
