//! What holds of queries, as their definition says it.
ghost use Rattle.std.specs.Prelude.{◌≡◌};
ghost use Rattle.agg_segment.specs.storage.Document.{Fields};
ghost use Rattle.agg_segment.specs.Query.{matches, put_by_class};
ghost use Rattle.agg_segment.specs.declared.query.QueryTree.{QueryTree};

/// Whether a query matches doesn't change when the keys of each field are put by class.
pub fn classes_match_in_any_order()
    ensures { (tree : QueryTree) (document : Fields)
        → matches tree (put_by_class document) ≡ matches tree document }
{}
