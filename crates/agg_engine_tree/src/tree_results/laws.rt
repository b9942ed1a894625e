//! Laws of names.
ghost use Rattle.std.specs.Prelude.{◌≡◌};
ghost use Rattle.std.specs.Map.{keys_of};
ghost use Rattle.agg_segment.specs.declared.query.QueryTree.{QueryTree};
ghost use Rattle.agg_request_tree.specs.Names.{NamesAscend};
ghost use Rattle.agg_request_tree.specs.Request.{Request};
ghost use Rattle.agg_engine_tree.specs.segment_context.Context.{ArePlansOf, Meaning};
ghost use Rattle.agg_engine_tree.specs.segment_context.Plan.{Plans};
ghost use Rattle.agg_engine_tree.specs.declared.segment_context.context.PerRequestAggSegCtx
    as declared;
ghost use Rattle.agg_engine_tree.specs.collector_tree.Tree.{Held, IsGroupOf};
ghost use Rattle.agg_engine_tree.specs.tree_results.Names.{HasNamesApart, names_of};

/// A tree of a request has the request's names, and they are apart. The names of a request ascend,
/// as `check_request` says of one in memory.
pub fn a_tree_has_the_names_of_its_request()
    ensures names { (meaning : Meaning) (ctx : declared.PerRequestAggSegCtx)
        (request : Request QueryTree) (plans : Plans) (h : Held)
        → ArePlansOf meaning ctx request plans → IsGroupOf plans h
        → names_of ctx h ≡ keys_of request }
    ensures apart { (meaning : Meaning) (ctx : declared.PerRequestAggSegCtx)
        (request : Request QueryTree) (plans : Plans) (h : Held)
        → ArePlansOf meaning ctx request plans → IsGroupOf plans h
        → NamesAscend request → HasNamesApart ctx h }
{}
