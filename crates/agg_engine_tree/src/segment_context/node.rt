//! The tree of a request's aggregations in a segment.
ghost use Rattle.std.specs.Prelude.{◌≡◌, List, ℕ, option_map};
ghost use Rattle.std.specs.List.{find};
ghost use Rattle.agg_values.specs.Names.{value_of};
ghost use Rattle.agg_segment.specs.declared.query.QueryTree.{QueryTree as Tree};
ghost use Rattle.agg_request_tree.specs.Request.{below_of};
ghost use Rattle.agg_request_tree.specs.declared.aggregation.Aggregation.{Aggregation};
ghost use Rattle.agg_engine_tree.specs.segment_context.Context.{IsPlanOf, Meaning};
ghost use Rattle.agg_engine_tree.specs.segment_context.Plan.{plan_of};
ghost use Rattle.agg_engine_tree.specs.segment_context.Views.{IsNodeOf, children_of, is_named};

use crate::segment_context::PerRequestAggSegCtx;
use agg_metric::StatsType;
use agg_values::{ItemList, Text};

/// A kind of aggregation.
#[derive(Clone, Copy, Debug, PartialEq, Eq)]
pub enum AggKind {
    /// What is computed of the values of a field.
    StatsKind(StatsType),
    /// The documents that a query matches.
    Filter,
    /// A page of groups.
    Composite,
}

/// An aggregation of a request, by its kind and its index in the data of that kind, with those
/// below it.
#[derive(Drop)]
pub struct AggRefNode {
    pub kind: AggKind,
    pub idx_in_req_data: usize,
    pub children: ItemList<AggRefNode>,
}

impl AggRefNode {
    /// The first child of a name, None exactly where there is none.
    pub fn get_sub_agg(&self, name: &Text, pr: &PerRequestAggSegCtx<'_>) -> Option<&AggRefNode>
        ensures first { option_map (λ node. node.now) result
            ≡ find (is_named pr.now name.now) (children_of self.now) }
        ensures request { (meaning : Meaning) (own : List ℕ) (a : Aggregation Tree)
            → IsPlanOf meaning pr.now own a (plan_of self.now)
            → IsNodeOf meaning pr.now name.now (value_of name.now (below_of a))
            (option_map (λ node. node.now) result) }
    {
        for child in self.children.as_slice() {
            if has_name(child, name, pr) {
                return Some(child);
            }
        }
        None
    }
}

// Whether a node is that of a name.
fn has_name(node: &AggRefNode, name: &Text, pr: &PerRequestAggSegCtx<'_>) -> bool
    ensures { result ≡ is_named pr.now name.now node.now }
{
    match pr.get_name(node) {
        Some(own) => name == own,
        None => false,
    }
}
