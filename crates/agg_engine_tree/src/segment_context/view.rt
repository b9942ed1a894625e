//! What a context shows of its nodes: their names, kinds and children.
ghost use Rattle.std.specs.Prelude.{◌≡◌, ◌++◌, ◌∷◌, [], ℕ, List, Some, IfOk, OnOk, map};
ghost use Rattle.std.specs.Prelude.{option_map};
ghost use Rattle.agg_segment.specs.declared.query.QueryTree.{QueryTree as Tree};
ghost use Rattle.agg_request_tree.specs.Request.{Request};
ghost use Rattle.agg_request_tree.specs.declared.aggregation.Aggregation.{Aggregation};
ghost use Rattle.agg_engine_tree.specs.segment_context.Context.{ArePlansOf, IsContextOf, IsPlanOf};
ghost use Rattle.agg_engine_tree.specs.segment_context.Context.{Meaning};
ghost use Rattle.agg_engine_tree.specs.segment_context.Plan.{plan_of, plans_of};
ghost use Rattle.agg_engine_tree.specs.segment_context.Views.{kind_word, name_at, name_in, view_in};
ghost use Rattle.agg_engine_tree.specs.segment_context.Views.{views_of};

use crate::segment_context::{AggKind, AggRefNode, PerRequestAggSegCtx};
use agg_values::{ItemList, OutOfMemory, Text};

/// A node as it is shown: its name, the word `Metric`, `Filter` or `Composite`, and those below it.
#[derive(Drop)]
pub struct AggTreeViewNode {
    pub name: Text,
    pub kind: Text,
    pub children: ItemList<AggTreeViewNode>,
}

impl PerRequestAggSegCtx<'_> {
    /// The name of a node, None exactly where there is no data at its index.
    pub fn get_name(&self, node: &AggRefNode) -> Option<&Text>
        ensures name { option_map (λ name. name.now) result ≡ name_in self.now node.now }
        ensures request { (meaning : Meaning) (name : List ℕ) (a : Aggregation Tree)
            → IsPlanOf meaning self.now name a (plan_of node.now)
            → option_map (λ name. name.now) result ≡ Some name }
    {
        self.name_at(node.kind, node.idx_in_req_data)
    }

    // The name in the data at an index of a kind.
    fn name_at(&self, kind: AggKind, index: usize) -> Option<&Text>
        ensures { option_map (λ name. name.now) result ≡ name_at self.now kind index }
    {
        match kind {
            AggKind::StatsKind(_) => match self.stats_metric_req_data.as_slice().get(index) {
                Some(req) => Some(&req.name),
                None => None,
            },
            AggKind::Filter => match self.filter_req_data.as_slice().get(index) {
                Some(req) => Some(&req.name),
                None => None,
            },
            AggKind::Composite => match self.composite_req_data.as_slice().get(index) {
                Some(req) => Some(&req.name),
                None => None,
            },
        }
    }

    /// The nodes as they are shown. Those of a request stand by name ascending, as in the request.
    pub fn get_view_tree(&self) -> Result<ItemList<AggTreeViewNode>, OutOfMemory>
        ensures { IfOk result (λ views. (meaning : Meaning) (request : Request Tree)
            → IsContextOf meaning self.now request → views ≡ views_of request) }
    {
        self.view_nodes(self.agg_tree.as_slice())
    }

    // The views of nodes.
    #[cycle(views)]
    fn view_nodes(&self, nodes: &[AggRefNode]) -> Result<ItemList<AggTreeViewNode>, OutOfMemory>
        ensures { IfOk result (λ views. (meaning : Meaning) (request : Request Tree)
            → ArePlansOf meaning self.now request (plans_of (map plan_of nodes.now))
            → views ≡ views_of request) }
    {
        let mut views = ItemList::new(self.agg_tree.allocator());
        for node in nodes {
            self.add_view(node, &mut views)?;
        }
        Ok(views)
    }

    // Adds the view of a node, if it has data.
    #[cycle(views)]
    fn add_view(
        &self,
        node: &AggRefNode,
        views: &mut ItemList<AggTreeViewNode>,
    ) -> Result<(), OutOfMemory>
        ensures { OnOk result ((meaning : Meaning) (name : List ℕ) (a : Aggregation Tree)
            → IsPlanOf meaning self.now name a (plan_of node.now)
            → views.new ≡ views.old ++ view_in a name ∷ []) }
    {
        let Some(name) = self.get_name(node) else {
            return Ok(());
        };
        let alloc = views.allocator();
        let view = AggTreeViewNode {
            name: name.try_clone(alloc)?,
            kind: Text::copy_of(alloc, kind_word(node.kind))?,
            children: self.view_nodes(node.children.as_slice())?,
        };
        views.push(view)
    }
}

// The word of a kind.
fn kind_word(kind: AggKind) -> &'static str
    ensures { result.now ≡ kind_word kind }
{
    match kind {
        AggKind::StatsKind(_) => "Metric",
        AggKind::Filter => "Filter",
        AggKind::Composite => "Composite",
    }
}
