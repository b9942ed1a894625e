//! What contexts of a request are made with in each segment.
ghost use Rattle.std.specs.Prelude.{◌≡◌, None, Some, IfErr, IfOk, IsErrOf, OnOk, option_map};
ghost use Rattle.agg_engine_tree.specs.segment_context.SetupError.{IsOfBuilders};
ghost use Rattle.agg_engine_tree.specs.segment_context.Trees.{AreOfRequest};
ghost use Rattle.agg_engine_tree.specs.segment_context.Trees.{trees_of};
ghost use Rattle.agg_request_tree.specs.BuiltRequest.{EachMakesTree, SomeMakesNone, built};

mod queries;
mod trees;

use crate::segment_context::SetupError;
use agg_request_tree::{Aggregation, Aggregations, QueryBuilder};
use agg_segment::{QueryTree, Schema};
use agg_values::{AfterKey, ItemList, NameMap, Text};
use queries::filter_queries;
use std::alloc::Global;
use std::marker::Model;
use trees::{named_tree, tree};

/// A page of the composite of a name: how many groups it has room for, and the key after which it
/// begins.
#[derive(Drop)]
pub struct Page {
    pub name: Text,
    pub size: u32,
    pub after: NameMap<AfterKey>,
}

/// What contexts of a request are made with in each segment: a tree for each of its filters, and a
/// page, if one is set.
#[derive(Drop)]
pub struct AggContextParams {
    trees: ItemList<QueryTree>,
    page: Option<Page>,
}

impl Model for AggContextParams {
    ghost use Rattle.std.specs.Coded.{codes};
    ghost use Rattle.agg_segment.specs.contracts.query.QueryTree as tree;
    ghost use Rattle.agg_engine_tree.specs.segment_context.Params.{Params};

    ghost Value = { Params };

    ghost coded = { Prim.hlevel (codes, tree.the_row.coded) };

    ghost view = { λ params. record { trees = params.trees; page = params.page } };
}

impl AggContextParams {
    /// The trees of a request, with no page. Each of its builders is asked once, by name ascending,
    /// that of a filter before those below it.
    pub fn new(
        alloc: Global,
        request: &Aggregations,
        schema: &Schema,
    ) -> Result<AggContextParams, SetupError>
        ensures trees { IfOk result (λ params. params.trees ≡ trees_of
            (built (λ b. tree_for (b.builder.vtable, b.builder.value) schema.now) request.now)) }
        ensures of { IfOk result (λ params. AreOfRequest request.now params.trees) }
        ensures page { IfOk result (λ params. params.page ≡ None) }
        ensures each { OnOk result (EachMakesTree
            (λ b. tree_for (b.builder.vtable, b.builder.value) schema.now) request.now) }
        ensures none { IsErrOf result SetupError.QueryBuild → SomeMakesNone
            (λ b. tree_for (b.builder.vtable, b.builder.value) schema.now) request.now }
        ensures err { IfErr result IsOfBuilders }
    {
        let mut trees = ItemList::new(alloc);
        for query in filter_queries(alloc, request)?.as_slice() {
            trees.push(named_tree(alloc, query, schema)?)?;
        }
        Ok(AggContextParams { trees, page: None })
    }

    /// The trees of a request with builders of any type, with no page.
    pub fn of_request<B: QueryBuilder>(
        alloc: Global,
        request: &NameMap<Aggregation<B>>,
        schema: &Schema,
    ) -> Result<AggContextParams, SetupError>
        ensures trees { IfOk result (λ params.
            params.trees ≡ trees_of (built (λ b. B.tree_for b schema.now) request.now)) }
        ensures of { IfOk result (λ params. AreOfRequest request.now params.trees) }
        ensures page { IfOk result (λ params. params.page ≡ None) }
        ensures each { OnOk result (EachMakesTree (λ b. B.tree_for b schema.now) request.now) }
        ensures none { IsErrOf result SetupError.QueryBuild
            → SomeMakesNone (λ b. B.tree_for b schema.now) request.now }
        ensures err { IfErr result IsOfBuilders }
    {
        let mut trees = ItemList::new(alloc);
        for query in filter_queries(alloc, request)?.as_slice() {
            trees.push(tree(alloc, query, schema)?)?;
        }
        Ok(AggContextParams { trees, page: None })
    }

    /// The trees of the request's filters, in order.
    pub(crate) fn trees(&self) -> &[QueryTree]
        ensures { result.now ≡ self.now.trees }
    {
        self.trees.as_slice()
    }

    /// The page, if one is set.
    pub fn page(&self) -> Option<&Page>
        ensures { option_map (λ page. page.now) result ≡ self.now.page }
    {
        self.page.as_ref()
    }

    /// Sets the page, in place of the one that was set. It counts where the request has a composite
    /// of that name at top level.
    pub fn set_page(&mut self, name: Text, size: u32, after: NameMap<AfterKey>)
        ensures page { self.new.page ≡ Some (record { name = name; size = size; after = after }) }
        ensures trees { self.new.trees ≡ self.old.trees }
    {
        self.page = Some(Page { name, size, after });
    }
}
