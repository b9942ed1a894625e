//! Filters: the documents that a query matches.
ghost use Rattle.std.specs.Prelude.{◌≡◌, []};

use crate::NamedBuilder;
use agg_segment::QueryTree;
use agg_values::{ItemList, Text};
use std::alloc::Global;

/// The query of a filter: a tree, or what makes one for a schema.
#[derive(Drop)]
pub enum FilterQuery<B = NamedBuilder> {
    Tree(QueryTree),
    CustomBuilder(B),
}

/// The documents that a query matches.
#[derive(Drop)]
pub struct FilterAggregation<B = NamedBuilder> {
    query: FilterQuery<B>,
}

impl FilterAggregation {
    /// A filter by a tree.
    pub fn new_with_tree(tree: QueryTree) -> FilterAggregation
        ensures { result.query ≡ FilterQuery.Tree tree }
    {
        FilterAggregation::of(FilterQuery::Tree(tree))
    }

    /// A filter by what the builder makes.
    pub fn new_with_builder(builder: NamedBuilder) -> FilterAggregation
        ensures { result.query ≡ FilterQuery.CustomBuilder builder }
    {
        FilterAggregation::of(FilterQuery::CustomBuilder(builder))
    }
}

impl<B> FilterAggregation<B> {
    /// A filter by a query.
    pub fn of(query: FilterQuery<B>) -> FilterAggregation<B>
        ensures { result.query ≡ query }
    {
        FilterAggregation { query }
    }

    /// What it filters by.
    pub fn query(&self) -> &FilterQuery<B>
        ensures { result.now ≡ self.now.query }
    {
        &self.query
    }

    /// The fields whose columns are read beside its query: none.
    pub fn get_fast_field_names(&self, alloc: Global) -> ItemList<Text>
        ensures { result ≡ [] }
    {
        ItemList::new(alloc)
    }
}
