//! The builder that the program hands in.
ghost use Rattle.agg_pages.specs.AnyField.{any_field};

use agg_request::{QueryBuildError, QueryBuilder};
use agg_segment::{QueryTree, Schema};
use agg_values::ItemList;
use std::alloc::Global;

/// Asks for documents with a value in some field of the schema. It has no query for a schema
/// without fields.
#[derive(Drop)]
pub struct AnyField;

impl QueryBuilder for AnyField {
    ghost tree_for = { λ _ fields. any_field fields };

    fn build_query(&self, alloc: Global, schema: &Schema) -> Result<QueryTree, QueryBuildError> {
        if schema.fields().is_empty() {
            return Err(QueryBuildError::NoTree);
        }
        let mut should = ItemList::new(alloc);
        for name in schema.fields() {
            let field = name.try_clone(alloc)?;
            should.push(QueryTree::Exists { field })?;
        }
        Ok(QueryTree::Boolean {
            must: ItemList::new(alloc),
            should,
            must_not: ItemList::new(alloc),
        })
    }
}
