ghost use Rattle.std.specs.Prelude.{◌≡◌, List, ℕ, Option, None, Some, IfOk, IsErrOf};
ghost use Rattle.agg_segment.specs.declared.query.QueryTree.{QueryTree as Tree};
ghost use Rattle.agg_request_tree.specs.declared.builder.QueryBuildError.{QueryBuildError};

use agg_segment::{QueryTree, Schema};
use agg_values::{OutOfMemory, Text};
use std::alloc::Global;
use thiserror::Error;

/// Why a builder gave no query.
#[derive(Clone, Copy, Debug, PartialEq, Eq, Error)]
pub enum QueryBuildError {
    #[error("the builder has no query for this schema")]
    NoTree,
    #[error("out of memory")]
    OutOfMemory,
}

impl From<OutOfMemory> for QueryBuildError {
    ghost from_gives = { λ _ error. error ≡ QueryBuildError.OutOfMemory };

    fn from(_error: OutOfMemory) -> QueryBuildError {
        QueryBuildError::OutOfMemory
    }
}

/// What makes a query for a schema.
pub trait QueryBuilder: Drop {
    /// The query that it makes for the fields of a schema, if any.
    ghost tree_for: { Self → List (List ℕ) → Option Tree };

    /// The query for a schema; NoTree where there is none.
    fn build_query(&self, alloc: Global, schema: &Schema) -> Result<QueryTree, QueryBuildError>
        ensures ok { IfOk result (λ tree. tree_for self.now schema.now ≡ Some tree) }
        ensures none { IsErrOf result QueryBuildError.NoTree
            → tree_for self.now schema.now ≡ None };
}

/// A builder under the name by which a request asks for it.
#[derive(Drop)]
pub struct NamedBuilder {
    pub name: Text,
    pub builder: Box<dyn QueryBuilder>,
}
