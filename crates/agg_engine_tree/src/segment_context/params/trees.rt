//! The tree of a filter: a copy of its own, or the one that its builder makes.
ghost use Rattle.std.specs.Prelude.{◌≡◌, None, Some, All, Any, IfErr, IfOk, IsErrOf, IsSome, OnOk};
ghost use Rattle.agg_request_tree.specs.Request.{query_builder, with_query_builder};
ghost use Rattle.agg_engine_tree.specs.segment_context.Context.{tree_in};
ghost use Rattle.agg_engine_tree.specs.segment_context.SetupError.{IsOfBuilders};
ghost use Rattle.agg_request_tree.specs.BuiltRequest.{built_tree};

use crate::segment_context::SetupError;
use agg_request_tree::{FilterQuery, NamedBuilder, QueryBuildError, QueryBuilder};
use agg_segment::{QueryTree, Schema};
use std::alloc::Global;

/// The tree of a filter with a named builder.
pub fn named_tree(
    alloc: Global,
    query: &FilterQuery,
    schema: &Schema,
) -> Result<QueryTree, SetupError>
    ensures tree { IfOk result (λ tree. tree ≡ tree_in (with_query_builder (built_tree
        (λ b. tree_for (b.builder.vtable, b.builder.value) schema.now)) query.now)) }
    ensures each { OnOk result (All
        (λ b. IsSome (tree_for (b.builder.vtable, b.builder.value) schema.now))
        (query_builder query.now)) }
    ensures none { IsErrOf result SetupError.QueryBuild → Any
        (λ b. tree_for (b.builder.vtable, b.builder.value) schema.now ≡ None)
        (query_builder query.now) }
    ensures err { IfErr result IsOfBuilders }
{
    match query {
        FilterQuery::Tree(tree) => Ok(tree.try_clone(alloc)?),
        FilterQuery::CustomBuilder(builder) => Ok(named_query(alloc, builder, schema)?),
    }
}

// What a named builder makes.
fn named_query(
    alloc: Global,
    named: &NamedBuilder,
    schema: &Schema,
) -> Result<QueryTree, QueryBuildError>
    ensures ok { IfOk result (λ tree.
        tree_for (named.now.builder.vtable, named.now.builder.value) schema.now ≡ Some tree) }
    ensures none { IsErrOf result QueryBuildError.NoTree
        → tree_for (named.now.builder.vtable, named.now.builder.value) schema.now ≡ None }
{
    named.builder.build_query(alloc, schema)
}

/// The tree of a filter with such a builder.
pub fn tree<B: QueryBuilder>(
    alloc: Global,
    query: &FilterQuery<B>,
    schema: &Schema,
) -> Result<QueryTree, SetupError>
    ensures tree { IfOk result (λ tree. tree ≡ tree_in
        (with_query_builder (built_tree (λ b. B.tree_for b schema.now)) query.now)) }
    ensures each { OnOk result
        (All (λ b. IsSome (B.tree_for b schema.now)) (query_builder query.now)) }
    ensures none { IsErrOf result SetupError.QueryBuild
        → Any (λ b. B.tree_for b schema.now ≡ None) (query_builder query.now) }
    ensures err { IfErr result IsOfBuilders }
{
    match query {
        FilterQuery::Tree(tree) => Ok(tree.try_clone(alloc)?),
        FilterQuery::CustomBuilder(builder) => Ok(builder.build_query(alloc, schema)?),
    }
}
