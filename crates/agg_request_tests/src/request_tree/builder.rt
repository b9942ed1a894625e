use agg_expect::expect_equal;
use agg_request_tree::{QueryBuildError, QueryBuilder};
use agg_segment::{QueryTree, Schema};
use agg_values::Text;
use std::alloc::Global;
use std::test::Fail;

// A builder that matches every document where the schema has a field.
#[derive(Drop)]
struct AllOfSome {}

impl QueryBuilder for AllOfSome {
    ghost use Rattle.std.specs.Prelude.{◌==◌, if◌then◌else◌, None, Some, length};
    ghost use Rattle.agg_segment.specs.declared.query.QueryTree.TheVariants.{All as AllOf};

    ghost tree_for = { λ _ fields. (if (length fields == 0) then None else Some AllOf) };

    fn build_query(&self, alloc: Global, schema: &Schema) -> Result<QueryTree, QueryBuildError> {
        let _ = alloc;
        if schema.fields().is_empty() {
            return Err(QueryBuildError::NoTree);
        }
        Ok(QueryTree::All)
    }
}

#[test]
fn a_builder_gives_a_query_or_none(rt: HostRuntime) -> Result<(), Fail> {
    let alloc = rt.alloc();
    let mut schema = Schema::new(alloc);
    let refused = AllOfSome {}.build_query(alloc, &schema);
    expect_equal(refused.err(), Some(QueryBuildError::NoTree))?;
    schema.add_field(Text::copy_of(alloc, "a")?)?;
    let query = AllOfSome {}.build_query(alloc, &schema)?;
    assert!(rt; matches!(query, QueryTree::All));
    Ok(())
}
