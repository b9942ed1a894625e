use crate::held::{Metric, entry_of};
use agg_expect::expect_equal;
use agg_results::IntermediateTermBucketResult;
use agg_values::IntermediateKey;
use std::collections::HashMap;
use std::test::Fail;

#[test]
fn a_container_holds_what_it_was_made_of(rt: HostRuntime) -> Result<(), Fail> {
    let alloc = rt.alloc();
    let mut entries = HashMap::new(alloc);
    entries.insert(IntermediateKey::I64(7), entry_of::<Metric>(alloc, 3, &[])?)?;
    let terms = IntermediateTermBucketResult::from_parts(entries, 2, 1);
    let held = terms.entries().get(&IntermediateKey::I64(7));
    expect_equal(held.map(|entry| entry.doc_count), Some(3))?;
    let others = (
        terms.sum_other_doc_count(),
        terms.doc_count_error_upper_bound(),
    );
    expect_equal(others, (2, 1))
}
