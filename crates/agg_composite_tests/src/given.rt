//! Keys, as tables hold them.
use agg_values::{AfterKey, CompositeIntermediateKey, Text};
use std::alloc::Global;
use std::test::Fail;

/// The key that a text such as `i64:7` says.
pub(crate) fn key(alloc: Global, text: &str) -> Result<CompositeIntermediateKey, Fail> {
    Ok(AfterKey::read(alloc, &Text::copy_of(alloc, text)?)?.0)
}
