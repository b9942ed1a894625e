//! Keys, as the tables of tests hold them.
use agg_values::{Address, CompositeIntermediateKey, OutOfMemory, Text};
use std::alloc::Global;

/// A key with its type.
#[derive(Clone, Copy)]
pub(crate) enum Given {
    Truth(bool),
    Text(&'static str),
    Signed(i64),
    Unsigned(u64),
    Date(i64),
    Address(u128),
    Null,
}

impl Given {
    /// The key itself.
    pub(crate) fn key(self, alloc: Global) -> Result<CompositeIntermediateKey, OutOfMemory> {
        Ok(match self {
            Given::Truth(truth) => CompositeIntermediateKey::Bool(truth),
            Given::Text(text) => CompositeIntermediateKey::Str(Text::copy_of(alloc, text)?),
            Given::Signed(number) => CompositeIntermediateKey::I64(number),
            Given::Unsigned(number) => CompositeIntermediateKey::U64(number),
            Given::Date(nanoseconds) => CompositeIntermediateKey::DateTime(nanoseconds),
            Given::Address(address) => CompositeIntermediateKey::IpAddr(Address(address)),
            Given::Null => CompositeIntermediateKey::Null,
        })
    }
}
