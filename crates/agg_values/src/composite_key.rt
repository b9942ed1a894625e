ghost use Rattle.std.specs.Prelude.{◌≡◌, IfOk};
ghost use Rattle.agg_values.specs.Shown.{shown_key};

use crate::address::shown_text;
use crate::{CompositeIntermediateKey, OutOfMemory, Text};
use std::alloc::Global;

/// A key as it is shown.
#[derive(Debug, Drop, PartialEq, Eq, Hash)]
pub enum CompositeKey {
    Bool(bool),
    Str(Text),
    I64(i64),
    U64(u64),
    Null,
}

const NANOS_PER_MILLI: i64 = 1_000_000;

impl CompositeKey {
    /// The key as it is shown: a date in milliseconds, truncated, a mapped address as its IPv4 text
    /// and any other as its IPv6 text.
    pub fn from_intermediate(
        alloc: Global,
        key: CompositeIntermediateKey,
    ) -> Result<CompositeKey, OutOfMemory>
        ensures { IfOk result (λ shown. shown ≡ shown_key key) }
    {
        match key {
            CompositeIntermediateKey::Bool(b) => Ok(CompositeKey::Bool(b)),
            CompositeIntermediateKey::Str(text) => Ok(CompositeKey::Str(text)),
            CompositeIntermediateKey::I64(n) => Ok(CompositeKey::I64(n)),
            CompositeIntermediateKey::U64(n) => Ok(CompositeKey::U64(n)),
            CompositeIntermediateKey::DateTime(ns) => Ok(CompositeKey::I64(ns / NANOS_PER_MILLI)),
            CompositeIntermediateKey::IpAddr(address) => {
                Ok(CompositeKey::Str(shown_text(alloc, address)?))
            }
            CompositeIntermediateKey::Null => Ok(CompositeKey::Null),
        }
    }
}
