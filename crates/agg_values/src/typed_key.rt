ghost use Rattle.std.specs.Prelude.{◌≡◌, IfOk};
ghost use Rattle.agg_values.specs.TypedKey.{canonical_key};

use crate::{Address, OutOfMemory, Text};
use std::alloc::Global;

/// A key as it is paged by: a value with its type, or Null for a missing value.
#[derive(Debug, Drop, PartialEq, Eq, Hash)]
pub enum CompositeIntermediateKey {
    Bool(bool),
    Str(Text),
    I64(i64),
    U64(u64),
    /// Nanoseconds since 1970-01-01T00:00:00Z.
    DateTime(i64),
    IpAddr(Address),
    Null,
}

impl CompositeIntermediateKey {
    /// An equal key.
    pub fn try_clone(&self, alloc: Global) -> Result<CompositeIntermediateKey, OutOfMemory>
        ensures { IfOk result (λ key. key ≡ self.now) }
    {
        match self {
            CompositeIntermediateKey::Bool(b) => Ok(CompositeIntermediateKey::Bool(*b)),
            CompositeIntermediateKey::Str(text) => {
                Ok(CompositeIntermediateKey::Str(text.try_clone(alloc)?))
            }
            CompositeIntermediateKey::I64(n) => Ok(CompositeIntermediateKey::I64(*n)),
            CompositeIntermediateKey::U64(n) => Ok(CompositeIntermediateKey::U64(*n)),
            CompositeIntermediateKey::DateTime(ns) => Ok(CompositeIntermediateKey::DateTime(*ns)),
            CompositeIntermediateKey::IpAddr(address) => {
                Ok(CompositeIntermediateKey::IpAddr(*address))
            }
            CompositeIntermediateKey::Null => Ok(CompositeIntermediateKey::Null),
        }
    }
}

/// The key of the same value whose number is an I64 where it fits one.
pub fn canonical(key: CompositeIntermediateKey) -> CompositeIntermediateKey
    ensures { result ≡ canonical_key key }
{
    match key {
        CompositeIntermediateKey::U64(n) => match i64::try_from(n) {
            Ok(small) => CompositeIntermediateKey::I64(small),
            Err(_) => CompositeIntermediateKey::U64(n),
        },
        other => other,
    }
}
