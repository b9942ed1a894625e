ghost use Rattle.std.specs.Prelude.{◌≡◌, Some, IfOk};
ghost use Rattle.agg_values.specs.Key.{
  bucket_key,
  bucket_key_text,
  intermediate_key,
  intermediate_key_text,
};

use crate::address::shown_text;
use crate::{Address, OutOfMemory, Text};
use std::alloc::Global;
use std::fmt;

/// A key of a bucket.
#[derive(Debug, Drop, PartialEq, Eq, Hash)]
pub enum Key {
    Str(Text),
    I64(i64),
    U64(u64),
}

/// A key of a bucket that keeps its type.
#[derive(Debug, Drop, PartialEq, Eq, Hash)]
pub enum IntermediateKey {
    IpAddr(Address),
    Bool(bool),
    Str(Text),
    I64(i64),
    U64(u64),
}

impl Key {
    /// The key without its type: a Bool is 0 or 1, and an address its shown text.
    pub fn from_intermediate(alloc: Global, key: IntermediateKey) -> Result<Key, OutOfMemory>
        ensures { IfOk result (λ bucket. bucket ≡ bucket_key key) }
    {
        match key {
            IntermediateKey::IpAddr(address) => Ok(Key::Str(shown_text(alloc, address)?)),
            IntermediateKey::Bool(b) => Ok(Key::U64(u64::from(b))),
            IntermediateKey::Str(text) => Ok(Key::Str(text)),
            IntermediateKey::I64(n) => Ok(Key::I64(n)),
            IntermediateKey::U64(n) => Ok(Key::U64(n)),
        }
    }
}

impl From<Key> for IntermediateKey {
    ghost from_gives = { λ key intermediate. intermediate ≡ intermediate_key key };

    fn from(key: Key) -> IntermediateKey {
        match key {
            Key::Str(text) => IntermediateKey::Str(text),
            Key::I64(n) => IntermediateKey::I64(n),
            Key::U64(n) => IntermediateKey::U64(n),
        }
    }
}

impl fmt::Display for Key {
    ghost output = { λ key. Some (bucket_key_text key) };

    fn fmt<W: fmt::Write>(&self, f: &mut fmt::Formatter<W>) -> fmt::Result {
        match self {
            Key::Str(text) => f.write_str(text.as_str()),
            Key::I64(n) => write!(f, "{n}"),
            Key::U64(n) => write!(f, "{n}"),
        }
    }
}

impl fmt::Display for IntermediateKey {
    ghost output = { λ key. Some (intermediate_key_text key) };

    fn fmt<W: fmt::Write>(&self, f: &mut fmt::Formatter<W>) -> fmt::Result {
        match self {
            IntermediateKey::IpAddr(address) => write!(f, "{address}"),
            IntermediateKey::Bool(b) => write!(f, "{b}"),
            IntermediateKey::Str(text) => f.write_str(text.as_str()),
            IntermediateKey::I64(n) => write!(f, "{n}"),
            IntermediateKey::U64(n) => write!(f, "{n}"),
        }
    }
}
