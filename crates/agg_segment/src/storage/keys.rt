ghost use Rattle.std.specs.Prelude.{◌≡◌, ◌<◌, ◌≤◌, ◌+◌, ◌^◌, ◌-ℤ◌, ℕ, Some, pos, IfOk};
ghost use Rattle.std.specs.Ordering.{nat_cmp};
ghost use Rattle.agg_values.specs.Column.{class_of};
ghost use Rattle.agg_values.specs.TypedKey.{typed_number};
ghost use Rattle.agg_values.specs.KeyOrder.{ascending_order};
ghost use Rattle.agg_segment.specs.storage.Columns.{encoded_key, StandsForKey, type_of};
ghost use Rattle.agg_segment.specs.storage.Columns.{named_texts, AreInKeyOrder};
ghost use Rattle.agg_segment.specs.storage.GatheredNumbers.{raw_key, IsEncodable};

use crate::storage::ColumnType;
use crate::storage::dictionary::{AddressList, Dictionary};
use agg_values::{Address, ColumnPaginationOrder, CompositeIntermediateKey, OutOfMemory};
use std::alloc::Global;
use std::cmp::Ordering;

/// What the numbers of a column stand for.
#[derive(Drop)]
pub enum ColumnKeys {
    Bools,
    Texts(Dictionary),
    Signed,
    Unsigned,
    Addresses(AddressList),
    Dates,
}

/// The number that stands for the zero of an i64.
pub const FROM_ZERO: u64 = 9_223_372_036_854_775_808;

impl ColumnKeys {
    /// The type of the column.
    pub fn column_type(&self) -> ColumnType
        ensures { result ≡ type_of self.now }
    {
        match self {
            ColumnKeys::Bools => ColumnType::Bool,
            ColumnKeys::Texts(_) => ColumnType::Str,
            ColumnKeys::Signed => ColumnType::I64,
            ColumnKeys::Unsigned => ColumnType::U64,
            ColumnKeys::Addresses(_) => ColumnType::IpAddr,
            ColumnKeys::Dates => ColumnType::DateTime,
        }
    }

    /// The class of the keys, which are in the order of their numbers.
    pub fn class(&self) -> ColumnPaginationOrder
        ensures class { (n : ℕ) → class_of (encoded_key self.now n) ≡ Some result }
        ensures order { AreInKeyOrder self.now }
    {
        match self {
            ColumnKeys::Bools => ColumnPaginationOrder::Bool,
            ColumnKeys::Texts(texts) => texts.class(),
            ColumnKeys::Signed | ColumnKeys::Unsigned => ColumnPaginationOrder::Numeric,
            ColumnKeys::Addresses(addresses) => addresses.class(),
            ColumnKeys::Dates => ColumnPaginationOrder::DateTime,
        }
    }

    /// The key that a number stands for.
    pub fn decode(
        &self,
        alloc: Global,
        encoded: u64,
    ) -> Result<CompositeIntermediateKey, OutOfMemory>
        requires { StandsForKey self.now encoded }
        ensures { IfOk result (λ key. key ≡ encoded_key self.now encoded) }
    {
        Ok(match self {
            ColumnKeys::Bools => CompositeIntermediateKey::Bool(encoded == 1),
            ColumnKeys::Texts(texts) => {
                CompositeIntermediateKey::Str(texts.text(encoded).try_clone(alloc)?)
            }
            ColumnKeys::Signed => CompositeIntermediateKey::I64(signed(encoded)),
            ColumnKeys::Unsigned => number_key(encoded),
            ColumnKeys::Addresses(addresses) => {
                CompositeIntermediateKey::IpAddr(addresses.address(encoded))
            }
            ColumnKeys::Dates => CompositeIntermediateKey::DateTime(signed(encoded)),
        })
    }

    /// How the keys of two numbers compare, which is as the numbers do.
    pub fn compare(&self, left: u64, right: u64) -> Ordering
        requires left { StandsForKey self.now left }
        requires right { StandsForKey self.now right }
        ensures numbers { result ≡ nat_cmp left right }
        ensures keys { result
            ≡ ascending_order (encoded_key self.now left) (encoded_key self.now right) }
    {
        match self {
            ColumnKeys::Texts(texts) => texts.compare(left, right),
            ColumnKeys::Addresses(addresses) => addresses.compare(left, right),
            _ => left.cmp(&right),
        }
    }

    /// The number that stands for one that was gathered. A text's is the ordinal of its place.
    pub fn encode(&self, ordinals: &[u64], addresses: &[Address], number: u64) -> u64
        requires { IsEncodable (named_texts self.now ordinals.now) ordinals.now addresses.now
            self.now number }
        ensures key { encoded_key self.now result
            ≡ raw_key (named_texts self.now ordinals.now) addresses.now (type_of self.now)
            number }
        ensures stands { StandsForKey self.now result }
    {
        match self {
            ColumnKeys::Texts(_) => ordinals[number as usize],
            ColumnKeys::Unsigned => turned(number),
            ColumnKeys::Addresses(list) => list.place(addresses[number as usize]),
            _ => number,
        }
    }
}

// The number plus 2^63, or less 2^63 where that is too much.
fn turned(number: u64) -> u64
    ensures low { number < 2 ^ 63 → result ≡ number + 2 ^ 63 }
    ensures high { 2 ^ 63 ≤ number → result + 2 ^ 63 ≡ number }
{
    if number < FROM_ZERO {
        return number + FROM_ZERO;
    }
    number - FROM_ZERO
}

/// The number plus 2^63.
pub fn from_zero(n: i64) -> u64
    ensures { pos result -ℤ pos (2 ^ 63) ≡ n }
{
    if n < 0 {
        return (n - i64::MIN) as u64;
    }
    n as u64 + FROM_ZERO
}

// The number less 2^63.
fn signed(encoded: u64) -> i64
    ensures { result ≡ pos encoded -ℤ pos (2 ^ 63) }
{
    if encoded < FROM_ZERO {
        return i64::MIN + encoded as i64;
    }
    (encoded - FROM_ZERO) as i64
}

fn number_key(n: u64) -> CompositeIntermediateKey
    ensures { result ≡ typed_number (pos n) }
{
    if n < FROM_ZERO {
        return CompositeIntermediateKey::I64(n as i64);
    }
    CompositeIntermediateKey::U64(n)
}
