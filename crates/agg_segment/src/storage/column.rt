ghost use Rattle.std.specs.Prelude.{◌≡◌, ℕ, Some, map, IfOk};
ghost use Rattle.std.specs.List.{All};
ghost use Rattle.std.specs.List.Sorted.{IsStrictlySortedBy};
ghost use Rattle.std.specs.Ordering.{nat_cmp};
ghost use Rattle.agg_values.specs.Column.{class_of};
ghost use Rattle.agg_values.specs.Names.{name_cmp};
ghost use Rattle.agg_values.specs.KeyOrder.{ascending_order};
ghost use Rattle.agg_segment.specs.storage.Dictionary.{address_cmp, IsHit};
ghost use Rattle.agg_segment.specs.storage.Columns.{encoded_key, type_of, column_keys};
ghost use Rattle.agg_segment.specs.storage.Columns.{texts_of, addresses_of};
ghost use Rattle.agg_segment.specs.storage.Columns.{StandsForKey, StandForKeys, IsWideForCause};
ghost use Rattle.agg_segment.specs.storage.Columns.{AreInKeyOrder};

use crate::storage::keys::ColumnKeys;
use crate::storage::rows::Rows;
use crate::storage::{ColumnType, OrdHit};
use agg_values::{
    Address, ColumnPaginationOrder, CompositeIntermediateKey, DocId, OutOfMemory, Text,
};
use std::alloc::Global;
use std::cmp::Ordering;
use std::marker::Model;

/// The values of a field that are of one class, as numbers.
#[derive(Drop)]
pub struct Column {
    field: u32,
    keys: ColumnKeys,
    rows: Rows,
}

impl Model for Column {
    ghost use Rattle.agg_segment.specs.storage.Columns.{StoredColumn, IsColumn};

    ghost Value = { StoredColumn };

    ghost view = { λ c. record { field = c.field; keys = c.keys; cells = c.rows } };

    ghost invariant = { λ c. IsColumn (record { field = c.field; keys = c.keys; cells = c.rows }) };
}

impl Column {
    pub fn new(field: u32, keys: ColumnKeys, rows: Rows) -> Column
        requires stand { StandForKeys (record { field = field; keys = keys; cells = rows }) }
        requires wide { IsWideForCause (record { field = field; keys = keys; cells = rows }) }
        ensures { result ≡ record { field = field; keys = keys; cells = rows } }
    {
        Column { field, keys, rows }
    }

    /// The number of its field.
    pub fn field(&self) -> u32
        ensures { result ≡ self.now.field }
    {
        self.field
    }

    /// How its numbers stand for keys. A U64 column has a number above those of an i64.
    pub fn column_type(&self) -> ColumnType
        ensures kind { result ≡ type_of self.now.keys }
        ensures wide { IsWideForCause self.now }
    {
        self.keys.column_type()
    }

    /// The class of its keys. The order of the numbers is the order of the keys.
    pub fn column_pagination_order(&self) -> ColumnPaginationOrder
        ensures class { (n : ℕ) → class_of (encoded_key self.now.keys n) ≡ Some result }
        ensures order { AreInKeyOrder self.now.keys }
    {
        self.keys.class()
    }

    /// The document's values of the column's class, in order.
    pub fn values_for_doc(&self, doc: DocId) -> &[u64]
        ensures keys { map (encoded_key self.now.keys) result.now ≡ column_keys self.now doc }
        ensures stand { All (StandsForKey self.now.keys) result.now }
    {
        self.rows.row(doc)
    }

    /// The canonical typed key that a number of the column stands for.
    pub fn decode(
        &self,
        alloc: Global,
        encoded: u64,
    ) -> Result<CompositeIntermediateKey, OutOfMemory>
        requires { StandsForKey self.now.keys encoded }
        ensures { IfOk result (λ key. key ≡ encoded_key self.now.keys encoded) }
    {
        self.keys.decode(alloc, encoded)
    }

    /// How the keys of two numbers compare. The order of the numbers is the order of the class.
    pub fn compare(&self, left: u64, right: u64) -> Ordering
        requires left { StandsForKey self.now.keys left }
        requires right { StandsForKey self.now.keys right }
        ensures numbers { result ≡ nat_cmp left right }
        ensures keys { result
            ≡ ascending_order (encoded_key self.now.keys left) (encoded_key self.now.keys right) }
    {
        self.keys.compare(left, right)
    }

    /// The first place of the dictionary whose text isn't below a text. The column has to be one of
    /// texts.
    pub fn term_ord_or_next(&self, term: &Text) -> OrdHit
        requires { type_of self.now.keys ≡ ColumnType.Str }
        ensures hit { IsHit name_cmp (texts_of self.now.keys) term.now result }
        ensures ascending { IsStrictlySortedBy name_cmp (texts_of self.now.keys) }
    {
        match &self.keys {
            ColumnKeys::Texts(texts) => texts.hit(term),
            _ => OrdHit::AfterLast,
        }
    }

    /// The first place of the list whose address isn't below an address. The column has to be one
    /// of addresses.
    pub fn address_or_next(&self, address: Address) -> OrdHit
        requires { type_of self.now.keys ≡ ColumnType.IpAddr }
        ensures hit { IsHit address_cmp (addresses_of self.now.keys) address result }
        ensures ascending { IsStrictlySortedBy address_cmp (addresses_of self.now.keys) }
    {
        match &self.keys {
            ColumnKeys::Addresses(addresses) => addresses.hit(address),
            _ => OrdHit::AfterLast,
        }
    }
}
