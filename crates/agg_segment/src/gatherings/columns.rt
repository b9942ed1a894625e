//! The columns of gathered values.
ghost use Rattle.std.specs.Prelude.{◌≡◌, ◌<◌, ◌≤◌, ◌∷◌, ◌++◌, [], ℕ, List};
ghost use Rattle.std.specs.Prelude.{IfOk, OnOk, filter, get_or, length, map};
ghost use Rattle.std.specs.List.{All, flat_map};
ghost use Rattle.std.specs.List.Sorted.{IsPermutation};
ghost use Rattle.agg_segment.specs.storage.Document.{by_class};
ghost use Rattle.agg_segment.specs.storage.Cells.{keys_at};
ghost use Rattle.agg_values.specs.Column.{order_rank};
ghost use Rattle.agg_segment.specs.storage.Signs.{key_mark, AreSigns};
ghost use Rattle.agg_segment.specs.storage.Columns.{column_cells, encoded_key, keys_rank, type_of};
ghost use Rattle.agg_segment.specs.storage.Columns.{AreInOrder};
ghost use Rattle.agg_segment.specs.Gatherings.{raws, raw_placed};
ghost use Rattle.agg_segment.specs.storage.GatheredNumbers.{raw_key, keyed_rows, kind_of, IsRaw};
ghost use Rattle.agg_segment.specs.Gatherings.{column_cmp, is_column, AreAlike, AreSorted};
ghost use Rattle.agg_segment.specs.storage.GatheredNumbers.{IsEncodable};
ghost use Rattle.agg_segment.specs.Gatherings.{IsWide, AreWide, gathering_classes, column_classes};
ghost use Rattle.agg_segment.specs.declared.storage.sign.Sign.TheVariants.{Small};

use super::dictionaries::{address_list_of, dictionary_of};
use super::{Gathering, Gatherings};
use crate::storage::{Column, ColumnKeys, Sign};
use agg_values::{Address, ColumnPaginationOrder, OutOfMemory, Text};
use std::alloc::Global;
use std::cmp::Ordering;

// The texts and addresses that numbers are places of.
#[derive(Clone, Copy)]
struct Listed<'l> {
    texts: &'l [Text],
    addresses: &'l [Address],
}

// What the numbers of a column are: their class, with the sign of their field's numbers.
#[derive(Clone, Copy)]
struct Kind {
    sign: Sign,
    class: ColumnPaginationOrder,
}

impl Gatherings {
    /// The columns of the values, by field and class. The signs are those of the fields' numbers.
    pub fn into_columns(
        self,
        alloc: Global,
        texts: &[Text],
        addresses: &[Address],
        signs: &[Sign],
    ) -> Result<Vec<Column>, OutOfMemory>
        requires kept { All
            (λ r. IsRaw (length texts.now) (length addresses.now) r.class r.number) self }
        requires signs { AreSigns signs.now
            (map key_mark (map (raw_placed signs.now texts.now addresses.now) self)) }
        ensures keys { IfOk result (λ columns. (field doc : ℕ)
            → keys_at (flat_map column_cells columns.items) field doc
            ≡ by_class (keys_at (map (raw_placed signs.now texts.now addresses.now) self)
            field doc)) }
        ensures order { IfOk result (λ columns. AreInOrder columns.items) }
    {
        let Gatherings { mut columns, .. } = self;
        sort(&mut columns)?;
        encode_all(alloc, texts, addresses, signs, columns)
    }
}

// Sorts by field and class.
fn sort(columns: &mut Vec<Gathering>) -> Result<(), OutOfMemory>
    ensures permutation { IsPermutation columns.old.items columns.new.items }
    ensures stable { (field rank : ℕ) → filter (is_column field rank) columns.new.items
        ≡ filter (is_column field rank) columns.old.items }
    ensures alike { AreAlike (raws columns.new.items) (raws columns.old.items) }
    ensures sorted { OnOk result (AreSorted columns.new.items) }
{
    columns.sort_by(column_cmp)?;
    Ok(())
}

// How two columns stand by their fields, and those of one field by their classes.
fn column_cmp(left: &Gathering, right: &Gathering) -> Ordering
    ensures { result ≡ column_cmp left.now right.now }
{
    left.field
        .cmp(&right.field)
        .then(left.class.cmp(&right.class))
}

// The columns of what was gathered and sorted. Each gathering gives its memory back.
fn encode_all(
    alloc: Global,
    texts: &[Text],
    addresses: &[Address],
    signs: &[Sign],
    mut gatherings: Vec<Gathering>,
) -> Result<Vec<Column>, OutOfMemory>
    requires kept { All
        (λ r. IsRaw (length texts.now) (length addresses.now) r.class r.number)
        (raws gatherings.items) }
    requires wide { AreWide signs.now gatherings.items }
    ensures cells { IfOk result (λ columns. flat_map column_cells columns.items
        ≡ map (raw_placed signs.now texts.now addresses.now) (raws gatherings.items)) }
    ensures classes { IfOk result
        (λ columns. column_classes columns.items ≡ gathering_classes gatherings.items) }
{
    let listed = Listed { texts, addresses };
    let mut ordinals = Vec::from_elem(alloc, 0, texts.len())?;
    let mut columns = Vec::with_capacity(alloc, gatherings.len())?;
    while let Some(gathering) = gatherings.pop() {
        let sign = sign_in(signs, gathering.field);
        let column = column_of(alloc, &listed, &mut ordinals, sign, gathering)?;
        columns.push(column)?;
        give_back(&mut gatherings);
    }
    columns.reverse();
    Ok(columns)
}

// Gives memory back, once half of it is free.
fn give_back(gatherings: &mut Vec<Gathering>)
    ensures { gatherings.new.items ≡ gatherings.old.items }
{
    if gatherings.len() < gatherings.capacity() / 2 {
        gatherings.shrink_to_fit();
    }
}

// The sign of a field's numbers.
fn sign_in(signs: &[Sign], field: u32) -> Sign
    ensures { result ≡ get_or signs.now field Small }
{
    match signs.get(field as usize) {
        Some(sign) => *sign,
        None => Sign::Small,
    }
}

// The column of numbers that were gathered. It writes the ordinals of its texts.
fn column_of(
    alloc: Global,
    listed: &Listed<'_>,
    ordinals: &mut [u64],
    sign: Sign,
    gathering: Gathering,
) -> Result<Column, OutOfMemory>
    requires kept { All
        (λ r. IsRaw (length listed.now.texts.now) (length listed.now.addresses.now)
        gathering.class r.1)
        gathering.rows }
    requires wide { IsWide sign gathering }
    requires each { length ordinals.old ≡ length listed.now.texts.now }
    ensures field { IfOk result (λ column. column.field ≡ gathering.field) }
    ensures kind { IfOk result (λ column. type_of column.keys ≡ kind_of sign gathering.class) }
    ensures cells { IfOk result (λ column. keyed_rows (encoded_key column.keys) column.cells
        ≡ keyed_rows
        (raw_key listed.now.texts.now listed.now.addresses.now (kind_of sign gathering.class))
        gathering.rows) }
{
    let Gathering {
        field,
        class,
        mut rows,
        ..
    } = gathering;
    let kind = Kind { sign, class };
    let keys = keys_of(alloc, listed, ordinals, kind, rows.numbers())?;
    rows.encode(&keys, ordinals, listed.addresses);
    Ok(Column::new(field, keys, rows.into_rows(alloc)?))
}

// What the numbers of a class stand for. The ordinals of their texts are written.
fn keys_of(
    alloc: Global,
    listed: &Listed<'_>,
    ordinals: &mut [u64],
    kind: Kind,
    numbers: &[u64],
) -> Result<ColumnKeys, OutOfMemory>
    requires kept { All
        (IsRaw (length listed.now.texts.now) (length listed.now.addresses.now) kind.class)
        numbers.now }
    requires each { length ordinals.old ≡ length listed.now.texts.now }
    ensures kind { IfOk result (λ keys. type_of keys ≡ kind_of kind.sign kind.class) }
    ensures encodable { IfOk result (λ keys.
        All (IsEncodable listed.now.texts.now ordinals.new listed.now.addresses.now keys)
        numbers.now) }
{
    Ok(match kind.class {
        ColumnPaginationOrder::Bool => ColumnKeys::Bools,
        ColumnPaginationOrder::Str => {
            ColumnKeys::Texts(dictionary_of(alloc, listed.texts, ordinals, numbers)?)
        }
        ColumnPaginationOrder::Numeric => match kind.sign {
            Sign::Large => ColumnKeys::Unsigned,
            _ => ColumnKeys::Signed,
        },
        ColumnPaginationOrder::IpAddr => {
            ColumnKeys::Addresses(address_list_of(alloc, listed.addresses, numbers)?)
        }
        ColumnPaginationOrder::DateTime => ColumnKeys::Dates,
    })
}
