ghost use Rattle.std.specs.Prelude.{◌≡◌, ◌≤◌, ◌<◌, ◌-◌, ◌∷◌, ◌++◌, [], ℕ};
ghost use Rattle.std.specs.Prelude.{length, map, filter, take, get_or, nat_lt, IfOk, OnOk, OnErr};
ghost use Rattle.std.specs.List.{All, zip, range_with_len};
ghost use Rattle.std.specs.List.Sorted.{IsNonDecreasingBy};
ghost use Rattle.std.specs.Map.{values_of};
ghost use Rattle.agg_segment.specs.storage.Columns.{encoded_key, type_of, named_texts};
ghost use Rattle.agg_segment.specs.storage.Columns.{StandsForKey};
ghost use Rattle.agg_segment.specs.storage.GatheredNumbers.{raw_key, keyed_rows, IsEncodable};
ghost use Rattle.agg_segment.specs.storage.Growing.{doc_rows, many_docs, many_rows, AreMany};

use super::ends::narrow;
use super::{DocNumber, Rows};
use crate::storage::keys::ColumnKeys;
use agg_values::{Address, DocId, OutOfMemory};
use std::alloc::Global;
use std::marker::Model;
use std::slice;

/// Numbers with their documents. The first ones are of the documents 0, 1, 2 and so on, and the
/// others are of those that are listed.
#[derive(Drop)]
pub struct ManyNumbers {
    numbers: Vec<u64>,
    docs: Vec<u32>,
}

/// How numbers are kept while more may come.
#[derive(Drop)]
pub enum Growing {
    Empty,
    One(DocNumber),
    /// The box keeps a column small.
    Many(Box<ManyNumbers>),
}

/// The numbers of documents, ascending by document, while more may come. Contracts see them as
/// those of `Rows`.
#[derive(Drop)]
pub struct GrowingRows {
    growing: Growing,
}

impl Model for GrowingRows {
    ghost use Rattle.std.specs.Prelude.{List, ℕ};

    ghost Value = { List (ℕ × ℕ) };

    ghost use Rattle.agg_segment.specs.storage.Growing.{growing_rows, AreGrowing};

    ghost view = { λ r. growing_rows r.growing };

    ghost invariant = { λ r. AreGrowing r.growing };
}

impl GrowingRows {
    /// No numbers.
    pub fn new() -> GrowingRows
        ensures { result ≡ [] }
    {
        GrowingRows {
            growing: Growing::Empty,
        }
    }

    /// Appends a number of the last document, or of one after it.
    pub fn push(&mut self, alloc: Global, doc: DocId, number: u64) -> Result<(), OutOfMemory>
        requires { All (λ r. r.0 ≤ doc) self.old }
        ensures ok { OnOk result (self.new ≡ self.old ++ (doc, number) ∷ []) }
        ensures err { OnErr result (self.new ≡ self.old) }
    {
        match &mut self.growing {
            Growing::Empty => {
                self.growing = Growing::One(DocNumber { doc, number });
                Ok(())
            }
            Growing::One(first) => {
                let many = pair(alloc, *first, DocNumber { doc, number })?;
                self.growing = Growing::Many(many);
                Ok(())
            }
            Growing::Many(many) => push_number(many, doc, number),
        }
    }

    /// Appends numbers of the last document, or of one after it. After an error the first ones may
    /// be there.
    pub fn push_all(
        &mut self,
        alloc: Global,
        doc: DocId,
        numbers: &[u64],
    ) -> Result<(), OutOfMemory>
        requires { All (λ r. r.0 ≤ doc) self.old }
        ensures ok { OnOk result (self.new ≡ self.old ++ doc_rows doc numbers.now) }
        ensures some { (count : ℕ)
            × (self.new ≡ self.old ++ doc_rows doc (take count numbers.now)) }
    {
        for number in numbers {
            self.push(alloc, doc, *number)?;
        }
        Ok(())
    }

    /// Forgets the numbers of a document and of those after it.
    pub fn forget(&mut self, doc: DocId)
        ensures { self.new ≡ filter (λ r. nat_lt r.0 doc) self.old }
    {
        match &mut self.growing {
            Growing::Empty => {}
            Growing::One(first) => {
                if first.doc >= doc {
                    self.growing = Growing::Empty;
                }
            }
            Growing::Many(many) => keep_before(many, doc),
        }
    }

    /// The numbers alone.
    pub fn numbers(&self) -> &[u64]
        ensures { result.now ≡ values_of self.now }
    {
        match &self.growing {
            Growing::Empty => &[],
            Growing::One(one) => slice::from_ref(&one.number),
            Growing::Many(many) => &many.numbers,
        }
    }

    /// Replaces the numbers that were gathered by those that stand for keys.
    pub fn encode(&mut self, keys: &ColumnKeys, ordinals: &[u64], addresses: &[Address])
        requires { All (λ r. IsEncodable (named_texts keys.now ordinals.now) ordinals.now
            addresses.now keys.now r.1) self.old }
        ensures keys { keyed_rows (encoded_key keys.now) self.new
            ≡ keyed_rows (raw_key (named_texts keys.now ordinals.now) addresses.now
            (type_of keys.now)) self.old }
        ensures stand { All (λ r. StandsForKey keys.now r.1) self.new }
    {
        match &mut self.growing {
            Growing::Empty => {}
            Growing::One(one) => one.number = keys.encode(ordinals, addresses, one.number),
            Growing::Many(many) => encode_many(many, keys, ordinals, addresses),
        }
    }

    /// The same numbers, to be read.
    pub fn into_rows(self, alloc: Global) -> Result<Rows, OutOfMemory>
        ensures { IfOk result (λ rows. rows ≡ self) }
    {
        match self.growing {
            Growing::Empty => Ok(Rows::one_each(Vec::new(alloc))),
            Growing::One(one) => Ok(Rows::one(one.doc, one.number)),
            Growing::Many(many) => many_into_rows(alloc, Box::into_inner(many)),
        }
    }
}

// Two numbers.
fn pair(alloc: Global, first: DocNumber, second: DocNumber) -> Result<Box<ManyNumbers>, OutOfMemory>
    requires { first.doc ≤ second.doc }
    ensures rows { IfOk result (λ many. many_rows many.value
        ≡ (first.doc, first.number) ∷ (second.doc, second.number) ∷ []) }
    ensures many { IfOk result (λ many. AreMany many.value) }
{
    let mut many = ManyNumbers {
        numbers: Vec::with_capacity(alloc, 2)?,
        docs: Vec::new(alloc),
    };
    push_number(&mut many, first.doc, first.number)?;
    push_number(&mut many, second.doc, second.number)?;
    Ok(Box::new(alloc, many)?)
}

// Appends a number.
fn push_number(many: &mut ManyNumbers, doc: DocId, number: u64) -> Result<(), OutOfMemory>
    requires many { AreMany many.old }
    requires after { All (λ r. r.0 ≤ doc) (many_rows many.old) }
    ensures many { AreMany many.new }
    ensures ok { OnOk result (many_rows many.new ≡ many_rows many.old ++ (doc, number) ∷ []) }
    ensures err { OnErr result (many_rows many.new ≡ many_rows many.old) }
{
    many.numbers.reserve(1)?;
    if many.docs.is_empty() && many.numbers.len() == doc as usize {
        many.numbers.push(number)?;
        return Ok(());
    }
    many.docs.push(doc)?;
    many.numbers.push(number)?;
    Ok(())
}

// Keeps the numbers of the documents before a document.
fn keep_before(many: &mut ManyNumbers, doc: DocId)
    requires { AreMany many.old }
    ensures many { AreMany many.new }
    ensures rows { many_rows many.new ≡ filter (λ r. nat_lt r.0 doc) (many_rows many.old) }
{
    let each = many.numbers.len() - many.docs.len();
    let count = count_before(many, doc);
    many.numbers.truncate(count);
    many.docs.truncate(count.saturating_sub(each));
}

// How many numbers are of documents before a document.
fn count_before(many: &ManyNumbers, doc: DocId) -> usize
    requires { AreMany many.now }
    ensures within { result ≤ length many.now.numbers.items }
    ensures before { (k : ℕ) → k < result → get_or (many_docs many.now) k 0 < doc }
    ensures after { (k : ℕ) → result ≤ k → k < length many.now.numbers.items
        → doc ≤ get_or (many_docs many.now) k 0 }
{
    let mut count = many.numbers.len();
    while count > 0 && doc_at(many, count - 1) >= doc as usize {
        count -= 1;
    }
    count
}

// The document of the number at a place.
fn doc_at(many: &ManyNumbers, at: usize) -> usize
    requires many { AreMany many.now }
    requires within { at < length many.now.numbers.items }
    ensures { result ≡ get_or (many_docs many.now) at 0 }
{
    let each = many.numbers.len() - many.docs.len();
    if at < each {
        return at;
    }
    many.docs[at - each] as usize
}

fn encode_many(many: &mut ManyNumbers, keys: &ColumnKeys, ordinals: &[u64], addresses: &[Address])
    requires many { AreMany many.old }
    requires encodable { All (λ r. IsEncodable (named_texts keys.now ordinals.now) ordinals.now
        addresses.now keys.now r.1) (many_rows many.old) }
    ensures many { AreMany many.new }
    ensures keys { keyed_rows (encoded_key keys.now) (many_rows many.new)
        ≡ keyed_rows (raw_key (named_texts keys.now ordinals.now) addresses.now
        (type_of keys.now)) (many_rows many.old) }
    ensures stand { All (λ r. StandsForKey keys.now r.1) (many_rows many.new) }
{
    encode_numbers(&mut many.numbers, keys, ordinals, addresses);
}

fn encode_numbers(numbers: &mut [u64], keys: &ColumnKeys, ordinals: &[u64], addresses: &[Address])
    requires { All (IsEncodable (named_texts keys.now ordinals.now) ordinals.now addresses.now
        keys.now) numbers.old }
    ensures keys { (k : ℕ) → k < length numbers.old
        → encoded_key keys.now (get_or numbers.new k 0)
        ≡ raw_key (named_texts keys.now ordinals.now) addresses.now (type_of keys.now)
        (get_or numbers.old k 0) }
    ensures stand { (k : ℕ) → k < length numbers.old
        → StandsForKey keys.now (get_or numbers.new k 0) }
{
    for number in numbers.iter_mut() {
        *number = keys.encode(ordinals, addresses, *number);
    }
}

// Many numbers, to be read.
fn many_into_rows(alloc: Global, many: ManyNumbers) -> Result<Rows, OutOfMemory>
    requires { AreMany many }
    ensures { IfOk result (λ rows. rows ≡ many_rows many) }
{
    let ManyNumbers { numbers, docs } = many;
    if docs.is_empty() {
        return Ok(Rows::one_each(numbers));
    }
    let docs = all_docs(alloc, numbers.len() - docs.len(), &docs)?;
    Rows::of(alloc, &docs, numbers)
}

// So many documents from 0 on, and then those of a list.
fn all_docs(alloc: Global, each: usize, listed: &[u32]) -> Result<Vec<u32>, OutOfMemory>
    ensures { IfOk result (λ docs. docs.items ≡ range_with_len 0 each ++ listed.now) }
{
    let mut docs = Vec::new(alloc);
    for doc in 0..each {
        let doc = narrow(doc)?;
        docs.push(doc)?;
    }
    docs.extend_from_slice(listed)?;
    Ok(docs)
}
