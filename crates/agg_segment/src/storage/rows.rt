ghost use Rattle.std.specs.Prelude.{◌≡◌, ◌≢◌, ◌<◌, ◌≤◌, ◌∷◌, [], ℕ};
ghost use Rattle.std.specs.Prelude.{length, map, get_or, IsTrue, IfOk};
ghost use Rattle.std.specs.List.{All, zip, range_with_len};
ghost use Rattle.std.specs.List.Sorted.{IsNonDecreasing};
ghost use Rattle.agg_segment.specs.storage.Columns.{numbers_at};
ghost use Rattle.agg_segment.specs.storage.Rows.{listed_docs, start_at, numbered, layout_docs};
ghost use Rattle.agg_segment.specs.storage.Rows.{uneven_rows, AreEndsOf, IsLaidOut};

mod ends;
mod growing;

use agg_values::{DocId, OutOfMemory};
use ends::layout_of;
pub use growing::GrowingRows;
use std::alloc::Global;
use std::marker::Model;
use std::slice;

/// Where the numbers of a document end.
#[derive(Clone, Copy)]
pub struct DocEnd {
    doc: u32,
    end: u32,
}

/// A number of a document.
#[derive(Clone, Copy)]
pub struct DocNumber {
    doc: u32,
    number: u64,
}

/// Which documents the numbers are of.
#[derive(Drop)]
pub enum Layout {
    /// Where the numbers of each document end, up to the last that has any.
    Dense(Vec<u32>),
    /// The documents that have numbers, ascending.
    Listed(Vec<DocEnd>),
}

/// Numbers of which a document may have none or several.
#[derive(Drop)]
pub struct UnevenNumbers {
    numbers: Vec<u64>,
    layout: Layout,
}

/// Numbers with their documents.
#[derive(Drop)]
pub enum Numbers {
    /// One number alone.
    One(DocNumber),
    /// Each document has one number, up to the last that has any.
    OneEach(Vec<u64>),
    /// Any others. The box keeps a column small.
    Uneven(Box<UnevenNumbers>),
}

/// The numbers of documents, ascending by document, seen by contracts as a list of a document and a
/// number.
#[derive(Drop)]
pub struct Rows {
    numbers: Numbers,
}

impl Model for Rows {
    ghost use Rattle.std.specs.Prelude.{List, ℕ};

    ghost Value = { List (ℕ × ℕ) };

    ghost use Rattle.agg_segment.specs.storage.Rows.{rows, AreLaidOut};

    ghost view = { λ r. rows r.numbers };

    ghost invariant = { λ r. AreLaidOut r.numbers };
}

impl Rows {
    /// One number of a document.
    pub fn one(doc: DocId, number: u64) -> Rows
        ensures { result ≡ (doc, number) ∷ [] }
    {
        Rows {
            numbers: Numbers::One(DocNumber { doc, number }),
        }
    }

    /// A number of each document, from the first on.
    pub fn one_each(numbers: Vec<u64>) -> Rows
        ensures { result ≡ zip (range_with_len 0 (length numbers.items)) numbers.items }
    {
        Rows {
            numbers: Numbers::OneEach(numbers),
        }
    }

    /// Numbers of documents that ascend, one for each.
    pub fn of(alloc: Global, docs: &[u32], numbers: Vec<u64>) -> Result<Rows, OutOfMemory>
        requires rising { IsNonDecreasing docs.now }
        requires each { length docs.now ≡ length numbers.items }
        ensures { IfOk result (λ rows. rows ≡ zip docs.now numbers.items) }
    {
        let layout = layout_of(alloc, docs)?;
        let uneven = Box::new(alloc, UnevenNumbers { numbers, layout })?;
        Ok(Rows {
            numbers: Numbers::Uneven(uneven),
        })
    }

    /// The numbers of a document.
    pub fn row(&self, doc: DocId) -> &[u64]
        ensures { result.now ≡ numbers_at self.now doc }
    {
        match &self.numbers {
            Numbers::One(number) => lone_number(number, doc),
            Numbers::OneEach(numbers) => one_number(numbers, doc),
            Numbers::Uneven(uneven) => uneven_numbers(uneven, doc),
        }
    }
}

fn lone_number(number: &DocNumber, doc: DocId) -> &[u64]
    ensures { result.now ≡ numbers_at ((number.now.doc, number.now.number) ∷ []) doc }
{
    if number.doc == doc {
        return slice::from_ref(&number.number);
    }
    &[]
}

fn uneven_numbers(uneven: &UnevenNumbers, doc: DocId) -> &[u64]
    requires { IsLaidOut uneven.now.layout (length uneven.now.numbers.items) }
    ensures { result.now ≡ numbers_at (uneven_rows uneven.now) doc }
{
    match &uneven.layout {
        Layout::Dense(ends) => dense_numbers(&uneven.numbers, ends, doc),
        Layout::Listed(ends) => listed_numbers(&uneven.numbers, ends, doc),
    }
}

fn one_number(numbers: &[u64], doc: DocId) -> &[u64]
    ensures { result.now
        ≡ numbers_at (zip (range_with_len 0 (length numbers.now)) numbers.now) doc }
{
    let at = doc as usize;
    if at < numbers.len() {
        return &numbers[at..at + 1];
    }
    &[]
}

fn dense_numbers<'a>(numbers: &'a [u64], ends: &[u32], doc: DocId) -> &'a [u64]
    requires { AreEndsOf (numbered 0 ends.now) (length numbers.now) }
    ensures { result.now
        ≡ numbers_at (zip (listed_docs 0 (numbered 0 ends.now)) numbers.now) doc }
{
    let at = doc as usize;
    if at >= ends.len() {
        return &[];
    }
    let start = dense_start(ends, at) as usize;
    &numbers[start..ends[at] as usize]
}

// Where the numbers of a document begin.
fn dense_start(ends: &[u32], doc: usize) -> u32
    requires { doc ≤ length ends.now }
    ensures { result ≡ start_at 0 (numbered 0 ends.now) doc }
{
    if doc == 0 {
        return 0;
    }
    ends[doc - 1]
}

fn listed_numbers<'a>(numbers: &'a [u64], ends: &[DocEnd], doc: DocId) -> &'a [u64]
    requires { AreEndsOf ends.now (length numbers.now) }
    ensures { result.now ≡ numbers_at (zip (listed_docs 0 ends.now) numbers.now) doc }
{
    let at = ends.partition_point(|e| e.doc < doc);
    if at == ends.len() || ends[at].doc != doc {
        return &[];
    }
    let start = start_of(ends, at) as usize;
    &numbers[start..ends[at].end as usize]
}

// Where the numbers of the document at a place begin.
fn start_of(ends: &[DocEnd], at: usize) -> u32
    requires { at ≤ length ends.now }
    ensures { result ≡ start_at 0 ends.now at }
{
    if at == 0 {
        return 0;
    }
    ends[at - 1].end
}
