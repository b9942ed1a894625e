ghost use Rattle.std.specs.Prelude.{◌≡◌, ◌≢◌, ◌<◌, ◌≤◌, ◌+◌, ◌++◌, ◌∷◌, [], ℕ, List, None};
ghost use Rattle.std.specs.Prelude.{length, get_or, map, filter, nat_lt, IfOk, IfSome, OnOk, OnErr};
ghost use Rattle.std.specs.List.{All};
ghost use Rattle.agg_segment.specs.storage.Runs.{kinds, noted};
ghost use Rattle.agg_segment.specs.Gatherings.{Raw, raws, column_raws, raw_of, AreAlike};
ghost use Rattle.agg_segment.specs.Gatherings.{AreLinked, IsColumnOf, forgotten};

mod by_text;
mod columns;
mod dictionaries;

use crate::storage::{GrowingRows, Run, RunKind};
use agg_values::{ColumnPaginationOrder, OutOfMemory};
use std::alloc::Global;
use std::marker::Model;

/// The values of a field that are of one class, while more may come.
#[derive(Drop)]
pub struct Gathering {
    field: u32,
    class: ColumnPaginationOrder,
    // The place after that of the field's previous column, 0 for none.
    before: u32,
    rows: GrowingRows,
}

/// The columns of the closed documents, while more may come. Contracts see their numbers.
#[derive(Drop)]
pub struct Gatherings {
    columns: Vec<Gathering>,
    // The place after that of each field's last column, 0 for none.
    last: Vec<u32>,
}

impl Model for Gatherings {
    ghost use Rattle.std.specs.Prelude.{List};
    ghost use Rattle.agg_segment.specs.Gatherings.{Raw, raws, AreLinked};

    ghost Value = { List Raw };

    ghost view = { λ g. raws g.columns.items };

    ghost invariant = { λ g. AreLinked g.last.items g.columns.items };
}

impl Gatherings {
    /// No columns.
    pub fn new(alloc: Global) -> Gatherings
        ensures { result ≡ [] }
    {
        Gatherings {
            columns: Vec::new(alloc),
            last: Vec::new(alloc),
        }
    }

    /// Appends the numbers of a document that comes after all others.
    pub fn add_all(
        &mut self,
        alloc: Global,
        doc: u32,
        runs: &[Run],
        numbers: &[u64],
    ) -> Result<(), OutOfMemory>
        requires after { All (λ r. r.doc < doc) self.old }
        requires fit { length (kinds runs.now) ≡ length numbers.now }
        ensures ok { OnOk result (AreAlike self.new
            (self.old ++ map (λ note. raw_of doc note.0 note.1) (noted runs.now numbers.now))) }
        ensures err { OnErr result (self.new ≡ self.old) }
    {
        let mut rest = numbers;
        for run in runs {
            let (own, others) = rest.split_at(run.count as usize);
            if let Err(error) = self.add_run(alloc, doc, run.kind, own) {
                self.forget(doc);
                return Err(error);
            }
            rest = others;
        }
        Ok(())
    }

    // Appends numbers of one kind of the last document. After an error some may be there.
    fn add_run(
        &mut self,
        alloc: Global,
        doc: u32,
        kind: RunKind,
        numbers: &[u64],
    ) -> Result<(), OutOfMemory>
        requires after { All (λ r. r.doc ≤ doc) self.old }
        ensures ok { OnOk result
            (AreAlike self.new (self.old ++ map (raw_of doc kind) numbers.now)) }
        ensures closed { filter (λ r. nat_lt r.doc doc) self.new
            ≡ filter (λ r. nat_lt r.doc doc) self.old }
    {
        let at = place(
            alloc,
            &mut self.columns,
            &mut self.last,
            kind.field,
            kind.class,
        )?;
        self.columns[at].rows.push_all(alloc, doc, numbers)
    }

    // Forgets the numbers of a document and of those after it.
    fn forget(&mut self, doc: u32)
        ensures { self.new ≡ filter (λ r. nat_lt r.doc doc) self.old }
    {
        forget_in(&mut self.columns, doc);
    }
}

// Forgets the numbers of a document and of those after it in columns.
fn forget_in(columns: &mut [Gathering], doc: u32)
    ensures { columns.new ≡ map (forgotten doc) columns.old }
{
    for column in columns.iter_mut() {
        column.rows.forget(doc);
    }
}

// The place of the column of a field and a class. One that isn't there is appended.
fn place(
    alloc: Global,
    columns: &mut Vec<Gathering>,
    last: &mut Vec<u32>,
    field: u32,
    class: ColumnPaginationOrder,
) -> Result<usize, OutOfMemory>
    requires { AreLinked last.old.items columns.old.items }
    ensures linked { AreLinked last.new.items columns.new.items }
    ensures same { raws columns.new.items ≡ raws columns.old.items }
    ensures within { IfOk result (λ at. at < length columns.new.items) }
    ensures found { IfOk result (λ at. (g : Gathering)
        → IsColumnOf field class (get_or columns.new.items at g)) }
{
    if let Some(at) = find(columns, last, field, class) {
        return Ok(at);
    }
    append(columns, last, field, class)
}

// Appends the column of a field and a class that has none.
fn append(
    columns: &mut Vec<Gathering>,
    last: &mut Vec<u32>,
    field: u32,
    class: ColumnPaginationOrder,
) -> Result<usize, OutOfMemory>
    requires linked { AreLinked last.old.items columns.old.items }
    requires none { (k : ℕ) (g : Gathering) → k < length columns.old.items
        → IsColumnOf field class (get_or columns.old.items k g) → ⊥ }
    ensures linked { AreLinked last.new.items columns.new.items }
    ensures same { raws columns.new.items ≡ raws columns.old.items }
    ensures within { IfOk result (λ at. at < length columns.new.items) }
    ensures found { IfOk result (λ at. (g : Gathering)
        → IsColumnOf field class (get_or columns.new.items at g)) }
{
    let at = columns.len();
    let next = u32::try_from(at + 1).map_err(|_| OutOfMemory)?;
    columns.reserve(1)?;
    make_known(last, field)?;
    columns.push(Gathering {
        field,
        class,
        before: last[field as usize],
        rows: GrowingRows::new(),
    })?;
    last[field as usize] = next;
    Ok(at)
}

// Makes room for the last column of a field.
fn make_known(last: &mut Vec<u32>, field: u32) -> Result<(), OutOfMemory>
    ensures known { OnOk result (field < length last.new.items) }
    ensures same { (other : ℕ) → get_or last.new.items other 0 ≡ get_or last.old.items other 0 }
{
    while last.len() <= field as usize {
        last.push(0)?;
    }
    Ok(())
}

// The place of the column of a field and a class.
fn find(
    columns: &[Gathering],
    last: &[u32],
    field: u32,
    class: ColumnPaginationOrder,
) -> Option<usize>
    requires { AreLinked last.now columns.now }
    ensures within { IfSome result (λ at. at < length columns.now) }
    ensures found { IfSome result (λ at. (g : Gathering)
        → IsColumnOf field class (get_or columns.now at g)) }
    ensures none { result ≡ None → (k : ℕ) (g : Gathering) → k < length columns.now
        → IsColumnOf field class (get_or columns.now k g) → ⊥ }
{
    let mut head = head_of(last, field) as usize;
    while head > 0 {
        let column = &columns[head - 1];
        if column.class == class {
            return Some(head - 1);
        }
        head = column.before as usize;
    }
    None
}

// The place after that of a field's last column.
fn head_of(last: &[u32], field: u32) -> u32
    ensures { result ≡ get_or last.now field 0 }
{
    match last.get(field as usize) {
        Some(head) => *head,
        None => 0,
    }
}
