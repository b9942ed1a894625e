ghost use Rattle.std.specs.Prelude.{◌≡◌, ◌≤◌, ◌==◌, ℕ, All, length, filter};
ghost use Rattle.agg_segment.specs.storage.Names.{numbered_names};
ghost use Rattle.agg_segment.specs.storage.Columns.{all_keys, AreInOrder, ClassesAscend};
ghost use Rattle.agg_segment.specs.storage.Document.{HasNumbersOf64Bits};
ghost use Rattle.agg_segment.specs.Segment.{columns_in, document_at, documents_of};
ghost use Rattle.agg_segment.specs.SegmentLimits.{max_documents};

use crate::storage::{Column, find_number};
use agg_values::Text;
use std::collections::BTreeMap;
use std::marker::Model;

/// A segment, seen by contracts as its columns and the numbers of their fields.
#[derive(Drop)]
pub struct SegmentReader {
    count: u32,
    names: BTreeMap<String, u32>,
    columns: Vec<Column>,
}

impl Model for SegmentReader {
    ghost use Rattle.std.specs.Prelude.{◌≤◌, All};
    ghost use Rattle.agg_segment.specs.storage.Columns.{AreInOrder};
    ghost use Rattle.agg_segment.specs.storage.Document.{HasNumbersOf64Bits};
    ghost use Rattle.agg_segment.specs.Segment.{Stored, documents_of};
    ghost use Rattle.agg_segment.specs.SegmentLimits.{max_documents};
    ghost use Rattle.agg_segment.specs.storage.Names.{numbered_names};

    ghost Value = { Stored };

    ghost view = { λ r.
        record { count = r.count; names = numbered_names r.names; columns = r.columns.items } };

    ghost invariant = { λ r. (r.count ≤ max_documents) × AreInOrder r.columns.items
        × All HasNumbersOf64Bits (documents_of (record {
          count = r.count;
          names = numbered_names r.names;
          columns = r.columns.items;
        })) };
}

impl SegmentReader {
    pub(crate) fn from_parts(
        count: u32,
        names: BTreeMap<String, u32>,
        columns: Vec<Column>,
    ) -> SegmentReader
        requires few { count ≤ max_documents }
        requires order { AreInOrder columns.items }
        requires numbers { All HasNumbersOf64Bits (documents_of (record {
          count = count;
          names = numbered_names names;
          columns = columns.items;
        })) }
        ensures { result
            ≡ record { count = count; names = numbered_names names; columns = columns.items } }
    {
        SegmentReader {
            count,
            names,
            columns,
        }
    }

    /// The number of documents.
    pub fn num_docs(&self) -> u32
        ensures count { result ≡ length (documents_of self.now) }
        ensures bound { result ≤ max_documents }
        ensures numbers { All HasNumbersOf64Bits (documents_of self.now) }
    {
        self.count
    }

    /// The columns of a field, ascending by class.
    pub fn columns(&self, field: &Text) -> &[Column]
        ensures of_field { result.now ≡ columns_in self.now field.now }
        ensures keys { (doc : ℕ) → all_keys result.now doc ≡ document_at self.now doc field.now }
        ensures classes { ClassesAscend result.now }
    {
        match find_number(&self.names, field.as_str()) {
            Some(number) => columns_of(&self.columns, number),
            None => &[],
        }
    }
}

// The columns of the field of a number.
fn columns_of(columns: &[Column], field: u32) -> &[Column]
    requires { AreInOrder columns.now }
    ensures { result.now ≡ filter (λ c. c.field == field) columns.now }
{
    let from = columns.partition_point(|c| c.field() < field);
    let to = columns.partition_point(|c| c.field() <= field);
    &columns[from..to]
}
