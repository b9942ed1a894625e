ghost use Rattle.std.specs.Prelude.{◌≡◌, ◌≢◌, ◌↔◌, Err, [], ◌∷◌, ◌++◌, ℕ, List, length};
ghost use Rattle.std.specs.Prelude.{IsTrue, IfOk, OnOk, OnErr, IsErrOf};
ghost use Rattle.agg_segment.specs.storage.Cells.{pushed_key};
ghost use Rattle.agg_segment.specs.storage.Document.{key_of, meaning};
ghost use Rattle.agg_values.specs.declared.typed_key.CompositeIntermediateKey.TheVariants as key;
ghost use Rattle.agg_segment.specs.Segment.{gathered_documents, open_document};
ghost use Rattle.agg_segment.specs.Segment.{no_fields, with_key, documents_of};
ghost use Rattle.agg_segment.specs.Segment.{IsNameOf};
ghost use Rattle.agg_segment.specs.SegmentLimits.{IsMixed, max_documents};
ghost use Rattle.agg_segment.specs.declared.builder.BuildError.TheVariants.{OutOfMemory as Memory};

use crate::SegmentReader;
use crate::gatherings::Gatherings;
use crate::signs::{give_signs, take_back};
use crate::storage::{Document, FieldNames, FieldValue, Log, PushedValue, Sign};
use agg_values::{OutOfMemory, Text};
use std::alloc::{AllocFailed, Global};
use std::marker::Model;
use thiserror::Error;

/// How many documents a segment may hold.
pub const MAX_DOCUMENTS: u32 = 16_777_216;

/// Why a segment refused a document.
#[derive(Clone, Copy, Debug, PartialEq, Eq, Error)]
pub enum BuildError {
    #[error("a field holds a negative number and one above 9223372036854775807")]
    MixedNumbers,
    #[error("a segment holds at most 16777216 documents")]
    TooManyDocuments,
    #[error("out of memory")]
    OutOfMemory,
}

impl From<OutOfMemory> for BuildError {
    ghost from_gives = { λ _ e. e ≡ Memory };

    fn from(_error: OutOfMemory) -> BuildError {
        BuildError::OutOfMemory
    }
}

impl<T: Drop> From<AllocFailed<T>> for BuildError {
    ghost from_gives = { λ _ e. e ≡ Memory };

    fn from(_error: AllocFailed<T>) -> BuildError {
        BuildError::OutOfMemory
    }
}

/// A segment in the making, seen by contracts as the values of its documents. The last document is
/// open until it is finished.
#[derive(Drop)]
pub struct SegmentBuilder {
    alloc: Global,
    count: u32,
    names: FieldNames,
    signs: Vec<Sign>,
    // The values of the open document.
    log: Log,
    // Those of the closed documents.
    columns: Gatherings,
}

impl Model for SegmentBuilder {
    ghost use Rattle.agg_segment.specs.Segment.{Gathered, builder_cells, IsBuilding};

    ghost Value = { Gathered };

    ghost view = { λ b. record {
      count = b.count;
      names = b.names;
      cells = builder_cells b.count b.signs.items b.columns b.log;
    } };

    ghost invariant = { λ b. IsBuilding b.count b.names b.signs.items b.columns b.log };
}

impl SegmentBuilder {
    /// A segment with no documents.
    pub fn new(alloc: Global) -> SegmentBuilder
        ensures documents { gathered_documents result ≡ [] }
        ensures opened { open_document result ≡ no_fields }
    {
        SegmentBuilder {
            alloc,
            count: 0,
            names: FieldNames::new(alloc),
            signs: Vec::new(alloc),
            log: Log::new(alloc),
            columns: Gatherings::new(alloc),
        }
    }

    /// The number of a field, for `push`. A name that isn't known gets the next one.
    pub fn field(&mut self, name: &str) -> Result<u32, OutOfMemory>
        ensures number { IfOk result (λ field. IsNameOf self.new field name.now) }
        ensures others { (field : ℕ) (other : List ℕ)
            → IsNameOf self.old field other → IsNameOf self.new field other }
        ensures documents { gathered_documents self.new ≡ gathered_documents self.old }
        ensures opened { open_document self.new ≡ open_document self.old }
    {
        if let Some(field) = self.names.find(name) {
            return Ok(field);
        }
        let field = next_number(self.signs.len())?;
        self.signs.reserve(1)?;
        self.names.add(self.alloc, name, field)?;
        self.signs.push(Sign::Small)?;
        Ok(field)
    }

    /// Appends a value to a field of the open document.
    pub fn push(&mut self, field: u32, value: FieldValue) -> Result<(), OutOfMemory>
        requires { (name : List ℕ) × IsNameOf self.old field name }
        ensures ok { OnOk result ((name : List ℕ) → IsNameOf self.old field name
            → open_document self.new ≡ with_key name (key_of value) (open_document self.old)) }
        ensures err { OnErr result (open_document self.new ≡ open_document self.old) }
        ensures documents { gathered_documents self.new ≡ gathered_documents self.old }
        ensures names { self.new.names ≡ self.old.names }
    {
        self.push_value(field, PushedValue::Owned(value))
    }

    /// Appends a text to a field of the open document. It is copied unless it is there already.
    pub fn push_text(&mut self, field: u32, text: &str) -> Result<(), OutOfMemory>
        requires { (name : List ℕ) × IsNameOf self.old field name }
        ensures ok { OnOk result ((name : List ℕ) → IsNameOf self.old field name
            → open_document self.new ≡ with_key name (key.Str text.now) (open_document self.old)) }
        ensures err { OnErr result (open_document self.new ≡ open_document self.old) }
        ensures documents { gathered_documents self.new ≡ gathered_documents self.old }
        ensures names { self.new.names ≡ self.old.names }
    {
        self.push_value(field, PushedValue::Text(text))
    }

    fn push_value(&mut self, field: u32, value: PushedValue<'_>) -> Result<(), OutOfMemory>
        requires { (name : List ℕ) × IsNameOf self.old field name }
        ensures ok { OnOk result ((name : List ℕ) → IsNameOf self.old field name
            → open_document self.new
            ≡ with_key name (pushed_key value.entry) (open_document self.old)) }
        ensures err { OnErr result (open_document self.new ≡ open_document self.old) }
        ensures documents { gathered_documents self.new ≡ gathered_documents self.old }
        ensures names { self.new.names ≡ self.old.names }
    {
        self.log.push(field, value)
    }

    /// Closes the open document, which is then the last of the segment's. After an error it is
    /// still open.
    pub fn finish(&mut self) -> Result<(), BuildError>
        ensures ok { OnOk result (gathered_documents self.new
            ≡ gathered_documents self.old ++ open_document self.old ∷ []) }
        ensures opened { OnOk result (open_document self.new ≡ no_fields) }
        ensures fits { OnOk result (¬ IsMixed (gathered_documents self.new)) }
        ensures full { IsErrOf result BuildError.TooManyDocuments
            ↔ (length (gathered_documents self.old) ≡ max_documents) }
        ensures mixed { IsErrOf result BuildError.MixedNumbers
            → IsMixed (gathered_documents self.old ++ open_document self.old ∷ []) }
        ensures err { OnErr result (self.new ≡ self.old) }
        ensures names { self.new.names ≡ self.old.names }
    {
        if self.count == MAX_DOCUMENTS {
            return Err(BuildError::TooManyDocuments);
        }
        let (runs, numbers) = self.log.runs();
        let given = match give_signs(self.alloc, &mut self.signs, runs) {
            Ok(given) => given,
            Err(error) => return Err(error),
        };
        if let Err(_) = self.columns.add_all(self.alloc, self.count, runs, numbers) {
            take_back(&mut self.signs, given);
            return Err(BuildError::OutOfMemory);
        }
        self.log.clear(self.alloc);
        self.count += 1;
        Ok(())
    }

    /// Forgets the open document.
    pub fn discard(&mut self)
        ensures opened { open_document self.new ≡ no_fields }
        ensures documents { gathered_documents self.new ≡ gathered_documents self.old }
        ensures names { self.new.names ≡ self.old.names }
    {
        self.log.clear(self.alloc);
    }

    /// Appends a document. An open one is forgotten.
    pub fn add_document(&mut self, document: Document) -> Result<(), BuildError>
        ensures ok { OnOk result (gathered_documents self.new
            ≡ gathered_documents self.old ++ meaning document ∷ []) }
        ensures opened { open_document self.new ≡ no_fields }
        ensures fits { OnOk result (¬ IsMixed (gathered_documents self.new)) }
        ensures full { IsErrOf result BuildError.TooManyDocuments
            ↔ (length (gathered_documents self.old) ≡ max_documents) }
        ensures mixed { IsErrOf result BuildError.MixedNumbers
            → IsMixed (gathered_documents self.old ++ meaning document ∷ []) }
        ensures err { OnErr result (gathered_documents self.new ≡ gathered_documents self.old) }
    {
        self.discard();
        if self.is_full() {
            return Err(BuildError::TooManyDocuments);
        }
        match self.try_document(document) {
            Ok(()) => Ok(()),
            Err(error) => {
                self.discard();
                Err(error)
            }
        }
    }

    fn try_document(&mut self, document: Document) -> Result<(), BuildError>
        requires opened { open_document self.old ≡ no_fields }
        requires few { length (gathered_documents self.old) ≢ max_documents }
        ensures ok { OnOk result (gathered_documents self.new
            ≡ gathered_documents self.old ++ meaning document ∷ []) }
        ensures opened { OnOk result (open_document self.new ≡ no_fields) }
        ensures fits { OnOk result (¬ IsMixed (gathered_documents self.new)) }
        ensures few { result ≢ Err BuildError.TooManyDocuments }
        ensures mixed { IsErrOf result BuildError.MixedNumbers
            → IsMixed (gathered_documents self.old ++ meaning document ∷ []) }
        ensures err { OnErr result (gathered_documents self.new ≡ gathered_documents self.old) }
    {
        for (name, value) in document.into_values() {
            if self.add_value(name.as_str(), value).is_err() {
                return Err(BuildError::OutOfMemory);
            }
        }
        self.finish()
    }

    fn add_value(&mut self, name: &str, value: FieldValue) -> Result<(), OutOfMemory>
        ensures ok { OnOk result (open_document self.new
            ≡ with_key name.now (key_of value) (open_document self.old)) }
        ensures documents { gathered_documents self.new ≡ gathered_documents self.old }
    {
        let field = self.field(name)?;
        self.push(field, value)
    }

    fn is_full(&self) -> bool
        ensures { IsTrue result ↔ (length (gathered_documents self.now) ≡ max_documents) }
    {
        self.count == MAX_DOCUMENTS
    }

    /// The segment of the documents. An open one is forgotten.
    pub fn build(self) -> Result<SegmentReader, BuildError>
        ensures built { IfOk result (λ segment. documents_of segment ≡ gathered_documents self) }
        ensures memory { OnErr result (result ≡ Err BuildError.OutOfMemory) }
    {
        let SegmentBuilder {
            alloc,
            count,
            names,
            signs,
            log,
            columns,
        } = self;
        let (texts, addresses) = log.into_kept();
        let columns = columns.into_columns(alloc, texts.as_slice(), &addresses, &signs)?;
        Ok(SegmentReader::from_parts(count, names.into_numbers(), columns))
    }
}

// The number of the next field. More take more memory than there is.
fn next_number(count: usize) -> Result<u32, OutOfMemory>
    ensures { IfOk result (λ number. number ≡ count) }
{
    u32::try_from(count).map_err(|_| OutOfMemory)
}
