//! Records in the making: the segments of their documents.
ghost use Rattle.std.specs.Prelude.{◌≡◌, ◌++◌, ◌∷◌, [], true, false, flat_map, IfOk, OnOk};
ghost use Rattle.agg_segment.specs.Segment.{documents_of, gathered_documents, no_fields};
ghost use Rattle.agg_segment.specs.Segment.{open_document};
ghost use Rattle.agg_segment.specs.SegmentLimits.{IsMixed};
ghost use Rattle.peslumok_records.specs.held.Documents.{FitsSegment};
ghost use Rattle.peslumok_records.specs.held.Held.{held_documents};

use crate::held::AskedFields;
use agg_segment::{BuildError, SegmentBuilder, SegmentReader};
use agg_values::{OutOfMemory, Text};
use std::alloc::Global;
use std::mem;

// How many names of fields are kept for a message.
const MAX_NAMES: usize = 20;

// Of how many objects the names are looked at.
const NAMING_OBJECTS: u32 = 1_000;

/// The records that were read, as documents of segments: those that are built, and the open one.
#[derive(Drop)]
pub struct Records {
    alloc: Global,
    /// The open segment, with the open document.
    pub builder: SegmentBuilder,
    built: Vec<SegmentReader>,
    names: Vec<Text>,
    named: u32,
}

impl Records {
    /// No records.
    pub fn new(alloc: Global) -> Records
        ensures { held_documents result ≡ [] }
    {
        Records {
            alloc,
            builder: SegmentBuilder::new(alloc),
            built: Vec::new(alloc),
            names: Vec::new(alloc),
            named: 0,
        }
    }

    /// The segments of the records, in order.
    pub fn into_segments(self) -> Result<Vec<SegmentReader>, OutOfMemory>
        ensures { IfOk result
            (λ segments. flat_map documents_of segments.items ≡ held_documents self) }
    {
        let Records {
            builder,
            mut built,
            ..
        } = self;
        built.push(built_from(builder)?)?;
        Ok(built)
    }

    /// The first names of fields that were seen, asked for or not.
    pub fn names(&self) -> &[Text] {
        self.names.as_slice()
    }

    /// Forgets the open document.
    pub fn forget_open(&mut self)
        ensures held { held_documents self.new ≡ held_documents self.old }
        ensures opened { open_document self.new.builder ≡ no_fields }
        ensures closed { gathered_documents self.new.builder
            ≡ gathered_documents self.old.builder }
    {
        self.builder.discard();
    }

    /// Closes the open document. False where the open segment has no room for it: then the next one
    /// has begun, and the document is to be made again there.
    pub fn close(&mut self, asked: &AskedFields) -> Result<bool, OutOfMemory>
        ensures closed { IfOk result (λ taken. taken ≡ true → held_documents self.new
            ≡ held_documents self.old ++ open_document self.old.builder ∷ []) }
        ensures held { IfOk result (λ taken. taken ≡ false
            → held_documents self.new ≡ held_documents self.old) }
        ensures opened { IfOk result (λ taken. taken ≡ false
            → open_document self.new.builder ≡ no_fields) }
        ensures fresh { IfOk result (λ taken. taken ≡ false
            → gathered_documents self.new.builder ≡ []) }
        ensures fits { IfOk result (λ taken. taken ≡ true
            → FitsSegment (open_document self.old.builder)) }
        ensures mixed { IfOk result (λ taken. taken ≡ false
            → gathered_documents self.old.builder ≡ []
            → IsMixed (open_document self.old.builder ∷ [])) }
    {
        match self.builder.finish() {
            Ok(()) => Ok(true),
            Err(BuildError::OutOfMemory) => Err(OutOfMemory),
            Err(BuildError::MixedNumbers) => {
                self.begin_segment(asked)?;
                Ok(false)
            }
            Err(BuildError::TooManyDocuments) => {
                self.begin_segment(asked)?;
                Ok(false)
            }
        }
    }

    // Builds the open segment, and begins the next one.
    fn begin_segment(&mut self, asked: &AskedFields) -> Result<(), OutOfMemory>
        ensures held { OnOk result (held_documents self.new ≡ held_documents self.old) }
        ensures opened { OnOk result (open_document self.new.builder ≡ no_fields) }
        ensures fresh { OnOk result (gathered_documents self.new.builder ≡ []) }
    {
        let full = mem::replace(&mut self.builder, SegmentBuilder::new(self.alloc));
        self.built.push(built_from(full)?)?;
        self.number_fields(asked)
    }

    /// Gives the asked fields their numbers in order, so that they are found fast.
    pub fn number_fields(&mut self, asked: &AskedFields) -> Result<(), OutOfMemory>
        ensures held { held_documents self.new ≡ held_documents self.old }
        ensures opened { open_document self.new.builder ≡ open_document self.old.builder }
        ensures closed { gathered_documents self.new.builder
            ≡ gathered_documents self.old.builder }
    {
        for field in asked.as_slice() {
            self.builder.field(field.name.as_str())?;
        }
        Ok(())
    }

    /// Whether the names of the next object are looked at.
    pub fn wants_names(&self) -> bool {
        self.named < NAMING_OBJECTS && self.names.len() < MAX_NAMES
    }

    /// Whether the names of one more object are looked at.
    pub fn looks_at_names(&mut self) -> bool
        ensures { held_documents self.new ≡ held_documents self.old }
    {
        if !self.wants_names() {
            return false;
        }
        self.named = self.named.saturating_add(1);
        true
    }

    /// Keeps a name, if it is new and there is room for it.
    pub fn see_name(&mut self, name: &str) -> Result<(), OutOfMemory>
        ensures { held_documents self.new ≡ held_documents self.old }
    {
        if self.names.len() < MAX_NAMES && !self.names.iter().any(|seen| seen.as_str() == name) {
            self.names.push(Text::copy_of(self.alloc, name)?)?;
        }
        Ok(())
    }
}

// The segment of a builder.
fn built_from(builder: SegmentBuilder) -> Result<SegmentReader, OutOfMemory>
    ensures { IfOk result (λ segment. documents_of segment ≡ gathered_documents builder) }
{
    match builder.build() {
        Ok(segment) => Ok(segment),
        Err(_) => Err(OutOfMemory),
    }
}
