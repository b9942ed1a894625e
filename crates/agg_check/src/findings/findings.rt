//! What was found so far.

use crate::findings::path::Path;
use crate::findings::{Finding, Severity};
use agg_values::{OutOfMemory, Text};
use std::alloc::Global;

// After so many findings no more lines are looked at.
const MANY_FINDINGS: usize = 100;

// How many fields that the request reads are looked for.
const MAX_FIELDS: usize = 100;

// How many names of fields are kept for a message.
const MAX_NAMES: usize = 20;

/// A field that the request reads.
#[derive(Drop)]
pub struct ReadField {
    name: Text,
    line: u64,
    column: usize,
    path: Text,
    is_seen: bool,
}

/// What was found so far, and what is kept for findings of the whole.
#[derive(Drop)]
pub struct Findings {
    pub alloc: Global,
    /// The line that is looked at, from 1.
    pub line: u64,
    pub list: Vec<Finding>,
    fields: Vec<ReadField>,
    // The first names of fields of documents.
    names: Vec<Text>,
    has_documents: bool,
}

impl Findings {
    /// Nothing was found yet, and no line looked at.
    pub fn new(alloc: Global) -> Findings {
        Findings {
            alloc,
            line: 0,
            list: Vec::new(alloc),
            fields: Vec::new(alloc),
            names: Vec::new(alloc),
            has_documents: false,
        }
    }

    /// Whether there are 100 findings or more: then no more lines are looked at.
    pub fn is_full(&self) -> bool {
        self.list.len() >= MANY_FINDINGS
    }

    /// Tells a mistake in the value of a line that a path leads to.
    pub fn mistake(
        &mut self,
        text: &str,
        path: &Path<'_>,
        what: String,
    ) -> Result<(), OutOfMemory> {
        let offset = path.value_place(self.alloc, text).unwrap_or(0);
        self.tell(Severity::Mistake, offset, path, what)
    }

    /// Tells a mistake in the name of the member that a path leads to, or a warning of it.
    pub fn of_name(
        &mut self,
        severity: Severity,
        text: &str,
        path: &Path<'_>,
        what: String,
    ) -> Result<(), OutOfMemory> {
        let offset = path.name_place(self.alloc, text).unwrap_or(0);
        self.tell(severity, offset, path, what)
    }

    /// Tells a mistake at a byte of the line, from 0, with no path.
    pub fn at(&mut self, offset: usize, what: &str) -> Result<(), OutOfMemory> {
        let what = String::from_str(self.alloc, what)?;
        self.tell(Severity::Mistake, offset, &Path::Root(""), what)
    }

    fn tell(
        &mut self,
        severity: Severity,
        offset: usize,
        path: &Path<'_>,
        what: String,
    ) -> Result<(), OutOfMemory> {
        let mut words = String::new(self.alloc);
        path.write(&mut words)?;
        let finding = Finding {
            line: self.line,
            column: offset.saturating_add(1),
            severity,
            path: Text::from_string(words)?,
            what: Text::from_string(what)?,
        };
        Ok(self.list.push(finding)?)
    }

    /// Keeps a field that the request reads, and where it first names it; of 100 fields at most.
    pub fn read_field(
        &mut self,
        text: &str,
        path: &Path<'_>,
        name: &str,
    ) -> Result<(), OutOfMemory> {
        let is_known = self.fields.iter().any(|field| field.name.as_str() == name);
        if is_known || self.fields.len() >= MAX_FIELDS {
            return Ok(());
        }
        let mut words = String::new(self.alloc);
        path.write(&mut words)?;
        let field = ReadField {
            name: Text::copy_of(self.alloc, name)?,
            line: self.line,
            column: path
                .value_place(self.alloc, text)
                .unwrap_or(0)
                .saturating_add(1),
            path: Text::from_string(words)?,
            is_seen: false,
        };
        Ok(self.fields.push(field)?)
    }

    /// Keeps that a document has a field. The first 20 names are kept for messages.
    pub fn see_field(&mut self, name: &str) -> Result<(), OutOfMemory> {
        for field in self.fields.iter_mut() {
            if field.name.as_str() == name {
                field.is_seen = true;
            }
        }
        if self.names.len() < MAX_NAMES && !self.names.iter().any(|seen| seen.as_str() == name) {
            let name = Text::copy_of(self.alloc, name)?;
            self.names.push(name)?;
        }
        Ok(())
    }

    /// Keeps that there is a document.
    pub fn see_document(&mut self) {
        self.has_documents = true;
    }

    /// Warns of the fields that the request reads and no document has, if there are documents and
    /// fewer than 100 findings.
    pub fn tell_unseen(&mut self) -> Result<(), OutOfMemory> {
        if !self.has_documents || self.is_full() {
            return Ok(());
        }
        for field in self.fields.iter() {
            if !field.is_seen {
                let what = unseen_words(self.alloc, field, self.names.as_slice())?;
                let finding = unseen_finding(self.alloc, field, what)?;
                self.list.push(finding)?;
            }
        }
        Ok(())
    }
}

fn unseen_finding(alloc: Global, field: &ReadField, what: Text) -> Result<Finding, OutOfMemory> {
    Ok(Finding {
        line: field.line,
        column: field.column,
        severity: Severity::Warning,
        path: field.path.try_clone(alloc)?,
        what,
    })
}

// That no document has a field, and which fields there are.
fn unseen_words(alloc: Global, field: &ReadField, names: &[Text]) -> Result<Text, OutOfMemory> {
    let name = field.name.as_str();
    let mut out = format!(in alloc; "no document has the field '{name}'; fields that were seen:")?;
    for name in names {
        write!(out, " {}", name.as_str())?;
    }
    Ok(Text::from_string(out)?)
}
