//! What is asked of records, and where they are.
ghost use Rattle.std.specs.Prelude.{◌≡◌};
ghost use Rattle.peslumok_front.specs.front.Pages.{room_of};

use crate::grouping::Grouping;
use peslumok_texts::formats::{OutputFormat, RecordFormat};

/// The records of a file.
#[derive(Drop)]
pub struct RecordFile<'a> {
    /// The name of the file in messages.
    pub name: &'a str,
    pub format: RecordFormat,
    pub bytes: Vec<u8>,
}

/// What is asked of records.
#[derive(Drop)]
pub struct Asked<'a> {
    pub grouping: Grouping<'a>,
    pub pages: Pages<'a>,
    pub output: OutputFormat,
}

/// Which pages of the groups are written.
#[derive(Clone, Copy, Debug)]
pub struct Pages<'a> {
    /// How many groups a page has room for.
    pub size: u32,
    /// The key after which the first page begins.
    pub after: Option<&'a str>,
    /// Whether all pages are written, or the first one alone.
    pub is_all: bool,
    /// How many groups are written in place of pages: those with the most documents, if so.
    pub top: Option<u32>,
}

// How many groups are made at once where those with the most documents are looked for.
const PAGE_OF_TOP: u32 = 100_000;

impl Pages<'_> {
    /// How many groups are made at once.
    pub fn room(&self) -> u32
        ensures { result ≡ room_of self.now }
    {
        match self.top {
            Some(_) => self.size.max(PAGE_OF_TOP),
            None => self.size,
        }
    }
}
