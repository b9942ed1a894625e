ghost use Rattle.std.specs.Prelude.{◌≡◌, [], ℕ, List, Some, None, if◌then◌else◌};
ghost use Rattle.std.specs.Prelude.{IfSome, OnOk, OnErr};
ghost use Rattle.std.specs.Str.{bytes_eq};
ghost use Rattle.agg_segment.specs.storage.Cells.{number_of};
ghost use Rattle.agg_segment.specs.storage.Names.{numbered_names};

use crate::storage::names::{find_number, set_number};
use agg_values::{OutOfMemory, Text};
use std::alloc::Global;
use std::collections::BTreeMap;
use std::marker::Model;

// How many names are kept by their numbers.
const MAX_FIRST: usize = 16;

/// The names of fields with their numbers, seen by contracts as their list. Lines mostly ask for
/// the first names in the order of their numbers, so those are also kept in that order.
#[derive(Drop)]
pub struct FieldNames {
    numbers: BTreeMap<String, u32>,
    // The names of the first numbers.
    first: Vec<Text>,
    // The number after the one that was asked for last.
    next: u32,
}

impl Model for FieldNames {
    ghost use Rattle.std.specs.Prelude.{ℕ};
    ghost use Rattle.agg_values.specs.Names.{Named};
    ghost use Rattle.agg_segment.specs.storage.Names.{numbered_names};
    ghost use Rattle.agg_segment.specs.storage.FirstNames.{AreFirst};

    ghost Value = { Named ℕ };

    ghost view = { λ names. numbered_names names.numbers };

    ghost invariant = { λ names. AreFirst names.first.items (numbered_names names.numbers) };
}

impl FieldNames {
    /// No names.
    pub fn new(alloc: Global) -> FieldNames
        ensures { result ≡ [] }
    {
        FieldNames {
            numbers: BTreeMap::new(alloc),
            first: Vec::new(alloc),
            next: 0,
        }
    }

    /// The number of a name.
    pub fn find(&mut self, name: &str) -> Option<u32>
        ensures number { result ≡ number_of self.old name.now }
        ensures names { self.new ≡ self.old }
    {
        let number = self.look_up(name)?;
        self.next = number.saturating_add(1);
        Some(number)
    }

    fn look_up(&self, name: &str) -> Option<u32>
        ensures { result ≡ number_of self.now name.now }
    {
        match self.guess(name) {
            Some(number) => Some(number),
            None => find_number(&self.numbers, name),
        }
    }

    // The next number, if it is the name's. The first one comes after the last.
    fn guess(&self, name: &str) -> Option<u32>
        ensures { IfSome result (λ number. number_of self.now name.now ≡ Some number) }
    {
        let number = self.next_of_first();
        let guess = self.first.get(number as usize)?;
        if guess.as_str() == name {
            return Some(number);
        }
        None
    }

    fn next_of_first(&self) -> u32 {
        if (self.next as usize) < self.first.len() {
            return self.next;
        }
        0
    }

    /// Gives a new name a number.
    pub fn add(&mut self, alloc: Global, name: &str, number: u32) -> Result<(), OutOfMemory>
        requires { number_of self.old name.now ≡ None }
        ensures ok { OnOk result ((other : List ℕ) → number_of self.new other
            ≡ (if bytes_eq name.now other then Some number else number_of self.old other)) }
        ensures err { OnErr result (self.new ≡ self.old) }
    {
        set_number(alloc, &mut self.numbers, name, number)?;
        self.keep_first(alloc, name, number);
        Ok(())
    }

    // Keeps a name by its number, if that is the next of the first ones and there is memory for it.
    fn keep_first(&mut self, alloc: Global, name: &str, number: u32)
        requires { number_of self.old name.now ≡ Some number }
        ensures { self.new ≡ self.old }
    {
        if self.first.len() >= MAX_FIRST || self.first.len() != number as usize {
            return;
        }
        if let Ok(text) = Text::copy_of(alloc, name) {
            let _ = self.first.push(text);
        }
    }

    /// The names and numbers as a map.
    pub fn into_numbers(self) -> BTreeMap<String, u32>
        ensures { numbered_names result ≡ self }
    {
        let FieldNames { numbers, .. } = self;
        numbers
    }
}
