ghost use Rattle.std.specs.Prelude.{◌≡◌, ◌++◌, ◌∷◌, [], ℕ, List, length, map, OnOk, OnErr};
ghost use Rattle.agg_segment.specs.storage.Cells.{pushed_key};
ghost use Rattle.agg_segment.specs.storage.Runs.{noted, noted_key, AreRuns};

use crate::storage::kept::{PushedValue, keep_pushed};
use crate::storage::run::{Run, RunKind, count_one};
use crate::storage::texts::Texts;
use agg_values::{Address, OutOfMemory};
use std::alloc::Global;
use std::marker::Model;

// More numbers than these give their memory back.
const MANY_NUMBERS: usize = 65_536;

/// The values of the open document in the order in which they came, as runs of numbers, and the
/// texts and addresses of all documents. Contracts see the values as their keys with their fields.
#[derive(Drop)]
pub struct Log {
    runs: Vec<Run>,
    numbers: Vec<u64>,
    texts: Texts,
    addresses: Vec<Address>,
}

impl Model for Log {
    ghost use Rattle.std.specs.Prelude.{map, length};
    ghost use Rattle.agg_segment.specs.storage.Runs.{Logged, noted, noted_key, AreRuns};

    ghost Value = { Logged };

    ghost view = { λ log. record {
      texts = log.texts;
      addresses = log.addresses.items;
      keys = map (noted_key log.texts log.addresses.items)
          (noted log.runs.items log.numbers.items);
    } };

    ghost invariant = { λ log. AreRuns (length log.texts) (length log.addresses.items)
        log.runs.items log.numbers.items };
}

impl Log {
    /// No values.
    pub fn new(alloc: Global) -> Log
        ensures { result ≡ record { texts = []; addresses = []; keys = [] } }
    {
        Log {
            runs: Vec::new(alloc),
            numbers: Vec::new(alloc),
            texts: Texts::new(alloc),
            addresses: Vec::new(alloc),
        }
    }

    /// The runs, and the numbers of all of them.
    pub fn runs(&self) -> (&[Run], &[u64])
        ensures keys { map (noted_key self.now.texts self.now.addresses)
            (noted result.0.now result.1.now) ≡ self.now.keys }
        ensures are { AreRuns (length self.now.texts) (length self.now.addresses)
            result.0.now result.1.now }
    {
        (&self.runs, &self.numbers)
    }

    /// Appends a value.
    pub fn push(&mut self, field: u32, value: PushedValue<'_>) -> Result<(), OutOfMemory>
        ensures ok { OnOk result (self.new.keys ≡ self.old.keys
            ++ record { field = field; key = pushed_key value.entry } ∷ []) }
        ensures err { OnErr result (self.new.keys ≡ self.old.keys) }
        ensures texts { (more : List (List ℕ)) × (self.new.texts ≡ self.old.texts ++ more) }
        ensures addresses { (more : List Address)
            × (self.new.addresses ≡ self.old.addresses ++ more) }
    {
        let kept = keep_pushed(&mut self.texts, &mut self.addresses, value)?;
        let kind = RunKind {
            field,
            class: kept.class,
            sign: kept.sign,
        };
        self.numbers.reserve(1)?;
        count_one(&mut self.runs, kind)?;
        self.numbers.push(kept.number)?;
        Ok(())
    }

    /// Forgets the values. Many give their memory back.
    pub fn clear(&mut self, alloc: Global)
        ensures keys { self.new.keys ≡ [] }
        ensures texts { self.new.texts ≡ self.old.texts }
        ensures addresses { self.new.addresses ≡ self.old.addresses }
    {
        if self.numbers.len() > MANY_NUMBERS {
            self.runs = Vec::new(alloc);
            self.numbers = Vec::new(alloc);
            return;
        }
        self.runs.clear();
        self.numbers.clear();
    }

    /// The texts and the addresses.
    pub fn into_kept(self) -> (Texts, Vec<Address>)
        ensures texts { result.0 ≡ self.texts }
        ensures addresses { result.1.items ≡ self.addresses }
    {
        let Log {
            mut texts,
            addresses,
            ..
        } = self;
        texts.forget_places();
        (texts, addresses)
    }
}
