ghost use Rattle.std.specs.Prelude.{◌≡◌, ◌<◌, ◌++◌, [], ℕ, List, length, IfOk, IfSome};
ghost use Rattle.agg_segment.specs.storage.Dictionary.{text_at};

use agg_values::{OutOfMemory, Text};
use std::alloc::Global;
use std::collections::HashMap;
use std::hash::{BuildHasher, BuildHasherDefault, FoldHasher};
use std::marker::Model;

// How many texts can be found at once. More would cost more time than they save memory.
const MAX_PLACES: usize = 65_536;

/// Texts in the order in which they came, seen by contracts as their list. One that can be found
/// is not kept again.
#[derive(Drop)]
pub struct Texts {
    alloc: Global,
    // The place of the last text of each hash, so that no text is held twice.
    places: HashMap<u64, u32>,
    texts: Vec<Text>,
}

impl Model for Texts {
    ghost use Rattle.std.specs.Prelude.{List, ℕ};

    ghost Value = { List (List ℕ) };

    ghost view = { λ t. t.texts.items };
}

impl Texts {
    /// No texts.
    pub fn new(alloc: Global) -> Texts
        ensures { result ≡ [] }
    {
        Texts {
            alloc,
            places: HashMap::new(alloc),
            texts: Vec::new(alloc),
        }
    }

    /// The texts.
    pub fn as_slice(&self) -> &[Text]
        ensures { result.now ≡ self.now }
    {
        &self.texts
    }

    /// The place of a text. One that can't be found is appended.
    pub fn place(&mut self, text: Text) -> Result<usize, OutOfMemory>
        ensures more { (more : List (List ℕ)) × (self.new ≡ self.old ++ more) }
        ensures within { IfOk result (λ place. place < length self.new) }
        ensures text { IfOk result (λ place. text_at self.new place ≡ text) }
    {
        let hash = hash_of(text.as_str());
        if let Some(place) = self.find(hash, text.as_str()) {
            return Ok(place);
        }
        self.append(hash, text)
    }

    /// The place of a text. One that can't be found is copied and appended.
    pub fn place_of(&mut self, text: &str) -> Result<usize, OutOfMemory>
        ensures more { (more : List (List ℕ)) × (self.new ≡ self.old ++ more) }
        ensures within { IfOk result (λ place. place < length self.new) }
        ensures text { IfOk result (λ place. text_at self.new place ≡ text.now) }
    {
        let hash = hash_of(text);
        if let Some(place) = self.find(hash, text) {
            return Ok(place);
        }
        self.append(hash, Text::copy_of(self.alloc, text)?)
    }

    // The place of a text with its hash, unless another one of that hash came after it.
    fn find(&self, hash: u64, text: &str) -> Option<usize>
        ensures within { IfSome result (λ place. place < length self.now) }
        ensures text { IfSome result (λ place. text_at self.now place ≡ text.now) }
    {
        let place = *self.places.get(&hash)? as usize;
        let found = self.texts.get(place)?;
        if found.as_str() == text {
            Some(place)
        } else {
            None
        }
    }

    fn append(&mut self, hash: u64, text: Text) -> Result<usize, OutOfMemory>
        ensures more { (more : List (List ℕ)) × (self.new ≡ self.old ++ more) }
        ensures within { IfOk result (λ place. place < length self.new) }
        ensures text { IfOk result (λ place. text_at self.new place ≡ text) }
    {
        if self.places.len() >= MAX_PLACES {
            self.forget_places();
        }
        let place = self.texts.len();
        self.texts.reserve(1)?;
        self.places.insert(hash, narrow(place)?)?;
        self.texts.push(text)?;
        Ok(place)
    }

    /// Forgets how to find the texts that there are.
    pub fn forget_places(&mut self)
        ensures { self.new ≡ self.old }
    {
        self.places = HashMap::new(self.alloc);
    }
}

fn hash_of(text: &str) -> u64 {
    BuildHasherDefault::<FoldHasher>::new().hash_one(text)
}

// The place of the next text. More take more memory than there is.
fn narrow(count: usize) -> Result<u32, OutOfMemory> {
    u32::try_from(count).map_err(|_| OutOfMemory)
}
