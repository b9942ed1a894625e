ghost use Rattle.std.specs.Prelude.{◌≡◌, ◌≤◌};
ghost use Rattle.agg_streams.specs.Memory.{after_call, is_next_listed, no_calls};

use std::marker::Model;

/// Counts the calls of a memory form and those that failed, and knows which ones are to fail.
#[derive(Drop)]
pub struct CallCounter {
    number: u64,
    failing: Vec<u64>,
    faults: u64,
}

impl Model for CallCounter {
    ghost use Rattle.agg_streams.specs.Memory.{Calls};

    ghost Value = { Calls };

    ghost view = { λ calls. record {
      number = calls.number;
      failing = calls.failing.items;
      faults = calls.faults;
    } };
}

impl CallCounter {
    /// No call yet; those that are listed will fail, counted from 1.
    pub fn new(failing: Vec<u64>) -> CallCounter
        ensures { result ≡ no_calls failing.items }
    {
        CallCounter {
            number: 0,
            failing,
            faults: 0,
        }
    }

    /// Whether the next call is a listed one. After call `u64::MAX` none is.
    pub fn is_next_listed(&self) -> bool
        ensures { result ≡ is_next_listed self.now }
    {
        self.number < u64::MAX && self.failing.contains(&(self.number + 1))
    }

    /// Counts one more call, which failed or not.
    pub fn count(&mut self, failed: bool)
        ensures after { self.new ≡ after_call failed self.old }
        ensures later { self.old.faults ≤ self.new.faults }
    {
        self.number = self.number.saturating_add(1);
        if failed {
            self.faults = self.faults.saturating_add(1);
        }
    }
}
