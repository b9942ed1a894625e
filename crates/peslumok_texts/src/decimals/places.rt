ghost use Rattle.std.specs.Prelude.{◌≡◌, ◌≤◌, Some, None};
ghost use Rattle.std.specs.Option.{SomeIff};

use std::marker::Model;

/// How many decimals a number has, from 0 to 18. Contracts see the number.
#[derive(Clone, Copy, Debug, PartialEq, Eq)]
pub struct Places {
    count: u32,
}

impl Model for Places {
    ghost use Rattle.std.specs.Prelude.{ℕ, ◌≤◌};

    ghost Value = { ℕ };

    ghost view = { λ places. places.count };

    ghost invariant = { λ places. places.count ≤ 18 };

    ghost inverse = { λ count. record { count = count } };
}

impl Places {
    /// The places of a number, None exactly above 18.
    pub fn new(count: u32) -> Option<Places>
        ensures { SomeIff result (count ≤ 18) count }
    {
        if count > 18 {
            return None;
        }
        Some(Places { count })
    }

    /// The number of places.
    pub fn get(self) -> u32
        ensures value { result ≡ self }
        ensures bound { result ≤ 18 }
    {
        self.count
    }
}
