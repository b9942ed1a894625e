//! Random numbers.
ghost use Rattle.std.specs.Prelude.{◌≡◌};
ghost use Rattle.agg_pages.specs.generator.Draws.{drawn, next_state};

use std::marker::Model;

const MULTIPLIER: u64 = 6_364_136_223_846_793_005;

const INCREMENT: u64 = 1_442_695_040_888_963_407;

/// Random numbers, which depend on the seed alone. Contracts see the state.
#[derive(Drop)]
pub struct Generator {
    state: u64,
}

impl Model for Generator {
    ghost use Rattle.std.specs.Prelude.{ℕ};

    ghost Value = { ℕ };

    ghost view = { λ generator. generator.state };
}

impl Generator {
    /// The generator of a seed.
    pub fn new(seed: u64) -> Generator
        ensures { result ≡ seed }
    {
        Generator { state: seed }
    }

    /// The next number, one of 31 bits.
    pub fn draw(&mut self) -> u64
        ensures number { result ≡ drawn (next_state self.old) }
        ensures state { self.new ≡ next_state self.old }
    {
        self.state = self.state.wrapping_mul(MULTIPLIER).wrapping_add(INCREMENT);
        self.state >> 33
    }
}
