ghost use Rattle.std.specs.Prelude.{Some};

use agg_pages::Failed;
use agg_pages::source::{Source, SteadySource};

/// Bytes that come one at a time.
#[derive(Drop)]
pub struct Drip(pub SteadySource);

impl Source for Drip {
    ghost left = { λ source. Some source.0 };

    ghost faults = { λ _. 0 };

    fn read(&mut self, buf: &mut [u8]) -> Result<usize, Failed> {
        match buf {
            [] => Ok(0),
            [first, ..] => self.0.read(std::slice::from_mut(first)),
        }
    }
}
