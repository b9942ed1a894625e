//! The builders that were handed in and are still unused.
ghost use Rattle.std.specs.Prelude.{◌≡◌, List, ℕ, option_map};
ghost use Rattle.agg_request.specs.reading.Builders.{taken};

use agg_request_tree::NamedBuilder;

/// What has a name.
pub trait HasName: Drop {
    /// The name.
    ghost name_of: { Self → List ℕ };

    /// The name of the builder.
    fn name(&self) -> &str
        ensures { result.now ≡ name_of self.now };
}

impl HasName for NamedBuilder {
    ghost name_of = { λ b. b.name };

    /// The name of the builder.
    fn name(&self) -> &str {
        self.name.as_str()
    }
}

/// Takes the first builder of this name out.
pub fn take_builder<B: HasName>(pool: &mut Vec<B>, name: &str) -> Option<B>
    ensures { option_map (λ b. (b, pool.new.items)) result
        ≡ taken B.name_of name.now pool.old.items }
{
    for i in 0..pool.len() {
        if pool[i].name() == name {
            return Some(pool.remove(i));
        }
    }
    None
}
