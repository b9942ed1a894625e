ghost use Rattle.std.specs.Prelude.{◌≡◌, ◌++◌, ◌∷◌, [], OnOk, OnErr};
ghost use Rattle.agg_segment.specs.storage.Runs.{kinds, AreNonEmpty};

use crate::storage::Sign;
use agg_values::{ColumnPaginationOrder, OutOfMemory};

/// What a number of a document is: of a field, of the class of its key, and of a sign.
#[derive(Clone, Copy, PartialEq, Eq)]
pub struct RunKind {
    pub field: u32,
    pub class: ColumnPaginationOrder,
    pub sign: Sign,
}

/// How many numbers of a kind came one after another.
#[derive(Clone, Copy)]
pub struct Run {
    pub kind: RunKind,
    pub count: u32,
}

/// Counts one more number of a kind, in the last run if that is of the kind.
pub fn count_one(runs: &mut Vec<Run>, kind: RunKind) -> Result<(), OutOfMemory>
    ensures ok { OnOk result (kinds runs.new.items ≡ kinds runs.old.items ++ kind ∷ []) }
    ensures err { OnErr result (runs.new.items ≡ runs.old.items) }
    ensures some { AreNonEmpty runs.old.items → AreNonEmpty runs.new.items }
{
    if let Some(last) = runs.last_mut()
        && last.kind == kind
        && last.count < u32::MAX
    {
        last.count += 1;
        return Ok(());
    }
    runs.push(Run { kind, count: 1 })?;
    Ok(())
}
