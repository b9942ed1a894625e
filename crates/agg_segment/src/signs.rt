ghost use Rattle.std.specs.Prelude.{◌≡◌, ◌≢◌, ◌<◌, ◌∷◌, ◌++◌, [], ℕ, List, Err, length, map};
ghost use Rattle.std.specs.Prelude.{IfOk, OnOk, OnErr, IsErrOf};
ghost use Rattle.std.specs.List.{All};
ghost use Rattle.agg_segment.specs.storage.Signs.{run_mark, AreSigns, HasBoth};
ghost use Rattle.agg_segment.specs.storage.Signs.{without_signs};

use crate::BuildError;
use crate::storage::{Run, Sign};
use std::alloc::Global;

/// Gives the fields of runs the signs of their numbers. The fields that had none are returned.
pub fn give_signs(alloc: Global, signs: &mut [Sign], runs: &[Run]) -> Result<Vec<u32>, BuildError>
    requires { All (λ run. run.kind.field < length signs.old) runs.now }
    ensures ok { OnOk result ((before : List (ℕ × Sign)) → AreSigns signs.old before
        → AreSigns signs.new (before ++ map run_mark runs.now)) }
    ensures mixed { IsErrOf result BuildError.MixedNumbers
        → (before : List (ℕ × Sign)) → AreSigns signs.old before
        → HasBoth (before ++ map run_mark runs.now) }
    ensures few { result ≢ Err BuildError.TooManyDocuments }
    ensures undone { IfOk result
        (λ given. without_signs given.items signs.new ≡ signs.old) }
    ensures within { IfOk result
        (λ given. All (λ field. field < length signs.old) given.items) }
    ensures err { OnErr result (signs.new ≡ signs.old) }
{
    let mut given = Vec::new(alloc);
    for run in runs {
        if let Err(error) = give_sign(signs, &mut given, run.kind.field, run.kind.sign) {
            take_back(signs, given);
            return Err(error);
        }
    }
    Ok(given)
}

// Gives a field a sign, and notes the field if it had none.
fn give_sign(
    signs: &mut [Sign],
    given: &mut Vec<u32>,
    field: u32,
    sign: Sign,
) -> Result<(), BuildError>
    requires { field < length signs.old }
    ensures ok { OnOk result ((before : List (ℕ × Sign)) → AreSigns signs.old before
        → AreSigns signs.new (before ++ (field, sign) ∷ [])) }
    ensures mixed { IsErrOf result BuildError.MixedNumbers
        → (before : List (ℕ × Sign)) → AreSigns signs.old before
        → HasBoth (before ++ (field, sign) ∷ []) }
    ensures few { result ≢ Err BuildError.TooManyDocuments }
    ensures undone { without_signs given.new.items signs.new
        ≡ without_signs given.old.items signs.old }
    ensures within { All (λ f. f < length signs.old) given.old.items
        → All (λ f. f < length signs.old) given.new.items }
{
    let known = signs[field as usize];
    if sign == Sign::Small {
        return Ok(());
    }
    if sign == known {
        return Ok(());
    }
    if known != Sign::Small {
        return Err(BuildError::MixedNumbers);
    }
    given.push(field)?;
    signs[field as usize] = sign;
    Ok(())
}

/// Takes the signs of fields away.
pub fn take_back(signs: &mut [Sign], mut given: Vec<u32>)
    requires { All (λ field. field < length signs.old) given.items }
    ensures { signs.new ≡ without_signs given.items signs.old }
{
    while let Some(field) = given.pop() {
        signs[field as usize] = Sign::Small;
    }
}
