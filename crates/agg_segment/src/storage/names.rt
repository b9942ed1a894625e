ghost use Rattle.std.specs.Prelude.{◌≡◌, ℕ, List, Some, if◌then◌else◌, OnOk, OnErr};
ghost use Rattle.std.specs.Str.{bytes_eq};
ghost use Rattle.agg_segment.specs.storage.Cells.{number_of};
ghost use Rattle.agg_segment.specs.storage.Names.{numbered_names};

use agg_values::OutOfMemory;
use std::alloc::Global;
use std::collections::BTreeMap;

/// The number of a field, by its name.
pub fn find_number(names: &BTreeMap<String, u32>, name: &str) -> Option<u32>
    ensures { result ≡ number_of (numbered_names names.now) name.now }
{
    names.get(name).copied()
}

/// Gives a name a number.
pub fn set_number(
    alloc: Global,
    names: &mut BTreeMap<String, u32>,
    name: &str,
    number: u32,
) -> Result<(), OutOfMemory>
    ensures ok { OnOk result ((other : List ℕ)
        → number_of (numbered_names names.new) other
        ≡ (if bytes_eq name.now other
        then Some number
        else number_of (numbered_names names.old) other)) }
    ensures err { OnErr result (numbered_names names.new ≡ numbered_names names.old) }
{
    names.insert(String::from_str(alloc, name)?, number)?;
    Ok(())
}
