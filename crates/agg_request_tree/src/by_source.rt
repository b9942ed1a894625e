//! Tuples by the names of their sources.
ghost use Rattle.std.specs.Prelude.{◌≡◌, IfOk};
ghost use Rattle.agg_values.specs.Shown.{shown_key};
ghost use Rattle.agg_request_tree.specs.BySource.{after_map, by_source};

use crate::CompositeAggregationSource;
use agg_values::{AfterKey, CompositeKey, NameMap, OutOfMemory, Tuple};
use std::alloc::Global;

/// The shown key of each source, by its name: of sources of one name the first's.
pub fn shown_keys(
    alloc: Global,
    sources: &[CompositeAggregationSource],
    tuple: &Tuple,
) -> Result<NameMap<CompositeKey>, OutOfMemory>
    ensures { IfOk result (λ keys. keys ≡ by_source shown_key sources.now tuple.now) }
{
    let values = tuple.as_slice();
    let mut keys = NameMap::with_capacity(alloc, sources.len())?;
    for i in (0..sources.len().min(values.len())).rev() {
        let shown = CompositeKey::from_intermediate(alloc, values[i].try_clone(alloc)?)?;
        keys.insert(sources[i].name().try_clone(alloc)?, shown)?;
    }
    Ok(keys)
}

/// The after key of each source, by its name: of sources of one name the first's.
pub fn after_keys(
    alloc: Global,
    sources: &[CompositeAggregationSource],
    tuple: &Tuple,
) -> Result<NameMap<AfterKey>, OutOfMemory>
    ensures { IfOk result (λ keys. keys ≡ after_map sources.now tuple.now) }
{
    let values = tuple.as_slice();
    let mut keys = NameMap::new(alloc);
    for i in (0..sources.len().min(values.len())).rev() {
        let after = AfterKey(values[i].try_clone(alloc)?);
        keys.insert(sources[i].name().try_clone(alloc)?, after)?;
    }
    Ok(keys)
}
