//! What is asked, before any record is read.
ghost use Rattle.std.specs.Prelude.{IfErr, IfOk, OnOk};
ghost use Rattle.peslumok_front.specs.front.Causes.{HasNoFirst, IsRefusedAtOnce};
ghost use Rattle.peslumok_front.specs.front.Check.{BeginsAfter, MayBeAsked, after_asked};

use crate::after_text::after_of;
use crate::front::asked::Asked;
use crate::front::columns::columns_of;
use crate::front::failure::Failure;
use crate::grouping::query_of;
use agg_values::{AfterKey, NameMap};
use std::alloc::Global;

/// Checks what is asked, before any record is read.
pub fn check_asked(alloc: Global, asked: &Asked<'_>) -> Result<(), Failure>
    ensures ok { OnOk result (MayBeAsked asked.now) }
    ensures cause { IfErr result (IsRefusedAtOnce asked.now) }
{
    query_of(alloc, &asked.grouping)?;
    first_after(alloc, asked)?;
    columns_of(alloc, &asked.grouping)?;
    Ok(())
}

/// The key after which the first page begins.
pub fn first_after(alloc: Global, asked: &Asked<'_>) -> Result<NameMap<AfterKey>, Failure>
    ensures begins { IfOk result (BeginsAfter asked.now.grouping (after_asked asked.now)) }
    ensures cause { IfErr result (HasNoFirst asked.now.grouping (after_asked asked.now)) }
{
    match asked.pages.after {
        Some(text) => Ok(after_of(alloc, text, &asked.grouping)?),
        None => Ok(NameMap::new(alloc)),
    }
}
