//! How many items a collection may have.

ghost use Rattle.std.specs.Prelude.{◌≡◌, IfOk};
ghost use Rattle.pv_collect.specs.Gathering as spec;
ghost use Rattle.pv_collect.specs.Kept as kept;

use crate::errors::field_type;
use pv_fault::{Good, Kind};
use pv_rules::{Collection, GatherRule};
use pv_text::Memory;
use std::alloc::Global;

fn fixed(variadic_item_index: Option<u64>, positions: u64, items: u64) -> Option<u64>
    ensures { result ≡ spec.fixed variadic_item_index positions items }
{
    if variadic_item_index.is_none() {
        return Some(positions);
    }
    let others = positions.saturating_sub(1);
    if items < others { Some(others) } else { None }
}

/// How many positions a tuple has for so many items; `None` for the other kinds, and where one position takes any number.
pub fn wanted(rule: &GatherRule, items: u64) -> Option<u64>
    ensures { result ≡ spec.wanted rule.now items }
{
    match rule.kind {
        Collection::Tuple => fixed(rule.variadic_item_index, rule.positions, items),
        Collection::List => None,
        Collection::Set => None,
        Collection::Frozen => None,
        Collection::Dict => None,
    }
}

fn over(
    alloc: Global,
    kind: Collection,
    most: Option<u64>,
    actual: u64,
) -> Result<Option<Kind>, Memory>
    ensures { IfOk result (λ k. k ≡ spec.over kind most actual) }
{
    let Some(most) = most else {
        return Ok(None);
    };
    if most < actual {
        return Ok(Some(Kind::TooLong {
            field_type: field_type(alloc, kind)?,
            max_length: most,
            actual_length: actual,
        }));
    }
    Ok(None)
}

fn short(
    alloc: Global,
    kind: Collection,
    least: Option<u64>,
    actual: u64,
) -> Result<Option<Kind>, Memory>
    ensures { IfOk result (λ k. k ≡ spec.short kind least actual) }
{
    let Some(least) = least else {
        return Ok(None);
    };
    if actual < least {
        return Ok(Some(Kind::TooShort {
            field_type: field_type(alloc, kind)?,
            min_length: least,
            actual_length: actual,
        }));
    }
    Ok(None)
}

/// The first test of lengths that fails: a tuple's positions against the items of the input,
/// then the least and the most against what the collection keeps.
pub(crate) fn length_fault(
    alloc: Global,
    rule: &GatherRule,
    items: u64,
    kept: u64,
) -> Result<Option<Kind>, Memory>
    ensures { IfOk result (λ k. k ≡ spec.length_fault rule.now items kept) }
{
    if let Some(fault) = over(alloc, rule.kind, wanted(rule, items), items)? {
        return Ok(Some(fault));
    }
    if let Some(fault) = short(alloc, rule.kind, rule.min_length, kept)? {
        return Ok(Some(fault));
    }
    over(alloc, rule.kind, rule.max_length, kept)
}

/// A success, or what its length makes wrong.
pub(crate) fn fitting(fault: Option<Kind>, good: Good) -> Result<Good, Kind>
    ensures { result ≡ kept.fitting fault good }
{
    match fault {
        Some(fault) => Err(fault),
        None => Ok(good),
    }
}
