//! What has to fit together.

ghost use Rattle.std.specs.Prelude.{◌≡◌, IfOk};
ghost use Rattle.pv_schema_check.specs.Answers.{Answers};
ghost use Rattle.pv_rules.specs.Members as enums;
ghost use Rattle.pv_schema_check.specs.Checking as spec;
ghost use Rattle.pv_schema_check.specs.Find.{itself, tree_at};
ghost use Rattle.pv_schema_table.specs.declared.Fit.TheVariants as fit;

use crate::check_fault::CheckFault;
use crate::fault::{Code, ShapeCode};
use crate::finding::find;
use crate::refusals::refused_at;
use pv_rules::{EnumMember, Literal, SubType};
use pv_schema_table::{Fit, Test};
use pv_schema_values::{count_of, flag_of, members_of, sub_type_of};
use pv_text::{Memory, Text};
use pv_tree::Tree;
use std::alloc::Global;

fn size_of(tree: &Tree) -> usize
    ensures { result ≡ spec.items_size tree.now }
{
    match tree.as_array() {
        Some(items) => items.len(),
        None => 0,
    }
}

/// Whether a place lies in a list.
#[tactic(auto, unfolding(crate::specs::Checking::fits))]
fn place_fits(place: &Tree, items: &Tree) -> bool
    ensures { result ≡ spec.fits fit.PlaceInList place.now items.now }
{
    match count_of(place) {
        None => true,
        Some(place) => place < size_of(items) as u64,
    }
}

fn is_of(sub_type: SubType, value: &Literal) -> bool
    ensures { result ≡ enums.is_of sub_type value.now }
{
    match (sub_type, value) {
        (SubType::Int, Literal::Int(_)) => true,
        (SubType::Int, Literal::Null | Literal::Flag(_) | Literal::Text(_)) => false,
        (SubType::Text, Literal::Text(_)) => true,
        (SubType::Text, Literal::Null | Literal::Flag(_) | Literal::Int(_)) => false,
    }
}

fn all_are_of(sub_type: SubType, members: &[EnumMember]) -> bool
    ensures { result ≡ enums.all_are_of sub_type members.now }
{
    for member in members {
        if !is_of(sub_type, &member.value) {
            return false;
        }
    }
    true
}

/// Whether the values of the members are of the sub type.
#[tactic(auto, unfolding(crate::specs::Checking::fits))]
fn members_fit(alloc: Global, sub_type: &Tree, members: &Tree) -> Result<bool, Memory>
    ensures { IfOk result (λ b. b ≡ spec.fits fit.OfSubType sub_type.now members.now) }
{
    let Some(sub_type) = sub_type_of(sub_type) else {
        return Ok(true);
    };
    match members_of(alloc, members)? {
        None => Ok(true),
        Some(members) => Ok(all_are_of(sub_type, members.as_slice())),
    }
}

/// Whether of two flags not both are false.
#[tactic(auto, unfolding(crate::specs::Checking::fits))]
fn not_both_false(flag: &Tree, other: &Tree) -> bool
    ensures { result ≡ spec.fits fit.NotBothFalse flag.now other.now }
{
    match (flag_of(flag), flag_of(other)) {
        (Some(false), Some(false)) => false,
        (Some(false), Some(true)) => true,
        (Some(false), None) => true,
        (Some(true), _) => true,
        (None, _) => true,
    }
}

fn fits(alloc: Global, fit: Fit, value: &Tree, other: &Tree) -> Result<bool, Memory>
    ensures { IfOk result (λ b. b ≡ spec.fits fit value.now other.now) }
{
    match fit {
        Fit::PlaceInList => Ok(place_fits(value, other)),
        Fit::OfSubType => members_fit(alloc, value, other),
        Fit::NotBothFalse => Ok(not_both_false(value, other)),
    }
}

/// Whether the value under a test's key fits the other one, where both are there.
fn check_test(alloc: Global, test: &Test, members: &[(Text, Tree)]) -> Result<(), CheckFault>
    ensures { Answers result (spec.misfit test.now
        (tree_at itself members.now test.now.key) (tree_at itself members.now test.now.other)) }
{
    let Some(value) = find(members, test.key) else {
        return Ok(());
    };
    let Some(other) = find(members, test.other) else {
        return Ok(());
    };
    if fits(alloc, test.fit, value, other)? {
        Ok(())
    } else {
        Err(refused_at(alloc, test.key, Code::Shape(ShapeCode::BadValue)))
    }
}

/// What does not fit together.
pub(crate) fn check_tests(
    alloc: Global,
    tests: &[Test],
    members: &[(Text, Tree)],
) -> Result<(), CheckFault>
    ensures { Answers result (spec.misfits (tree_at itself members.now) tests.now) }
{
    for test in tests {
        check_test(alloc, test, members)?;
    }
    Ok(())
}
