//! Trees as picks.

ghost use Rattle.std.specs.Prelude.{◌≡◌, ◌++◌, ◌∷◌, [], map, true, decimal, IfOk, OnOk};
ghost use Rattle.pv_tree.specs.declared.Step.TheVariants.{Name};
ghost use Rattle.pv_ser.specs.Answers.{Answers, AnswersAs, IsUnder};
ghost use Rattle.pv_ser.specs.Picks as spec;
ghost use Rattle.pv_ser.specs.Picks.{reading, with_reading};

use crate::name_map::NameMap;
use crate::pick::{Pick, PickFault};
use itoa::Buffer;
use pv_number::{Lexeme, integer};
use pv_text::{Memory, Text};
use pv_tree::{Loc, Members, Step, Tree};
use std::alloc::Global;

/// The greatest count.
const MAX_COUNT: i128 = 4_294_967_295;

/// What is no pick, seen from one step further out.
fn under(fault: PickFault, step: Step) -> PickFault
    ensures { IsUnder step fault result }
{
    let PickFault::Shape { mut path } = fault else {
        return PickFault::Memory;
    };
    match path.push_front(step) {
        Ok(()) => PickFault::Shape { path },
        Err(_) => PickFault::Memory,
    }
}

/// What is no pick itself.
fn no_pick(alloc: Global) -> PickFault
    ensures { result ≡ PickFault.Shape [] }
{
    PickFault::Shape {
        path: Loc::new(alloc),
    }
}

/// The same under a name.
fn under_name(alloc: Global, fault: PickFault, name: &Text) -> PickFault
    ensures { IsUnder (Name name.now) fault result }
{
    match name.share(alloc) {
        Ok(name) => under(fault, Step::Name(name)),
        Err(_) => PickFault::Memory,
    }
}

/// A number from 0 to 4,294,967,295 that is written without a point and an exponent.
fn count_at(lexeme: &Lexeme) -> Option<u64>
    ensures { result ≡ spec.count_at lexeme.now }
{
    match integer(lexeme) {
        Some(n) if n >= 0 && n <= MAX_COUNT => Some(n as u64),
        _ => None,
    }
}

/// A number in decimal digits.
fn decimal_text(alloc: Global, count: u64) -> Result<Text, Memory>
    ensures { IfOk result (λ t. t ≡ decimal count) }
{
    let mut buffer = Buffer::new();
    Text::from_str(alloc, buffer.format(count))
}

/// The name for which an item of a list stands.
fn name_at(alloc: Global, item: &Tree) -> Result<Option<Text>, Memory>
    ensures { IfOk result (λ name. name ≡ spec.name_at item.now) }
{
    match item {
        Tree::Str(text) => Ok(Some(text.share(alloc)?)),
        Tree::Num(lexeme) => match count_at(lexeme) {
            Some(count) => Ok(Some(decimal_text(alloc, count)?)),
            None => Ok(None),
        },
        Tree::Null | Tree::Bool(_) | Tree::Array(_) | Tree::Object(_) => Ok(None),
    }
}

/// The names for which the items of a list stand, up to the first item that is none.
fn read_names(alloc: Global, items: &[Tree]) -> Result<Vec<Text>, PickFault>
    ensures { AnswersAs (λ v. v.items) result (spec.items_read 0 (map reading items.now)) }
{
    let mut names = Vec::with_capacity(alloc, items.len())?;
    for place in 0..items.len() {
        match name_at(alloc, &items[place])? {
            Some(name) => names.push(name)?,
            None => return Err(under(no_pick(alloc), Step::Index(place as u64))),
        }
    }
    Ok(names)
}

/// These names, all of each.
fn all_of(alloc: Global, names: Vec<Text>) -> Result<Pick, Memory>
    ensures { IfOk result (λ p. p ≡ Pick.Some (spec.by_name (map spec.all_of names.items))) }
{
    let mut picks = NameMap::new(alloc);
    for name in names {
        picks.put(name, Pick::All)?;
    }
    Ok(Pick::Some(picks))
}

/// A list stands for the object that has each of its names with `true`.
fn read_list(alloc: Global, items: &[Tree]) -> Result<Pick, PickFault>
    ensures { Answers result (spec.listed (spec.items_read 0 (map reading items.now))) }
{
    let names = read_names(alloc, items)?;
    Ok(all_of(alloc, names)?)
}

/// The members of an object in their order, up to the first whose value is no pick.
#[cycle(read)]
fn read_members(alloc: Global, members: &Members) -> Result<Pick, PickFault>
    ensures { Answers result (spec.some_of (spec.members_read (map with_reading members.now.members))) }
{
    let mut picks = NameMap::new(alloc);
    for (name, value) in members.as_slice() {
        match read_pick(alloc, value) {
            Ok(pick) => picks.put(name.share(alloc)?, pick)?,
            Err(fault) => return Err(under_name(alloc, fault, name)),
        }
    }
    Ok(Pick::Some(picks))
}

/// The pick that a tree is.
#[cycle(read)]
pub fn read_pick(alloc: Global, tree: &Tree) -> Result<Pick, PickFault>
    ensures { Answers result (spec.pick_read tree.now) }
{
    match tree {
        Tree::Bool(true) => Ok(Pick::All),
        Tree::Array(items) => read_list(alloc, items.as_slice()),
        Tree::Object(members) => read_members(alloc, members),
        Tree::Null | Tree::Bool(false) | Tree::Num(_) | Tree::Str(_) => Err(no_pick(alloc)),
    }
}
