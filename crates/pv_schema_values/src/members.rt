//! Members of enums.

ghost use Rattle.std.specs.Prelude.{◌≡◌, IfOk};
ghost use Rattle.pv_rules.specs.Members as distinct;
ghost use Rattle.pv_schema_values.specs.Values as spec;

use crate::distinct::are_distinct;
use crate::lists::{FromTree, some_in};
use crate::literals::int_literal;
use crate::plain_values::text_of;
use pv_rules::{EnumMember, Literal};
use pv_text::{Memory, Text};
use pv_tree::Tree;
use sqlite_items::Items;
use std::alloc::Global;

/// An int or a text.
#[tactic(auto, unfolding(crate::specs::Values::member_value_of))]
fn member_value_of(alloc: Global, tree: &Tree) -> Result<Option<Literal>, Memory>
    ensures { IfOk result (λ found. found ≡ spec.member_value_of tree.now) }
{
    match tree {
        Tree::Num(lexeme) => Ok(int_literal(lexeme)),
        Tree::Str(text) => Ok(Some(Literal::Text(text.share(alloc)?))),
        Tree::Null | Tree::Bool(_) | Tree::Array(_) | Tree::Object(_) => Ok(None),
    }
}

fn member_by(alloc: Global, name: &Tree, value: &Tree) -> Result<Option<EnumMember>, Memory>
    ensures { IfOk result (λ found. found
        ≡ spec.member_by (spec.text_of name.now) (spec.member_value_of value.now)) }
{
    let Some(name) = text_of(name) else {
        return Ok(None);
    };
    let name = name.share(alloc)?;
    match member_value_of(alloc, value)? {
        Some(value) => Ok(Some(EnumMember { name, value })),
        None => Ok(None),
    }
}

impl FromTree for EnumMember {
    ghost of = { spec.member_of };

    #[tactic(auto, unfolding(crate::specs::Values::member_of))]
    fn from_tree(alloc: Global, tree: &Tree) -> Result<Option<EnumMember>, Memory> {
        match tree.as_array() {
            Some([name, value]) => member_by(alloc, name, value),
            _ => Ok(None),
        }
    }
}

fn names_in(alloc: Global, members: &[EnumMember]) -> Result<Vec<Text>, Memory>
    ensures { IfOk result (λ names. names.items ≡ distinct.names_in members.now) }
{
    let mut names = Vec::with_capacity(alloc, members.len())?;
    for member in members {
        names.push(member.name.share(alloc)?)?;
    }
    Ok(names)
}

fn ints_in(alloc: Global, members: &[EnumMember]) -> Result<Vec<i128>, Memory>
    ensures { IfOk result (λ ints. ints.items ≡ distinct.ints_in members.now) }
{
    let mut ints = Vec::new(alloc);
    for member in members {
        match &member.value {
            Literal::Int(n) => ints.push(*n)?,
            Literal::Null | Literal::Flag(_) | Literal::Text(_) => {}
        }
    }
    Ok(ints)
}

fn texts_in(alloc: Global, members: &[EnumMember]) -> Result<Vec<Text>, Memory>
    ensures { IfOk result (λ texts. texts.items ≡ distinct.texts_in members.now) }
{
    let mut texts = Vec::new(alloc);
    for member in members {
        match &member.value {
            Literal::Text(text) => texts.push(text.share(alloc)?)?,
            Literal::Null | Literal::Flag(_) | Literal::Int(_) => {}
        }
    }
    Ok(texts)
}

/// Whether no name stands twice, and no value.
#[tactic(auto, unfolding(pv_rules::specs::Members::are_members))]
fn are_members(alloc: Global, members: &[EnumMember]) -> Result<bool, Memory>
    ensures { IfOk result (λ b. b ≡ distinct.are_members members.now) }
{
    if !are_distinct(alloc, names_in(alloc, members)?)? {
        return Ok(false);
    }
    if !are_distinct(alloc, ints_in(alloc, members)?)? {
        return Ok(false);
    }
    are_distinct(alloc, texts_in(alloc, members)?)
}

/// The members of a list of pairs of a name and a value that is not empty. Names are distinct, and
/// values are. Texts are shared.
#[tactic(auto, unfolding(crate::specs::Values::members_of))]
pub fn members_of(alloc: Global, tree: &Tree) -> Result<Option<Items<EnumMember>>, Memory>
    ensures { IfOk result (λ found. found ≡ spec.members_of tree.now) }
{
    let Some(members) = some_in::<EnumMember>(alloc, tree)? else {
        return Ok(None);
    };
    if are_members(alloc, members.as_slice())? {
        Ok(Some(Items::from_vec(members)))
    } else {
        Ok(None)
    }
}
