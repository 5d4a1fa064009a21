//! Members of enums, and named values, in a tree.

ghost use Rattle.std.specs.Prelude.{◌≡◌, IfOk};
ghost use Rattle.std.specs.Option.{option_copied};
ghost use Rattle.pv_scalar.specs.TestRules.{enum_rule};
ghost use Rattle.pv_scalar.specs.Scalars as spec;

use crate::answers::Graded;
use crate::integers::int;
use crate::literals::Literals;
use crate::values::values_of;
use pv_fault::{Grade, Kind};
use pv_rules::{EnumMember, Literal, SubType};
use pv_text::{Memory, Text};
use pv_tree::{Tree, Value, plain_value};
use sqlite_items::{Boxed, Items};
use std::alloc::Global;
use std::marker::Model;

/// Members in which a value is found without going through them. They are seen as their list.
#[derive(Drop)]
pub(crate) struct Members {
    members: Items<EnumMember>,
    values: Literals,
}

impl Model for Members {
    ghost use Rattle.std.specs.Prelude.{◌≡◌, List, map};
    ghost use Rattle.pv_rules.specs.declared.EnumMember.{EnumMember};
    ghost use Rattle.pv_scalar.specs.Literals.{enum_value};

    ghost Value = { List EnumMember };

    ghost view = { λ m. m.members };

    ghost invariant = { λ m. m.values ≡ map enum_value m.members };
}

impl Members {
    ghost use Rattle.std.specs.Prelude.{◌≡◌, map, IfOk, option_and_then};
    ghost use Rattle.std.specs.Option.{option_copied};
    ghost use Rattle.pv_rules.specs.declared.Literal.TheVariants as literal;
    ghost use Rattle.pv_scalar.specs.Literals.{enum_value, expected_text, literal_of, member_with};

    pub(crate) fn new(alloc: Global, members: Items<EnumMember>) -> Result<Members, Memory>
        ensures { IfOk result (λ m. m ≡ members) }
    {
        let values = Literals::new(alloc, values_of(alloc, members.as_slice())?)?;
        Ok(Members { members, values })
    }

    /// The text that names the values.
    pub(crate) fn expected(&self) -> &Text
        ensures { result.now ≡ expected_text (map enum_value self.now) }
    {
        self.values.expected()
    }

    /// The first member whose value the tree is.
    #[tactic(auto, using(crate::proofs::Firsts::found_by))]
    pub(crate) fn with_tree(&self, tree: &Tree) -> Option<&EnumMember>
        ensures { option_copied result ≡ option_and_then (member_with self.now) (literal_of tree.now) }
    {
        match self.values.place_of(tree) {
            Some(place) => self.members.get(place),
            None => None,
        }
    }

    /// The first member with this value.
    #[tactic(auto, using(crate::proofs::Firsts::found_there))]
    pub(crate) fn with_int(&self, n: i128) -> Option<&EnumMember>
        ensures { option_copied result ≡ member_with self.now (literal.Int n) }
    {
        match self.values.place_of_int(n) {
            Some(place) => self.members.get(place),
            None => None,
        }
    }
}

/// The members of an enum, and whether their values are ints or texts.
#[derive(Drop)]
pub(crate) struct EnumTests {
    pub(crate) cls: Text,
    pub(crate) members: Members,
    pub(crate) sub_type: Option<SubType>,
}

fn text_value(alloc: Global, text: &Text) -> Result<Value, Memory>
    ensures { IfOk result (λ v. v ≡ Value.Str text.now) }
{
    Ok(Value::Str(text.share(alloc)?))
}

fn literal_value(alloc: Global, value: &Literal) -> Result<Value, Memory>
    ensures { IfOk result (λ v. v ≡ spec.literal_value value.now) }
{
    match value {
        Literal::Null => Ok(Value::None),
        Literal::Flag(flag) => Ok(Value::Bool(*flag)),
        Literal::Int(n) => Ok(Value::Int(*n)),
        Literal::Text(text) => text_value(alloc, text),
    }
}

fn member_value(alloc: Global, tests: &EnumTests, member: &EnumMember) -> Result<Value, Memory>
    ensures { IfOk result (λ v. v ≡ spec.member_value (enum_rule tests.now) member.now) }
{
    Ok(Value::Enum {
        cls: tests.cls.share(alloc)?,
        name: member.name.share(alloc)?,
        value: Boxed::new(alloc, literal_value(alloc, &member.value)?)?,
    })
}

/// The member for which a tree stands that is not its value itself.
fn lax_member<'a>(tests: &'a EnumTests, tree: &Tree) -> Option<&'a EnumMember>
    ensures { option_copied result ≡ spec.lax_member (enum_rule tests.now) tests.now.sub_type tree.now }
{
    match tests.sub_type {
        Some(SubType::Int) => match int(false, tree) {
            Ok((n, _)) => tests.members.with_int(n),
            Err(_) => None,
        },
        Some(SubType::Text) => None,
        None => None,
    }
}

/// A member of an enum.
#[tactic(auto, unfolding(crate::specs::Scalars::enum_answer))]
pub(crate) fn enum_answer(
    alloc: Global,
    tests: &EnumTests,
    strict: bool,
    tree: &Tree,
) -> Result<Graded<Value>, Memory>
    ensures { IfOk result (λ a. a ≡ spec.enum_answer (enum_rule tests.now) strict tree.now) }
{
    if let Some(member) = tests.members.with_tree(tree) {
        return Ok(Ok((member_value(alloc, tests, member)?, Grade::Strict)));
    }
    if !strict && let Some(member) = lax_member(tests, tree) {
        return Ok(Ok((member_value(alloc, tests, member)?, Grade::Lax)));
    }
    Ok(Err(Kind::Enum {
        expected: tests.members.expected().share(alloc)?,
    }))
}

/// One of the values.
#[tactic(auto, unfolding(crate::specs::Scalars::literal_answer), using(crate::proofs::Firsts::place_of_any))]
pub(crate) fn literal_answer(
    alloc: Global,
    values: &Literals,
    tree: &Tree,
) -> Result<Graded<Value>, Memory>
    ensures { IfOk result (λ a. a ≡ spec.literal_answer values.now tree.now) }
{
    if values.place_of(tree).is_some() {
        Ok(Ok((plain_value(alloc, tree)?, Grade::Exact)))
    } else {
        Ok(Err(Kind::LiteralError {
            expected: values.expected().share(alloc)?,
        }))
    }
}
