//! What holds of the texts, and of the trees and values that they are of.

ghost use Rattle.std.specs.Prelude.{◌≡◌, ◌≢◌, ℕ, List, All};
ghost use Rattle.pv_notation.specs.Compact.{compact};
ghost use Rattle.pv_notation.specs.Locations.{loc_text};
ghost use Rattle.pv_notation.specs.Notation.{notation};
ghost use Rattle.pv_notation.specs.Numbers.{HasNumbers, IsSound};

use pv_text::Text;
use pv_tree::{Members, Step, Tree, Value};

/// No text has a line feed, the byte 10.
pub fn notations_are_lines()
    ensures values { (v : Value) → All (λ b. b ≢ 10) (notation v) }
    ensures locations { (steps : List Step) → All (λ b. b ≢ 10) (loc_text steps) }
    ensures trees { (t : Tree) → HasNumbers t → All (λ b. b ≢ 10) (compact t) }
{}

/// Two values of one notation are one value. The definition of the decimal digits stops after 64 of
/// them, so whole numbers are those of `i128`.
pub fn notations_differ()
    ensures { (v w : Value) → IsSound v → IsSound w → notation v ≡ notation w → v ≡ w }
{}

#[cycle(sound)]
fn list_is_sound(values: &[Value])
    ensures { All IsSound values.now }
{
    for value in values {
        values_are_sound(value);
    }
}

#[cycle(sound)]
fn named_are_sound(named: &[(Text, Value)])
    ensures { All (λ m. IsSound m.1) named.now }
{
    for (_, value) in named {
        values_are_sound(value);
    }
}

#[cycle(sound)]
fn entries_are_sound(entries: &[(Value, Value)])
    ensures { All (λ e. IsSound e.0 × IsSound e.1) entries.now }
{
    for (key, value) in entries {
        values_are_sound(key);
        values_are_sound(value);
    }
}

/// Each value that code can make is sound. It goes over the whole value.
#[cycle(sound)]
#[tactic(auto, using(crate::proofs::Sound::soundness))]
pub fn values_are_sound(value: &Value)
    ensures { IsSound value.now }
{
    match value {
        Value::None => {}
        Value::Bool(_) => {}
        Value::Int(n) => {
            let _n = *n;
        }
        Value::Lexeme(_) => {}
        Value::Str(_) => {}
        Value::Bytes(_) => {}
        Value::Atom { .. } => {}
        Value::Enum { value, .. } => values_are_sound(value.get()),
        Value::List(values) => list_is_sound(values.as_slice()),
        Value::Tuple(values) => list_is_sound(values.as_slice()),
        Value::Set(values) => list_is_sound(values.as_slice()),
        Value::Frozen(values) => list_is_sound(values.as_slice()),
        Value::Dict(entries) => entries_are_sound(entries.as_slice()),
        Value::Model { fields, extra, .. } => {
            named_are_sound(fields.as_slice());
            named_are_sound(extra.as_slice());
        }
        Value::Root { value, .. } => values_are_sound(value.get()),
    }
}

#[cycle(numbers)]
fn list_has_numbers(trees: &[Tree])
    ensures { All HasNumbers trees.now }
{
    for tree in trees {
        trees_have_numbers(tree);
    }
}

#[cycle(numbers)]
fn members_have_numbers(members: &Members)
    ensures { All (λ m. HasNumbers m.1) members.now.members }
{
    for (_, tree) in members.as_slice() {
        trees_have_numbers(tree);
    }
}

/// Each lexeme of each tree that code can make is a number. It goes over the whole tree.
#[cycle(numbers)]
#[tactic(auto, using(crate::proofs::TreeNumbers::tree_numbers))]
pub fn trees_have_numbers(tree: &Tree)
    ensures { HasNumbers tree.now }
{
    match tree {
        Tree::Null => {}
        Tree::Bool(_) => {}
        Tree::Num(lexeme) => {
            let _bytes = lexeme.as_slice();
        }
        Tree::Str(_) => {}
        Tree::Array(trees) => list_has_numbers(trees.as_slice()),
        Tree::Object(members) => members_have_numbers(members),
    }
}
