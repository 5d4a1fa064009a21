//! Values that a schema names.

use crate::listing::expected_text;
use crate::places::{Places, places_of};
use pv_number::integer;
use pv_rules::Literal;
use pv_text::{Memory, Text};
use pv_tree::Tree;
use sqlite_items::Items;
use std::alloc::Global;
use std::marker::Model;

/// A list of values in which a value is found without going through the list, and the text that
/// names them. It is seen as the list.
#[derive(Drop)]
pub(crate) struct Literals {
    values: Items<Literal>,
    places: Places,
    expected: Text,
}

impl Model for Literals {
    ghost use Rattle.std.specs.Prelude.{◌≡◌, List};
    ghost use Rattle.pv_rules.specs.declared.Literal.{Literal};
    ghost use Rattle.pv_scalar.specs.Literals.{expected_text};
    ghost use Rattle.pv_scalar.specs.Places.{KeepsPlaces};

    ghost Value = { List Literal };

    ghost view = { λ l. l.values };

    ghost invariant = { λ l. KeepsPlaces l.places l.values × (l.expected ≡ expected_text l.values) };
}

impl Literals {
    ghost use Rattle.std.specs.Prelude.{◌≡◌, IfOk, option_and_then};
    ghost use Rattle.pv_rules.specs.declared.Literal.TheVariants as literal;
    ghost use Rattle.pv_scalar.specs.Literals.{literal_of, expected_text};
    ghost use Rattle.pv_scalar.specs.Places.{first_place};

    pub(crate) fn new(alloc: Global, values: Items<Literal>) -> Result<Literals, Memory>
        ensures { IfOk result (λ l. l ≡ values) }
    {
        let places = places_of(alloc, values.as_slice())?;
        let expected = expected_text(alloc, values.as_slice())?;
        Ok(Literals {
            values,
            places,
            expected,
        })
    }

    /// The values as a list for a reader: "1, 2 or 3".
    pub(crate) fn expected(&self) -> &Text
        ensures { result.now ≡ expected_text self.now }
    {
        &self.expected
    }

    /// The first place of an int.
    pub(crate) fn place_of_int(&self, n: i128) -> Option<usize>
        ensures { result ≡ first_place self.now (literal.Int n) }
    {
        self.places.ints.get(&n).copied()
    }

    /// The first place of a text.
    pub(crate) fn place_of_text(&self, text: &Text) -> Option<usize>
        ensures { result ≡ first_place self.now (literal.Text text.now) }
    {
        self.places.texts.get(text).copied()
    }

    /// The first place of what a tree is.
    #[tactic(auto, unfolding(crate::specs::Literals::literal_of))]
    pub(crate) fn place_of(&self, tree: &Tree) -> Option<usize>
        ensures { result ≡ option_and_then (first_place self.now) (literal_of tree.now) }
    {
        match tree {
            Tree::Null => self.places.null,
            Tree::Bool(true) => self.places.yes,
            Tree::Bool(false) => self.places.no,
            Tree::Num(lexeme) => match integer(lexeme) {
                Some(n) => self.place_of_int(n),
                None => None,
            },
            Tree::Str(text) => self.place_of_text(text),
            Tree::Array(_) => None,
            Tree::Object(_) => None,
        }
    }
}
