//! The schemes that a URL may have.

use crate::literals::Literals;
use crate::values::text_literals;
use pv_text::{Memory, Text};
use pv_tree::Names;
use std::alloc::Global;
use std::marker::Model;

/// Schemes in which one is found without going through them. They are seen as their list.
#[derive(Drop)]
pub(crate) struct Schemes {
    names: Names,
    values: Literals,
}

impl Model for Schemes {
    ghost use Rattle.std.specs.Prelude.{◌≡◌, ℕ, List, map};
    ghost use Rattle.pv_rules.specs.declared.Literal.TheVariants as literal;

    ghost Value = { List (List ℕ) };

    ghost view = { λ s. s.names };

    ghost invariant = { λ s. s.values ≡ map literal.Text s.names };
}

impl Schemes {
    ghost use Rattle.std.specs.Prelude.{◌≡◌, map, bytes_eq, IfOk};
    ghost use Rattle.std.specs.List.{list_any};
    ghost use Rattle.pv_rules.specs.declared.Literal.TheVariants as literal;
    ghost use Rattle.pv_scalar.specs.Literals.{expected_text};

    pub(crate) fn new(alloc: Global, names: Names) -> Result<Schemes, Memory>
        ensures { IfOk result (λ s. s ≡ names) }
    {
        let values = Literals::new(alloc, text_literals(alloc, names.as_slice())?)?;
        Ok(Schemes { names, values })
    }

    /// The text that names the schemes.
    pub(crate) fn expected(&self) -> &Text
        ensures { result.now ≡ expected_text (map literal.Text self.now) }
    {
        self.values.expected()
    }

    /// Whether this is one of them.
    #[tactic(auto, using(crate::proofs::Firsts::place_of_text_any))]
    pub(crate) fn contains(&self, scheme: &Text) -> bool
        ensures { result ≡ list_any (λ name. bytes_eq name scheme.now) self.now }
    {
        self.values.place_of_text(scheme).is_some()
    }
}
