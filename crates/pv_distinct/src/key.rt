use crate::token::Token;
use pv_text::Memory;
use std::alloc::Global;
use std::cmp::Ordering;
use std::marker::Model;

/// The tokens by which a value is found, seen as their list.
#[derive(Drop)]
pub struct Key {
    tokens: Vec<Token>,
}

impl Model for Key {
    ghost use Rattle.std.specs.Prelude.{List};
    ghost use Rattle.pv_distinct.specs.declared.token.Token.{Token};

    ghost Value = { List Token };

    ghost view = { λ k. k.tokens.items };
}

impl Key {
    ghost use Rattle.std.specs.Prelude.{◌≡◌, [], ◌∷◌, ◌++◌, IfOk, OnOk};

    /// An empty key with room for that many tokens.
    pub fn new(alloc: Global, capacity: usize) -> Result<Key, Memory>
        ensures { IfOk result (λ k. k ≡ []) }
    {
        Ok(Key {
            tokens: Vec::with_capacity(alloc, capacity)?,
        })
    }

    pub fn push(&mut self, token: Token) -> Result<(), Memory>
        ensures { OnOk result (self.new ≡ self.old ++ token ∷ []) }
    {
        self.tokens.push(token)?;
        Ok(())
    }

    pub fn append(&mut self, other: Key) -> Result<(), Memory>
        ensures { OnOk result (self.new ≡ self.old ++ other) }
    {
        let Key { tokens } = other;
        for token in tokens {
            self.tokens.push(token)?;
        }
        Ok(())
    }
}

impl PartialEq for Key {
    ghost use Rattle.std.specs.Ordering.{eq_by_cmp};
    ghost use Rattle.std.specs.Cmp.{eq_by_cmp_equiv, partial_equiv_from_equiv};
    ghost use Rattle.pv_distinct.specs.Keys.{key_cmp};
    ghost use Rattle.pv_distinct.specs.TokenOrder.{keys_total};

    ghost eq = { eq_by_cmp key_cmp };

    ghost laws = { partial_equiv_from_equiv (eq_by_cmp_equiv keys_total) };

    fn eq(&self, other: &Key) -> bool {
        self.cmp(other).is_eq()
    }
}

impl Eq for Key {
    ghost use Rattle.std.specs.Cmp.{eq_by_cmp_equiv};
    ghost use Rattle.pv_distinct.specs.TokenOrder.{keys_total};

    ghost laws = { eq_by_cmp_equiv keys_total };
}

impl Ord for Key {
    ghost use Rattle.std.specs.Prelude.{refl};
    ghost use Rattle.pv_distinct.specs.Keys.{key_cmp};
    ghost use Rattle.pv_distinct.specs.TokenOrder.{keys_total};

    ghost cmp = { key_cmp };

    ghost total = { keys_total };

    ghost matches_partial_cmp = { λ x y. refl };

    ghost matches_eq = { λ x y. refl };

    fn cmp(&self, other: &Key) -> Ordering {
        self.tokens.cmp(&other.tokens)
    }
}

impl PartialOrd for Key {
    ghost use Rattle.std.specs.Ordering.{as_partial_cmp};
    ghost use Rattle.std.specs.Cmp.{partial_order_from_total};
    ghost use Rattle.pv_distinct.specs.Keys.{key_cmp};
    ghost use Rattle.pv_distinct.specs.TokenOrder.{keys_total};

    ghost partial_cmp = { as_partial_cmp key_cmp };

    ghost laws = { partial_order_from_total keys_total };

    fn partial_cmp(&self, other: &Key) -> Option<Ordering> {
        Some(self.cmp(other))
    }
}
