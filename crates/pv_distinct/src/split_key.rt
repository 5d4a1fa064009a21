use crate::key::Key;
use crate::token::Token;
use std::cmp::Ordering;
use std::marker::Model;

/// The tokens by which a value is found, the first of them apart. The key of a value that holds no
/// others has no further one, and so takes no memory of its own.
#[derive(Drop)]
pub struct SplitKey {
    first: Token,
    rest: Key,
}

impl Model for SplitKey {
    ghost use Rattle.std.specs.Prelude.{List, ◌∷◌};
    ghost use Rattle.pv_distinct.specs.declared.token.Token.{Token};

    ghost Value = { List Token };

    ghost view = { λ k. k.first ∷ k.rest };
}

impl SplitKey {
    ghost use Rattle.std.specs.Prelude.{◌≡◌, ◌∷◌};

    pub fn new(first: Token, rest: Key) -> SplitKey
        ensures { result ≡ first ∷ rest }
    {
        SplitKey { first, rest }
    }
}

impl PartialEq for SplitKey {
    ghost use Rattle.std.specs.Ordering.{eq_by_cmp};
    ghost use Rattle.std.specs.Cmp.{eq_by_cmp_equiv, partial_equiv_from_equiv};
    ghost use Rattle.pv_distinct.specs.Keys.{key_cmp};
    ghost use Rattle.pv_distinct.specs.TokenOrder.{keys_total};

    ghost eq = { eq_by_cmp key_cmp };

    ghost laws = { partial_equiv_from_equiv (eq_by_cmp_equiv keys_total) };

    fn eq(&self, other: &SplitKey) -> bool {
        self.cmp(other).is_eq()
    }
}

impl Eq for SplitKey {
    ghost use Rattle.std.specs.Cmp.{eq_by_cmp_equiv};
    ghost use Rattle.pv_distinct.specs.TokenOrder.{keys_total};

    ghost laws = { eq_by_cmp_equiv keys_total };
}

impl Ord for SplitKey {
    ghost use Rattle.std.specs.Prelude.{refl};
    ghost use Rattle.pv_distinct.specs.Keys.{key_cmp};
    ghost use Rattle.pv_distinct.specs.TokenOrder.{keys_total};

    ghost cmp = { key_cmp };

    ghost total = { keys_total };

    ghost matches_partial_cmp = { λ x y. refl };

    ghost matches_eq = { λ x y. refl };

    fn cmp(&self, other: &SplitKey) -> Ordering {
        match self.first.cmp(&other.first) {
            Ordering::Less => Ordering::Less,
            Ordering::Equal => self.rest.cmp(&other.rest),
            Ordering::Greater => Ordering::Greater,
        }
    }
}

impl PartialOrd for SplitKey {
    ghost use Rattle.std.specs.Ordering.{as_partial_cmp};
    ghost use Rattle.std.specs.Cmp.{partial_order_from_total};
    ghost use Rattle.pv_distinct.specs.Keys.{key_cmp};
    ghost use Rattle.pv_distinct.specs.TokenOrder.{keys_total};

    ghost partial_cmp = { as_partial_cmp key_cmp };

    ghost laws = { partial_order_from_total keys_total };

    fn partial_cmp(&self, other: &SplitKey) -> Option<Ordering> {
        Some(self.cmp(other))
    }
}
