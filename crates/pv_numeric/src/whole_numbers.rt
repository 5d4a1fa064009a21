ghost use Rattle.std.specs.Prelude.{◌≡◌};
ghost use Rattle.pv_numeric.specs.WholeNumbers.{whole_of};

use pv_number::{Lexeme, Whole, whole};

/// The whole number that a lexeme stands for.
#[tactic(auto, using(crate::proofs::Wholes::whole_of_is_whole))]
pub fn whole_number(lexeme: &Lexeme) -> Whole
    ensures { result ≡ whole_of lexeme.now }
{
    whole(lexeme)
}
