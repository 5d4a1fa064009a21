ghost use Rattle.std.specs.Prelude.{◌≡◌};
ghost use Rattle.pv_number.specs.WrittenIntegers as spec;

use crate::exact::Whole;
use crate::lexeme::Lexeme;
use crate::short::short_integer;
use crate::value::{is_integer, whole};

/// The integer that is written there without a point and an exponent, where it fits 128 bits.
#[tactic(auto, using(crate::proofs::WrittenIntegers::written))]
pub fn integer(lexeme: &Lexeme) -> Option<i128>
    ensures { result ≡ spec.integer lexeme.now }
{
    if let Some(n) = short_integer(lexeme.as_slice()) {
        return Some(n);
    }
    if !is_integer(lexeme) {
        return None;
    }
    match whole(lexeme) {
        Whole::Fits(n) => Some(n),
        Whole::TooBig => None,
        Whole::Fraction => None,
    }
}
