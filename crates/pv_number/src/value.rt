//! Lexemes as whole numbers.

ghost use Rattle.std.specs.Prelude.{◌≡◌, ◌-◌, ◌*◌, ◌^◌, ◌<◌, ◌≤◌, pos, ◌+ℤ◌, ◌-ℤ◌, SomeIff, FitsSigned, length};
ghost use Rattle.std.specs.Int.{w128};
ghost use Rattle.pv_number.specs.ExactNumber as spec;
ghost use Rattle.pv_number.specs.Decimals.{capped, digits, exponent_of, number_of, run};

use crate::decimal::{Decimal, Exponent};
use crate::exact::Whole;
use crate::exponent::exponent_difference;
use crate::lexeme::Lexeme;
use crate::short::short_integer;

/// `value` times ten to the `power`.
#[tactic(auto, using(crate::proofs::WholeValue::power_more, crate::proofs::WholeValue::power_large))]
fn times_power(value: u128, power: u32) -> Option<u128>
    ensures { SomeIff result (value * 10 ^ power < 2 ^ 128) (value * 10 ^ power) }
{
    let mut product = value;
    for _step in 0..power {
        product = product.checked_mul(10)?;
    }
    Some(product)
}

fn signed_value(negative: bool, magnitude: u128) -> Option<i128>
    ensures { SomeIff result (FitsSigned w128 (spec.signed negative magnitude)) (spec.signed negative magnitude) }
{
    if negative {
        0i128.checked_sub_unsigned(magnitude)
    } else {
        0i128.checked_add_unsigned(magnitude)
    }
}

/// The first `kept` digits times ten to the `power`, with the number's sign.
#[tactic(auto, using(crate::proofs::WholeValue::large_front))]
fn scaled(decimal: &Decimal, kept: usize, power: u32) -> Option<i128>
    ensures { let value = spec.signed decimal.now.negative (run (digits decimal.now) 0 kept * 10 ^ power) in
        SomeIff result (FitsSigned w128 value) value }
{
    signed_value(decimal.negative, times_power(decimal.front(kept)?, power)?)
}

/// The exponent of the last of the first `kept` digits. It is the true one wherever it is small.
fn exponent_at(decimal: &Decimal, kept: usize) -> i128
    requires { kept ≤ length (digits decimal.now) }
    ensures { result ≡ capped (exponent_of decimal.now.exponent) +ℤ pos (length (digits decimal.now) - kept) -ℤ pos (length decimal.now.fraction.now) }
{
    let written = exponent_difference(&decimal.exponent, &Exponent::zero());
    written + (decimal.len() - kept) as i128 - decimal.fraction.len() as i128
}

fn whole_of(decimal: &Decimal) -> Whole
    ensures { spec.IsWhole (number_of decimal.now) result }
{
    let kept = decimal.significant_len();
    if kept == 0 {
        return Whole::Fits(0);
    }
    let exponent = exponent_at(decimal, kept);
    if exponent < 0 {
        return Whole::Fraction;
    }
    // ten to the 39th is past 128 bits
    if exponent > 38 {
        return Whole::TooBig;
    }
    match scaled(decimal, kept, exponent as u32) {
        Some(n) => Whole::Fits(n),
        None => Whole::TooBig,
    }
}

/// The whole number that the lexeme stands for. Zeros behind the point, and an exponent that
/// moves the point behind the last digit, leave a number whole: `3.0` and `30e-1` are 3. Takes time in proportion to the length.
#[tactic(auto, using(crate::proofs::WrittenIntegers::integer_whole))]
pub fn whole(lexeme: &Lexeme) -> Whole
    ensures { spec.IsWhole (spec.number lexeme.now) result }
{
    if let Some(n) = short_integer(lexeme.as_slice()) {
        return Whole::Fits(n);
    }
    whole_of(&Decimal::of(lexeme))
}

/// Whether the lexeme is written as an integer, with no point and no exponent.
pub fn is_integer(lexeme: &Lexeme) -> bool
    ensures { result ≡ spec.is_integer lexeme.now }
{
    lexeme.as_slice().iter().all(|byte| !(*byte == b'.' || (*byte == b'e' || *byte == b'E')))
}
