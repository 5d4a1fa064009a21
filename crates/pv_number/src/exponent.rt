//! Written exponents, which may have any number of digits.

ghost use Rattle.std.specs.Prelude.{◌≡◌, ◌+◌, ◌-◌, ◌*◌, ◌≤◌, pos, negsuc, neg_ℤ, ◌+ℤ◌, ◌-ℤ◌, ◌*ℤ◌, ◌≤ℤ◌, length};
ghost use Rattle.pv_number.specs.ExactNumber as spec;
ghost use Rattle.pv_number.specs.Decimals.{capped, exponent_of, far, run};

use crate::decimal::{Exponent, digit_value};

/// No list of digits is as long. Where two exponents are as far apart, they decide alone.
pub(crate) const FAR: i128 = 1 << 100;

/// The digit with `rank` digits behind it, and 0 in front of the first.
#[tactic(auto, using(crate::proofs::Runs::rank_within, crate::proofs::Runs::rank_past, crate::proofs::Runs::digit_below))]
fn digit_of_rank(digits: &[u8], rank: usize) -> u8
    ensures small { result ≤ 9 }
    ensures value { run digits.now 0 (length digits.now - rank) ≡ run digits.now 0 (length digits.now - (rank + 1)) * 10 + result }
{
    if rank < digits.len() {
        digit_value(digits[digits.len() - 1 - rank])
    } else {
        0
    }
}

fn signed(negative: bool, digit: u8) -> i128
    requires { digit ≤ 9 }
    ensures low { negsuc 8 ≤ℤ result }
    ensures high { result ≤ℤ pos 9 }
    ensures value { result ≡ spec.signed negative digit }
{
    if negative {
        -(digit as i128)
    } else {
        digit as i128
    }
}

#[tactic(auto, unfolding(crate::specs::Decimals::capped))]
fn stop(difference: i128) -> i128
    ensures low { neg_ℤ (pos far) ≤ℤ result }
    ensures high { result ≤ℤ pos far }
    ensures value { result ≡ capped difference }
{
    difference.clamp(-FAR, FAR)
}

/// The difference with one more digit on both sides.
fn next_difference(difference: i128, upper: i128, lower: i128) -> i128
    requires difference_low { neg_ℤ (pos far) ≤ℤ difference }
    requires difference_high { difference ≤ℤ pos far }
    requires upper_low { negsuc 8 ≤ℤ upper }
    requires upper_high { upper ≤ℤ pos 9 }
    requires lower_low { negsuc 8 ≤ℤ lower }
    requires lower_high { lower ≤ℤ pos 9 }
    ensures low { neg_ℤ (pos far) ≤ℤ result }
    ensures high { result ≤ℤ pos far }
    ensures value { result ≡ capped (difference *ℤ pos 10 +ℤ upper -ℤ lower) }
{
    stop(difference * 10 + upper - lower)
}

/// How far apart two exponents are, stopped at `FAR` on both sides.
#[tactic(auto, using(crate::proofs::Exponents::difference_none, crate::proofs::Exponents::difference_more, crate::proofs::Exponents::difference_all))]
pub(crate) fn exponent_difference(a: &Exponent, b: &Exponent) -> i128
    ensures low { neg_ℤ (pos far) ≤ℤ result }
    ensures high { result ≤ℤ pos far }
    ensures value { result ≡ capped (exponent_of a.now -ℤ exponent_of b.now) }
{
    let mut difference = 0;
    let mut rank = a.digits.len().max(b.digits.len());
    while rank > 0 {
        rank -= 1;
        let upper = signed(a.negative, digit_of_rank(a.digits, rank));
        let lower = signed(b.negative, digit_of_rank(b.digits, rank));
        difference = next_difference(difference, upper, lower);
    }
    difference
}
