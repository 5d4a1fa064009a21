//! Integers of few digits, which are most of them.

ghost use Rattle.std.specs.Prelude.{◌≡◌, ◌^◌, ◌<◌, ◌≤◌, true, Some, IfSome, OnSome, drop, if◌then◌else◌};
ghost use Rattle.std.specs.List.{list_all};
ghost use Rattle.pv_number.specs.ExactNumber.{natural, signed};
ghost use Rattle.pv_number.specs.Scanning as spec;
ghost use Rattle.pv_number.specs.Scanning.{is_digit};
ghost use Rattle.pv_number.specs.WrittenIntegers.{integer};

use crate::scanning::begins;

/// Numbers of so many digits fit 64 bits.
const SHORT: usize = 18;

/// The number that the bytes form, where they are at most `SHORT` digits and nothing else.
#[tactic(auto, using(crate::proofs::FewDigits::few_fit, crate::proofs::FewDigits::next_below))]
fn short_natural(s: &[u8]) -> Option<u64>
    ensures value { IfSome result (λ n. n ≡ natural s.now) }
    ensures digits { OnSome result (list_all is_digit s.now ≡ true) }
    ensures small { IfSome result (λ n. n < 10 ^ 18) }
{
    if s.len() > SHORT {
        return None;
    }
    let mut value = 0u64;
    for b in s {
        if !b.is_ascii_digit() {
            return None;
        }
        value = value * 10 + (*b - b'0') as u64;
    }
    Some(value)
}

fn with_sign(negative: bool, magnitude: u64) -> i128
    ensures { result ≡ signed negative magnitude }
{
    if negative {
        -(magnitude as i128)
    } else {
        magnitude as i128
    }
}

/// What stands behind a minus, or all of it.
fn without_minus(s: &[u8]) -> &[u8]
    ensures { result.now ≡ (if spec.begins 45 s.now then drop 1 s.now else s.now) }
{
    if begins(b'-', s) { &s[1..] } else { s }
}

/// The integer of a number that is written with at most `SHORT` digits, and no point and exponent.
#[tactic(auto, using(crate::proofs::FewDigits::few_digits))]
pub(crate) fn short_integer(s: &[u8]) -> Option<i128>
    ensures { IfSome result (λ n. integer s.now ≡ Some n) }
{
    let magnitude = short_natural(without_minus(s))?;
    Some(with_sign(begins(b'-', s), magnitude))
}
