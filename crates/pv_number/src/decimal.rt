//! A number taken apart into its signs and digits.

ghost use Rattle.std.specs.Prelude.{◌≡◌, ◌+◌, ◌-◌, ◌*◌, ◌^◌, ◌<◌, ◌≤◌, pos, SomeIff, length, slice_index_or};
ghost use Rattle.pv_number.specs.ExactNumber as spec;
ghost use Rattle.pv_number.specs.NumberEquality.{int_number};
ghost use Rattle.pv_number.specs.Decimals.{digits, exponent_of, number_of, run};

use crate::lexeme::Lexeme;
use crate::scanning::begins;
use crate::splitting::{letter_place, point_place, split_around, without_sign};

#[derive(Clone, Copy)]
pub(crate) struct Exponent<'a> {
    pub(crate) negative: bool,
    pub(crate) digits: &'a [u8],
}

/// The digits of a number stand in two parts: before the point, and behind it.
#[derive(Clone, Copy)]
pub(crate) struct Decimal<'a> {
    pub(crate) negative: bool,
    pub(crate) whole: &'a [u8],
    pub(crate) fraction: &'a [u8],
    pub(crate) exponent: Exponent<'a>,
}

/// What a digit counts.
pub(crate) fn digit_value(byte: u8) -> u8
    ensures { result ≡ spec.digit byte }
{
    if byte.is_ascii_digit() {
        byte - b'0'
    } else {
        0
    }
}

/// The digit at `place`, and 0 behind the last.
pub(crate) fn digit_at(digits: &[u8], place: usize) -> u8
    ensures { result ≡ spec.digit (slice_index_or digits.now place 0) }
{
    match digits.get(place) {
        Some(byte) => digit_value(*byte),
        None => 0,
    }
}

impl Exponent<'_> {
    /// The exponent of a number that is written without one.
    pub(crate) fn zero() -> Exponent<'static>
        ensures { exponent_of result ≡ pos 0 }
    {
        Exponent {
            negative: false,
            digits: &[],
        }
    }
}

impl Decimal<'_> {
    #[tactic(auto, unfolding(crate::specs::ExactNumber::number))]
    pub(crate) fn of(lexeme: &Lexeme) -> Decimal<'_>
        ensures { number_of result ≡ spec.number lexeme.now }
    {
        let bytes = lexeme.as_slice();
        let (significand, exponent) = split_around(bytes, letter_place(bytes));
        let significand = without_sign(significand);
        let (whole, fraction) = split_around(significand, point_place(significand));
        Decimal {
            negative: begins(b'-', bytes),
            whole,
            fraction,
            exponent: Exponent {
                negative: begins(b'-', exponent),
                digits: without_sign(exponent),
            },
        }
    }

    /// The whole number that the digits form.
    pub(crate) fn integer(negative: bool, digits: &[u8]) -> Decimal<'_>
        ensures { number_of result ≡ int_number (spec.signed negative (spec.natural digits.now)) }
    {
        Decimal {
            negative,
            whole: digits,
            fraction: &[],
            exponent: Exponent::zero(),
        }
    }

    /// The number of digits.
    pub(crate) fn len(&self) -> usize
        ensures { result ≡ length (digits self.now) }
    {
        self.whole.len() + self.fraction.len()
    }

    /// The digit at `place`, counted over both parts, and 0 behind the last.
    pub(crate) fn digit(&self, place: usize) -> u8
        ensures { result ≡ spec.digit (slice_index_or (digits self.now) place 0) }
    {
        if place < self.whole.len() {
            digit_at(self.whole, place)
        } else {
            digit_at(self.fraction, place - self.whole.len())
        }
    }

    /// The digit at `place` behind the first `skipped` ones, and 0 behind the last.
    pub(crate) fn digit_behind(&self, skipped: usize, place: usize) -> u8
        requires { skipped ≤ length (digits self.now) }
        ensures { result ≡ spec.digit (slice_index_or (digits self.now) (skipped + place) 0) }
    {
        if place < self.len() - skipped {
            self.digit(skipped + place)
        } else {
            0
        }
    }

    /// How many zeros stand in front of the other digits.
    #[tactic(auto, using(crate::proofs::Runs::zeros_more, crate::proofs::Runs::run_none))]
    pub(crate) fn leading_zeros(&self) -> usize
        ensures within { result ≤ length (digits self.now) }
        ensures zeros { run (digits self.now) 0 result ≡ 0 }
        ensures first { result < length (digits self.now) → 0 < spec.digit (slice_index_or (digits self.now) result 0) }
    {
        for place in 0..self.len() {
            if self.digit(place) != 0 {
                return place;
            }
        }
        self.len()
    }

    /// How many digits there are up to the last that is no zero.
    #[tactic(auto, using(crate::proofs::Runs::kept_less, crate::proofs::Runs::all_kept))]
    pub(crate) fn significant_len(&self) -> usize
        ensures within { result ≤ length (digits self.now) }
        ensures value { spec.natural (digits self.now) ≡ run (digits self.now) 0 result * 10 ^ (length (digits self.now) - result) }
        ensures last { 0 < result → 0 < spec.digit (slice_index_or (digits self.now) (result - 1) 0) }
    {
        let mut kept = self.len();
        while kept > 0 && self.digit(kept - 1) == 0 {
            kept -= 1;
        }
        kept
    }

    /// The number that the first `count` digits form.
    #[tactic(auto, using(crate::proofs::Runs::run_next, crate::proofs::Runs::run_none, crate::proofs::Runs::front_large, crate::proofs::Runs::front_large_first))]
    pub(crate) fn front(&self, count: usize) -> Option<u128>
        ensures { SomeIff result (run (digits self.now) 0 count < 2 ^ 128) (run (digits self.now) 0 count) }
    {
        let mut value = 0u128;
        for place in 0..count {
            value = value
                .checked_mul(10)?
                .checked_add(self.digit(place) as u128)?;
        }
        Some(value)
    }
}
