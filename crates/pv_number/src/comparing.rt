//! The order of the numbers that lexemes stand for.

ghost use Rattle.std.specs.Prelude.{◌≡◌, ◌+◌, ◌-◌, ◌*◌, ◌^◌, ◌<◌, ◌≤◌, ◌↔◌, ℕ, drop, pos, ◌+ℤ◌, ◌-ℤ◌, length};
ghost use Rattle.pv_number.specs.ExactNumber as spec;
ghost use Rattle.pv_number.specs.NumberEquality.{IsSameNumber, int_number, number_cmp};
ghost use Rattle.pv_number.specs.Decimals.{Ranks, capped, digits, exponent_of, number_of, run, sign_of};

use crate::decimal::Decimal;
use crate::exponent::exponent_difference;
use crate::lexeme::Lexeme;
use std::cmp::Ordering;

#[tactic(auto, using(crate::proofs::NumberOrder::none_kept, crate::proofs::NumberOrder::some_kept))]
fn sign(decimal: &Decimal) -> i8
    ensures { result ≡ sign_of decimal.now }
{
    if decimal.significant_len() == 0 {
        0
    } else if decimal.negative {
        -1
    } else {
        1
    }
}

/// Which digits are more, behind the first that are skipped. Behind the last digit stand zeros.
#[tactic(auto, using(crate::proofs::Runs::run_none, crate::proofs::NumberOrder::both_more))]
fn compare_digits(a: &Decimal, skipped_a: usize, b: &Decimal, skipped_b: usize) -> Ordering
    requires a_within { skipped_a ≤ length (digits a.now) }
    requires b_within { skipped_b ≤ length (digits b.now) }
    ensures { (n : ℕ) → length (digits a.now) - skipped_a ≤ n → length (digits b.now) - skipped_b ≤ n →
        Ranks result (run (digits a.now) skipped_a n) (run (digits b.now) skipped_b n) }
{
    let count = (a.len() - skipped_a).max(b.len() - skipped_b);
    for place in 0..count {
        let upper = a.digit_behind(skipped_a, place);
        let lower = b.digit_behind(skipped_b, place);
        if upper < lower {
            return Ordering::Less;
        }
        if lower < upper {
            return Ordering::Greater;
        }
    }
    Ordering::Equal
}

/// How far the first digit of `a` stands above that of `b`. It is the true difference wherever it is small.
fn first_difference(a: &Decimal, skipped_a: usize, b: &Decimal, skipped_b: usize) -> i128
    requires a_within { skipped_a ≤ length (digits a.now) }
    requires b_within { skipped_b ≤ length (digits b.now) }
    ensures { result ≡
        capped (exponent_of a.now.exponent -ℤ exponent_of b.now.exponent) +ℤ pos (length a.now.whole.now) -ℤ pos skipped_a +ℤ pos skipped_b -ℤ pos (length b.now.whole.now) }
{
    let written = exponent_difference(&a.exponent, &b.exponent);
    written + a.whole.len() as i128 - skipped_a as i128 + skipped_b as i128 - b.whole.len() as i128
}

/// Compares two numbers that are not zero, without their signs.
fn compare_sizes(a: &Decimal, b: &Decimal) -> Ordering
    requires a_some { 0 < spec.natural (digits a.now) }
    requires b_some { 0 < spec.natural (digits b.now) }
    ensures { (p q : ℕ) → pos p -ℤ pos q ≡ (number_of a.now).exponent -ℤ (number_of b.now).exponent →
        Ranks result (spec.natural (digits a.now) * 10 ^ p) (spec.natural (digits b.now) * 10 ^ q) }
{
    let skipped_a = a.leading_zeros();
    let skipped_b = b.leading_zeros();
    let above = first_difference(a, skipped_a, b, skipped_b);
    if above < 0 {
        return Ordering::Less;
    }
    if above > 0 {
        return Ordering::Greater;
    }
    compare_digits(a, skipped_a, b, skipped_b)
}

fn compare_decimals(a: &Decimal, b: &Decimal) -> Ordering
    ensures { result ≡ number_cmp (number_of a.now) (number_of b.now) }
{
    let sign_a = sign(a);
    let sign_b = sign(b);
    if sign_a < sign_b {
        return Ordering::Less;
    }
    if sign_b < sign_a {
        return Ordering::Greater;
    }
    if sign_a == 0 {
        return Ordering::Equal;
    }
    if sign_a > 0 {
        compare_sizes(a, b)
    } else {
        compare_sizes(b, a)
    }
}

/// Compares the numbers of two lexemes, however they are written: `1e2` and `100.0` are equal.
/// Takes time in proportion to the two lengths.
#[tactic(auto, using(crate::proofs::NumberLaws::equal_is_same, crate::proofs::NumberLaws::same_is_equal))]
pub fn compare(a: &Lexeme, b: &Lexeme) -> Ordering
    ensures order { result ≡ number_cmp (spec.number a.now) (spec.number b.now) }
    ensures equal { (result ≡ Ordering.Equal) ↔ IsSameNumber (spec.number a.now) (spec.number b.now) }
{
    compare_decimals(&Decimal::of(a), &Decimal::of(b))
}

/// Writes the decimal digits of `value` at the end of the buffer, and answers where they begin.
fn write_digits(value: u128, buffer: &mut [u8]) -> usize
    requires { value < 10 ^ length buffer.old }
    ensures within { result ≤ length buffer.new }
    ensures value { spec.natural (drop result buffer.new) ≡ value }
{
    let mut rest = value;
    let mut start = buffer.len();
    while rest > 0 {
        start -= 1;
        buffer[start] = b'0' + (rest % 10) as u8;
        rest /= 10;
    }
    start
}

/// Compares the number of a lexeme with a whole number.
pub fn compare_int(a: &Lexeme, n: i128) -> Ordering
    ensures order { result ≡ number_cmp (spec.number a.now) (int_number n) }
    ensures equal { (result ≡ Ordering.Equal) ↔ IsSameNumber (spec.number a.now) (int_number n) }
{
    // 39 digits are enough for 128 bits
    let mut buffer = [b'0'; 39];
    let start = write_digits(n.unsigned_abs(), &mut buffer);
    let int = Decimal::integer(n < 0, &buffer[start..]);
    compare_decimals(&Decimal::of(a), &int)
}
