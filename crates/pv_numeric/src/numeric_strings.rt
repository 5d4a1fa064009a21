//! Texts as whole numbers.

ghost use Rattle.std.specs.Prelude.{◌≡◌, ◌+◌, ◌-◌, ◌*◌, ◌^◌, min, if◌then◌else◌, ◌&&◌, ◌||◌};
ghost use Rattle.std.specs.List.{filter, list_all};
ghost use Rattle.pv_number.specs.Scanning.{is_digit};
ghost use Rattle.pv_number.specs.ExactNumber as exact;
ghost use Rattle.pv_numeric.specs.WholeNumbers.{whole_by};
ghost use Rattle.pv_numeric.specs.NumericStrings as spec;

use pv_number::{Whole, begins, point_place, split_around, without_sign};

/// Whether the byte may stand in a number, behind a digit or not.
fn may_stand(follows_digit: bool, byte: u8) -> bool
    ensures { result ≡ (is_digit byte || (spec.is_underscore byte && follows_digit)) }
{
    byte.is_ascii_digit() || (byte == b'_' && follows_digit)
}

/// Whether these are digits, with single underscores between digits.
fn is_grouped(digits: &[u8]) -> bool
    ensures { result ≡ spec.is_grouped digits.now }
{
    let mut follows_digit = false;
    for byte in digits {
        if !may_stand(follows_digit, *byte) {
            return false;
        }
        follows_digit = byte.is_ascii_digit();
    }
    follows_digit
}

/// The number with one more digit behind it, and the number itself where the byte is no digit. It
/// stops at the last value.
fn with_digit(value: u128, byte: u8) -> u128
    ensures { result ≡ (if is_digit byte then min (value * 10 + exact.digit byte) (2 ^ 128 - 1) else value) }
{
    if byte.is_ascii_digit() {
        value
            .saturating_mul(10)
            .saturating_add(u128::from(byte - b'0'))
    } else {
        value
    }
}

/// The number that the digits form, or the last value where it is larger.
fn magnitude(digits: &[u8]) -> u128
    ensures { result ≡ min (exact.natural (filter is_digit digits.now)) (2 ^ 128 - 1) }
{
    let mut value: u128 = 0;
    for byte in digits {
        value = with_digit(value, *byte);
    }
    value
}

/// The number with this sign and these digits.
fn signed(negative: bool, digits: &[u8]) -> Whole
    ensures { result ≡ whole_by (exact.signed negative (exact.natural (filter is_digit digits.now))) }
{
    let size = magnitude(digits);
    let value = if negative {
        0i128.checked_sub_unsigned(size)
    } else {
        0i128.checked_add_unsigned(size)
    };
    match value {
        Some(n) => Whole::Fits(n),
        None => Whole::TooBig,
    }
}

fn is_zeros(digits: &[u8]) -> bool
    ensures { result ≡ list_all spec.is_zero digits.now }
{
    digits.iter().all(|byte| *byte == b'0')
}

fn number_in(text: &[u8]) -> Option<Whole>
    ensures { result ≡ spec.number_in text.now }
{
    let unsigned = without_sign(text);
    let (whole, fraction) = split_around(unsigned, point_place(unsigned));
    if is_grouped(whole) && is_zeros(fraction) {
        Some(signed(begins(b'-', text), whole))
    } else {
        None
    }
}

/// The whole number that a text stands for: one that fits, or `TooBig`. It is `None` where the
/// text is no number. White space around a number, zeros in front of it, single underscores
/// between its digits and zeros behind its point do not count. Takes time in proportion to the length.
#[tactic(auto, unfolding(crate::specs::NumericStrings::numeric_string))]
pub fn numeric_string(text: &str) -> Option<Whole>
    ensures { result ≡ spec.numeric_string text.now }
{
    number_in(text.trim().as_bytes())
}
