//! The parts that a number is written in.

ghost use Rattle.std.specs.Prelude.{◌≡◌, ◌+◌, ◌||◌, ◌==◌, take, drop};
ghost use Rattle.std.specs.List.{position_or_len};
ghost use Rattle.pv_number.specs.ExactNumber as spec;

use crate::scanning::begins;

/// What stands behind a sign, where there is one.
pub fn without_sign(text: &[u8]) -> &[u8]
    ensures { result.now ≡ spec.without_sign text.now }
{
    if begins(b'-', text) || begins(b'+', text) {
        &text[1..]
    } else {
        text
    }
}

/// Where the first of two bytes stands, or the length where there is none.
fn place_of(text: &[u8], one: u8, other: u8) -> usize
    ensures { result ≡ position_or_len (λ x. x == one || x == other) text.now }
{
    let mut place = 0;
    for byte in text {
        if *byte == one || *byte == other {
            return place;
        }
        place += 1;
    }
    place
}

/// Where the exponent begins, or the length where there is none.
pub(crate) fn letter_place(text: &[u8]) -> usize
    ensures { result ≡ position_or_len spec.is_letter text.now }
{
    place_of(text, b'e', b'E')
}

/// Where the point stands, or the length where there is none.
#[tactic(auto, using(crate::proofs::Places::point_only))]
pub fn point_place(text: &[u8]) -> usize
    ensures { result ≡ position_or_len spec.is_point text.now }
{
    place_of(text, b'.', b'.')
}

/// What stands before a place, and behind it.
pub fn split_around(text: &[u8], place: usize) -> (&[u8], &[u8])
    ensures before { result.0.now ≡ take place text.now }
    ensures after { result.1.now ≡ drop (place + 1) text.now }
{
    if place < text.len() {
        (&text[..place], &text[place + 1..])
    } else {
        (text, &[])
    }
}
