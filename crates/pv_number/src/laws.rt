//! What holds of the grammar of numbers, of scanning, of exact values and of their order.

ghost use Rattle.std.specs.Prelude.{◌≡◌, ◌≤◌, ◌++◌, ◌↔◌, ℕ, ℤ, pos, List, Ok, length, take, IsTrue};
ghost use Rattle.pv_number.specs.Scanning.{number_len, is_number};
ghost use Rattle.pv_number.specs.Grammar.{IsNumber, Stops};
ghost use Rattle.pv_number.specs.ExactNumber.{HasValue, IsWhole, Number, is_integer, number};
ghost use Rattle.pv_number.specs.NumberEquality.{IsSameNumber, int_number, number_cmp};
ghost use Rattle.std.specs.Cmp.{IsTotalOrder};
ghost use Rattle.std.specs.Ordering.{int_cmp};
ghost use Rattle.pv_number.specs.declared.exact.Whole.{Whole};

use std::cmp::Ordering;

/// The scanner goes over a number of the grammar to its end, and goes over nothing else.
pub fn numbers_are_scanned()
    ensures complete { (text rest : List ℕ) → IsNumber text → Stops rest → number_len (text ++ rest) ≡ Ok (length text) }
    ensures sound { (bs : List ℕ) (n : ℕ) → number_len bs ≡ Ok n → IsNumber (take n bs) × (n ≤ length bs) }
    ensures whole { (bs : List ℕ) → (IsTrue (is_number bs) ↔ IsNumber bs) }
    ensures front { (bs : List ℕ) (n : ℕ) → number_len bs ≡ Ok n → IsTrue (is_number (take n bs)) }
{}

/// A number has one of the three answers of [`crate::whole`], and no other.
pub fn wholes_are_one()
    ensures some { (a : Number) → (w : Whole) × IsWhole a w }
    ensures one { (a : Number) (v w : Whole) → IsWhole a v → IsWhole a w → v ≡ w }
{}

/// A lexeme without a point and an exponent stands for a whole number.
pub fn integers_are_whole()
    ensures { (bs : List ℕ) → IsTrue (is_integer bs) → (number bs).exponent ≡ pos 0 }
{}

/// The order of numbers is a total order, and the numbers that it does not part are equal. Whole
/// numbers have their own order in it, and a number is equal to its value.
pub fn numbers_are_ordered()
    ensures total { IsTotalOrder number_cmp }
    ensures equal { (a b : Number) → ((number_cmp a b ≡ Ordering.Equal) ↔ IsSameNumber a b) }
    ensures reflexive { (a : Number) → IsSameNumber a a }
    ensures symmetric { (a b : Number) → IsSameNumber a b → IsSameNumber b a }
    ensures transitive { (a b c : Number) → IsSameNumber a b → IsSameNumber b c → IsSameNumber a c }
    ensures whole { (m n : ℤ) → number_cmp (int_number m) (int_number n) ≡ int_cmp m n }
    ensures value { (a : Number) (n : ℤ) → (HasValue a n ↔ IsSameNumber a (int_number n)) }
{}
