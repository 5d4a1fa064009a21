//! What holds of whole numbers, of numeric strings and of multiples.

ghost use Rattle.std.specs.Prelude.{◌≡◌, ◌↔◌, ℕ, ℤ, List, Some, IsTrue};
ghost use Rattle.std.specs.Str.{trim};
ghost use Rattle.pv_number.specs.ExactNumber.{IsWhole, number};
ghost use Rattle.pv_number.specs.declared.Whole.{Whole};
ghost use Rattle.pv_numeric.specs.WholeNumbers.{whole_by, whole_of};
ghost use Rattle.pv_numeric.specs.NumericStrings.{numeric_string};
ghost use Rattle.pv_numeric.specs.Numerals.{IsNumeral};
ghost use Rattle.pv_numeric.specs.Multiples.{IsMultiple, is_multiple};

/// The whole number of a lexeme is the answer that its number has.
#[tactic(auto, using(crate::proofs::Wholes::whole_of_answers))]
pub fn whole_numbers_are_answers()
    ensures { (lexeme : List ℕ) → IsWhole (number lexeme) (whole_of lexeme) }
{}

/// A text that stands for a whole number is a numeral with that value, but for white space around it.
#[tactic(auto, using(crate::proofs::Numerals::numeral_in))]
pub fn numeric_strings_are_numerals()
    ensures { (text : List ℕ) (w : Whole) → numeric_string text ≡ Some w → (n : ℤ) × IsNumeral (trim text) n × (w ≡ whole_by n) }
{}

/// A number is found to be a multiple exactly where it is a product.
#[tactic(auto, using(crate::proofs::Products::multiple_is_product))]
pub fn multiples_are_products()
    ensures { (n m : ℤ) → (IsTrue (is_multiple n m) ↔ IsMultiple n m) }
{}
