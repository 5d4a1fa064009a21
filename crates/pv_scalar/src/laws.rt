//! Where ints come from.

ghost use Rattle.std.specs.Prelude.{◌≡◌, ℕ, ℤ, List, Option, true, false, Some};
ghost use Rattle.std.specs.Str.{trim};
ghost use Rattle.pv_tree.specs.declared.Tree.{Tree};
ghost use Rattle.pv_tree.specs.declared.Value.{Value};
ghost use Rattle.pv_tree.specs.declared.Value.TheVariants as value;
ghost use Rattle.pv_rules.specs.declared.IntRule.{IntRule};
ghost use Rattle.pv_rules.specs.declared.ScalarRule.TheVariants as rule;
ghost use Rattle.pv_rules.specs.declared.Settings.{Settings};
ghost use Rattle.pv_fault.specs.declared.Grade.{Grade};
ghost use Rattle.pv_fault.specs.declared.Grade.TheVariants.{Lax};
ghost use Rattle.pv_fault.specs.declared.Outcome.TheVariants.{Good};
ghost use Rattle.pv_numeric.specs.Numerals.{IsNumeral};
ghost use Rattle.pv_scalar.specs.Texts.{text_in};
ghost use Rattle.pv_scalar.specs.Scalars.{scalar_of};
ghost use Rattle.pv_scalar.specs.WrittenInts.{IsWrittenInt};

/// Under strict rules an int comes of a number alone that is written without a point and an
/// exponent, and is its value.
#[tactic(auto, using(crate::proofs::IntLaws::strict_int))]
pub fn strict_ints_are_written()
    ensures { (r : IntRule) (s : Settings) (t : Tree) (v : Value) (g : Grade) (fields : Option ℕ) →
        scalar_of (rule.Int r) s true t ≡ Good v g fields → IsWrittenInt t v }
{}

/// An int that comes of a text is the value of the numeral that stands there between white space.
#[tactic(auto, using(crate::proofs::IntLaws::text_numeral))]
pub fn ints_of_texts_are_numerals()
    ensures { (r : IntRule) (s : Settings) (t : Tree) (text : List ℕ) (v : Value) (g : Grade) (fields : Option ℕ) →
        text_in t ≡ Some text → scalar_of (rule.Int r) s false t ≡ Good v g fields →
        (n : ℤ) × IsNumeral (trim text) n × (v ≡ value.Int n) × (g ≡ Lax) }
{}
