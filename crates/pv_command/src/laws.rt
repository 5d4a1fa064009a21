//! What holds of the words. These functions do nothing: their contracts are the laws.

ghost use Rattle.std.specs.Prelude.{◌≡◌, ◌≤◌, ◌+◌, ◌-◌, ◌++◌, ◌∷◌, ◌↔◌, ℕ, Bool, List, Option, length, take, Ok, Err};
ghost use Rattle.pv_command.specs.Orders.{Choice, dump_words};
ghost use Rattle.pv_command.specs.declared.asked.Command.{Command};
ghost use Rattle.pv_command.specs.declared.asked.Command.TheVariants.{Validate};
ghost use Rattle.pv_command.specs.Validating.{IsValidate};
ghost use Rattle.pv_command.specs.Command.{command};

/// A refusal names one of the words, or the place behind the last.
pub fn refusals_have_places()
    ensures first { (words : List (List ℕ)) (at : ℕ) → command words ≡ Err at → 1 ≤ at }
    ensures last { (words : List (List ℕ)) (at : ℕ) → command words ≡ Err at → at ≤ length words + 1 }
{}

/// The words before the place of a refusal can go on to a command, and with the word at that place
/// they cannot, whatever stands behind it.
pub fn refusals_name_the_first_word_that_cannot_stand()
    ensures before { (words : List (List ℕ)) (at : ℕ) → command words ≡ Err at →
        (more : List (List ℕ)) × (c : Command) × (command (take (at - 1) words ++ more) ≡ Ok c) }
    ensures there { (words more : List (List ℕ)) (at : ℕ) → command words ≡ Err at → at ≤ length words →
        command (take at words ++ more) ≡ Err at }
{}

/// Words ask for `validate` exactly where its name is followed by at most one of `--strict` and
/// `--lax`, and then by two files, of which the first is no option and one at most is standard input.
pub fn validate_is_written_so()
    ensures { (words : List (List ℕ)) (strict : Option Bool) (schema document : List ℕ) →
        (command words ≡ Ok (Validate strict schema document)) ↔ IsValidate words strict schema document }
{}

/// Two options of a dump that stand next to each other may change places, each with its pick. So
/// the order of the options does not matter.
pub fn options_may_change_places()
    ensures { (front back : List (Choice × List ℕ)) (a b : Choice × List ℕ) (more : List (List ℕ)) (c : Command) →
        command (dump_words (front ++ a ∷ b ∷ back) more) ≡ Ok c →
        command (dump_words (front ++ b ∷ a ∷ back) more) ≡ Ok c }
{}
