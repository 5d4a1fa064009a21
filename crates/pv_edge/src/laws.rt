//! What a reader hands out, one line after another, are the lines of the file.

ghost use Rattle.std.specs.Prelude.{◌≡◌, ℕ, ◌+◌, ◌-◌, ◌<◌, List, [], ◌∷◌, ◌++◌, length};
ghost use Rattle.pv_edge.specs.Cutting.{lines_of};
ghost use Rattle.pv_edge.specs.Reading.{IsEnded, IsTooLarge, IsUnended};

/// A line that ends is the first of the lines of a file, and the others are those of what follows it;
/// what no line feed ends is the last line; where nothing is left there are no more lines; and where
/// what is there is too large no line comes, whatever follows.
#[tactic(auto, using(crate::proofs::LineOrder::first_line, crate::proofs::LineOrder::last_line, crate::proofs::LineOrder::no_line, crate::proofs::Staying::still_too_large, crate::proofs::Staying::no_line_comes))]
pub fn lines_are_handed_out_in_order()
    ensures first { (line_limit : ℕ) (file_limit : ℕ) (place : ℕ) (bytes : List ℕ) (line : List ℕ) (rest : List ℕ)
        → IsEnded line_limit file_limit place bytes line rest
        → lines_of line_limit (file_limit - place) bytes ≡ line ∷ lines_of line_limit (file_limit - (place + length line + 1)) rest }
    ensures last { (line_limit : ℕ) (file_limit : ℕ) (place : ℕ) (bytes : List ℕ)
        → IsUnended line_limit file_limit place bytes → 0 < length bytes
        → lines_of line_limit (file_limit - place) bytes ≡ bytes ∷ [] }
    ensures too_large { (line_limit : ℕ) (file_limit : ℕ) (place : ℕ) (bytes : List ℕ)
        → IsTooLarge line_limit file_limit place bytes
        → lines_of line_limit (file_limit - place) bytes ≡ [] }
    ensures still_too_large { (line_limit : ℕ) (file_limit : ℕ) (place : ℕ) (bytes : List ℕ) (more : List ℕ)
        → IsTooLarge line_limit file_limit place bytes
        → IsTooLarge line_limit file_limit place (bytes ++ more) }
    ensures none { (line_limit : ℕ) (room : ℕ) → lines_of line_limit room [] ≡ [] }
{}
