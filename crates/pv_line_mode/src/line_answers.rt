//! What is printed of a line.

ghost use Rattle.std.specs.Prelude.{◌≡◌, ◌++◌, ℕ, Bool, List, IfOk, OnOk};

use pv_text::{ByteBuf, Memory};
use std::alloc::Global;

/// What is answered to the lines of a file, to each by itself.
pub trait LineAnswers {
    /// The bytes that are printed of a line, which comes without its line feed.
    ghost text: { Self → List ℕ → List ℕ };

    /// The line is valid.
    ghost valid: { Self → List ℕ → Bool };

    /// Adds the answer to the line, and tells whether the line is valid.
    fn answer(&self, alloc: Global, line: &[u8], out: &mut ByteBuf) -> Result<bool, Memory>
        ensures text { OnOk result (out.new ≡ out.old ++ text self.now line.now) }
        ensures valid { IfOk result (λ v. v ≡ valid self.now line.now) };
}
