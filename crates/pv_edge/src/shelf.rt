ghost use Rattle.std.specs.Prelude.{◌≡◌, ℕ, ◌+◌, ◌^◌, ◌<◌, ◌≤◌, ◌↔◌, [], List, Option, length, IsErr, IfOk, IfSome, OnOk, OnErr};
ghost use Rattle.std.specs.Io.{ReadsAtMost};
ghost use Rattle.std.specs.Io.KnownBytes.{IsAtEnd, ReadConsumes};
ghost use Rattle.pv_edge.specs.Files.{IsMissing};
ghost use Rattle.pv_edge.specs.Picking.{PickFails, Picks};
ghost use Rattle.pv_edge.specs.Rising.{Rose};

use thiserror::Error;

/// A pick, a read or a write failed and is counted as a fault, or a picked name is not held, which is not counted.
#[derive(Clone, Copy, Debug, PartialEq, Eq, Drop, Error)]
#[error("the device failed, or holds no file of that name")]
pub struct Failed;

/// Files by their names, of which one is read at a time.
pub trait Shelf {
    /// The names and contents of the files, where they are told.
    ghost held: { Self → Option (List (List ℕ × List ℕ)) };

    /// The bytes not yet read of the picked file, where they are told.
    ghost rest: { Self → Option (List ℕ) };

    /// How many bytes were given so far.
    ghost given: { Self → ℕ };

    /// How many calls failed, up to 2^64 - 1, where the count stops.
    ghost faults: { Self → ℕ };

    /// Opens the file of this name at its beginning. After a refusal nothing is picked.
    fn pick(&mut self, name: &str) -> Result<(), Failed>
        ensures held { held self.new ≡ held self.old }
        ensures given { given self.new ≡ given self.old }

        ensures picked { OnOk result (Picks (held self.old) name.now (rest self.new)) }
        ensures kept { OnOk result (faults self.new ≡ faults self.old) }

        ensures missing { IsMissing (held self.old) name.now → IsErr result }
        ensures cause { OnErr result (PickFails (held self.old) name.now (faults self.old) (faults self.new)) }
        ensures nothing { OnErr result (IsAtEnd (rest self.new)) }
        ensures later { faults self.old ≤ faults self.new };

    /// Gives the next bytes of the picked file, and how many. Where nothing is picked there are none.
    fn read(&mut self, buf: &mut [u8]) -> Result<usize, Failed>
        requires room { 0 < length buf.old }
        requires fits { given self.old + length buf.old < 2 ^ 64 }
        ensures held { held self.new ≡ held self.old }

        ensures bound { ReadsAtMost result buf.new }
        ensures bytes { ReadConsumes (rest self.old) (rest self.new) result buf.new }
        ensures end { IfOk result (λ n. IfSome (rest self.old) (λ left. (n ≡ 0) ↔ (left ≡ []))) }
        ensures given { IfOk result (λ n. given self.new ≡ given self.old + n) }

        ensures none { OnErr result (given self.new ≡ given self.old) }
        ensures cause { OnErr result (Rose (faults self.old) (faults self.new)) }
        ensures later { faults self.old ≤ faults self.new };
}
