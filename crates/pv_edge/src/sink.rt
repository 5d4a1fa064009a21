ghost use Rattle.std.specs.Prelude.{◌≡◌, ℕ, ◌<◌, ◌≤◌, List, Option, length, IfOk, OnOk, OnErr};
ghost use Rattle.std.specs.Io.KnownBytes.{Appends, WriteAppends};
ghost use Rattle.pv_edge.specs.Rising.{Rose};
ghost use Rattle.pv_edge.specs.Sending.{SentInPart};

use crate::shelf::Failed;

/// What takes bytes.
pub trait Sink {
    /// The bytes taken so far, where they are told.
    ghost took: { Self → Option (List ℕ) };

    /// How many calls failed, up to 2^64 - 1, where the count stops.
    ghost faults: { Self → ℕ };

    /// Takes some of the first bytes of the piece, and answers how many.
    fn write(&mut self, piece: &[u8]) -> Result<usize, Failed>
        requires { 0 < length piece.now }
        ensures some { IfOk result (λ n. 0 < n) }
        ensures within { IfOk result (λ n. n ≤ length piece.now) }
        ensures bytes { WriteAppends (took self.old) (took self.new) result piece.now }
        ensures cause { OnErr result (Rose (faults self.old) (faults self.new)) }
        ensures later { faults self.old ≤ faults self.new };
}

/// Puts all of the bytes, in order. It takes no memory.
pub fn put_all<S: Sink>(sink: &mut S, bytes: &[u8]) -> Result<(), Failed>
    ensures all { OnOk result (Appends (S.took sink.old) (S.took sink.new) bytes.now) }
    ensures part { OnErr result (SentInPart (S.took sink.old) (S.took sink.new) bytes.now) }
    ensures cause { OnErr result (Rose (S.faults sink.old) (S.faults sink.new)) }
    ensures later { S.faults sink.old ≤ S.faults sink.new }
{
    let mut rest = bytes;
    while !rest.is_empty() {
        let taken = sink.write(rest)?;
        rest = &rest[taken..];
    }
    Ok(())
}
