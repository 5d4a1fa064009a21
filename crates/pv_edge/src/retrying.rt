//! A signal may interrupt a read or a write before it moved a byte. The call is then made again.

ghost use Rattle.std.specs.Io.{ReadsAtMost, WritesAtMost};
ghost use Rattle.std.specs.Io.KnownBytes.{ReadConsumes, WriteAppends};

use std::io;
use std::io::{ErrorKind, Read, Write};

// How often a call is made before an interruption is an error.
const TRIES: usize = 64;

/// Reads once, and again where a signal came first. The 64th interruption is the answer.
pub fn read_again<R: Read>(from: &mut R, buf: &mut [u8]) -> io::Result<usize>
    ensures bound { ReadsAtMost result buf.new }
    ensures bytes { ReadConsumes (R.remaining from.old) (R.remaining from.new) result buf.new }
{
    for _ in 1..TRIES {
        match from.read(buf) {
            Err(e) if e.kind() == ErrorKind::Interrupted => {}
            answer => return answer,
        }
    }
    from.read(buf)
}

/// Writes once, and again where a signal came first. The 64th interruption is the answer.
pub fn write_again<W: Write>(to: &mut W, piece: &[u8]) -> io::Result<usize>
    ensures bound { WritesAtMost result piece.now }
    ensures bytes { WriteAppends (W.contents to.old) (W.contents to.new) result piece.now }
{
    for _ in 1..TRIES {
        match to.write(piece) {
            Err(e) if e.kind() == ErrorKind::Interrupted => {}
            answer => return answer,
        }
    }
    to.write(piece)
}
