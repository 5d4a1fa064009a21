//! How a command ends once its answer is on standard output.

ghost use Rattle.std.specs.Prelude.{◌≡◌, ◌≤◌, [], IfOk, IsOk, OnErr, OnOk, Err};
ghost use Rattle.std.specs.Io.KnownBytes.{Appends};
ghost use Rattle.pv_edge.specs.Rising.{Rose};
ghost use Rattle.pv_edge.specs.Sending.{SentInPart};
ghost use Rattle.pv_cli.specs.Steps.{IsEndOf};
ghost use Rattle.pv_cli.specs.declared.ending.NoAnswer.TheVariants as why;

use crate::answer::Answer;
use crate::status::Status;
use pv_edge::{Failed, Sink, put_all};
use pv_text::{ByteBuf, Memory};

/// What is left to tell when all of an answer is printed.
#[derive(Drop)]
pub(crate) struct Ending {
    /// A line for standard error with its line feed, or nothing.
    pub(crate) line: ByteBuf,
    pub(crate) status: Status,
}

/// Why not all of an answer is printed.
#[derive(Clone, Copy, Debug, PartialEq, Eq, Drop)]
pub(crate) enum NoAnswer {
    Memory,
    /// A write failed, and a part of the answer is printed.
    WriteFailed,
}

impl From<Memory> for NoAnswer {
    ghost use Rattle.std.specs.Prelude.{◌≡◌};
    ghost use Rattle.pv_cli.specs.declared.ending.NoAnswer.TheVariants as why;

    ghost from_gives = { λ _ n. n ≡ why.Memory };

    fn from(_e: Memory) -> NoAnswer {
        NoAnswer::Memory
    }
}

impl From<Failed> for NoAnswer {
    ghost use Rattle.std.specs.Prelude.{◌≡◌};
    ghost use Rattle.pv_cli.specs.declared.ending.NoAnswer.TheVariants as why;

    ghost from_gives = { λ _ n. n ≡ why.WriteFailed };

    fn from(_e: Failed) -> NoAnswer {
        NoAnswer::WriteFailed
    }
}

/// Puts an answer, and nothing where it has none.
pub(crate) fn print_answer<O: Sink>(out: &mut O, answer: Answer) -> Result<Ending, NoAnswer>
    ensures end { IfOk result (IsEndOf answer) }
    ensures all { OnOk result (Appends (O.took out.old) (O.took out.new) answer.out) }
    ensures failed { OnErr result (result ≡ Err why.WriteFailed) }
    ensures part { OnErr result (SentInPart (O.took out.old) (O.took out.new) answer.out) }
    ensures cause { OnErr result (Rose (O.faults out.old) (O.faults out.new)) }
    ensures later { O.faults out.old ≤ O.faults out.new }
    ensures nothing { answer.out ≡ [] → IsOk result }
{
    let Answer {
        out: text,
        line,
        status,
    } = answer;
    if !text.is_empty() {
        put_all(out, text.as_slice())?;
    }
    Ok(Ending { line, status })
}
