//! The loop over the lines of a file.

ghost use Rattle.std.specs.Prelude.{◌≡◌, ◌+◌, ◌^◌, ◌≤◌, IfErr, IfOk, IsErrOf, OnOk};
ghost use Rattle.std.specs.Io.KnownBytes.{Appends};
ghost use Rattle.pv_edge.specs.Rising.{Rose};
ghost use Rattle.pv_line_mode.specs.OnePass.{OnePass, EndsBy};
ghost use Rattle.pv_line_mode.specs.Stops.{AnswerStops};

use crate::line_answers::LineAnswers;
use crate::stop::Stop;
use pv_edge::{Lines, Next, Shelf, Sink, put_all};
use pv_text::ByteBuf;
use std::alloc::Global;

/// Answers one line. The buffer is used again for each, and what it holds is let go.
fn answer_line<A: LineAnswers, O: Sink>(
    alloc: Global,
    answers: &A,
    line: &[u8],
    buffer: &mut ByteBuf,
    out: &mut O,
) -> Result<bool, Stop>
    ensures text { OnOk result (Appends (O.took out.old) (O.took out.new) (A.text answers.now line.now)) }
    ensures valid { IfOk result (λ v. v ≡ A.valid answers.now line.now) }
    ensures stops { IfErr result (λ s. AnswerStops s (O.took out.old) (O.took out.new) (A.text answers.now line.now)) }
    ensures cause { IsErrOf result Stop.WriteFailed → Rose (O.faults out.old) (O.faults out.new) }
    ensures later { O.faults out.old ≤ O.faults out.new }
{
    buffer.cut(0);
    let valid = answers.answer(alloc, line, buffer)?;
    put_all(out, buffer.as_slice())?;
    Ok(valid)
}

/// Reads the picked file to its end and puts the answer to each of its lines before the next one is
/// looked for. Tells whether all lines are valid. A line has at most `line_limit` bytes without its
/// line feed, and the file at most `file_limit` bytes.
pub fn answer_lines<A: LineAnswers, F: Shelf, O: Sink>(
    alloc: Global,
    answers: &A,
    line_limit: u32,
    file_limit: u64,
    shelf: &mut F,
    out: &mut O,
) -> Result<bool, Stop>
    requires line { line_limit ≤ 2 ^ 30 }
    requires file { file_limit ≤ 2 ^ 40 }
    requires given { F.given shelf.old ≤ 2 ^ 62 + 2 ^ 40 }
    ensures passes { OnePass (A.text answers.now) line_limit file_limit
        (F.rest shelf.old) (F.rest shelf.new) (F.given shelf.old) (F.given shelf.new)
        (O.took out.old) (O.took out.new)
        (EndsBy result (A.text answers.now) (A.valid answers.now) line_limit file_limit
        (F.rest shelf.old) (F.rest shelf.new)) }
    ensures read_cause { IsErrOf result Stop.ReadFailed → Rose (F.faults shelf.old) (F.faults shelf.new) }
    ensures write_cause { IsErrOf result Stop.WriteFailed → Rose (O.faults out.old) (O.faults out.new) }
    ensures held { F.held shelf.new ≡ F.held shelf.old }
    ensures later { F.faults shelf.old ≤ F.faults shelf.new }
    ensures out_later { O.faults out.old ≤ O.faults out.new }
{
    let mut lines = Lines::new(alloc, line_limit, file_limit)?;
    let mut buffer = ByteBuf::new(alloc);
    let mut valid = true;
    loop {
        match lines.next(shelf)? {
            Next::End => return Ok(valid),
            Next::Line => {
                let good = answer_line(alloc, answers, lines.line(), &mut buffer, out)?;
                valid = valid && good;
            }
        }
    }
}
