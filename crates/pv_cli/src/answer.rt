use crate::status::Status;
use pv_text::{ByteBuf, Memory};
use std::alloc::Global;

/// What a run puts on standard output and on standard error, and how it ends.
#[derive(Drop)]
pub struct Answer {
    pub out: ByteBuf,
    /// A line with its line feed, or nothing.
    pub line: ByteBuf,
    pub status: Status,
}

impl Answer {
    ghost use Rattle.std.specs.Prelude.{◌≡◌, IfOk};
    ghost use Rattle.pv_cli.specs.Documents as spec;

    /// The text is printed with a line feed behind it.
    pub(crate) fn printed(
        alloc: Global,
        mut text: ByteBuf,
        status: Status,
    ) -> Result<Answer, Memory>
        ensures { IfOk result (λ a. a ≡ spec.printed text status) }
    {
        text.push(b'\n')?;
        Ok(Answer {
            out: text,
            line: ByteBuf::new(alloc),
            status,
        })
    }

    pub(crate) fn refused(alloc: Global, line: ByteBuf, status: Status) -> Answer
        ensures { result ≡ spec.refused line status }
    {
        Answer {
            out: ByteBuf::new(alloc),
            line,
            status,
        }
    }

    pub(crate) fn not_built(alloc: Global) -> Result<Answer, Memory>
        ensures { IfOk result (λ a. a ≡ spec.not_built) }
    {
        let mut line = ByteBuf::new(alloc);
        line.push_slice(b"not built yet\n")?;
        Ok(Answer::refused(alloc, line, Status::NotYet))
    }
}
