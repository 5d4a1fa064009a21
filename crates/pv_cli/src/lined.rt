//! A file of lines under a schema, each line a document of its own.

ghost use Rattle.std.specs.Prelude.{◌≡◌, ◌+◌, ◌-◌, ◌^◌, ◌≤◌, ℕ, List, [], ◌∷◌, IfOk, IsErrOf};
ghost use Rattle.pv_edge.specs.Files.{file};
ghost use Rattle.pv_edge.specs.Rising.{Rose};
ghost use Rattle.pv_edge.specs.Sending.{SentInPart};
ghost use Rattle.pv_cli.specs.Answering.{answer_of, line_meaning, reads_lines, reads_schema};
ghost use Rattle.pv_cli.specs.Passing.{Passes, PrintedOf, lined};
ghost use Rattle.pv_cli.specs.Running.{WhereTold};
ghost use Rattle.pv_cli.specs.Steps.{IsEndBy, LinesEnded, status_of};

use crate::document::{validity, write_line};
use crate::ending::{Ending, NoAnswer};
use crate::lines;
use crate::schema::SchemaStep;
use crate::status::Status;
use crate::working::open_schema;
use pv_edge::{Shelf, Sink};
use pv_func::Objects;
use pv_line_mode::{LineAnswers, Stop, answer_lines};
use pv_plan::Plan;
use pv_text::{ByteBuf, Memory, Text};
use std::alloc::Global;

/// How many bytes a line may have.
const LINE_LIMIT: u32 = 1_048_576;

/// How many bytes a file of lines may have: 2^40.
const LINES_LIMIT: u64 = 1_099_511_627_776;

/// What is printed of lines under a schema.
#[derive(Drop)]
struct SchemaLines<'a, R: Objects> {
    strict: Option<bool>,
    plan: &'a Plan,
    registry: &'a R,
}

impl<'a, R: Objects> LineAnswers for SchemaLines<'a, R> {
    ghost use Rattle.pv_cli.specs.Answering.{line_meaning};

    ghost text = { λ s. (line_meaning (R.functions s.registry.now) s.strict s.plan.now).text };

    ghost valid = { λ s. (line_meaning (R.functions s.registry.now) s.strict s.plan.now).valid };

    fn answer(&self, alloc: Global, line: &[u8], out: &mut ByteBuf) -> Result<bool, Memory> {
        write_line(alloc, self.strict, self.plan, line, self.registry, out)
    }
}

/// How a file of lines ends that was not answered to its end.
fn end_by(alloc: Global, name: &Text, stop: Stop) -> Result<Ending, NoAnswer>
    ensures { IsEndBy name.now stop result }
{
    match stop {
        Stop::ReadFailed => Ok(Ending {
            line: lines::read_failed(alloc, name)?,
            status: Status::ReadFault,
        }),
        Stop::TooLarge => Ok(Ending {
            line: lines::too_large(alloc, name)?,
            status: Status::TooLarge,
        }),
        Stop::Memory => Err(NoAnswer::Memory),
        Stop::WriteFailed => Err(NoAnswer::WriteFailed),
    }
}

/// Answers the lines of a document file under a schema.
fn answer_file_lines<F: Shelf, O: Sink, R: Objects>(
    alloc: Global,
    shelf: &mut F,
    out: &mut O,
    strict: Option<bool>,
    plan: &Plan,
    name: &Text,
    registry: &R,
) -> Result<Ending, NoAnswer>
    requires { F.given shelf.old ≤ 2 ^ 62 + 2 ^ 40 }
    ensures held { F.held shelf.new ≡ F.held shelf.old }
    ensures later { F.faults shelf.old ≤ F.faults shelf.new }
    ensures rises { F.given shelf.old ≤ F.given shelf.new }
    ensures out_later { O.faults out.old ≤ O.faults out.new }

    ensures ended { IfOk result (λ e. (first : List ℕ) →
        LinesEnded (first ∷ name.now ∷ []) (name.now ∷ []) (F.held shelf.old)
        (λ files. answer_of files (reads_lines (R.functions registry.now) strict name.now plan.now))
        (F.faults shelf.old) (F.faults shelf.new) (F.given shelf.old) (F.given shelf.new)
        (O.took out.old) (O.took out.new) e) }
    ensures rose { IsErrOf result NoAnswer.WriteFailed →
        Rose (O.faults out.old) (O.faults out.new) }
    ensures part { IsErrOf result NoAnswer.WriteFailed →
        WhereTold (F.held shelf.old) (λ files.
        SentInPart (O.took out.old) (O.took out.new)
        (answer_of files (reads_lines (R.functions registry.now) strict name.now plan.now)).out) }
    ensures passes { WhereTold (F.held shelf.old) (λ files.
        PrintedOf (O.took out.old) (O.took out.new) (F.given shelf.new - F.given shelf.old)
        (status_of result)
        (lined (line_meaning (R.functions registry.now) strict plan.now) (file files name.now))) }
{
    if shelf.pick(name.as_str()).is_err() {
        return end_by(alloc, name, Stop::ReadFailed);
    }
    let answers = SchemaLines {
        strict,
        plan,
        registry,
    };
    match answer_lines(alloc, &answers, LINE_LIMIT, LINES_LIMIT, shelf, out) {
        Ok(valid) => Ok(Ending {
            line: ByteBuf::new(alloc),
            status: validity(valid),
        }),
        Err(stop) => end_by(alloc, name, stop),
    }
}

/// Answers the lines of a document file under the schema of a schema file.
pub(crate) fn answer_lined_files<F: Shelf, O: Sink, R: Objects>(
    alloc: Global,
    shelf: &mut F,
    out: &mut O,
    strict: Option<bool>,
    schema_name: &Text,
    document_name: &Text,
    registry: &R,
) -> Result<Ending, NoAnswer>
    requires { F.given shelf.old ≤ 2 ^ 62 }
    ensures held { F.held shelf.new ≡ F.held shelf.old }
    ensures later { F.faults shelf.old ≤ F.faults shelf.new }
    ensures rises { F.given shelf.old ≤ F.given shelf.new }
    ensures out_later { O.faults out.old ≤ O.faults out.new }

    ensures ended { IfOk result (LinesEnded
        (schema_name.now ∷ document_name.now ∷ []) (schema_name.now ∷ document_name.now ∷ [])
        (F.held shelf.old)
        (λ files. answer_of files (reads_schema (R.functions registry.now) schema_name.now
        (reads_lines (R.functions registry.now) strict document_name.now)))
        (F.faults shelf.old) (F.faults shelf.new) (F.given shelf.old) (F.given shelf.new)
        (O.took out.old) (O.took out.new)) }
    ensures rose { IsErrOf result NoAnswer.WriteFailed →
        Rose (O.faults out.old) (O.faults out.new) }
    ensures part { IsErrOf result NoAnswer.WriteFailed →
        WhereTold (F.held shelf.old) (λ files.
        SentInPart (O.took out.old) (O.took out.new)
        (answer_of files (reads_schema (R.functions registry.now) schema_name.now
        (reads_lines (R.functions registry.now) strict document_name.now))).out) }
    ensures passes { WhereTold (F.held shelf.old) (λ files.
        Passes files (reads_schema (R.functions registry.now) schema_name.now
        (reads_lines (R.functions registry.now) strict document_name.now))
        (schema_name.now ∷ document_name.now ∷ []) (F.given shelf.old) (F.given shelf.new)
        (O.took out.old) (O.took out.new) (status_of result)) }
{
    let plan = match open_schema(alloc, shelf, schema_name, registry)? {
        SchemaStep::Served(plan) => plan,
        SchemaStep::Answered(answer) => {
            return Ok(Ending {
                line: answer.line,
                status: answer.status,
            });
        }
    };
    answer_file_lines(alloc, shelf, out, strict, &plan, document_name, registry)
}
