//! From words and files to how the run ends.

ghost use Rattle.std.specs.Prelude.{◌≡◌, ◌^◌, ◌≤◌, [], true, IfErr, IfOk};
ghost use Rattle.pv_command.specs.Command.{IsServed, asked};
ghost use Rattle.pv_command.specs.declared.Asked.TheVariants.{Run};
ghost use Rattle.pv_cli.specs.Answering as spec;
ghost use Rattle.pv_cli.specs.Answering.{answer, answer_of};
ghost use Rattle.pv_cli.specs.Asking.{asks_lines, files_in, files_of};
ghost use Rattle.pv_cli.specs.Passing.{Passes};
ghost use Rattle.pv_cli.specs.Running.{WhereTold};
ghost use Rattle.pv_cli.specs.Steps.{Ended, Unended, status_of};

use crate::answer::Answer;
use crate::ending::{Ending, NoAnswer, print_answer};
use crate::lined::answer_lined_files;
use crate::lines;
use crate::status::Status;
use crate::working::{answer_files, check_file};
use pv_command::{Asked, Command, Words, command};
use pv_edge::{Shelf, Sink};
use pv_func::Objects;
use std::alloc::Global;

/// Runs a command.
fn answer_command<F: Shelf, O: Sink, R: Objects>(
    alloc: Global,
    shelf: &mut F,
    out: &mut O,
    command: &Command,
    registry: &R,
) -> Result<Ending, NoAnswer>
    requires served { IsServed (Run command.now) }
    requires given { F.given shelf.old ≤ 2 ^ 62 }
    ensures held { F.held shelf.new ≡ F.held shelf.old }
    ensures later { F.faults shelf.old ≤ F.faults shelf.new }
    ensures rises { F.given shelf.old ≤ F.given shelf.new }
    ensures out_later { O.faults out.old ≤ O.faults out.new }
    ensures unread { files_in command.now ≡ [] → F.given shelf.new ≡ F.given shelf.old }

    ensures ended { IfOk result (Ended (Run command.now) (F.held shelf.old)
        (λ files. answer_of files (spec.reads_of (R.functions registry.now) command.now))
        (F.faults shelf.old) (F.faults shelf.new) (F.given shelf.old) (F.given shelf.new)
        (O.took out.old) (O.took out.new)) }
    ensures unended { IfErr result (Unended (Run command.now) (F.held shelf.old)
        (λ files. answer_of files (spec.reads_of (R.functions registry.now) command.now))
        (O.faults out.old) (O.faults out.new) (O.took out.old) (O.took out.new)) }
    ensures passes { asks_lines (Run command.now) ≡ true →
        WhereTold (F.held shelf.old) (λ files.
        Passes files (spec.reads_of (R.functions registry.now) command.now)
        (files_in command.now) (F.given shelf.old) (F.given shelf.new)
        (O.took out.old) (O.took out.new) (status_of result)) }
{
    match command {
        Command::Validate {
            strict,
            schema,
            document,
        } => {
            let answer = answer_files(alloc, shelf, *strict, schema, document, registry)?;
            print_answer(out, answer)
        }
        Command::Lines {
            strict,
            schema,
            document,
        } => answer_lined_files(alloc, shelf, out, *strict, schema, document, registry),
        Command::Check { schema } => {
            let answer = check_file(alloc, shelf, schema, registry)?;
            print_answer(out, answer)
        }
        Command::Dump { .. } => print_answer(out, Answer::not_built(alloc)?),
        Command::JsonSchema { .. } => print_answer(out, Answer::not_built(alloc)?),
        Command::Workload { .. } => print_answer(out, Answer::not_built(alloc)?),
    }
}

/// Runs what the words ask for.
fn answer_asked<F: Shelf, O: Sink, R: Objects>(
    alloc: Global,
    shelf: &mut F,
    out: &mut O,
    asked: &Asked,
    registry: &R,
) -> Result<Ending, NoAnswer>
    requires served { IsServed asked.now }
    requires given { F.given shelf.old ≤ 2 ^ 62 }
    ensures held { F.held shelf.new ≡ F.held shelf.old }
    ensures later { F.faults shelf.old ≤ F.faults shelf.new }
    ensures rises { F.given shelf.old ≤ F.given shelf.new }
    ensures out_later { O.faults out.old ≤ O.faults out.new }
    ensures unread { files_of asked.now ≡ [] → F.given shelf.new ≡ F.given shelf.old }

    ensures ended { IfOk result (Ended asked.now (F.held shelf.old)
        (λ files. answer_of files (spec.reads_for (R.functions registry.now) asked.now))
        (F.faults shelf.old) (F.faults shelf.new) (F.given shelf.old) (F.given shelf.new)
        (O.took out.old) (O.took out.new)) }
    ensures unended { IfErr result (Unended asked.now (F.held shelf.old)
        (λ files. answer_of files (spec.reads_for (R.functions registry.now) asked.now))
        (O.faults out.old) (O.faults out.new) (O.took out.old) (O.took out.new)) }
    ensures passes { asks_lines asked.now ≡ true →
        WhereTold (F.held shelf.old) (λ files.
        Passes files (spec.reads_for (R.functions registry.now) asked.now)
        (files_of asked.now) (F.given shelf.old) (F.given shelf.new)
        (O.took out.old) (O.took out.new) (status_of result)) }
{
    match asked {
        Asked::Run(command) => answer_command(alloc, shelf, out, command, registry),
        Asked::Refused { at } => Ok(Ending {
            line: lines::words_refused(alloc, *at)?,
            status: Status::WordsRefused,
        }),
        Asked::NotBuilt => print_answer(out, Answer::not_built(alloc)?),
    }
}

/// Runs the command of the words, and puts what it answers on `out`.
#[tactic(auto, unfolding(crate::specs::Answering::answer))]
pub(crate) fn answer_words<F: Shelf, O: Sink, R: Objects>(
    alloc: Global,
    words: &Words,
    shelf: &mut F,
    out: &mut O,
    registry: &R,
) -> Result<Ending, NoAnswer>
    requires { F.given shelf.old ≤ 2 ^ 62 }
    ensures held { F.held shelf.new ≡ F.held shelf.old }
    ensures later { F.faults shelf.old ≤ F.faults shelf.new }
    ensures rises { F.given shelf.old ≤ F.given shelf.new }
    ensures out_later { O.faults out.old ≤ O.faults out.new }
    ensures unread { files_of (asked words.now) ≡ [] → F.given shelf.new ≡ F.given shelf.old }

    ensures ended { IfOk result (Ended (asked words.now) (F.held shelf.old)
        (answer words.now (R.functions registry.now))
        (F.faults shelf.old) (F.faults shelf.new) (F.given shelf.old) (F.given shelf.new)
        (O.took out.old) (O.took out.new)) }
    ensures unended { IfErr result (Unended (asked words.now) (F.held shelf.old)
        (answer words.now (R.functions registry.now))
        (O.faults out.old) (O.faults out.new) (O.took out.old) (O.took out.new)) }
    ensures passes { asks_lines (asked words.now) ≡ true →
        WhereTold (F.held shelf.old) (λ files.
        Passes files (spec.reads_for (R.functions registry.now) (asked words.now))
        (files_of (asked words.now)) (F.given shelf.old) (F.given shelf.new)
        (O.took out.old) (O.took out.new) (status_of result)) }
{
    let asked = command(words)?;
    answer_asked(alloc, shelf, out, &asked, registry)
}
