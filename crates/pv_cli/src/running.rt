ghost use Rattle.std.specs.Prelude.{◌≡◌, ◌+◌, ◌^◌, ◌-◌, ◌<◌, ◌≤◌, ◌⊎◌, ℕ, List, true, [], length, IsSome};
ghost use Rattle.std.specs.Io.KnownBytes.{Appends};
ghost use Rattle.pv_edge.specs.Sending.{SentInPart};
ghost use Rattle.pv_command.specs.declared.Asked.TheVariants.{NotBuilt};
ghost use Rattle.pv_command.specs.Command.{asked};
ghost use Rattle.pv_cli.specs.Answering.{answer, reads_for};
ghost use Rattle.pv_cli.specs.Asking.{asks_lines, files_of, limit_of, place_of};
ghost use Rattle.pv_cli.specs.Lines.{IsLineOf};
ghost use Rattle.pv_cli.specs.Passing.{Passes};
ghost use Rattle.pv_cli.specs.Running.{IsTold, Puts, StopsAt, WhereTold, is_decided, is_printed, is_silent, read_size};

use crate::commands::answer_words;
use crate::ending::NoAnswer;
use crate::status::Status;
use pv_command::Words;
use pv_edge::{Shelf, Sink, put_all};
use pv_func::Objects;
use std::alloc::Global;

/// Runs the command that the words name. The files come from the shelf, and the functions that a
/// schema names from the registry. The answer goes to `out`, and a line that says why there is none
/// goes to `err`.
pub fn run<F: Shelf, O: Sink, E: Sink, R: Objects>(
    alloc: Global,
    words: &Words,
    shelf: &mut F,
    out: &mut O,
    err: &mut E,
    registry: &R,
) -> Status
    requires given { F.given shelf.old ≤ 2 ^ 62 }
    requires shelf_faults { F.faults shelf.old < 2 ^ 64 - 1 }
    requires out_faults { O.faults out.old < 2 ^ 64 - 1 }
    requires err_faults { E.faults err.old < 2 ^ 64 - 1 }

    // What the words and the files decide is printed, exactly.
    ensures exact_status { is_decided result ≡ true →
        WhereTold (F.held shelf.old) (λ files.
        (answer words.now (R.functions registry.now) files).status ≡ result) }
    ensures exact_output { is_decided result ≡ true →
        WhereTold (F.held shelf.old) (λ files.
        Appends (O.took out.old) (O.took out.new)
        (answer words.now (R.functions registry.now) files).out) }
    ensures exact_line { is_decided result ≡ true →
        WhereTold (F.held shelf.old) (λ files.
        Puts (E.took err.old) (E.took err.new) (E.faults err.old) (E.faults err.new)
        (answer words.now (R.functions registry.now) files).line) }
    ensures whole_files { is_printed result ≡ true →
        WhereTold (F.held shelf.old) (λ files.
        F.given shelf.new ≡ F.given shelf.old + read_size files (files_of (asked words.now))) }

    // Words that are refused are refused before anything is read, and so are commands that are not
    // built.
    ensures words_refused { result ≡ Status.WordsRefused →
        IsSome (place_of (asked words.now)) × (F.given shelf.new ≡ F.given shelf.old) }
    ensures words_decide { IsSome (place_of (asked words.now)) →
        (result ≡ Status.WordsRefused) ⊎ (result ≡ Status.Memory) }
    ensures unbuilt_decide { asked words.now ≡ NotBuilt →
        (result ≡ Status.NotYet) ⊎ (result ≡ Status.Memory) }
    ensures unread { files_of (asked words.now) ≡ [] → F.given shelf.new ≡ F.given shelf.old }

    // Why anything else comes.
    ensures read_cause { result ≡ Status.ReadFault →
        (F.faults shelf.old < F.faults shelf.new) ⊎ IsTold (F.held shelf.old) (λ files.
        ((answer words.now (R.functions registry.now) files).status ≡ result) ×
        Puts (E.took err.old) (E.took err.new) (E.faults err.old) (E.faults err.new)
        (answer words.now (R.functions registry.now) files).line) }
    ensures large_cause { result ≡ Status.TooLarge →
        F.given shelf.old + limit_of (asked words.now) + 1 ≤ F.given shelf.new }
    ensures write_cause { result ≡ Status.WriteFault → O.faults out.old < O.faults out.new }
    ensures not_yet_cause { result ≡ Status.NotYet →
        (asked words.now ≡ NotBuilt) ⊎ (0 < length (files_of (asked words.now))) }

    // What standard output takes where nothing is printed, or not all.
    ensures silent { is_silent (asked words.now) result ≡ true →
        Appends (O.took out.old) (O.took out.new) [] }
    ensures write_part { result ≡ Status.WriteFault →
        WhereTold (F.held shelf.old) (λ files.
        SentInPart (O.took out.old) (O.took out.new)
        (answer words.now (R.functions registry.now) files).out) }

    // In `lines` each answer is on standard output before the next line is looked for.
    ensures one_pass { asks_lines (asked words.now) ≡ true →
        WhereTold (F.held shelf.old) (λ files.
        Passes files (reads_for (R.functions registry.now) (asked words.now))
        (files_of (asked words.now)) (F.given shelf.old) (F.given shelf.new)
        (O.took out.old) (O.took out.new) result) }

    // Where no count of faults rises, it is the status that the words and the files decide, or want
    // of memory.
    ensures complete { F.faults shelf.new ≡ F.faults shelf.old →
        O.faults out.new ≡ O.faults out.old →
        WhereTold (F.held shelf.old) (λ files.
        (result ≡ (answer words.now (R.functions registry.now) files).status) ⊎
        (result ≡ Status.Memory)) }

    // The line of each status. The line of a read fault names the file at which reading stopped.
    ensures line { (text : List ℕ) × IsLineOf (asked words.now) result text ×
        (result ≡ Status.ReadFault →
        WhereTold (F.held shelf.old) (λ files.
        StopsAt files (files_of (asked words.now)) (F.given shelf.old) (F.given shelf.new) text)) ×
        Puts (E.took err.old) (E.took err.new) (E.faults err.old) (E.faults err.new) text }

    // The shelf after any answer.
    ensures held { F.held shelf.new ≡ F.held shelf.old }
    ensures later { F.faults shelf.old ≤ F.faults shelf.new }
    ensures rises { F.given shelf.old ≤ F.given shelf.new }
{
    match answer_words(alloc, words, shelf, out, registry) {
        Ok(ending) => {
            let _ = put_all(err, ending.line.as_slice());
            ending.status
        }
        Err(NoAnswer::WriteFailed) => {
            let _ = put_all(err, b"write failed\n");
            Status::WriteFault
        }
        Err(NoAnswer::Memory) => {
            let _ = put_all(err, b"out of memory\n");
            Status::Memory
        }
    }
}
