//! From files to the whole answer, before anything is written.

ghost use Rattle.std.specs.Prelude.{◌≡◌, ◌+◌, ◌^◌, ◌≤◌, ◌≢◌, ℕ, List, [], ◌∷◌, true, IfOk};
ghost use Rattle.pv_command.specs.declared.Asked.{Asked};
ghost use Rattle.pv_cli.specs.Answering as spec;
ghost use Rattle.pv_cli.specs.Answering.{answer_of};
ghost use Rattle.pv_cli.specs.Checks.{checked};
ghost use Rattle.pv_cli.specs.Asking.{file_limit, files_of};
ghost use Rattle.pv_cli.specs.Lines.{IsLineOf, IsOutOf};
ghost use Rattle.pv_cli.specs.Running.{Replies, StopsAt, WhereTold, is_printed, read_size, size_of};
ghost use Rattle.pv_cli.specs.Steps.{IsRefusal, Opens};

use crate::answer::Answer;
use crate::checking::answer_check;
use crate::document::answer_document;
use crate::lines;
use crate::schema::{SchemaStep, read_schema_file};
use crate::status::Status;
use pv_edge::{LoadFault, Shelf, load};
use pv_func::Objects;
use pv_plan::Plan;
use pv_text::{Memory, Text};
use std::alloc::Global;

/// How many bytes a file may have.
const FILE_LIMIT: u64 = 4_194_304;

/// The answer to a file that was not loaded.
fn refuse_file(alloc: Global, name: &Text, fault: LoadFault) -> Result<Answer, Memory>
    ensures { IfOk result (IsRefusal name.now fault) }
{
    match fault {
        LoadFault::Failed => {
            let line = lines::read_failed(alloc, name)?;
            Ok(Answer::refused(alloc, line, Status::ReadFault))
        }
        LoadFault::TooLarge => {
            let line = lines::too_large(alloc, name)?;
            Ok(Answer::refused(alloc, line, Status::TooLarge))
        }
        LoadFault::Memory => Err(Memory),
    }
}

/// The plan of a schema file, or the answer to it.
pub(crate) fn open_schema<F: Shelf, R: Objects>(
    alloc: Global,
    shelf: &mut F,
    name: &Text,
    registry: &R,
) -> Result<SchemaStep, Memory>
    requires { F.given shelf.old ≤ 2 ^ 62 }
    ensures held { F.held shelf.new ≡ F.held shelf.old }
    ensures later { F.faults shelf.old ≤ F.faults shelf.new }
    ensures rises { F.given shelf.old ≤ F.given shelf.new }
    ensures at_most { F.given shelf.new ≤ F.given shelf.old + file_limit + 1 }
    ensures in_file { WhereTold (F.held shelf.old) (λ files.
        F.given shelf.new ≤ F.given shelf.old + size_of files name.now) }
    ensures opens { IfOk result (λ s.
        Opens s (F.held shelf.old) (R.functions registry.now) name.now (F.faults shelf.old)
        (F.faults shelf.new) (F.given shelf.old) (F.given shelf.new)) }
{
    match load(alloc, shelf, name.as_str(), FILE_LIMIT) {
        Ok(bytes) => read_schema_file(alloc, bytes.as_slice(), registry),
        Err(fault) => Ok(SchemaStep::Answered(refuse_file(alloc, name, fault)?)),
    }
}

/// The answer to a document file under a schema.
fn answer_file<F: Shelf, R: Objects>(
    alloc: Global,
    shelf: &mut F,
    strict: Option<bool>,
    plan: &Plan,
    name: &Text,
    registry: &R,
) -> Result<Answer, Memory>
    requires { F.given shelf.old ≤ 2 ^ 63 }
    ensures held { F.held shelf.new ≡ F.held shelf.old }
    ensures later { F.faults shelf.old ≤ F.faults shelf.new }
    ensures rises { F.given shelf.old ≤ F.given shelf.new }

    ensures reply { IfOk result (Replies (F.held shelf.old)
        (λ files. answer_of files
        (spec.reads_document (R.functions registry.now) strict name.now plan.now))
        (F.faults shelf.old) (F.faults shelf.new)) }
    ensures line { IfOk result (λ a. (asked : Asked) (first : List ℕ) →
        files_of asked ≡ first ∷ name.now ∷ [] → IsLineOf asked a.status a.line) }
    ensures out { IfOk result (λ a. IsOutOf a.status a.out) }
    ensures words { IfOk result (λ a. a.status ≢ Status.WordsRefused) }
    ensures large { IfOk result (λ a.
        a.status ≡ Status.TooLarge → F.given shelf.new ≡ F.given shelf.old + file_limit + 1) }
    ensures stops { IfOk result (λ a.
        a.status ≡ Status.ReadFault →
        WhereTold (F.held shelf.old) (λ files.
        StopsAt files (name.now ∷ []) (F.given shelf.old) (F.given shelf.new) a.line)) }
    ensures whole { IfOk result (λ a.
        is_printed a.status ≡ true →
        WhereTold (F.held shelf.old) (λ files.
        F.given shelf.new ≡ F.given shelf.old + size_of files name.now)) }
{
    match load(alloc, shelf, name.as_str(), FILE_LIMIT) {
        Ok(bytes) => answer_document(alloc, strict, plan, bytes, registry),
        Err(fault) => refuse_file(alloc, name, fault),
    }
}

/// The answer to a schema file and a document file.
pub(crate) fn answer_files<F: Shelf, R: Objects>(
    alloc: Global,
    shelf: &mut F,
    strict: Option<bool>,
    schema_name: &Text,
    document_name: &Text,
    registry: &R,
) -> Result<Answer, Memory>
    requires { F.given shelf.old ≤ 2 ^ 62 }
    ensures held { F.held shelf.new ≡ F.held shelf.old }
    ensures later { F.faults shelf.old ≤ F.faults shelf.new }
    ensures rises { F.given shelf.old ≤ F.given shelf.new }

    ensures reply { IfOk result (Replies (F.held shelf.old)
        (λ files. answer_of files
        (spec.reads_schema (R.functions registry.now) schema_name.now
        (spec.reads_document (R.functions registry.now) strict document_name.now)))
        (F.faults shelf.old) (F.faults shelf.new)) }
    ensures line { IfOk result (λ a. (asked : Asked) →
        files_of asked ≡ schema_name.now ∷ document_name.now ∷ [] →
        IsLineOf asked a.status a.line) }
    ensures out { IfOk result (λ a. IsOutOf a.status a.out) }
    ensures words { IfOk result (λ a. a.status ≢ Status.WordsRefused) }
    ensures large { IfOk result (λ a.
        a.status ≡ Status.TooLarge → F.given shelf.old + file_limit + 1 ≤ F.given shelf.new) }
    ensures stops { IfOk result (λ a.
        a.status ≡ Status.ReadFault →
        WhereTold (F.held shelf.old) (λ files.
        StopsAt files (schema_name.now ∷ document_name.now ∷ []) (F.given shelf.old)
        (F.given shelf.new) a.line)) }
    ensures whole { IfOk result (λ a.
        is_printed a.status ≡ true →
        WhereTold (F.held shelf.old) (λ files.
        F.given shelf.new ≡
        F.given shelf.old + read_size files (schema_name.now ∷ document_name.now ∷ []))) }
{
    let bytes = match load(alloc, shelf, schema_name.as_str(), FILE_LIMIT) {
        Ok(bytes) => bytes,
        Err(fault) => return refuse_file(alloc, schema_name, fault),
    };
    let plan = match read_schema_file(alloc, bytes.as_slice(), registry)? {
        SchemaStep::Served(plan) => plan,
        SchemaStep::Answered(answer) => return Ok(answer),
    };
    answer_file(alloc, shelf, strict, &plan, document_name, registry)
}

/// The answer to a schema file that is checked.
pub(crate) fn check_file<F: Shelf, R: Objects>(
    alloc: Global,
    shelf: &mut F,
    name: &Text,
    registry: &R,
) -> Result<Answer, Memory>
    requires { F.given shelf.old ≤ 2 ^ 63 }
    ensures held { F.held shelf.new ≡ F.held shelf.old }
    ensures later { F.faults shelf.old ≤ F.faults shelf.new }
    ensures rises { F.given shelf.old ≤ F.given shelf.new }

    ensures reply { IfOk result (Replies (F.held shelf.old)
        (λ files. answer_of files
        (spec.reads_schema (R.functions registry.now) name.now (λ n. spec.answered (checked n))))
        (F.faults shelf.old) (F.faults shelf.new)) }
    ensures line { IfOk result (λ a. (asked : Asked) →
        files_of asked ≡ name.now ∷ [] → IsLineOf asked a.status a.line) }
    ensures out { IfOk result (λ a. IsOutOf a.status a.out) }
    ensures words { IfOk result (λ a. a.status ≢ Status.WordsRefused) }
    ensures large { IfOk result (λ a.
        a.status ≡ Status.TooLarge → F.given shelf.new ≡ F.given shelf.old + file_limit + 1) }
    ensures stops { IfOk result (λ a.
        a.status ≡ Status.ReadFault →
        WhereTold (F.held shelf.old) (λ files.
        StopsAt files (name.now ∷ []) (F.given shelf.old) (F.given shelf.new) a.line)) }
    ensures whole { IfOk result (λ a.
        is_printed a.status ≡ true →
        WhereTold (F.held shelf.old) (λ files.
        F.given shelf.new ≡ F.given shelf.old + size_of files name.now)) }
{
    let bytes = match load(alloc, shelf, name.as_str(), FILE_LIMIT) {
        Ok(bytes) => bytes,
        Err(fault) => return refuse_file(alloc, name, fault),
    };
    match read_schema_file(alloc, bytes.as_slice(), registry)? {
        SchemaStep::Served(plan) => answer_check(alloc, &plan),
        SchemaStep::Answered(answer) => Ok(answer),
    }
}
