//! The answer to a document under a schema.

ghost use Rattle.std.specs.Prelude.{◌≡◌, ◌++◌, IfOk, OnOk};
ghost use Rattle.pv_json_grammar.specs.Documents.{whole};
ghost use Rattle.pv_cli.specs.Documents as spec;
ghost use Rattle.pv_cli.specs.Faults as text;
ghost use Rattle.pv_cli.specs.Lines.{line};

use crate::answer::Answer;
use crate::status::Status;
use pv_engine::validate;
use pv_fault::{Faults, Kind, LineError, Outcome, write_faults};
use pv_func::Objects;
use pv_json::{ReadFault, read};
use pv_notation::write_value;
use pv_plan::Plan;
use pv_text::{ByteBuf, Bytes, Memory, Text};
use pv_tree::{Loc, Tree};
use std::alloc::Global;

/// The text of a fault in JSON, `at` being the place of the first byte that fits nowhere.
fn bad_text(alloc: Global, at: u64) -> Result<Text, Memory>
    ensures { IfOk result (λ t. t ≡ text.bad_text at) }
{
    let text = format!(in alloc; "unexpected byte at offset {at}")?;
    Text::from_str(alloc, text.as_str())
}

fn end_text(alloc: Global) -> Result<Text, Memory>
    ensures { IfOk result (λ t. t ≡ text.end_text) }
{
    Text::from_str(alloc, "unexpected end of input")
}

/// Adds the printed list of one error at the document itself, which is no JSON.
fn write_no_json(alloc: Global, error: Text, out: &mut ByteBuf) -> Result<bool, Memory>
    ensures text { OnOk result (out.new ≡ out.old ++ line (spec.no_json error).text) }
    ensures valid { IfOk result (λ v. v ≡ (spec.no_json error).valid) }
{
    let mut faults = Faults::new(alloc);
    faults.push(LineError {
        kind: Kind::JsonInvalid { error },
        loc: Loc::new(alloc),
        input: Tree::Null,
    })?;
    write_faults(&faults, out)?;
    out.push(b'\n')?;
    Ok(false)
}

/// Adds the notation of a value, or the list of errors, and tells which.
fn write_outcome(outcome: &Outcome, out: &mut ByteBuf) -> Result<bool, Memory>
    ensures text { OnOk result (out.new ≡ out.old ++ line (spec.of_outcome outcome.now).text) }
    ensures valid { IfOk result (λ v. v ≡ (spec.of_outcome outcome.now).valid) }
{
    let valid = match outcome {
        Outcome::Good { value, .. } => {
            write_value(value, out)?;
            true
        }
        Outcome::Bad(errors) => {
            write_faults(errors, out)?;
            false
        }
    };
    out.push(b'\n')?;
    Ok(valid)
}

/// Adds the answer to a document that was read. The tree is let go once it is validated.
fn write_tree<R: Objects>(
    alloc: Global,
    strict: Option<bool>,
    plan: &Plan,
    tree: Tree,
    registry: &R,
    out: &mut ByteBuf,
) -> Result<bool, Memory>
    ensures text { OnOk result (out.new ≡ out.old ++
        line (spec.of_reading (R.functions registry.now) strict plan.now (whole tree)).text) }
    ensures valid { IfOk result (λ v. v ≡
        (spec.of_reading (R.functions registry.now) strict plan.now (whole tree)).valid) }
{
    let outcome = validate(alloc, plan, registry, strict, &tree);
    drop(tree);
    write_outcome(&outcome?, out)
}

/// Adds the answer to a line, which is a document of its own, and tells whether it is valid.
#[tactic(auto, unfolding(crate::specs::Documents::verdict))]
pub(crate) fn write_line<R: Objects>(
    alloc: Global,
    strict: Option<bool>,
    plan: &Plan,
    bytes: &[u8],
    registry: &R,
    out: &mut ByteBuf,
) -> Result<bool, Memory>
    ensures text { OnOk result (out.new ≡ out.old ++
        line (spec.verdict (R.functions registry.now) strict plan.now bytes.now).text) }
    ensures valid { IfOk result (λ v. v ≡
        (spec.verdict (R.functions registry.now) strict plan.now bytes.now).valid) }
{
    match read(alloc, bytes) {
        Ok(tree) => write_tree(alloc, strict, plan, tree, registry, out),
        Err(ReadFault::Bad { at }) => write_no_json(alloc, bad_text(alloc, at)?, out),
        Err(ReadFault::End) => write_no_json(alloc, end_text(alloc)?, out),
        Err(ReadFault::Memory) => Err(Memory),
    }
}

/// Adds the answer to a document's bytes. They are let go once they are read, so that they are not
/// held beside the tree.
#[tactic(auto, unfolding(crate::specs::Documents::verdict))]
fn write_document<R: Objects>(
    alloc: Global,
    strict: Option<bool>,
    plan: &Plan,
    bytes: Bytes,
    registry: &R,
    out: &mut ByteBuf,
) -> Result<bool, Memory>
    ensures text { OnOk result (out.new ≡ out.old ++
        line (spec.verdict (R.functions registry.now) strict plan.now bytes).text) }
    ensures valid { IfOk result (λ v. v ≡
        (spec.verdict (R.functions registry.now) strict plan.now bytes).valid) }
{
    let document = read(alloc, bytes.as_slice());
    drop(bytes);
    match document {
        Ok(tree) => write_tree(alloc, strict, plan, tree, registry, out),
        Err(ReadFault::Bad { at }) => write_no_json(alloc, bad_text(alloc, at)?, out),
        Err(ReadFault::End) => write_no_json(alloc, end_text(alloc)?, out),
        Err(ReadFault::Memory) => Err(Memory),
    }
}

/// The status of a valid document, or of one that is not.
pub(crate) fn validity(valid: bool) -> Status
    ensures { result ≡ spec.validity valid }
{
    if valid {
        Status::Valid
    } else {
        Status::Invalid
    }
}

/// The answer to a document's bytes.
pub(crate) fn answer_document<R: Objects>(
    alloc: Global,
    strict: Option<bool>,
    plan: &Plan,
    bytes: Bytes,
    registry: &R,
) -> Result<Answer, Memory>
    ensures { IfOk result (λ a. a ≡
        spec.of_document (R.functions registry.now) strict plan.now bytes) }
{
    let mut out = ByteBuf::new(alloc);
    let valid = write_document(alloc, strict, plan, bytes, registry, &mut out)?;
    Ok(Answer {
        out,
        line: ByteBuf::new(alloc),
        status: validity(valid),
    })
}
