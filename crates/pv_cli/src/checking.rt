//! The answer to a schema that is checked.

ghost use Rattle.std.specs.Prelude.{◌≡◌, ◌++◌, decimal, IfOk, OnOk};
ghost use Rattle.pv_cli.specs.Checks as spec;

use crate::answer::Answer;
use crate::status::Status;
use itoa::Buffer;
use pv_plan::Plan;
use pv_text::{ByteBuf, Memory};
use std::alloc::Global;

/// Adds a count behind the words for it.
fn write_count(out: &mut ByteBuf, words: &str, count: u64) -> Result<(), Memory>
    ensures { OnOk result (out.new ≡ out.old ++ (words.now ++ decimal count)) }
{
    let mut buffer = Buffer::new();
    out.push_slice(words.as_bytes())?;
    out.push_slice(buffer.format(count).as_bytes())?;
    Ok(())
}

fn counts_text(alloc: Global, nodes: u64, names: u64, edges: u64) -> Result<ByteBuf, Memory>
    ensures { IfOk result (λ b. b ≡ spec.counts_text nodes names edges) }
{
    let mut out = ByteBuf::new(alloc);
    write_count(&mut out, "nodes ", nodes)?;
    write_count(&mut out, " definitions ", names)?;
    write_count(&mut out, " chain ", edges)?;
    Ok(out)
}

/// How many nodes the schema has, how many of them have a name, and the most edges in a row that do
/// not enter the input.
pub(crate) fn answer_check(alloc: Global, plan: &Plan) -> Result<Answer, Memory>
    ensures { IfOk result (λ a. a ≡ spec.checked plan.now) }
{
    let text = counts_text(alloc, plan.nodes(), plan.definitions(), plan.chain())?;
    Answer::printed(alloc, text, Status::Valid)
}
