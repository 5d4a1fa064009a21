ghost use Rattle.std.specs.Prelude.{◌≡◌, IfOk};
ghost use Rattle.pv_engine.specs.Meaning.{full_depth, meaning};

use crate::walking::walk;
use pv_fault::Outcome;
use pv_func::Objects;
use pv_plan::Plan;
use pv_text::Memory;
use pv_tree::Tree;
use pv_walk::{Out, Scene, outcome};
use std::alloc::Global;

/// At most so many nodes are entered below one another.
const DEPTH: u64 = 1000;

/// What the plan's schema means for a tree. `strict` is the strictness of the run, where it has one;
/// it goes before that of the nodes. `objects` are the functions that the schema names.
pub fn validate<O: Objects>(
    alloc: Global,
    plan: &Plan,
    objects: &O,
    strict: Option<bool>,
    t: &Tree,
) -> Result<Outcome, Memory>
    ensures { IfOk result (λ o. o ≡ meaning
        (record { strict = strict; functions = O.functions objects.now }) full_depth plan.now t.now) }
{
    let scene = Scene {
        alloc,
        table: plan.as_slice(),
        run: strict,
    };
    let mut out = Out::new(alloc);
    let found = walk(&scene, objects, &mut out, DEPTH, plan.root(), t);
    let errors = out.into_errors();
    Ok(outcome(found?, errors))
}
