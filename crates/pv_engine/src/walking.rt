//! The records of a scene, to a depth.

ghost use Rattle.pv_walk.specs.Run.{means};
ghost use Rattle.pv_walk.specs.Walks.{Walks};

use crate::records::record_at;
use pv_fault::{Good, Kind};
use pv_func::Objects;
use pv_text::Memory;
use pv_tree::Tree;
use pv_walk::{Level, Out, Scene};

/// Walks the record of this number. At most `depth` nodes are entered below one another.
#[tactic(auto, unfolding(pv_walk::specs::Run::means, pv_walk::specs::Run::run_table))]
pub(crate) fn walk<'a, O: Objects>(
    scene: &Scene<'a>,
    objects: &O,
    out: &mut Out<'a>,
    depth: u64,
    number: u32,
    tree: &Tree,
) -> Result<Option<Good>, Memory>
    ensures { Walks out.old out.new result (means (O.functions objects.now) scene.now depth number tree.now) }
{
    if depth == 0 {
        return out.fail(scene.alloc, Kind::RecursionLoop, tree);
    }
    let level = Level {
        scene: &*scene,
        objects: &*objects,
        depth: depth - 1,
        below: walk::<O>,
    };
    record_at(&level, out, number, tree)
}
