//! What shows when all items of an array were walked.

ghost use Rattle.std.specs.Prelude.{List, ◌≡◌, length, OnOk};
ghost use Rattle.pv_collect.specs.Gathering.{Part, gather_items, missing_of};
ghost use Rattle.pv_walk_collections.specs.Going.{Going};
ghost use Rattle.pv_walk.specs.Walks.{Walks, Adds};
ghost use Rattle.pv_walk.specs.declared.Out as written;

use crate::collections::Collections;
use pv_collect::{KeptItems, wanted};
use pv_fault::{Good, Kind};
use pv_func::Objects;
use pv_rules::GatherRule;
use pv_text::Memory;
use pv_tree::{Step, Tree};
use pv_walk::{Out, Scene};

impl<
    'r,
    's,
    'a,
    O: Objects,
    F: Fn(&Scene<'a>, &O, &mut Out<'a>, u64, u32, &Tree) -> Result<Option<Good>, Memory>,
> Collections<'r, 's, 'a, O, F> {
    /// An error for each of the positions that no item has.
    fn push_all_missing(
        &self,
        out: &mut Out<'a>,
        wanted: Option<u64>,
        items: u64,
        tree: &Tree,
    ) -> Result<(), Memory>
        ensures { OnOk result (Adds out.old out.new (missing_of wanted items tree.now)) }
    {
        let Some(wanted) = wanted else {
            return Ok(());
        };
        for more in 0..wanted.saturating_sub(items) {
            let position = Step::Index(items + more);
            out.push_below(self.level.scene.alloc, Kind::Missing, position, tree)?;
        }
        Ok(())
    }

    /// Ends the walk of an array of so many items, before which there were `mark` errors.
    #[inline(never)]
    pub(crate) fn finish_items(
        &self,
        out: &mut Out<'a>,
        rule: &GatherRule,
        items: u64,
        mark: usize,
        kept: KeptItems,
        tree: &Tree,
    ) -> Result<Option<Good>, Memory>
        ensures { (start : written.Out) (ps : List Part) → Going start out.old rule.now.kind kept ps → mark ≡ length start.errors
            → Walks start out.new result (gather_items rule.now items tree.now ps) }
    {
        self.push_all_missing(out, wanted(rule, items), items, tree)?;
        if out.errors.len() != mark {
            return Ok(None);
        }
        match kept.finish(self.level.scene.alloc, rule, items)? {
            Ok(good) => Ok(Some(good)),
            Err(fault) => out.fail(self.level.scene.alloc, fault, tree),
        }
    }
}
