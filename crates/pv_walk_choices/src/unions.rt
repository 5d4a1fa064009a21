//! Unions: every member under its label, until one is taken.

ghost use Rattle.std.specs.Prelude.{map, slice_get, unwrap_or, true, false, [], ◌≡◌, IfOk};
ghost use Rattle.pv_fault.specs.Under.{outcome_under};
ghost use Rattle.pv_tree.specs.declared.Step.TheVariants.{Name};
ghost use Rattle.pv_walk_choices.specs.Members as members;
ghost use Rattle.pv_walk_choices.specs.Members.{given_by, taken_by};
ghost use Rattle.pv_walk.specs.Unions as spec;
ghost use Rattle.pv_walk.specs.Walks.{Walks};
ghost use Rattle.pv_walk.specs.Nests.{Nests, below};

use crate::choices::Choices;
use pv_fault::Good;
use pv_func::Objects;
use pv_text::{Memory, Text};
use pv_tree::{Step, Tree};
use pv_union::{is_better, is_sure, score_found};
use pv_walk::{Out, Scene};
use std::alloc::Global;

/// The label at this place. Past the labels it is empty.
fn label_at(alloc: Global, labels: &[Text], place: usize) -> Result<Text, Memory>
    ensures { IfOk result (λ label. label ≡ unwrap_or (slice_get labels.now place) []) }
{
    match labels.get(place) {
        Some(label) => label.share(alloc),
        None => Text::from_str(alloc, ""),
    }
}

/// The better of the best so far and what was found later.
fn better(best: Option<Good>, later: Option<Good>) -> Option<Good>
    ensures { result ≡ members.better best later }
{
    if is_better(score_found(&best), score_found(&later)) {
        later
    } else {
        best
    }
}

impl<
    'r,
    's,
    'a,
    O: Objects,
    F: Fn(&Scene<'a>, &O, &mut Out<'a>, u64, u32, &Tree) -> Result<Option<Good>, Memory>,
> Choices<'r, 's, 'a, O, F> {
    /// The record of this number, with a label in front of its errors.
    pub(crate) fn labelled(
        &self,
        out: &mut Out<'a>,
        label: Text,
        number: u32,
        tree: &Tree,
    ) -> Result<Option<Good>, Memory>
        requires { Nests O.functions F.Fn self.now.level.now }
        ensures { Walks out.old out.new result
            (outcome_under (Name label) (below O.functions self.now.level.now number tree.now)) }
    {
        let len = out.path.len();
        out.path.push(Step::Name(label))?;
        let found = self.level.child(out, number, tree)?;
        out.path.cut(len);
        Ok(found)
    }

    /// The first member that succeeds.
    #[inline(never)]
    fn left_to_right(
        &self,
        out: &mut Out<'a>,
        labels: &[Text],
        children: &[u32],
        tree: &Tree,
    ) -> Result<Option<Good>, Memory>
        requires { Nests O.functions F.Fn self.now.level.now }
        ensures { Walks out.old out.new result
            (taken_by true labels.now (given_by O.functions self.now.level.now children.now tree.now)) }
    {
        let mark = out.errors.len();
        for (place, number) in children.iter().enumerate() {
            let label = label_at(self.level.scene.alloc, labels, place)?;
            match self.labelled(out, label, *number, tree)? {
                Some(good) => {
                    out.errors.cut(mark);
                    return Ok(Some(good));
                }
                None => {}
            }
        }
        Ok(None)
    }

    /// The first member that is sure to be the best, else the best of all.
    #[inline(never)]
    fn smart(
        &self,
        out: &mut Out<'a>,
        labels: &[Text],
        children: &[u32],
        tree: &Tree,
    ) -> Result<Option<Good>, Memory>
        requires { Nests O.functions F.Fn self.now.level.now }
        ensures { Walks out.old out.new result
            (taken_by false labels.now (given_by O.functions self.now.level.now children.now tree.now)) }
    {
        let mark = out.errors.len();
        let mut best = None;
        for (place, number) in children.iter().enumerate() {
            let label = label_at(self.level.scene.alloc, labels, place)?;
            let found = self.labelled(out, label, *number, tree)?;
            if is_sure(score_found(&found)) {
                out.errors.cut(mark);
                return Ok(found);
            }
            best = better(best, found);
        }
        match best {
            Some(good) => {
                out.errors.cut(mark);
                Ok(Some(good))
            }
            None => Ok(None),
        }
    }

    /// A union with these labels. The errors of members that fail are taken back where another one
    /// is taken.
    #[inline(never)]
    pub fn union(
        &self,
        out: &mut Out<'a>,
        labels: &[Text],
        left_to_right: bool,
        children: &[u32],
        tree: &Tree,
    ) -> Result<Option<Good>, Memory>
        requires { Nests O.functions F.Fn self.now.level.now }
        ensures { Walks out.old out.new result (spec.union left_to_right labels.now
            (map (below O.functions self.now.level.now) children.now) tree.now) }
    {
        if children.len() == 1 {
            return self.level.first(out, children, tree);
        }
        if left_to_right {
            self.left_to_right(out, labels, children, tree)
        } else {
            self.smart(out, labels, children, tree)
        }
    }
}
