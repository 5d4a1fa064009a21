//! Functions around a child: they ask what it gives, and are answered.

ghost use Rattle.std.specs.Prelude.{map, ◌≡◌, OnOk, IfOk};
ghost use Rattle.pv_func.specs.Exchange.{exchange};
ghost use Rattle.pv_func.specs.Functions.{wrap_named};
ghost use Rattle.pv_walk.specs.Functions as spec;
ghost use Rattle.pv_walk.specs.Rules.{first};
ghost use Rattle.pv_walk.specs.Walks.{Walks};
ghost use Rattle.pv_walk.specs.Nests.{Nests, below};

use crate::functions::Functions;
use pv_fault::{Good, Kind, Outcome};
use pv_func::{Move, Objects, answer, begin};
use pv_text::{Memory, Text};
use pv_tree::Tree;
use pv_walk::{Out, Scene, outcome};

impl<
    'r,
    's,
    'a,
    O: Objects,
    F: Fn(&Scene<'a>, &O, &mut Out<'a>, u64, u32, &Tree) -> Result<Option<Good>, Memory>,
> Functions<'r, 's, 'a, O, F> {
    /// What the child gives for the tree of an ask, by a walk of its own: the locations of its
    /// errors begin at this node.
    #[inline(never)]
    #[tactic(auto, using(pv_walk::proofs::Walking::outcome_alone))]
    fn ask(&self, out: &mut Out<'a>, children: &[u32], input: &Tree) -> Result<Outcome, Memory>
        requires { Nests O.functions F.Fn self.now.level.now }
        ensures answer { IfOk result (λ o. o ≡ first (map (below O.functions self.now.level.now) children.now) input.now) }
        ensures errors { OnOk result (out.new.errors ≡ out.old.errors) }
        ensures path { OnOk result (out.new.path ≡ out.old.path) }
    {
        let before = out.begin(self.level.scene.alloc);
        let found = self.level.first(out, children, input);
        let errors = out.end(before);
        Ok(outcome(found?, errors))
    }

    /// The exchange with an object about a tree.
    #[tactic(auto, using(pv_func::proofs::Exchanges::begins, pv_func::proofs::Exchanges::goes_on, pv_func::proofs::Exchanges::fewer))]
    fn exchange(
        &self,
        out: &mut Out<'a>,
        object: &O::Wrap,
        children: &[u32],
        tree: &Tree,
    ) -> Result<Outcome, Memory>
        requires { Nests O.functions F.Fn self.now.level.now }
        ensures answer { IfOk result (λ o. o ≡ exchange (O.Wrap.wrapper object.now) tree.now
            (first (map (below O.functions self.now.level.now) children.now))) }
        ensures errors { OnOk result (out.new.errors ≡ out.old.errors) }
        ensures path { OnOk result (out.new.path ≡ out.old.path) }
    {
        let mut step = begin(object, self.level.scene.alloc, tree)?;
        'asks: loop {
            match step {
                Move::Ask { run, input } => {
                    let outcome = self.ask(out, children, &input)?;
                    step = answer(object, self.level.scene.alloc, run, tree, outcome)?;
                }
                Move::End(outcome) => return Ok(outcome),
            }
        }
    }

    /// A function around the child.
    #[inline(never)]
    pub fn wrap(
        &self,
        out: &mut Out<'a>,
        name: &Text,
        children: &[u32],
        tree: &Tree,
    ) -> Result<Option<Good>, Memory>
        requires { Nests O.functions F.Fn self.now.level.now }
        ensures { Walks out.old out.new result (spec.wrap
            (wrap_named (O.functions self.now.level.now.objects.now) name.now)
            (first (map (below O.functions self.now.level.now) children.now)) tree.now) }
    {
        match self.level.objects.wrap(name) {
            Some(object) => {
                let outcome = self.exchange(out, object, children, tree)?;
                out.put(outcome)
            }
            None => out.fail(self.level.scene.alloc, Kind::RecursionLoop, tree),
        }
    }
}
