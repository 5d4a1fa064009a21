//! Dicts: every member by the child of the keys and by that of the values.

ghost use Rattle.std.specs.Prelude.{List, map, codes, length, ◌≡◌, IfOk, true};
ghost use Rattle.pv_tree.specs.declared.Step.TheVariants.{Name};
ghost use Rattle.pv_fault.specs.Under.{outcome_under};
ghost use Rattle.pv_collect.specs.Gathering.{Pair, gather_pairs};
ghost use Rattle.pv_walk.specs.Rules as gives;
ghost use Rattle.pv_walk_collections.specs.Going.{hashed, key_in, GoingPairs, WalkedPair};
ghost use Rattle.pv_walk.specs.Walks.{Walks};
ghost use Rattle.pv_walk.specs.Nests.{Nests, below};
ghost use Rattle.pv_walk.specs.declared.Out as written;

use crate::collections::Collections;
use crate::hashing::lacks_hash;
use pv_collect::KeptEntries;
use pv_fault::{Good, Kind};
use pv_func::Objects;
use pv_rules::GatherRule;
use pv_text::{Memory, Text};
use pv_tree::{Step, Tree};
use pv_walk::{Out, Scene};

impl<
    'r,
    's,
    'a,
    O: Objects,
    F: Fn(&Scene<'a>, &O, &mut Out<'a>, u64, u32, &Tree) -> Result<Option<Good>, Memory>,
> Collections<'r, 's, 'a, O, F> {
    /// A text by the child of the keys.
    fn key_text(
        &self,
        out: &mut Out<'a>,
        children: &[u32],
        text: &Tree,
    ) -> Result<Option<Good>, Memory>
        requires { Nests O.functions F.Fn self.now.level.now }
        ensures { Walks out.old out.new result (hashed true Kind.DictKeyNotHashable text.now
            (gives.first (map (below O.functions self.now.level.now) children.now) text.now)) }
    {
        let found = self.level.first(out, children, text)?;
        if lacks_hash(true, &found) {
            drop(found);
            return out.fail(self.level.scene.alloc, Kind::DictKeyNotHashable, text);
        }
        Ok(found)
    }

    /// A name as a text by the child of the keys.
    fn key_here(
        &self,
        out: &mut Out<'a>,
        children: &[u32],
        name: &Text,
    ) -> Result<Option<Good>, Memory>
        requires { Nests O.functions F.Fn self.now.level.now }
        ensures { Walks out.old out.new result (key_in name.now
            (gives.first (map (below O.functions self.now.level.now) children.now) (Tree.Str name.now))) }
    {
        let text = Tree::Str(name.share(self.level.scene.alloc)?);
        let found = self.key_text(out, children, &text);
        drop(text);
        found
    }

    /// The same, with the mark of a key on the path.
    fn key(
        &self,
        out: &mut Out<'a>,
        children: &[u32],
        mark: &Text,
        name: &Text,
    ) -> Result<Option<Good>, Memory>
        requires nests { Nests O.functions F.Fn self.now.level.now }
        requires mark { mark.now ≡ codes "[key]" }
        ensures { Walks out.old out.new result (outcome_under (Name (codes "[key]")) (key_in name.now
            (gives.first (map (below O.functions self.now.level.now) children.now) (Tree.Str name.now)))) }
    {
        let len = out.path.len();
        out.path
            .push(Step::Name(mark.share(self.level.scene.alloc)?))?;
        let found = self.key_here(out, children, name)?;
        out.path.cut(len);
        Ok(found)
    }

    /// What the key of a member gives, and what its value gives.
    fn member(
        &self,
        out: &mut Out<'a>,
        children: &[u32],
        mark: &Text,
        name: &Text,
        value: &Tree,
    ) -> Result<(Option<Good>, Option<Good>), Memory>
        requires nests { Nests O.functions F.Fn self.now.level.now }
        requires mark { mark.now ≡ codes "[key]" }
        ensures { IfOk result (λ both. WalkedPair out.old out.new both.0 both.1
            (gives.pair (gives.first (map (below O.functions self.now.level.now) children.now))
            (gives.second (map (below O.functions self.now.level.now) children.now)) (name.now, value.now))) }
    {
        let len = out.path.len();
        out.path
            .push(Step::Name(name.share(self.level.scene.alloc)?))?;
        let key = self.key(out, children, mark, name)?;
        match self.level.second(out, children, value) {
            Ok(value) => {
                out.path.cut(len);
                Ok((key, value))
            }
            Err(memory) => {
                drop(key);
                Err(memory)
            }
        }
    }

    /// Ends the walk of all members, before which there were `mark` errors.
    #[inline(never)]
    fn finish_entries(
        &self,
        out: &mut Out<'a>,
        rule: &GatherRule,
        mark: usize,
        kept: KeptEntries,
        tree: &Tree,
    ) -> Result<Option<Good>, Memory>
        ensures { (start : written.Out) (ps : List Pair) → GoingPairs start out.old rule.now.kind kept ps → mark ≡ length start.errors
            → Walks start out.new result (gather_pairs rule.now tree.now ps) }
    {
        if out.errors.len() != mark {
            return Ok(None);
        }
        match kept.finish(self.level.scene.alloc, rule, tree)? {
            Ok(good) => Ok(Some(good)),
            Err(fault) => out.fail(self.level.scene.alloc, fault, tree),
        }
    }

    #[inline(never)]
    fn members(
        &self,
        out: &mut Out<'a>,
        rule: &GatherRule,
        children: &[u32],
        members: &[(Text, Tree)],
        tree: &Tree,
    ) -> Result<Option<Good>, Memory>
        requires { Nests O.functions F.Fn self.now.level.now }
        ensures { Walks out.old out.new result (gather_pairs rule.now tree.now
            (map (gives.pair (gives.first (map (below O.functions self.now.level.now) children.now))
            (gives.second (map (below O.functions self.now.level.now) children.now))) members.now)) }
    {
        let mark = out.errors.len();
        let key_mark = Text::from_str(self.level.scene.alloc, "[key]")?;
        let mut kept = KeptEntries::new(self.level.scene.alloc, rule.kind, members.len())?;
        for (name, value) in members {
            let (key, value) = self.member(out, children, &key_mark, name, value)?;
            kept.take(mark, out.errors.len(), key, value)?;
        }
        self.finish_entries(out, rule, mark, kept, tree)
    }

    #[tactic(auto, unfolding(pv_walk::specs::Rules::dict))]
    pub(crate) fn dict(
        &self,
        out: &mut Out<'a>,
        rule: &GatherRule,
        children: &[u32],
        tree: &Tree,
    ) -> Result<Option<Good>, Memory>
        requires { Nests O.functions F.Fn self.now.level.now }
        ensures { Walks out.old out.new result (gives.dict rule.now
            (gives.first (map (below O.functions self.now.level.now) children.now))
            (gives.second (map (below O.functions self.now.level.now) children.now)) tree.now) }
    {
        match tree.as_object() {
            Some(members) => self.members(out, rule, children, members, tree),
            None => self.wrong_type(out, rule, tree),
        }
    }
}
