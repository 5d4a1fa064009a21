//! The ends of paths in a tree.

ghost use Rattle.std.specs.Prelude.{◌≡◌, Some, None, IfOk, IfSome, OnOk, length, ◌∷◌};
ghost use Rattle.std.specs.Option.{option_and_then, option_copied, option_map};
ghost use Rattle.pv_paths.specs.Following.{follow, found, hit, part_at};
ghost use Rattle.pv_fields.specs.Entering.{numbered, part_in, part_of};
ghost use Rattle.pv_fields.specs.Finding.{members_in};
ghost use Rattle.pv_fields.specs.Planned.{end_of, reached, taken_member};

use crate::directory::{Directory, Part};
use pv_paths::Found;
use pv_text::{Memory, Text};
use pv_tree::{Loc, Step, Tree};
use std::alloc::Global;
use std::collections::BTreeMap;
use std::marker::Model;

/// The end of a path, and the place of the member that the path begins with.
#[derive(Clone, Copy)]
pub(crate) struct End<'a> {
    member: Option<usize>,
    tree: &'a Tree,
}

fn end_at<'a>(member: Option<usize>, tree: Option<&'a Tree>) -> Option<End<'a>>
    ensures { option_map end_of result ≡ option_map (λ t. (member, t)) (option_copied tree.entry) }
{
    match tree {
        Some(tree) => Some(End { member, tree }),
        None => None,
    }
}

/// A part of a tree in which paths go on: the number of the part that it stands in, none for the
/// whole, and its place there.
#[derive(Drop)]
pub(crate) struct Inner<'a> {
    from: Option<usize>,
    place: usize,
    directory: Directory<'a>,
}

/// A tree in which paths are followed. Of each part in which paths go on there is one directory,
/// made for the first such path. It is seen as the tree and these parts.
#[derive(Drop)]
pub(crate) struct Directories<'a> {
    whole: Directory<'a>,
    inside: Vec<Inner<'a>>,
    /// Which of `inside` is the part at a place. No clause tells what it holds: the part that it
    /// leads to is compared.
    numbers: BTreeMap<(Option<usize>, usize), usize>,
}

impl<'a> Model for Directories<'a> {
    ghost use Rattle.std.specs.Prelude.{List};
    ghost use Rattle.pv_tree.specs.declared.Tree as tree_value;
    ghost use Rattle.pv_tree.specs.contracts.Tree as tree;
    ghost use Rattle.std.specs.Coded.{codes};
    ghost use Rattle.pv_fields.specs.declared.directories.Inner.{Inner};
    ghost use Rattle.pv_fields.specs.Entering.{ArePlaced};

    ghost Value = { tree_value.Tree × List Inner };

    ghost coded = { Prim.hlevel (codes, tree.the_row.coded) };

    ghost view = { λ d. (d.whole, d.inside.items) };

    ghost invariant = { λ d. ArePlaced (d.whole, d.inside.items) };
}

impl<'a> Directories<'a> {
    pub(crate) fn new(alloc: Global, tree: &'a Tree) -> Directories<'a>
        ensures { result.0 ≡ tree.now }
    {
        Directories {
            whole: Directory::new(tree),
            inside: Vec::new(alloc),
            numbers: BTreeMap::new(alloc),
        }
    }

    /// How many members the whole has.
    pub(crate) fn len(&self) -> usize
        ensures { result ≡ length (members_in self.now.0) }
    {
        self.whole.len()
    }

    /// The number of the part at this place, where it has one.
    fn known(&self, from: Option<usize>, place: usize) -> Option<usize>
        ensures { IfSome result (λ number. numbered self.now (Some number)
            ≡ part_of self.now from place) }
    {
        let number = self.numbers.get(&(from, place)).copied()?;
        let inner = self.inside.get(number)?;
        if inner.from == from && inner.place == place {
            Some(number)
        } else {
            None
        }
    }

    /// Numbers a part.
    fn add(&mut self, from: Option<usize>, part: Part<'a>) -> Result<usize, Memory>
        requires { part_of self.old from part.place ≡ Some part.tree.now }
        ensures number { IfOk result (λ number. numbered self.new (Some number)
            ≡ Some part.entry.tree.now) }
        ensures whole { OnOk result (self.new.0 ≡ self.old.0) }
    {
        let number = self.inside.len();
        self.numbers.insert((from, part.place), number)?;
        self.inside.push(Inner {
            from,
            place: part.place,
            directory: Directory::new(part.tree),
        })?;
        Ok(number)
    }

    /// The number of a part.
    fn enter(&mut self, from: Option<usize>, part: Part<'a>) -> Result<usize, Memory>
        requires { part_of self.old from part.place ≡ Some part.tree.now }
        ensures number { IfOk result (λ number. numbered self.new (Some number)
            ≡ Some part.entry.tree.now) }
        ensures whole { OnOk result (self.new.0 ≡ self.old.0) }
    {
        match self.known(from, part.place) {
            Some(number) => Ok(number),
            None => self.add(from, part),
        }
    }

    /// Where a step leads from the part of this number.
    fn part(
        &mut self,
        alloc: Global,
        number: usize,
        step: &Step,
    ) -> Result<Option<Part<'a>>, Memory>
        ensures value { IfOk result (λ part. option_map (λ p. p.tree.now) part
            ≡ option_and_then (part_at step.now) (numbered self.old (Some number))) }
        ensures inside { IfOk result (λ part. IfSome part (λ p.
            part_of self.old (Some number) p.place ≡ Some p.tree.now)) }
        ensures same { self.new ≡ self.old }
    {
        let Some(inner) = self.inside.get_mut(number) else {
            return Ok(None);
        };
        inner.directory.part(alloc, step)
    }

    /// The end of the rest of a path, of which the first step leads to this part of the whole.
    fn end_behind(
        &mut self,
        alloc: Global,
        first: Part<'a>,
        rest: &[Step],
    ) -> Result<Option<&'a Tree>, Memory>
        requires { part_in self.old.0 first.place ≡ Some first.tree.now }
        ensures end { IfOk result (λ end. option_copied end
            ≡ follow rest.now first.entry.tree.now) }
        ensures whole { OnOk result (self.new.0 ≡ self.old.0) }
    {
        let mut from = None;
        let mut here = first;
        for step in rest {
            let number = self.enter(from, here)?;
            match self.part(alloc, number, step)? {
                Some(part) => {
                    from = Some(number);
                    here = part;
                }
                None => return Ok(None),
            }
        }
        Ok(Some(here.tree))
    }

    /// The end of a path that begins with a name.
    fn reach_by_name(
        &mut self,
        alloc: Global,
        name: &Text,
        rest: &[Step],
    ) -> Result<Option<End<'a>>, Memory>
        ensures end { IfOk result (λ end. option_map end_of end
            ≡ reached (Step.Name name.now ∷ rest.now) self.old.0) }
        ensures whole { OnOk result (self.new.0 ≡ self.old.0) }
    {
        let Some(part) = self.whole.member(alloc, name)? else {
            return Ok(None);
        };
        let end = self.end_behind(alloc, part, rest)?;
        Ok(end_at(Some(part.place), end))
    }

    /// The end of a path that begins with a place.
    fn reach_by_place(
        &mut self,
        alloc: Global,
        first: &Step,
        rest: &[Step],
    ) -> Result<Option<End<'a>>, Memory>
        ensures end { IfOk result (λ end. option_map end_of end
            ≡ option_map (λ t. (None, t)) (follow (first.now ∷ rest.now) self.old.0)) }
        ensures whole { OnOk result (self.new.0 ≡ self.old.0) }
    {
        let Some(part) = self.whole.part(alloc, first)? else {
            return Ok(None);
        };
        let end = self.end_behind(alloc, part, rest)?;
        Ok(end_at(None, end))
    }

    /// The end of a path.
    fn reach(&mut self, alloc: Global, steps: &[Step]) -> Result<Option<End<'a>>, Memory>
        ensures end { IfOk result (λ end. option_map end_of end ≡ reached steps.now self.old.0) }
        ensures whole { OnOk result (self.new.0 ≡ self.old.0) }
    {
        match steps.split_first() {
            None => Ok(end_at(None, Some(self.whole.tree()))),
            Some((Step::Name(name), rest)) => self.reach_by_name(alloc, name, rest),
            Some((first, rest)) => self.reach_by_place(alloc, first, rest),
        }
    }

    /// The first path whose steps all lead on, and the place of the member that it begins with.
    #[tactic(auto, using(crate::proofs::Reaching::taken_is), unfolding(pv_paths::specs::Following::found))]
    pub(crate) fn first_found(
        &mut self,
        alloc: Global,
        paths: &[Loc],
    ) -> Result<(Found<'a>, Option<usize>), Memory>
        ensures found { IfOk result (λ r. hit r.0 ≡ found paths.now self.old.0) }
        ensures member { IfOk result (λ r. r.1 ≡ taken_member paths.now self.old.0) }
        ensures whole { OnOk result (self.new.0 ≡ self.old.0) }
    {
        for (path, steps) in paths.iter().enumerate() {
            match self.reach(alloc, steps.as_slice())? {
                Some(end) => {
                    return Ok((
                        Found::At {
                            path,
                            tree: end.tree,
                        },
                        end.member,
                    ));
                }
                None => {}
            }
        }
        Ok((Found::Missing, None))
    }
}
