//! The members of an object by their names.

ghost use Rattle.std.specs.Prelude.{◌≡◌, Some, IsTrue, IfOk, IfSome, length};
ghost use Rattle.std.specs.Option.{option_map};
ghost use Rattle.pv_tree.specs.Merging.{IsIndex, place_of};
ghost use Rattle.pv_tree.specs.Names.{HasDistinctNames};
ghost use Rattle.pv_paths.specs.Following.{part_at};
ghost use Rattle.pv_fields.specs.Entering.{part_in};
ghost use Rattle.pv_fields.specs.Finding.{members_in};

use pv_text::{Memory, Text};
use pv_tree::{Step, Tree};
use std::alloc::Global;
use std::collections::BTreeMap;
use std::marker::Model;

/// Up to so many members are always compared one by one.
const FEW: usize = 16;

/// So often more members are compared one by one before there is an index of them.
const SEARCHES: usize = 8;

/// The members of a tree; one that is no object has none.
fn members_of<'a>(tree: &'a Tree) -> &'a [(Text, Tree)]
    ensures members { result.now ≡ members_in tree.now }
    ensures distinct { HasDistinctNames result.now }
{
    match tree {
        Tree::Object(members) => members.as_slice(),
        Tree::Null | Tree::Bool(_) | Tree::Num(_) | Tree::Str(_) | Tree::Array(_) => &[],
    }
}

/// Whether the member at this place has the name.
#[tactic(auto, using(crate::proofs::Placing::stands))]
fn stands_at(members: &[(Text, Tree)], place: usize, name: &Text) -> bool
    ensures { HasDistinctNames members.now → IsTrue result
        → place_of members.now name.now ≡ Some place }
{
    place < members.len() && *name == members[place].0
}

/// The place of a name, by looking at one member after another.
fn scan(members: &[(Text, Tree)], name: &Text) -> Option<usize>
    ensures { result ≡ place_of members.now name.now }
{
    for (place, (known, _)) in members.iter().enumerate() {
        if name == known {
            return Some(place);
        }
    }
    None
}

/// The place of each name.
fn index_of(alloc: Global, members: &[(Text, Tree)]) -> Result<BTreeMap<Text, usize>, Memory>
    requires { HasDistinctNames members.now }
    ensures { IfOk result (λ places. IsIndex places members.now) }
{
    let mut places = BTreeMap::new(alloc);
    for (place, (name, _)) in members.iter().enumerate() {
        places.insert(name.share(alloc)?, place)?;
    }
    Ok(places)
}

/// A part of a tree, and its place among the members or the items.
#[derive(Clone, Copy)]
pub(crate) struct Part<'a> {
    pub(crate) place: usize,
    pub(crate) tree: &'a Tree,
}

/// A tree whose members are looked up by their names, most often one after another. It is seen as
/// the tree.
#[derive(Drop)]
pub(crate) struct Directory<'a> {
    whole: &'a Tree,
    members: &'a [(Text, Tree)],
    /// The place behind the name that was found last.
    next: usize,
    /// How often all members were compared.
    searches: usize,
    index: Option<BTreeMap<Text, usize>>,
}

impl<'a> Model for Directory<'a> {
    ghost use Rattle.pv_tree.specs.declared.Tree as tree_value;
    ghost use Rattle.pv_tree.specs.contracts.Tree as tree;
    ghost use Rattle.std.specs.Coded.{codes};
    ghost use Rattle.pv_fields.specs.Directories.{IsDirectory};

    ghost Value = { tree_value.Tree };

    ghost coded = { Prim.hlevel (codes, tree.the_row.coded) };

    ghost view = { λ d. d.whole.now };

    ghost invariant = { λ d. IsDirectory d.whole.now d.members.now d.index };
}

impl<'a> Directory<'a> {
    pub(crate) fn new(tree: &'a Tree) -> Directory<'a>
        ensures { result ≡ tree.now }
    {
        Directory {
            whole: tree,
            members: members_of(tree),
            next: 0,
            searches: 0,
            index: None,
        }
    }

    /// How many members there are.
    pub(crate) fn len(&self) -> usize
        ensures { result ≡ length (members_in self.now) }
    {
        self.members.len()
    }

    /// The place of a name that does not come next.
    fn search(&mut self, alloc: Global, name: &Text) -> Result<Option<usize>, Memory>
        ensures place { IfOk result (λ place. place ≡ place_of (members_in self.old) name.now) }
        ensures same { self.new ≡ self.old }
    {
        if let Some(places) = &self.index {
            return Ok(places.get(name).copied());
        }
        if self.members.len() <= FEW || self.searches < SEARCHES {
            self.searches = self.searches.saturating_add(1);
            return Ok(scan(self.members, name));
        }
        let places = index_of(alloc, self.members)?;
        let place = places.get(name).copied();
        self.index = Some(places);
        Ok(place)
    }

    /// The place of the member that has the name.
    fn place(&mut self, alloc: Global, name: &Text) -> Result<Option<usize>, Memory>
        ensures place { IfOk result (λ place. place ≡ place_of (members_in self.old) name.now) }
        ensures same { self.new ≡ self.old }
    {
        let place = if stands_at(self.members, self.next, name) {
            Some(self.next)
        } else {
            self.search(alloc, name)?
        };
        if let Some(place) = place {
            self.next = place.saturating_add(1);
        }
        Ok(place)
    }

    /// The value of the member that has the name.
    #[tactic(auto, using(crate::proofs::Placing::within))]
    pub(crate) fn member(&mut self, alloc: Global, name: &Text) -> Result<Option<Part<'a>>, Memory>
        ensures place { IfOk result (λ part. option_map (λ p. p.place) part
            ≡ place_of (members_in self.old) name.now) }
        ensures value { IfOk result (λ part. option_map (λ p. p.tree.now) part
            ≡ part_at (Step.Name name.now) self.old) }
        ensures inside { IfOk result (λ part. IfSome part (λ p.
            part_in self.old p.place ≡ Some p.tree.now)) }
        ensures same { self.new ≡ self.old }
    {
        let Some(place) = self.place(alloc, name)? else {
            return Ok(None);
        };
        let members = self.members;
        Ok(Some(Part {
            place,
            tree: &members[place].1,
        }))
    }

    /// The item at this place.
    fn item(&self, place: u64) -> Option<Part<'a>>
        ensures value { option_map (λ p. p.tree.now) result ≡ part_at (Step.Index place) self.now }
        ensures inside { IfSome result (λ p. part_in self.now p.place ≡ Some p.tree.now) }
    {
        let whole = self.whole;
        let place = place as usize;
        let tree = whole.as_array()?.get(place)?;
        Some(Part { place, tree })
    }

    /// The part that a step leads to.
    pub(crate) fn part(&mut self, alloc: Global, step: &Step) -> Result<Option<Part<'a>>, Memory>
        ensures value { IfOk result (λ part. option_map (λ p. p.tree.now) part
            ≡ part_at step.now self.old) }
        ensures inside { IfOk result (λ part. IfSome part (λ p.
            part_in self.old p.place ≡ Some p.tree.now)) }
        ensures same { self.new ≡ self.old }
    {
        match step {
            Step::Name(name) => self.member(alloc, name),
            Step::Index(place) => Ok(self.item(*place)),
        }
    }

    /// The tree itself.
    pub(crate) fn tree(&self) -> &'a Tree
        ensures { result.now ≡ self.now }
    {
        self.whole
    }
}
