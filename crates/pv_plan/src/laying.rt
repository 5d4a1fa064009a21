//! The records of places, laid one after another.

ghost use Rattle.std.specs.Prelude.{◌≡◌, ◌<◌, [], ◌∷◌, ◌++◌, length, slice_get, slice_set, IfOk, OnOk, None, Some};
ghost use Rattle.std.specs.List.{flat_map};
ghost use Rattle.pv_node.specs.Places.{Path, body_of, places_in, places_of, slots_of};
ghost use Rattle.pv_node.specs.Preorder.{first_in};
ghost use Rattle.pv_node.specs.Lending.{lent};
ghost use Rattle.pv_references.specs.Targets.{reference_of};
ghost use Rattle.pv_plan.specs.declared.record.Record.{Record as RecordValue};
ghost use Rattle.pv_plan.specs.Layout.{Grows, number_of, numbers, record_with, target_number, with_children};
ghost use Rattle.pv_plan.specs.BadPatterns as spec;
ghost use Rattle.pv_plan.specs.BadPatterns.{bad_in, bad_itself, has_bad_pattern};
ghost use Rattle.pv_plan.specs.Faults.{Finds};

use crate::faults::{BuildFault, under_slot};
use crate::operations::{operation, validates};
use crate::record::Record;
use pv_node::{ChildSlot, Node};
use pv_references::{Names, number, reference};
use pv_rules::Settings;
use sqlite_items::Items;
use std::alloc::Global;

/// How many records there are.
fn size(table: &Vec<Record>) -> usize
    ensures { result ≡ length table.now.items }
{
    table.len()
}

/// Puts the children of a record in it.
#[inline(never)]
fn settle(table: &mut Vec<Record>, at: usize, children: Items<u32>)
    requires { at < length table.old.items }
    ensures { (r : RecordValue) → slice_get table.old.items at ≡ Some r →
        table.new.items ≡ slice_set table.old.items at (with_children r children) }
{
    table[at].children = children;
}

/// Adds a number at the end.
fn add(all: &mut Items<u32>, number: u32) -> Result<(), BuildFault>
    ensures number { OnOk result (all.new ≡ all.old ++ number ∷ []) }
    ensures pattern { Finds result None }
{
    match all.push(number) {
        Ok(()) => Ok(()),
        Err(_) => Err(BuildFault::Memory),
    }
}

/// The laying of a schema's records. `last` is the number of the one for absent schemas.
#[derive(Clone, Copy)]
pub(crate) struct Laying<'a> {
    pub(crate) alloc: Global,
    pub(crate) names: &'a Names<'a>,
    pub(crate) last: u32,
}

impl Laying<'_> {
    /// Lays the record of a node whose children are still to be laid, by the settings in force in
    /// the node. Big values stay out of the frames of the recursion, here and in [`settle`].
    #[inline(never)]
    fn reserve(
        &self,
        table: &mut Vec<Record>,
        node: &Node,
        settings: &Settings,
    ) -> Result<(), BuildFault>
        ensures table { OnOk result ((p : Path) → table.new.items ≡ table.old.items
            ++ record_with self.now.names.now (length table.old.items)
            (record { path = p; node = node.now; settings = settings.now }) [] ∷ []) }
        ensures pattern { Finds result (bad_itself (has_bad_pattern node.now)) }
    {
        let op = operation(self.alloc, &node.body, settings)?;
        let strict = node.strict.unwrap_or(settings.strict);
        let validate_default = validates(&node.body).unwrap_or(settings.validate_default);
        match table.push(Record {
            op,
            children: Items::new(self.alloc),
            strict,
            validate_default,
        }) {
            Ok(()) => Ok(()),
            Err(_) => Err(BuildFault::Memory),
        }
    }

    /// Adds the number of the node that a node refers to, where it is a reference.
    fn add_target(&self, node: &Node, all: &mut Items<u32>) -> Result<(), BuildFault>
        ensures number { OnOk result (all.new ≡ all.old
            ++ target_number self.now.names.now self.now.last (reference_of (body_of node.now))) }
        ensures pattern { Finds result None }
    {
        match reference(&node.body) {
            None => Ok(()),
            Some(name) => add(all, self.names.number(name, self.last)),
        }
    }

    /// Lays a node and all inside it, and gives its number. The settings are those in force around
    /// it.
    #[cycle(lay)]
    #[tactic(auto, using(crate::proofs::Searching::itself_fails, crate::proofs::Searching::inner_fails, crate::proofs::Searching::none_fails))]
    pub(crate) fn lay(
        &self,
        table: &mut Vec<Record>,
        node: &Node,
        settings: &Settings,
    ) -> Result<u32, BuildFault>
        ensures table { OnOk result ((p : Path) → Grows self.now.names.now self.now.last
            table.old.items table.new.items (places_of p node.now settings.now)) }
        ensures number { IfOk result (λ n. n ≡ length table.old.items) }
        ensures pattern { Finds result (spec.bad_pattern node.now) }
    {
        let at = size(table);
        let own = number(at)?;
        let inside = node.settings(settings);
        self.reserve(table, node, inside)?;
        let mut children = Items::new(self.alloc);
        self.lay_children(table, node, inside, &mut children)?;
        self.add_target(node, &mut children)?;
        settle(table, at, children);
        Ok(own)
    }

    /// Lays the child schemas of a node by the settings in force in it, and adds their numbers to
    /// `all`.
    #[cycle(lay)]
    fn lay_children(
        &self,
        table: &mut Vec<Record>,
        node: &Node,
        settings: &Settings,
        all: &mut Items<u32>,
    ) -> Result<(), BuildFault>
        ensures table { OnOk result ((p : Path) → Grows self.now.names.now self.now.last
            table.old.items table.new.items
            (flat_map (places_in p settings.now) (slots_of node.now))) }
        ensures numbers { OnOk result (all.new ≡ all.old
            ++ numbers self.now.last (length table.old.items) (slots_of node.now)) }
        ensures pattern { Finds result (first_in bad_in (slots_of node.now)) }
    {
        for place in 0..usize::MAX {
            let Some(slot) = node.slot(place) else {
                return Ok(());
            };
            self.lay_slot(table, &slot, settings, all)?;
        }
        Err(BuildFault::Memory)
    }

    /// Lays the child schema of a slot, where there is one, and adds its number to `all`.
    #[cycle(lay)]
    #[tactic(auto, using(crate::proofs::Searching::slot_fails))]
    fn lay_slot(
        &self,
        table: &mut Vec<Record>,
        slot: &ChildSlot<'_>,
        settings: &Settings,
        all: &mut Items<u32>,
    ) -> Result<(), BuildFault>
        ensures table { OnOk result ((p : Path) → Grows self.now.names.now self.now.last
            table.old.items table.new.items (places_in p settings.now (lent slot.now))) }
        ensures number { OnOk result (all.new ≡ all.old
            ++ number_of self.now.last (length table.old.items) (lent slot.now).node ∷ []) }
        ensures pattern { Finds result (bad_in (lent slot.now)) }
    {
        let Some(node) = slot.node else {
            add(all, self.last)?;
            return Ok(());
        };
        match self.lay(table, node, settings) {
            Ok(number) => add(all, number),
            Err(fault) => Err(under_slot(self.alloc, fault, slot)),
        }
    }
}
