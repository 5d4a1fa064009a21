//! Ways from nodes to their child schemas.

ghost use Rattle.std.specs.Prelude.{◌≡◌, ◌∷◌, ◌++◌, codes, IfOk};
ghost use Rattle.pv_tree.specs.declared.Step.TheVariants.{Name, Index};
ghost use Rattle.pv_node.specs.Lending.{steps};
ghost use Rattle.pv_node.specs.Places.{in_pair};

use pv_text::{Memory, Text};
use pv_tree::{Loc, Step};
use std::alloc::Global;

/// The way from a node to a child schema.
#[derive(Clone, Copy)]
pub enum SlotPath<'a> {
    /// Under a key.
    Key(&'static str),
    /// At a position of the list under a key.
    Position(&'static str, u64),
    /// Under the name of a field.
    Field(&'a str),
    /// At a position of the choices. One with a label is a list of the schema and the label.
    Choice { position: u64, labelled: bool },
    /// Under a tag among the choices.
    Tag(&'a str),
}

/// A location with a step before it.
fn behind(step: Step, mut path: Loc) -> Result<Loc, Memory>
    ensures { IfOk result (λ l. l ≡ step ∷ path) }
{
    match path.push_front(step) {
        Ok(()) => Ok(path),
        Err(_) => Err(Memory),
    }
}

/// A location with a name before it.
fn behind_name(alloc: Global, name: &str, path: Loc) -> Result<Loc, Memory>
    ensures { IfOk result (λ l. l ≡ Name name.now ∷ path) }
{
    let name = Text::from_str(alloc, name)?;
    behind(Step::Name(name), path)
}

/// A location with the steps to a field's schema before it.
fn behind_field(alloc: Global, name: &str, path: Loc) -> Result<Loc, Memory>
    ensures { IfOk result (λ l. l ≡
        Name (codes "fields") ∷ Name name.now ∷ Name (codes "schema") ∷ path) }
{
    let path = behind_name(alloc, "schema", path)?;
    let path = behind_name(alloc, name, path)?;
    behind_name(alloc, "fields", path)
}

/// A location with the steps to a choice's schema before it.
fn behind_choice(alloc: Global, position: u64, labelled: bool, path: Loc) -> Result<Loc, Memory>
    ensures { IfOk result (λ l. l ≡ Name (codes "choices") ∷ Index position ∷ in_pair labelled ++ path) }
{
    let path = if labelled {
        behind(Step::Index(0), path)?
    } else {
        path
    };
    let path = behind(Step::Index(position), path)?;
    behind_name(alloc, "choices", path)
}

impl SlotPath<'_> {
    /// A location in the child schema, seen from the node.
    pub fn before(&self, alloc: Global, path: Loc) -> Result<Loc, Memory>
        ensures { IfOk result (λ l. l ≡ steps self.now ++ path) }
    {
        match self {
            SlotPath::Key(key) => behind_name(alloc, key, path),
            SlotPath::Position(key, position) => {
                let path = behind(Step::Index(*position), path)?;
                behind_name(alloc, key, path)
            }
            SlotPath::Field(name) => behind_field(alloc, name, path),
            SlotPath::Choice { position, labelled } => {
                behind_choice(alloc, *position, *labelled, path)
            }
            SlotPath::Tag(tag) => {
                let path = behind_name(alloc, tag, path)?;
                behind_name(alloc, "choices", path)
            }
        }
    }
}
