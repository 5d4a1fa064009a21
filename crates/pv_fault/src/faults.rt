use crate::kind::Kind;
use crate::paths::put_at_path;
use pv_text::Memory;
use pv_tree::{Loc, Tree};
use std::alloc::Global;
use std::marker::Model;

/// One error: what was wrong, where, and with which input.
#[derive(Drop)]
pub struct LineError {
    pub kind: Kind,
    pub loc: Loc,
    pub input: Tree,
}

/// Errors in the order in which they came. It keeps its allocator.
#[derive(Drop)]
pub struct Faults {
    errors: Vec<LineError>,
}

impl Model for Faults {
    ghost use Rattle.std.specs.Prelude.{List};
    ghost use Rattle.pv_fault.specs.declared.faults.LineError.{LineError};
    ghost use Rattle.pv_tree.specs.contracts.Tree as tree;
    ghost use Rattle.std.specs.Coded.{codes};

    ghost Value = { List LineError };

    ghost coded = { Prim.hlevel (codes, tree.the_row.coded) };

    ghost view = { λ f. f.errors.items };
}

impl Faults {
    ghost use Rattle.std.specs.Prelude.{◌≡◌, ◌≤◌, ◌<◌, [], ◌∷◌, ◌++◌, length, take, slice_get, OnOk, OnErr, OnSome};
    ghost use Rattle.std.specs.Option.{option_copied};
    ghost use Rattle.pv_fault.specs.Under.{all_at_path};

    pub fn new(alloc: Global) -> Faults
        ensures { result ≡ [] }
    {
        Faults {
            errors: Vec::new(alloc),
        }
    }

    pub fn len(&self) -> usize
        ensures { result ≡ length self.now }
    {
        self.errors.len()
    }

    /// `None` exactly where `place` is not below the length.
    pub fn get(&self, place: usize) -> Option<&LineError>
        ensures value { option_copied result ≡ slice_get self.now place }
        ensures within { OnSome result (place < length self.now) }
    {
        self.errors.get(place)
    }

    pub fn as_slice(&self) -> &[LineError]
        ensures { result.now ≡ self.now }
    {
        self.errors.as_slice()
    }

    pub fn push(&mut self, e: LineError) -> Result<(), Memory>
        ensures ok { OnOk result (self.new ≡ self.old ++ e ∷ []) }
        ensures err { OnErr result (self.new ≡ self.old) }
    {
        self.errors.push(e)?;
        Ok(())
    }

    /// Moves the errors of `more` to the end.
    pub fn append(&mut self, more: Faults) -> Result<(), Memory>
        ensures ok { OnOk result (self.new ≡ self.old ++ more) }
        ensures err { OnErr result (self.new ≡ self.old) }
    {
        let Faults { errors: mut more } = more;
        self.errors.append(&mut more)?;
        Ok(())
    }

    /// Moves the errors of `faults` to the end, each with the steps of the path in front.
    pub fn append_under(&mut self, path: &Loc, faults: Faults) -> Result<(), Memory>
        ensures ok { OnOk result (self.new ≡ self.old ++ all_at_path path.now faults) }
        ensures err { OnErr result (self.new ≡ self.old) }
    {
        let alloc = *self.errors.allocator();
        let Faults { errors: mut more } = faults;
        put_at_path(alloc, &mut more, path)?;
        self.errors.append(&mut more)?;
        Ok(())
    }

    /// Keeps the first `len` errors.
    pub fn cut(&mut self, len: usize)
        requires { len ≤ length self.old }
        ensures { self.new ≡ take len self.old }
    {
        self.errors.truncate(len);
    }
}
