use pv_text::{Memory, Text};
use smallvec::SmallVec;
use std::alloc::Global;
use std::marker::Model;

/// One step from a value to a part of it: a member's name, or an item's place from 0.
#[derive(Drop)]
pub enum Step {
    Name(Text),
    Index(u64),
}

impl Step {
    ghost use Rattle.std.specs.Prelude.{◌≡◌, IfOk};

    /// An equal step. A name in it is shared.
    pub fn copy(&self, alloc: Global) -> Result<Step, Memory>
        ensures { IfOk result (λ s. s ≡ self.now) }
    {
        match self {
            Step::Name(name) => Ok(Step::Name(name.share(alloc)?)),
            Step::Index(place) => Ok(Step::Index(*place)),
        }
    }
}

impl Default for Step {
    fn default() -> Step {
        Step::Index(0)
    }
}

/// Where a part stands: the steps to it from the whole. It keeps its allocator.
#[derive(Drop)]
pub struct Loc {
    steps: SmallVec<Step, 4>,
}

impl Model for Loc {
    ghost use Rattle.std.specs.Prelude.{List};
    ghost use Rattle.pv_tree.specs.declared.location.Step.{Step};

    ghost Value = { List Step };

    ghost view = { λ l. l.steps.items };
}

impl Loc {
    ghost use Rattle.std.specs.Prelude.{◌≡◌, ◌<◌, ◌≤◌, [], ◌∷◌, ◌++◌, length, take, drop, slice_get, IfOk, OnOk, OnErr, OnSome};
    ghost use Rattle.std.specs.Option.{option_copied};

    /// The location without steps.
    pub fn new(alloc: Global) -> Loc
        ensures { result ≡ [] }
    {
        Loc {
            steps: SmallVec::new(alloc),
        }
    }

    /// Adds a step at the end.
    pub fn push(&mut self, step: Step) -> Result<(), Memory>
        ensures ok { OnOk result (self.new ≡ self.old ++ step ∷ []) }
        ensures err { OnErr result (self.new ≡ self.old) }
    {
        self.steps.push(step)?;
        Ok(())
    }

    /// An equal location. The names in it are shared.
    pub fn copy(&self, alloc: Global) -> Result<Loc, Memory>
        ensures { IfOk result (λ l. l ≡ self.now) }
    {
        let mut copy = Loc::new(alloc);
        for step in self.steps.as_slice() {
            copy.push(step.copy(alloc)?)?;
        }
        Ok(copy)
    }

    /// Keeps the first `len` steps.
    pub fn cut(&mut self, len: usize)
        requires { len ≤ length self.old }
        ensures { self.new ≡ take len self.old }
    {
        self.steps.truncate(len);
    }

    /// Puts a step before all others.
    pub fn push_front(&mut self, step: Step) -> Result<(), Memory>
        ensures ok { OnOk result (self.new ≡ step ∷ self.old) }
        ensures err { OnErr result (self.new ≡ self.old) }
    {
        self.steps.insert(0, step)?;
        Ok(())
    }

    /// Drops the first step, where there is one.
    pub fn drop_front(&mut self)
        ensures { self.new ≡ drop 1 self.old }
    {
        if !self.steps.is_empty() {
            let _first = self.steps.remove(0);
        }
    }

    /// How many steps there are.
    pub fn len(&self) -> usize
        ensures { result ≡ length self.now }
    {
        self.steps.len()
    }

    /// `None` exactly where `place` is not below the length.
    pub fn get(&self, place: usize) -> Option<&Step>
        ensures value { option_copied result ≡ slice_get self.now place }
        ensures within { OnSome result (place < length self.now) }
    {
        self.steps.as_slice().get(place)
    }

    /// The steps, the outermost first.
    pub fn as_slice(&self) -> &[Step]
        ensures { result.now ≡ self.now }
    {
        self.steps.as_slice()
    }
}
