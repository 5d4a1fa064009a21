//! What every step of a walk writes.

ghost use Rattle.std.specs.Prelude.{◌≡◌, [], ◌∷◌, ◌++◌, OnOk};
ghost use Rattle.pv_fault.specs.Single.{error_here, one_error};
ghost use Rattle.pv_fault.specs.Under.{all_under};
ghost use Rattle.pv_walk.specs.Walks.{Adds, Walks, outcome_of};

use pv_fault::{Faults, Good, Kind, Outcome};
use pv_scalar::Matchers;
use pv_text::Memory;
use pv_tree::{Loc, Step, Tree};
use std::alloc::Global;
use std::mem;

/// The errors so far, the steps from the root to where the walk stands, and the matchers that were made.
/// It is ended by `into_errors`, so that nothing here takes the matchers apart.
pub struct Out<'a> {
    pub errors: Faults,
    pub path: Loc,
    pub matchers: Matchers<'a>,
}

/// What a walk had written before one of its own began inside it.
#[derive(Drop)]
pub struct Before {
    pub errors: Faults,
    pub path: Loc,
}

/// The outcome of a walk that began with nothing.
pub fn outcome(found: Option<Good>, errors: Faults) -> Outcome
    ensures { result ≡ outcome_of errors found }
{
    match found {
        Some(
            Good {
                value,
                grade,
                fields,
            },
        ) => Outcome::Good {
            value,
            grade,
            fields,
        },
        None => Outcome::Bad(errors),
    }
}

impl<'a> Out<'a> {
    pub fn new(alloc: Global) -> Out<'a>
        ensures errors { result.errors ≡ [] }
        ensures path { result.path ≡ [] }
    {
        Out {
            errors: Faults::new(alloc),
            path: Loc::new(alloc),
            matchers: Matchers::new(alloc),
        }
    }

    /// Adds steps at the end of the path.
    pub fn enter(&mut self, alloc: Global, steps: &[Step]) -> Result<(), Memory>
        ensures path { OnOk result (self.new.path ≡ self.old.path ++ steps.now) }
        ensures errors { OnOk result (self.new.errors ≡ self.old.errors) }
    {
        for step in steps {
            self.path.push(step.copy(alloc)?)?;
        }
        Ok(())
    }

    /// The errors. The rest is let go, the matchers by their own crate.
    pub fn into_errors(self) -> Faults
        ensures { result ≡ self.entry.errors }
    {
        let Out {
            errors,
            path,
            matchers,
        } = self;
        drop(path);
        matchers.release();
        errors
    }

    /// Adds one error at where the walk stands.
    pub fn push(&mut self, alloc: Global, kind: Kind, tree: &Tree) -> Result<(), Memory>
        ensures { OnOk result (Adds self.old self.new (error_here kind tree.now ∷ [])) }
    {
        self.errors.push_at(alloc, kind, &self.path, tree)
    }

    /// Adds one error at a step further down. It stays out of the frames of the recursion, as does `fail`.
    #[inline(never)]
    #[tactic(auto, using(crate::proofs::Walking::adds_stepped))]
    pub fn push_below(
        &mut self,
        alloc: Global,
        kind: Kind,
        step: Step,
        tree: &Tree,
    ) -> Result<(), Memory>
        ensures { OnOk result (Adds self.old self.new (all_under step (error_here kind tree.now ∷ []))) }
    {
        let len = self.path.len();
        self.path.push(step)?;
        self.push(alloc, kind, tree)?;
        self.path.cut(len);
        Ok(())
    }

    /// Adds one error, and gives nothing.
    #[inline(never)]
    pub fn fail(&mut self, alloc: Global, kind: Kind, tree: &Tree) -> Result<Option<Good>, Memory>
        ensures { Walks self.old self.new result (one_error kind tree.now) }
    {
        self.push(alloc, kind, tree)?;
        Ok(None)
    }

    /// Begins a walk of its own, with nothing before it but the matchers.
    pub fn begin(&mut self, alloc: Global) -> Before
        ensures errors { self.new.errors ≡ [] }
        ensures path { self.new.path ≡ [] }
        ensures before { (result.errors ≡ self.old.errors) × (result.path ≡ self.old.path) }
    {
        Before {
            errors: mem::replace(&mut self.errors, Faults::new(alloc)),
            path: mem::replace(&mut self.path, Loc::new(alloc)),
        }
    }

    /// Ends a walk of its own: what was written before stands again. The errors are those of that
    /// walk.
    pub fn end(&mut self, before: Before) -> Faults
        ensures errors { self.new.errors ≡ before.errors }
        ensures path { self.new.path ≡ before.path }
        ensures own { result ≡ self.old.errors }
    {
        let Before { errors, path } = before;
        self.path = path;
        mem::replace(&mut self.errors, errors)
    }

    /// Adds the errors of an outcome at where the walk stands, and gives its success.
    #[inline(never)]
    pub fn put(&mut self, outcome: Outcome) -> Result<Option<Good>, Memory>
        ensures { Walks self.old self.new result outcome }
    {
        match outcome {
            Outcome::Good {
                value,
                grade,
                fields,
            } => Ok(Some(Good {
                value,
                grade,
                fields,
            })),
            Outcome::Bad(errors) => {
                self.errors.append_under(&self.path, errors)?;
                Ok(None)
            }
        }
    }
}
