//! All that validation asks of a registry.

ghost use Rattle.std.specs.Prelude.{◌≡◌, ℕ, List, option_map, IfOk, IfSome};
ghost use Rattle.std.specs.Option.{option_copied};
ghost use Rattle.pv_notation.specs.Numbers.{HasNumbers, IsSound};
ghost use Rattle.pv_func.specs.Functions as spec;
ghost use Rattle.pv_func.specs.Functions.{Meaning, meanings, before_named, after_named, plain_named, wrap_named};
ghost use Rattle.pv_func.specs.Soundness.{RawIsSound, MadeIsSound};

use crate::after::AfterFn;
use crate::before::BeforeFn;
use crate::func::{Func, FuncKind};
use crate::plain::PlainFn;
use crate::raise::{Made, Raw};
use crate::registry::Registry;
use crate::wrap::WrapFn;
use pv_text::{Memory, Text};
use pv_tree::{Tree, Value};
use std::alloc::Global;

/// Functions by their names, whatever the types of the objects.
pub trait Objects {
    type Wrap: WrapFn;

    ghost functions: { Self → List (List ℕ × Meaning) };

    /// The kind of the first function of this name.
    fn kind_named(&self, name: &Text) -> Option<FuncKind>
        ensures { result ≡ spec.kind_named (functions self.now) name.now };

    /// What the first function of this name gives for a tree, where it is one that sees trees
    /// before they are validated.
    fn before(&self, alloc: Global, name: &Text, input: &Tree) -> Result<Option<Raw>, Memory>
        ensures value { IfOk result (λ raw. raw ≡ option_map (λ f. f input.now) (before_named (functions self.now) name.now)) }
        ensures sound { HasNumbers input.now → IfOk result (λ raw. IfSome raw RawIsSound) };

    /// What the first function of this name makes of a value, where it is one that sees values.
    fn after(&self, alloc: Global, name: &Text, value: &Value) -> Result<Option<Made>, Memory>
        ensures value { IfOk result (λ made. made ≡ option_map (λ f. f value.now) (after_named (functions self.now) name.now)) }
        ensures sound { IsSound value.now → IfOk result (λ made. IfSome made MadeIsSound) };

    /// What the first function of this name makes of a tree, where it is one that stands in the
    /// place of validation.
    fn plain(&self, alloc: Global, name: &Text, input: &Tree) -> Result<Option<Made>, Memory>
        ensures value { IfOk result (λ made. made ≡ option_map (λ f. f input.now) (plain_named (functions self.now) name.now)) }
        ensures sound { IfOk result (λ made. IfSome made MadeIsSound) };

    /// The first function of this name, where it is one that goes around validation.
    fn wrap(&self, name: &Text) -> Option<&Self::Wrap>
        ensures { option_map Self.Wrap.wrapper (option_copied result) ≡ wrap_named (functions self.now) name.now };
}

impl<B: BeforeFn, A: AfterFn, P: PlainFn, W: WrapFn> Objects for Registry<B, A, P, W> {
    type Wrap = W;

    ghost functions = { λ r. meanings B.before A.after P.plain W.wrapper r };

    #[tactic(auto, using(crate::proofs::Meanings::kinds))]
    fn kind_named(&self, name: &Text) -> Option<FuncKind> {
        match self.get(name) {
            Some(function) => Some(function.kind()),
            None => None,
        }
    }

    #[tactic(auto, using(crate::proofs::Meanings::befores))]
    fn before(&self, alloc: Global, name: &Text, input: &Tree) -> Result<Option<Raw>, Memory> {
        match self.get(name) {
            Some(Func::Before(f)) => Ok(Some(f.call(alloc, input)?)),
            Some(Func::After(_)) | Some(Func::Plain(_)) | Some(Func::Wrap(_)) | None => Ok(None),
        }
    }

    #[tactic(auto, using(crate::proofs::Meanings::afters))]
    fn after(&self, alloc: Global, name: &Text, value: &Value) -> Result<Option<Made>, Memory> {
        match self.get(name) {
            Some(Func::After(f)) => Ok(Some(f.call(alloc, value)?)),
            Some(Func::Before(_)) | Some(Func::Plain(_)) | Some(Func::Wrap(_)) | None => Ok(None),
        }
    }

    #[tactic(auto, using(crate::proofs::Meanings::plains))]
    fn plain(&self, alloc: Global, name: &Text, input: &Tree) -> Result<Option<Made>, Memory> {
        match self.get(name) {
            Some(Func::Plain(f)) => Ok(Some(f.call(alloc, input)?)),
            Some(Func::Before(_)) | Some(Func::After(_)) | Some(Func::Wrap(_)) | None => Ok(None),
        }
    }

    #[tactic(auto, using(crate::proofs::Meanings::wraps))]
    fn wrap(&self, name: &Text) -> Option<&W> {
        match self.get(name) {
            Some(Func::Wrap(f)) => Some(f),
            Some(Func::Before(_)) | Some(Func::After(_)) | Some(Func::Plain(_)) | None => None,
        }
    }
}
