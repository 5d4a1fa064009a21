//! Functions by their names.

use crate::after::AfterFn;
use crate::before::BeforeFn;
use crate::exchange::{Move, WrapRun, answer, begin};
use crate::func::{Func, FuncId, FuncKind};
use crate::plain::PlainFn;
use crate::raise::{Made, Raw};
use crate::wrap::WrapFn;
use pv_fault::Outcome;
use pv_text::{Memory, Text};
use pv_tree::{Tree, Value};
use std::alloc::{AllocFailed, Global};
use std::collections::BTreeMap;
use std::marker::Model;

/// Why a function is not added.
#[derive(Drop)]
pub enum AddFault {
    /// A function of this name is there, of whatever kind.
    NameTaken { name: Text },
    Memory,
}

impl From<Memory> for AddFault {
    ghost use Rattle.std.specs.Prelude.{◌≡◌};
    ghost use Rattle.pv_func.specs.declared.registry.AddFault.TheVariants.{Memory};

    ghost from_gives = { λ _ e. e ≡ Memory };

    fn from(_e: Memory) -> AddFault {
        AddFault::Memory
    }
}

impl<T: Drop> From<AllocFailed<T>> for AddFault {
    ghost use Rattle.std.specs.Prelude.{◌≡◌};
    ghost use Rattle.pv_func.specs.declared.registry.AddFault.TheVariants.{Memory};

    ghost from_gives = { λ _ e. e ≡ Memory };

    fn from(_e: AllocFailed<T>) -> AddFault {
        AddFault::Memory
    }
}

/// Functions by their names, no two of one name. `B`, `A`, `P` and `W` are boxes where the objects of
/// a kind differ in type. Contracts see it as the list of the names with their functions, in the
/// order in which they were added.
#[derive(Drop)]
pub struct Registry<B, A, P, W> {
    functions: Vec<(Text, Func<B, A, P, W>)>,
    numbers: BTreeMap<Text, usize>,
}

impl<B, A, P, W> Model for Registry<B, A, P, W> {
    ghost use Rattle.std.specs.Prelude.{List, ℕ};
    ghost use Rattle.pv_tree.specs.Merging.{IsIndex};
    ghost use Rattle.pv_func.specs.declared.func.Func.{Func};

    ghost Value = { List (List ℕ × Func B A P W) };

    ghost view = { λ r. r.functions.items };

    ghost invariant = { λ r. IsIndex r.numbers r.functions.items };
}

impl<B, A, P, W> Registry<B, A, P, W> {
    ghost use Rattle.std.specs.Prelude.{◌≡◌, ◌<◌, [], length, Some, option_map, IfSome};
    ghost use Rattle.std.specs.Option.{option_copied, option_and_then};
    ghost use Rattle.pv_tree.specs.Merging.{place_of};
    ghost use Rattle.pv_func.specs.Functions.{kind_of, named, numbered};

    /// A registry without functions. It takes no memory yet.
    pub fn new(alloc: Global) -> Registry<B, A, P, W>
        ensures { result ≡ [] }
    {
        Registry {
            functions: Vec::new(alloc),
            numbers: BTreeMap::new(alloc),
        }
    }

    fn number(&self, name: &Text) -> Option<usize>
        ensures { result ≡ place_of self.now name.now }
    {
        self.numbers.get(name).copied()
    }

    /// The number of the function of this name.
    #[tactic(auto, using(crate::proofs::Names::place_within, crate::proofs::Names::named_numbered, crate::proofs::Names::named_missing))]
    pub fn find(&self, name: &Text) -> Option<FuncId>
        ensures place { option_map (λ id. id.number) result ≡ place_of self.now name.now }
        ensures within { IfSome result (λ id. id.number < length self.now) }
        ensures found { named self.now name.now ≡ option_and_then (λ id. numbered self.now id.number) result }
    {
        let number = self.number(name)?;
        Some(FuncId { number })
    }

    /// The function of this name, whatever its kind.
    #[tactic(auto, using(crate::proofs::Names::place_within, crate::proofs::Names::named_missing))]
    pub fn get(&self, name: &Text) -> Option<&Func<B, A, P, W>>
        ensures { option_copied result ≡ named self.now name.now }
    {
        match self.number(name) {
            Some(number) => Some(&self.functions[number].1),
            None => None,
        }
    }

    fn function(&self, id: FuncId) -> &Func<B, A, P, W>
        requires { id.number < length self.now }
        ensures { numbered self.now id.number ≡ Some result.now }
    {
        &self.functions[id.number].1
    }

    /// The kind of the function of this number.
    pub fn kind(&self, id: FuncId) -> FuncKind
        requires { id.number < length self.now }
        ensures { option_map kind_of (numbered self.now id.number) ≡ Some result }
    {
        self.function(id).kind()
    }
}

impl<B: Drop, A: Drop, P: Drop, W: Drop> Registry<B, A, P, W> {
    ghost use Rattle.std.specs.Prelude.{◌≡◌, [], ◌∷◌, ◌++◌, length, None, OnOk, OnErr};
    ghost use Rattle.std.specs.Result.{MatchResult};
    ghost use Rattle.pv_tree.specs.Merging.{place_of};
    ghost use Rattle.pv_func.specs.Adding.{AddGives};

    /// Adds a function whose name is not there.
    fn append(&mut self, name: Text, function: Func<B, A, P, W>) -> Result<FuncId, AddFault>
        requires { place_of self.old name ≡ None }
        ensures answer { MatchResult result (λ id. id.number ≡ length self.old) (λ e. e ≡ AddFault.Memory) }
        ensures ok { OnOk result (self.new ≡ self.old ++ (name, function) ∷ []) }
        ensures err { OnErr result (self.new ≡ self.old) }
    {
        let number = self.functions.len();
        let key = name.share(*self.functions.allocator())?;
        self.functions.push((name, function))?;
        match self.numbers.insert(key, number) {
            Ok(_) => Ok(FuncId { number }),
            Err(_) => {
                self.functions.truncate(number);
                Err(AddFault::Memory)
            }
        }
    }

    #[tactic(auto, using(crate::proofs::Names::taken, crate::proofs::Names::not_taken))]
    fn add(&mut self, name: Text, function: Func<B, A, P, W>) -> Result<FuncId, AddFault>
        ensures answer { AddGives self.old name result }
        ensures ok { OnOk result (self.new ≡ self.old ++ (name, function) ∷ []) }
        ensures err { OnErr result (self.new ≡ self.old) }
    {
        match self.number(&name) {
            Some(_) => Err(AddFault::NameTaken { name }),
            None => self.append(name, function),
        }
    }

    /// Adds a function that sees trees before they are validated. A refusal leaves the registry as it was.
    pub fn add_before(&mut self, name: Text, f: B) -> Result<FuncId, AddFault>
        ensures answer { AddGives self.old name result }
        ensures ok { OnOk result (self.new ≡ self.old ++ (name, Func.Before f) ∷ []) }
        ensures err { OnErr result (self.new ≡ self.old) }
    {
        self.add(name, Func::Before(f))
    }

    /// Adds a function that sees the values that validation gives. A refusal leaves the registry as it was.
    pub fn add_after(&mut self, name: Text, f: A) -> Result<FuncId, AddFault>
        ensures answer { AddGives self.old name result }
        ensures ok { OnOk result (self.new ≡ self.old ++ (name, Func.After f) ∷ []) }
        ensures err { OnErr result (self.new ≡ self.old) }
    {
        self.add(name, Func::After(f))
    }

    /// Adds a function that stands in the place of validation. A refusal leaves the registry as it was.
    pub fn add_plain(&mut self, name: Text, f: P) -> Result<FuncId, AddFault>
        ensures answer { AddGives self.old name result }
        ensures ok { OnOk result (self.new ≡ self.old ++ (name, Func.Plain f) ∷ []) }
        ensures err { OnErr result (self.new ≡ self.old) }
    {
        self.add(name, Func::Plain(f))
    }

    /// Adds a function that goes around validation. A refusal leaves the registry as it was.
    pub fn add_wrap(&mut self, name: Text, f: W) -> Result<FuncId, AddFault>
        ensures answer { AddGives self.old name result }
        ensures ok { OnOk result (self.new ≡ self.old ++ (name, Func.Wrap f) ∷ []) }
        ensures err { OnErr result (self.new ≡ self.old) }
    {
        self.add(name, Func::Wrap(f))
    }
}

impl<B: BeforeFn, A: AfterFn, P: PlainFn, W: WrapFn> Registry<B, A, P, W> {
    ghost use Rattle.std.specs.Prelude.{◌≡◌, Some, option_map, IsSome, IfOk};
    ghost use Rattle.pv_notation.specs.Numbers.{HasNumbers, IsSound};
    ghost use Rattle.pv_func.specs.Functions.{before_numbered, after_numbered, plain_numbered, wrap_numbered};
    ghost use Rattle.pv_func.specs.Exchange.{first_move, next_move};
    ghost use Rattle.pv_func.specs.Soundness.{RawIsSound, MadeIsSound, OutcomeIsSound, MoveIsSound};

    /// What the function of this number gives for a tree. It is one that sees trees before they are validated.
    pub fn call_before(&self, alloc: Global, id: FuncId, input: &Tree) -> Result<Raw, Memory>
        requires { IsSome (before_numbered self.now id.number) }
        ensures value { IfOk result (λ raw. option_map (λ f. B.before f input.now) (before_numbered self.now id.number) ≡ Some raw) }
        ensures sound { HasNumbers input.now → IfOk result RawIsSound }
    {
        match self.function(id) {
            Func::Before(f) => f.call(alloc, input),
            Func::After(_) | Func::Plain(_) | Func::Wrap(_) => unreachable!(),
        }
    }

    /// What the function of this number makes of a value. It is one that sees values.
    pub fn call_after(&self, alloc: Global, id: FuncId, value: &Value) -> Result<Made, Memory>
        requires { IsSome (after_numbered self.now id.number) }
        ensures value { IfOk result (λ made. option_map (λ f. A.after f value.now) (after_numbered self.now id.number) ≡ Some made) }
        ensures sound { IsSound value.now → IfOk result MadeIsSound }
    {
        match self.function(id) {
            Func::After(f) => f.call(alloc, value),
            Func::Before(_) | Func::Plain(_) | Func::Wrap(_) => unreachable!(),
        }
    }

    /// What the function of this number makes of a tree. It is one that stands in the place of validation.
    pub fn call_plain(&self, alloc: Global, id: FuncId, input: &Tree) -> Result<Made, Memory>
        requires { IsSome (plain_numbered self.now id.number) }
        ensures value { IfOk result (λ made. option_map (λ f. P.plain f input.now) (plain_numbered self.now id.number) ≡ Some made) }
        ensures sound { IfOk result MadeIsSound }
    {
        match self.function(id) {
            Func::Plain(f) => f.call(alloc, input),
            Func::Before(_) | Func::After(_) | Func::Wrap(_) => unreachable!(),
        }
    }

    /// The first move of an exchange about a tree with the function of this number. It is one that
    /// goes around validation.
    pub fn wrap_begin(&self, alloc: Global, id: FuncId, input: &Tree) -> Result<Move, Memory>
        requires { IsSome (wrap_numbered self.now id.number) }
        ensures value { IfOk result (λ m. option_map (λ w. first_move (W.wrapper w) input.now) (wrap_numbered self.now id.number) ≡ Some m) }
        ensures sound { HasNumbers input.now → IfOk result MoveIsSound }
    {
        match self.function(id) {
            Func::Wrap(f) => begin(f, alloc, input),
            Func::Before(_) | Func::After(_) | Func::Plain(_) => unreachable!(),
        }
    }

    /// The next move of an exchange that waits for an outcome, with the function and about the tree
    /// with which it began.
    pub fn wrap_answer(
        &self,
        alloc: Global,
        id: FuncId,
        run: WrapRun,
        input: &Tree,
        outcome: Outcome,
    ) -> Result<Move, Memory>
        requires { IsSome (wrap_numbered self.now id.number) }
        ensures value { IfOk result (λ m. option_map (λ w. next_move (W.wrapper w) input.now run outcome) (wrap_numbered self.now id.number) ≡ Some m) }
        ensures sound { HasNumbers input.now → HasNumbers run.state → OutcomeIsSound outcome → IfOk result MoveIsSound }
    {
        match self.function(id) {
            Func::Wrap(f) => answer(f, alloc, run, input, outcome),
            Func::Before(_) | Func::After(_) | Func::Plain(_) => unreachable!(),
        }
    }
}
