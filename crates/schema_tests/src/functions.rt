//! Functions of the tests' own, in boxes.

ghost use Rattle.std.specs.Prelude.{IfOk, ◌≡◌};
ghost use Rattle.schema_tests.specs.Own as own;

use crate::fixtures::{cut, schema, shown, text, tree};
use pv_engine::validate;
use pv_fault::Outcome;
use pv_func::{
    AfterFn, Answer, BeforeFn, First, Made, PlainFn, Raise, Raw, Registry, Turn, WrapFn,
};
use pv_notation::{trees_have_numbers, values_are_sound};
use pv_plan::build;
use pv_text::{Memory, Text};
use pv_tree::{Tree, Value};
use std::alloc::Global;
use std::process::Abort;

/// Gives one tree, whatever the input is.
#[derive(Drop)]
struct GiveTree {
    tree: Tree,
}

impl BeforeFn for GiveTree {
    ghost before = { λ f t. own.given f.tree };

    fn call(&self, alloc: Global, _input: &Tree) -> Result<Raw, Memory> {
        trees_have_numbers(&self.tree);
        Ok(Raw::Give(self.tree.share(alloc)?))
    }
}

/// Says the same of every value.
#[derive(Drop)]
struct SayFlag {
    flag: bool,
}

impl AfterFn for SayFlag {
    ghost after = { λ f v. own.said f.flag };

    fn call(&self, _alloc: Global, _value: &Value) -> Result<Made, Memory> {
        let value = Value::Bool(self.flag);
        values_are_sound(&value);
        Ok(Made::Give(value))
    }
}

/// Refuses every input.
#[derive(Drop)]
struct RefuseAll;

impl PlainFn for RefuseAll {
    ghost plain = { λ f t. own.never };

    fn call(&self, alloc: Global, _input: &Tree) -> Result<Made, Memory> {
        Ok(Made::Raise(Raise::Assertion(Text::from_str(alloc, "never")?)))
    }
}

/// An array of one tree.
fn array_of(alloc: Global, tree: &Tree) -> Result<Tree, Memory>
    ensures { IfOk result (λ t. t ≡ own.array_of tree.now) }
{
    let mut items = Vec::new(alloc);
    items.push(tree.share(alloc)?)?;
    Tree::array(alloc, items)
}

/// Asks three times, each time with one array more.
#[derive(Drop)]
struct AskThrice;

impl WrapFn for AskThrice {
    ghost wrapper = { λ f. own.ask_thrice };

    fn asks(&self) -> u32 {
        3
    }

    #[tactic(auto, using(pv_notation::proofs::TreeNumbers::tree_numbers))]
    fn start(&self, alloc: Global, input: &Tree) -> Result<First, Memory> {
        Ok(First::Ask {
            state: input.share(alloc)?,
            input: input.share(alloc)?,
        })
    }

    fn next(
        &self,
        alloc: Global,
        state: &Tree,
        left: u32,
        _answer: &Answer,
    ) -> Result<Turn, Memory> {
        if left == 0 {
            return Ok(Turn::Pass);
        }
        let state = array_of(alloc, state)?;
        trees_have_numbers(&state);
        Ok(Turn::Ask {
            input: state.share(alloc)?,
            state,
        })
    }
}

/// Refuses what the inner schema takes.
#[derive(Drop)]
struct RefuseGood;

impl WrapFn for RefuseGood {
    ghost wrapper = { λ f. own.refuse_good };

    fn asks(&self) -> u32 {
        1
    }

    #[tactic(auto, using(pv_notation::proofs::TreeNumbers::tree_numbers))]
    fn start(&self, alloc: Global, input: &Tree) -> Result<First, Memory> {
        Ok(First::Ask {
            state: Tree::Null,
            input: input.share(alloc)?,
        })
    }

    fn next(
        &self,
        alloc: Global,
        _state: &Tree,
        _left: u32,
        answer: &Answer,
    ) -> Result<Turn, Memory> {
        match answer {
            Answer::Good(_) => Ok(Turn::Raise(Raise::Value(Text::from_str(alloc, "too good")?))),
            Answer::Bad(_) => Ok(Turn::Pass),
        }
    }
}

type Boxes = Registry<Box<dyn BeforeFn>, Box<dyn AfterFn>, Box<dyn PlainFn>, Box<dyn WrapFn>>;

/// A schema, a document, and what comes of it.
const OWN: &str =
    r#"{"type":"function-before","function":{"type":"no-info","function":"give"},"schema":{"type":"list","items_schema":{"type":"int"}}} "x" exact [7]
{"type":"function-after","function":{"type":"no-info","function":"say"},"schema":{"type":"int"}} "7" lax true
{"type":"function-plain","function":{"type":"no-info","function":"refuse"}} [1] [{"type":"assertion_error","loc":[],"msg":"Assertion failed, never","input":[1],"ctx":{"error":"never"}}]
{"type":"function-wrap","function":{"type":"no-info","function":"thrice"},"schema":{"type":"any"}} 7 lax [[7]]
{"type":"function-wrap","function":{"type":"no-info","function":"refuse_good"},"schema":{"type":"int"}} 7 [{"type":"value_error","loc":[],"msg":"Value error, too good","input":7,"ctx":{"error":"too good"}}]
{"type":"function-wrap","function":{"type":"no-info","function":"refuse_good"},"schema":{"type":"int"}} "x" [{"type":"int_parsing","loc":[],"msg":"Input should be a valid integer, unable to parse string as an integer","input":"x"}]"#;

/// What comes of a document under a schema with the functions of this file, of which `give` gives this tree.
fn outcome(rt: &impl Abort, alloc: Global, given: Tree, json: &str, document: &str) -> Outcome {
    let mut all: Boxes = Registry::new(alloc);
    let give: Box<dyn BeforeFn> = Box::new(alloc, GiveTree { tree: given }).expect(rt, "memory");
    let _ = all.add_before(text(rt, alloc, "give"), give);
    let say: Box<dyn AfterFn> = Box::new(alloc, SayFlag { flag: true }).expect(rt, "memory");
    let _ = all.add_after(text(rt, alloc, "say"), say);
    let refuse: Box<dyn PlainFn> = Box::new(alloc, RefuseAll).expect(rt, "memory");
    let _ = all.add_plain(text(rt, alloc, "refuse"), refuse);
    let thrice: Box<dyn WrapFn> = Box::new(alloc, AskThrice).expect(rt, "memory");
    let _ = all.add_wrap(text(rt, alloc, "thrice"), thrice);
    let good: Box<dyn WrapFn> = Box::new(alloc, RefuseGood).expect(rt, "memory");
    let _ = all.add_wrap(text(rt, alloc, "refuse_good"), good);
    let schema = schema(rt, alloc, json.as_bytes());
    let Ok(plan) = build(alloc, &schema, &all) else {
        panic!(rt; "a plan");
    };
    let input = tree(rt, alloc, document.as_bytes());
    validate(alloc, &plan, &all, None, &input).expect(rt, "memory")
}

#[test]
fn functions_in_boxes_are_called(rt: HostRuntime) {
    let alloc = rt.alloc();
    for row in OWN.lines() {
        let (json, rest) = cut(&rt, row);
        let (document, want) = cut(&rt, rest);
        let given = tree(&rt, alloc, b"[7]");
        let outcome = outcome(&rt, alloc, given, json, document);
        assert_eq!(rt; shown(&rt, alloc, &outcome).as_slice(), want.as_bytes());
    }
}

/// Arrays in arrays, of themselves by their name, whatever the input is.
const NESTED: &str =
    r#"{"type":"function-before","function":{"type":"no-info","function":"give"},"schema":{"type":"definitions","schema":{"type":"definition-ref","schema_ref":"L"},"definitions":[{"type":"list","ref":"L","items_schema":{"type":"definition-ref","schema_ref":"L"}}]}}"#;

/// Arrays in arrays around an empty one.
fn nested(rt: &impl Abort, alloc: Global, levels: u64) -> Tree {
    let mut tree = Tree::array(alloc, Vec::new(alloc)).expect(rt, "memory");
    for _ in 0..levels {
        let mut items = Vec::new(alloc);
        items.push(tree).expect(rt, "memory");
        tree = Tree::array(alloc, items).expect(rt, "memory");
    }
    tree
}

#[test]
fn trees_of_functions_may_be_deeper_than_documents(rt: HostRuntime) {
    let alloc = rt.alloc();
    for (levels, steps) in [(400u64, None), (600, Some(499usize))] {
        let given = nested(&rt, alloc, levels);
        let outcome = outcome(&rt, alloc, given, NESTED, "null");
        let found = match &outcome {
            Outcome::Good { .. } => None,
            Outcome::Bad(faults) => faults.get(0).map(|e| e.loc.len()),
        };
        assert_eq!(rt; found, steps, "{levels}");
    }
}
