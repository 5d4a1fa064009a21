//! The program: its words, files and streams are the machine's, and its functions the shipped ones.
#![tactic(auto)]

use pv_cli::{Status, Words, run};
use pv_edge::{StdShelf, StdSink, put_all};
use pv_func::{AddFault, AfterFn, BeforeFn, PlainFn, Registry, WrapFn};
use pv_shipped::{
    Constant, Deepen, Even, Listify, OrNull, Pair, Positive, SplitCommas, Strip, Unhex, Upper,
};
use pv_text::{Memory, Text};
use std::alloc::Global;
use std::io::ErrorKind;
use std::process::ExitCode;
use std::{env, io};

/// The status of a run whose words the runtime refused.
const ARGUMENTS_REFUSED: u8 = 10;

/// Why there are no words to run.
#[derive(Drop)]
enum NoWords {
    Memory,
    /// The runtime refused the arguments, as where one is no UTF-8.
    Refused,
}

impl From<Memory> for NoWords {
    fn from(_e: Memory) -> NoWords {
        NoWords::Memory
    }
}

impl From<io::Error> for NoWords {
    fn from(e: io::Error) -> NoWords {
        match e.kind() {
            ErrorKind::OutOfMemory => NoWords::Memory,
            _ => NoWords::Refused,
        }
    }
}

/// The arguments behind the program's name.
fn words(rt: &HostRuntime) -> Result<Words, NoWords> {
    let mut words = Words::new(rt.alloc());
    for argument in env::args(rt)?.skip(1) {
        words.push(argument.as_str())?;
    }
    Ok(words)
}

/// The objects of all kinds, in boxes.
type Boxes = Registry<Box<dyn BeforeFn>, Box<dyn AfterFn>, Box<dyn PlainFn>, Box<dyn WrapFn>>;

fn name(alloc: Global, name: &str) -> Result<Text, Memory> {
    Text::from_str(alloc, name)
}

/// Runs the words with the shipped functions. An error is want of memory for them: no two of them
/// have one name.
fn run_words(rt: &HostRuntime, words: &Words) -> Result<Status, AddFault> {
    let alloc = rt.alloc();
    let mut registry: Boxes = Registry::new(alloc);
    registry.add_before(name(alloc, "strip")?, Box::new(alloc, Strip)?)?;
    registry.add_before(name(alloc, "split_commas")?, Box::new(alloc, SplitCommas)?)?;
    registry.add_after(name(alloc, "even")?, Box::new(alloc, Even)?)?;
    registry.add_after(name(alloc, "positive")?, Box::new(alloc, Positive)?)?;
    registry.add_plain(name(alloc, "upper")?, Box::new(alloc, Upper)?)?;
    registry.add_plain(name(alloc, "unhex")?, Box::new(alloc, Unhex)?)?;
    registry.add_wrap(name(alloc, "listify")?, Box::new(alloc, Listify)?)?;
    registry.add_wrap(name(alloc, "or_null")?, Box::new(alloc, OrNull)?)?;
    registry.add_wrap(name(alloc, "pair")?, Box::new(alloc, Pair)?)?;
    registry.add_wrap(name(alloc, "deepen")?, Box::new(alloc, Deepen)?)?;
    registry.add_wrap(name(alloc, "constant")?, Box::new(alloc, Constant)?)?;
    let mut shelf = StdShelf::new(rt);
    let mut out = StdSink::out(rt);
    let mut err = StdSink::err(rt);
    Ok(run(alloc, words, &mut shelf, &mut out, &mut err, &registry))
}

fn main(rt: HostRuntime) -> ExitCode {
    let mut err = StdSink::err(&rt);
    let words = match words(&rt) {
        Ok(words) => words,
        Err(NoWords::Memory) => {
            let _ = put_all(&mut err, b"out of memory\n");
            return ExitCode::from(Status::Memory.code());
        }
        Err(NoWords::Refused) => {
            let _ = put_all(&mut err, b"arguments refused\n");
            return ExitCode::from(ARGUMENTS_REFUSED);
        }
    };
    match run_words(&rt, &words) {
        Ok(status) => ExitCode::from(status.code()),
        Err(_) => {
            let _ = put_all(&mut err, b"out of memory\n");
            ExitCode::from(Status::Memory.code())
        }
    }
}
