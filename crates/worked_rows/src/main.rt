//! Runs worked rows in memory and prints what each leaves. A row is a line: the words, the schema
//! file `S` and the document file `D`, with a tab between two of them. A form feed in a document
//! stands for a line feed. The functions are the shipped ones.
#![tactic(auto)]

ghost use Rattle.std.specs.Prelude.{◌≡◌, IfOk};

use pv_cli::{Words, run};
use pv_edge::{MemShelf, MemSink, PutFault};
use pv_func::{AddFault, AfterFn, BeforeFn, PlainFn, Registry, WrapFn};
use pv_shipped::{
    Constant, Deepen, Even, Listify, OrNull, Pair, Positive, SplitCommas, Strip, Unhex, Upper,
};
use pv_text::{ByteBuf, Bytes, Memory, Text};
use std::alloc::{AllocFailed, Global};
use std::io;

/// How many bytes an answer may have.
const ROOM: usize = 100_000;

/// A row for which there is no memory.
#[derive(Drop)]
struct NoRow;

impl From<Memory> for NoRow {
    fn from(_e: Memory) -> NoRow {
        NoRow
    }
}

impl From<PutFault> for NoRow {
    fn from(_e: PutFault) -> NoRow {
        NoRow
    }
}

impl From<AddFault> for NoRow {
    fn from(_e: AddFault) -> NoRow {
        NoRow
    }
}

impl<T: Drop> From<AllocFailed<T>> for NoRow {
    fn from(_e: AllocFailed<T>) -> NoRow {
        NoRow
    }
}

fn words_of(alloc: Global, all: &str) -> Result<Words, NoRow> {
    let mut words = Words::new(alloc);
    for word in all.split(' ') {
        words.push(word)?;
    }
    Ok(words)
}

/// The bytes of a document, in which a form feed stands for a line feed.
fn document_of(alloc: Global, document: &str) -> Result<Bytes, NoRow> {
    let mut bytes = ByteBuf::new(alloc);
    for byte in document.bytes() {
        bytes.push(if byte == b'\x0C' { b'\n' } else { byte })?;
    }
    Ok(Bytes::from_vec(bytes.into_vec()))
}

/// A shelf with the files `S` and `D`.
fn shelf_of(alloc: Global, schema: &str, document: &str) -> Result<MemShelf, NoRow>
    ensures given { IfOk result (λ shelf. shelf.given ≡ 0) }
    ensures faults { IfOk result (λ shelf. shelf.faults ≡ 0) }
{
    let mut shelf = MemShelf::new(alloc, 4096);
    shelf.put(
        Text::from_str(alloc, "S")?,
        Bytes::from_slice(alloc, schema.as_bytes())?,
    )?;
    shelf.put(Text::from_str(alloc, "D")?, document_of(alloc, document)?)?;
    Ok(shelf)
}

fn sink_of(alloc: Global) -> Result<MemSink, NoRow>
    ensures { IfOk result (λ sink. sink.faults ≡ 0) }
{
    Ok(MemSink::new(alloc, 4096, ROOM)?)
}

/// The text of bytes that are one, and none where they are not.
fn shown(bytes: &[u8]) -> &str {
    match str::from_utf8(bytes) {
        Ok(text) => text.trim_end(),
        Err(_) => "",
    }
}

/// What a run leaves: its status, and what stands on the two streams.
#[derive(Drop)]
struct Left {
    status: u8,
    out: MemSink,
    err: MemSink,
}

/// The objects of all kinds, in boxes.
type Boxes = Registry<Box<dyn BeforeFn>, Box<dyn AfterFn>, Box<dyn PlainFn>, Box<dyn WrapFn>>;

fn name(alloc: Global, name: &str) -> Result<Text, Memory> {
    Text::from_str(alloc, name)
}

/// Runs one row with the shipped functions.
fn run_row(alloc: Global, words: &str, schema: &str, document: &str) -> Result<Left, NoRow> {
    let mut registry: Boxes = Registry::new(alloc);
    registry.add_before(name(alloc, "strip")?, Box::new(alloc, Strip)?)?;
    registry.add_before(name(alloc, "split_commas")?, Box::new(alloc, SplitCommas)?)?;
    registry.add_after(name(alloc, "even")?, Box::new(alloc, Even)?)?;
    registry.add_after(name(alloc, "positive")?, Box::new(alloc, Positive)?)?;
    registry.add_plain(name(alloc, "upper")?, Box::new(alloc, Upper)?)?;
    registry.add_plain(name(alloc, "unhex")?, Box::new(alloc, Unhex)?)?;
    registry.add_wrap(name(alloc, "listify")?, Box::new(alloc, Listify)?)?;
    registry.add_wrap(name(alloc, "or_null")?, Box::new(alloc, OrNull)?)?;
    registry.add_wrap(name(alloc, "pair")?, Box::new(alloc, Pair)?)?;
    registry.add_wrap(name(alloc, "deepen")?, Box::new(alloc, Deepen)?)?;
    registry.add_wrap(name(alloc, "constant")?, Box::new(alloc, Constant)?)?;
    let words = words_of(alloc, words)?;
    let mut shelf = shelf_of(alloc, schema, document)?;
    let mut out = sink_of(alloc)?;
    let mut err = sink_of(alloc)?;
    let status = run(alloc, &words, &mut shelf, &mut out, &mut err, &registry).code();
    Ok(Left { status, out, err })
}

fn print_row(rt: &HostRuntime, words: &str, schema: &str, document: &str) -> io::Result<()> {
    match run_row(rt.alloc(), words, schema, document) {
        Ok(left) => {
            let status = left.status;
            let printed = shown(left.out.taken());
            let line = shown(left.err.taken());
            println!(rt; "{status} {printed}{line}")
        }
        Err(NoRow) => println!(rt; "out of memory"),
    }
}

fn main(rt: HostRuntime) -> io::Result<()> {
    for line in rt.lines(rt.alloc()) {
        let line = line?;
        let row = line.as_str();
        let Some((words, files)) = row.split_once('\t') else {
            println!(rt; "{row}")?;
            continue;
        };
        let Some((schema, document)) = files.split_once('\t') else {
            println!(rt; "{row}")?;
            continue;
        };
        print_row(&rt, words, schema, document)?;
    }
    Ok(())
}
