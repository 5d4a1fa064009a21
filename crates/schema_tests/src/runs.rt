//! Runs with large files, with each failing read and write in turn, and by lines.

ghost use Rattle.std.specs.Prelude.{◌≡◌};

use crate::fixtures::{no_functions, text};
use pv_cli::{Status, Words, run};
use pv_edge::{MemShelf, MemSink};
use pv_text::Bytes;
use std::alloc::Global;
use std::process::Abort;

/// The command, how many bytes a read gives, how many standard output takes, and which calls fail.
#[derive(Clone, Copy)]
struct Setting {
    command: &'static str,
    piece: usize,
    room: usize,
    failing_read: Option<u64>,
    failing_write: Option<u64>,
}

const AMPLE: Setting = Setting {
    command: "validate",
    piece: 100_000,
    room: 10_000,
    failing_read: None,
    failing_write: None,
};

/// What a run left.
#[derive(Drop)]
struct Left {
    status: Status,
    out: MemSink,
    err: MemSink,
}

const INT: &[u8] = br#"{"type":"int"}"#;

fn words_of(rt: &impl Abort, alloc: Global, command: &str) -> Words {
    let mut words = Words::new(alloc);
    for word in [command, "S", "D"] {
        words.push(word).expect(rt, "memory");
    }
    words
}

fn file(rt: &impl Abort, alloc: Global, content: &[u8]) -> Bytes {
    Bytes::from_slice(alloc, content).expect(rt, "memory")
}

/// A shelf with the files `S` and `D`.
fn shelf_of(rt: &impl Abort, alloc: Global, setting: &Setting, document: &[u8]) -> MemShelf
    ensures given { result.given ≡ 0 }
    ensures faults { result.faults ≡ 0 }
{
    let mut shelf = MemShelf::new(alloc, setting.piece.max(1));
    shelf
        .put(text(rt, alloc, "S"), file(rt, alloc, INT))
        .expect(rt, "a file");
    shelf
        .put(text(rt, alloc, "D"), file(rt, alloc, document))
        .expect(rt, "a file");
    if let Some(call) = setting.failing_read {
        shelf.fail(call).expect(rt, "memory");
    }
    shelf
}

fn sink_of(rt: &impl Abort, alloc: Global, room: usize, failing: Option<u64>) -> MemSink
    ensures { result.faults ≡ 0 }
{
    let mut sink = MemSink::new(alloc, 7, room).expect(rt, "memory");
    if let Some(call) = failing {
        sink.fail(call).expect(rt, "memory");
    }
    sink
}

/// What is left where the command is run with `INT` and the document.
fn left_by(rt: &impl Abort, alloc: Global, setting: &Setting, document: &[u8]) -> Left {
    let words = words_of(rt, alloc, setting.command);
    let mut shelf = shelf_of(rt, alloc, setting, document);
    let mut out = sink_of(rt, alloc, setting.room, setting.failing_write);
    let mut err = sink_of(rt, alloc, 1000, None);
    let registry = no_functions(alloc);
    let status = run(alloc, &words, &mut shelf, &mut out, &mut err, &registry);
    Left { status, out, err }
}

/// A three behind so many spaces.
fn spaced(rt: &impl Abort, alloc: Global, spaces: usize) -> Vec<u8> {
    let mut document = Vec::new(alloc);
    for _ in 0..spaces {
        document.push(b' ').expect(rt, "memory");
    }
    document.push(b'3').expect(rt, "memory");
    document
}

#[test]
fn files_have_four_mebibytes_at_most(rt: HostRuntime) {
    let alloc = rt.alloc();
    let largest = left_by(&rt, alloc, &AMPLE, spaced(&rt, alloc, 4_194_303).as_slice());
    assert_eq!(rt; largest.status.code(), 0);
    assert_eq!(rt; largest.out.taken(), b"3\n".as_slice());
    let larger = left_by(&rt, alloc, &AMPLE, spaced(&rt, alloc, 4_194_304).as_slice());
    assert_eq!(rt; larger.status.code(), 5);
    assert_eq!(rt; larger.err.taken(), b"too large: \"D\"\n".as_slice());
}

/// The status and the line where the first call of the shelf fails, the second one, and so on: a
/// pick, two reads and one at the end for the schema, and the same for the document, whose last one
/// is not needed.
const READS: &str = r#"4:read failed: "S"
4:read failed: "S"
4:read failed: "S"
4:read failed: "S"
4:read failed: "D"
4:read failed: "D"
4:read failed: "D"
0:
0:"#;

/// The status of a run and its line on standard error.
fn told(rt: &impl Abort, alloc: Global, left: &Left) -> String {
    let status = left.status.code();
    let line = str::from_utf8(left.err.taken()).ok().expect(rt, "UTF-8");
    format!(in alloc; "{status}:{}", line.trim_end()).expect(rt, "memory")
}

#[test]
fn each_failing_read_has_its_answer(rt: HostRuntime) {
    let alloc = rt.alloc();
    for (call, want) in READS.lines().enumerate() {
        let setting = Setting {
            piece: 7,
            failing_read: Some(call as u64),
            ..AMPLE
        };
        let left = left_by(&rt, alloc, &setting, b" 12345 ");
        assert_eq!(rt; told(&rt, alloc, &left).as_str(), want, "{call}");
    }
}

/// How many bytes standard output takes, which of its writes fails, what it took, and the status
/// and the line.
const WRITES: [(usize, Option<u64>, &str, u8, &str); 4] = [
    (1, None, "1", 6, "write failed\n"),
    (3, None, "123", 6, "write failed\n"),
    (100, Some(0), "", 6, "write failed\n"),
    (100, Some(1), "12345\n", 0, ""),
];

#[test]
fn each_failing_write_has_its_answer(rt: HostRuntime) {
    let alloc = rt.alloc();
    for (room, failing_write, taken, status, line) in WRITES {
        let setting = Setting {
            room,
            failing_write,
            ..AMPLE
        };
        let left = left_by(&rt, alloc, &setting, b"12345");
        assert_eq!(rt; left.out.taken(), taken.as_bytes(), "{taken}");
        assert_eq!(rt; left.status.code(), status, "{taken}");
        assert_eq!(rt; left.err.taken(), line.as_bytes(), "{taken}");
    }
}

/// Five lines.
const LINES: &str = "1\n2\n3\n45\n6\n";

/// Reads of four bytes: the schema takes a pick, four reads and one at the end, and so does the
/// document with three reads. What standard output took where the first call fails, the second one,
/// and so on; the last one is not made.
const BEFORE_FAULTS: [(u8, &str); 12] = [
    (4, ""),
    (4, ""),
    (4, ""),
    (4, ""),
    (4, ""),
    (4, ""),
    (4, ""),
    (4, ""),
    (4, "1\n2\n"),
    (4, "1\n2\n3\n"),
    (4, LINES),
    (0, LINES),
];

#[test]
fn lines_are_answered_before_a_fault(rt: HostRuntime) {
    let alloc = rt.alloc();
    for (call, (status, out)) in BEFORE_FAULTS.into_iter().enumerate() {
        let setting = Setting {
            command: "lines",
            piece: 4,
            failing_read: Some(call as u64),
            ..AMPLE
        };
        let left = left_by(&rt, alloc, &setting, LINES.as_bytes());
        assert_eq!(rt; left.status.code(), status, "{call}");
        assert_eq!(rt; left.out.taken(), out.as_bytes(), "{call}");
    }
}

#[test]
fn lines_are_the_same_in_pieces_of_any_size(rt: HostRuntime) {
    let alloc = rt.alloc();
    for piece in [1, 2, 3, 5, 4096] {
        let setting = Setting {
            command: "lines",
            piece,
            ..AMPLE
        };
        let left = left_by(&rt, alloc, &setting, LINES.as_bytes());
        assert_eq!(rt; left.status.code(), 0, "{piece}");
        assert_eq!(rt; left.out.taken(), LINES.as_bytes(), "{piece}");
    }
}

#[test]
fn lines_stop_where_standard_output_is_full(rt: HostRuntime) {
    let alloc = rt.alloc();
    let setting = Setting {
        command: "lines",
        room: 3,
        ..AMPLE
    };
    let left = left_by(&rt, alloc, &setting, LINES.as_bytes());
    assert_eq!(rt; left.status.code(), 6);
    assert_eq!(rt; left.out.taken(), b"1\n2".as_slice());
}
