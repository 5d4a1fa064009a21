//! Lines of files, by limits, by the pieces in which they come, and where reads fail.

ghost use Rattle.std.specs.Prelude.{◌≡◌, ◌<◌, ◌≤◌, ◌^◌, false};

use crate::fixtures::text;
use pv_edge::{LineFault, Lines, MemShelf, Next, Shelf};
use pv_text::Bytes;
use std::alloc::Global;
use std::process::Abort;

/// What a reader answers, as text: each line in brackets, then `.` at the end, `!` where a line or the
/// file is too large, and `?` where a read fails.
fn answers(rt: &impl Abort, alloc: Global, lines: &mut Lines, shelf: &mut MemShelf) -> Vec<u8>
    requires given { shelf.old.given ≡ 0 }
    requires limit { lines.old.line_limit ≤ 2 ^ 30 }
    requires closed { lines.old.closed ≡ false }
{
    let mut all = Vec::new(alloc);
    for _ in 0..16usize {
        let (mark, more) = match lines.next(shelf) {
            Ok(Next::Line) => (b']', true),
            Ok(Next::End) => (b'.', false),
            Err(LineFault::TooLarge) => (b'!', false),
            Err(LineFault::Failed) => (b'?', false),
        };
        if more {
            all.push(b'[').expect(rt, "memory");
        }
        all.extend_from_slice(lines.line()).expect(rt, "memory");
        all.push(mark).expect(rt, "memory");
        if !more {
            break;
        }
    }
    all
}

/// What a reader answers to a picked file that comes in pieces, where one pick or read may fail.
fn answers_of(
    rt: &impl Abort,
    alloc: Global,
    content: &str,
    limits: (u32, u64),
    piece: usize,
    failing: Option<u64>,
) -> Vec<u8>
    requires piece { 0 < piece }
    requires line { limits.0 ≤ 2 ^ 30 }
    requires file { limits.1 ≤ 2 ^ 40 }
{
    let mut shelf = MemShelf::new(alloc, piece);
    let bytes = Bytes::from_slice(alloc, content.as_bytes()).expect(rt, "memory");
    shelf.put(text(rt, alloc, "a"), bytes).expect(rt, "a file");
    if let Some(call) = failing {
        shelf.fail(call).expect(rt, "memory");
    }
    shelf.pick("a").expect(rt, "a file");
    let mut lines = Lines::new(alloc, limits.0, limits.1).expect(rt, "memory");
    answers(rt, alloc, &mut lines, &mut shelf)
}

/// A file, the limits of a line and of the file, and what a reader answers.
const FILES: [(&str, u32, u64, &str); 21] = [
    ("", 3, 99, "."),
    ("\n", 3, 99, "[]."),
    ("\n\n", 3, 99, "[][]."),
    ("a", 3, 99, "[a]."),
    ("a\n", 3, 99, "[a]."),
    ("a\n\nbc\n", 3, 99, "[a][][bc]."),
    ("a\n\nbc", 3, 99, "[a][][bc]."),
    ("abc\nabc", 3, 99, "[abc][abc]."),
    ("abcd", 3, 99, "!"),
    ("abcd\n", 3, 99, "!"),
    ("a\nabcd\nb\n", 3, 99, "[a]!"),
    ("ab\ncd\n", 9, 6, "[ab][cd]."),
    ("ab\ncd\n", 9, 5, "[ab]!"),
    ("ab\ncd", 9, 5, "[ab][cd]."),
    ("ab\ncd", 9, 4, "[ab]!"),
    ("ab\n", 9, 2, "!"),
    ("ab\nabcd", 3, 6, "[ab]!"),
    ("", 0, 0, "."),
    ("\n", 0, 1, "[]."),
    ("\n", 0, 0, "!"),
    ("a", 0, 9, "!"),
];

#[test]
fn files_are_cut_into_lines(rt: HostRuntime) {
    let alloc = rt.alloc();
    for piece in [1, 4, 4096] {
        for (content, line_limit, file_limit, told) in FILES {
            assert!(rt; piece > 0 && line_limit < 100 && file_limit < 100);
            let limits = (line_limit, file_limit);
            let answers = answers_of(&rt, alloc, content, limits, piece, None);
            assert_eq!(rt;
                answers.as_slice(),
                told.as_bytes(),
                "{content} within {line_limit} and {file_limit}"
            );
        }
    }
}

/// Which call fails, the pick being that of number 0, and what a reader of `a`, `b` and `c` answers.
const FAILING: [(u64, &str); 6] = [
    (1, "?"),
    (2, "?"),
    (3, "[a]?"),
    (5, "[a][b]?"),
    (6, "[a][b]?"),
    (7, "[a][b][c]."),
];

#[test]
fn each_failing_read_of_lines_is_told(rt: HostRuntime) {
    let alloc = rt.alloc();
    for (call, told) in FAILING {
        let answers = answers_of(&rt, alloc, "a\nb\nc", (9, 99), 1, Some(call));
        assert_eq!(rt; answers.as_slice(), told.as_bytes(), "call {call}");
    }
}
