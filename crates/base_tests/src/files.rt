ghost use Rattle.std.specs.Prelude.{◌≡◌, ◌<◌};

use crate::fixtures::text;
use pv_edge::{Failed, LoadFault, MemShelf, MemSink, PutFault, load, put_all};
use pv_text::Bytes;
use std::alloc::Global;
use std::process::Abort;

/// Bytes that tell a missing or a repeated piece from none.
fn content_of(rt: &impl Abort, alloc: Global, len: usize) -> Vec<u8> {
    let mut content = Vec::new(alloc);
    for i in 0..len {
        content.push((i % 251) as u8).expect(rt, "memory");
    }
    content
}

/// A shelf with the file `a` of so many bytes.
fn shelf_of(rt: &impl Abort, alloc: Global, piece: usize, len: usize) -> MemShelf
    requires { 0 < piece }
    ensures { result.given ≡ 0 }
{
    let mut shelf = MemShelf::new(alloc, piece);
    let content = Bytes::from_vec(content_of(rt, alloc, len));
    shelf
        .put(text(rt, alloc, "a"), content)
        .expect(rt, "a file");
    shelf
}

/// Lengths of a file and limits.
const LENGTHS: [(usize, u64); 8] = [
    (0, 3),
    (3, 3),
    (4, 3),
    (0, 0),
    (1, 0),
    (4096, 4096),
    (4097, 4096),
    (9000, 9000),
];

#[test]
fn files_are_read_up_to_the_limit(rt: HostRuntime) {
    let alloc = rt.alloc();
    for piece in [1, 4096, 100_000] {
        for (len, limit) in LENGTHS {
            assert!(rt; piece > 0 && limit < 10_000);
            let mut shelf = shelf_of(&rt, alloc, piece, len);
            let content = content_of(&rt, alloc, len);
            match load(alloc, &mut shelf, "a", limit) {
                Ok(bytes) => {
                    assert!(rt; len as u64 <= limit, "{len} bytes within {limit}");
                    assert_eq!(rt; bytes.as_slice(), content.as_slice());
                }
                Err(fault) => {
                    assert!(rt; len as u64 > limit, "{len} bytes over {limit}");
                    assert_eq!(rt; fault, LoadFault::TooLarge);
                }
            }
        }
    }
}

#[test]
fn each_failing_read_is_told(rt: HostRuntime) {
    let alloc = rt.alloc();
    // A file of three bytes, one a read, takes a pick, three reads and one that finds the end.
    for call in 0..6 {
        let mut shelf = shelf_of(&rt, alloc, 1, 3);
        shelf.fail(call).expect(&rt, "memory");
        match load(alloc, &mut shelf, "a", 3) {
            Ok(bytes) => assert!(rt; call == 5 && bytes.as_slice() == [0, 1, 2].as_slice()),
            Err(fault) => assert!(rt; call < 5 && fault == LoadFault::Failed),
        }
    }
    let mut shelf = shelf_of(&rt, alloc, 1, 3);
    let missing = load(alloc, &mut shelf, "b", 3).err();
    assert_eq!(rt; missing, Some(LoadFault::Failed));
    let content = Bytes::from_vec(content_of(&rt, alloc, 1));
    assert_eq!(rt;
        shelf.put(text(&rt, alloc, "a"), content),
        Err(PutFault::NameTaken)
    );
}

/// How many bytes a sink takes a write and in all, which of its writes fails, and what it takes of
/// `abc`.
const SINKS: [(usize, usize, u64, &str); 7] = [
    (1, 3, 9, "abc"),
    (9, 3, 9, "abc"),
    (1, 1, 9, "a"),
    (2, 1, 9, "a"),
    (9, 0, 9, ""),
    (1, 9, 1, "a"),
    (2, 9, 1, "ab"),
];

#[test]
fn bytes_are_put_as_far_as_there_is_room(rt: HostRuntime) {
    for (piece, room, call, taken) in SINKS {
        assert!(rt; piece > 0);
        let mut sink = MemSink::new(rt.alloc(), piece, room).expect(&rt, "memory");
        sink.fail(call).expect(&rt, "memory");
        let put = put_all(&mut sink, b"abc");
        assert_eq!(rt; put, if taken == "abc" { Ok(()) } else { Err(Failed) });
        assert_eq!(rt;
            sink.taken(),
            taken.as_bytes(),
            "{piece} a write, {room} in all"
        );
    }
}
