use crate::fixtures::{bytes_of, compact, cut, tree};
use pv_json::{ReadFault, read};
use pv_tree::Tree;
use std::alloc::Global;
use std::process::Abort;

/// What is read of an input, and behind a colon the input: the whole, up to its end where it wants
/// more bytes, or up to the place of a byte that fits nowhere. `%` and two digits stand for a byte.
const INPUTS: &str = r#"whole:null
whole:true
whole:false
whole:%20%09%0d%0a0 %09%0d%0a
whole:-0.5e+3
whole:[]
whole:[ ]
whole:{ }
whole:[1 , 2]
whole:{"a" : 1 , "b" : {}}
whole:"%7f%c2%80%df%bf%e0%a0%80%ed%9f%bf%ee%80%80%f0%90%80%80%f4%8f%bf%bf"
whole:"\"\\\/\b\f\n\r\t"
whole:"%c3%a9"
whole:"a%c3%a9\u0041b"
whole:"\n%c3%a9c"
end:"%c3%a9
end:"%c3%a9\n
3:"%c3%a9%80"
3:"%c3%a9%1f"
end:nul
end:-
end:1.
end:"a
end:"%e2%82
end:
end:%20%0a
end:[1,
end:[1
end:{"a":
end:{"a"
end:1e+
end:"\
end:"\ud83d\
end:"\u00e
3:nulL
2:1.x
7:{"a":1,}
3:"a\x
4:"\udc00"
8:"\ud800\n"
2:"%c3(
0:%ef%bb%bf1
1:01
0:+1
0:.5
2:1 2
3:[1,]
1:[,1]
3:[1 2]
2:[1}
1:{1:2}
5:{"a" 1}
6:{"a":1]
0:NaN
1:-Infinity
0:True
7:"\ud800"
9:"\ud800\u0041"
10:"\ud800\ud800"
6:"\u00eg"
1:"%1f"
2:"%e0%80%80"
2:"%ed%a0%80"
1:"%c1%81"
2:"%f4%90%80%80"
1:"%f5
1:"%80""#;

/// How far an input is read that is refused for this, or for nothing.
fn told(rt: &impl Abort, alloc: Global, fault: Option<&ReadFault>) -> String {
    match fault {
        Some(ReadFault::Bad { at }) => format!(in alloc; "{at}").expect(rt, "memory"),
        Some(ReadFault::End) => "end".to_string(alloc).expect(rt, "memory"),
        Some(ReadFault::Memory) => "memory".to_string(alloc).expect(rt, "memory"),
        None => "whole".to_string(alloc).expect(rt, "memory"),
    }
}

#[test]
fn inputs_are_read_or_refused_at_their_place(rt: HostRuntime) {
    let alloc = rt.alloc();
    for row in INPUTS.lines() {
        let (want, input) = row.split_once(':').expect(&rt, "a row");
        let fault = read(alloc, bytes_of(&rt, alloc, input).as_slice()).err();
        assert_eq!(rt; told(&rt, alloc, fault.as_ref()).as_str(), want, "{row}");
    }
}

#[test]
fn containers_nest_128_deep(rt: HostRuntime) {
    let open = [b'['; 129];
    let refused = read(rt.alloc(), &open).err();
    assert_eq!(rt; refused, Some(ReadFault::Bad { at: 128 }));
    let unended = read(rt.alloc(), &open[..128]).err();
    assert_eq!(rt; unended, Some(ReadFault::End));
    let mut closed = [b'['; 256];
    closed[128..].fill(b']');
    assert_eq!(rt; read(rt.alloc(), &closed).err(), None);
}

/// Documents, and their compact form behind a space: names and texts with escapes, and objects with
/// repeated names, few, and more than are compared one by one.
const COMPACT: &str =
    r#"{"a":1,"\u00E9\ud83D\uDE00\n":-0.50E+3,"b":[null,true,"é"]} {"a":1,"é😀\n":-0.50E+3,"b":[null,true,"é"]}
{"a":1,"b":2,"a":[null]} {"a":[null],"b":2}
{"a":0,"b":1,"c":2,"d":3,"e":4,"f":5,"g":6,"h":7,"i":8,"j":9,"k":10,"l":11,"m":12,"n":13,"o":14,"p":15,"q":16} {"a":0,"b":1,"c":2,"d":3,"e":4,"f":5,"g":6,"h":7,"i":8,"j":9,"k":10,"l":11,"m":12,"n":13,"o":14,"p":15,"q":16}
{"a":0,"b":1,"c":2,"d":3,"e":4,"f":5,"g":6,"h":7,"i":8,"j":9,"k":10,"l":11,"m":12,"n":13,"o":14,"p":15,"b":16,"q":17,"a":18} {"a":18,"b":16,"c":2,"d":3,"e":4,"f":5,"g":6,"h":7,"i":8,"j":9,"k":10,"l":11,"m":12,"n":13,"o":14,"p":15,"q":17}"#;

#[test]
fn documents_are_told_as_trees(rt: HostRuntime) {
    let alloc = rt.alloc();
    for row in COMPACT.lines() {
        let (document, want) = cut(&rt, row);
        let read = tree(&rt, alloc, document);
        assert_eq!(rt; compact(&rt, alloc, &read).as_slice(), want.as_bytes());
    }
}

/// How many bytes a text, how many items an array or how many members an object has.
fn size_of_document(rt: &impl Abort, alloc: Global, document: &str) -> usize {
    match &tree(rt, alloc, document) {
        Tree::Str(text) => text.as_str().len(),
        Tree::Array(items) => items.len(),
        Tree::Object(members) => members.len(),
        Tree::Null | Tree::Bool(_) | Tree::Num(_) => 0,
    }
}

/// A text of so many letters.
fn long_text(rt: &impl Abort, alloc: Global, letters: u32) -> String {
    let mut document = String::new(alloc);
    document.push_str("\"").expect(rt, "memory");
    for _ in 0..letters {
        document.push_str("a").expect(rt, "memory");
    }
    document.push_str("\"").expect(rt, "memory");
    document
}

/// An array of so many empty objects.
fn many_objects(rt: &impl Abort, alloc: Global, count: u32) -> String {
    let mut document = String::new(alloc);
    document.push_str("[{}").expect(rt, "memory");
    for _ in 1..count {
        document.push_str(",{}").expect(rt, "memory");
    }
    document.push_str("]").expect(rt, "memory");
    document
}

/// An object of so many members, each with its place as its name.
fn many_members(rt: &impl Abort, alloc: Global, count: u32) -> String {
    let mut document = String::new(alloc);
    document.push_str("{\"0\":0").expect(rt, "memory");
    for place in 1..count {
        write!(document, ",\"{place}\":0").expect(rt, "memory");
    }
    document.push_str("}").expect(rt, "memory");
    document
}

#[test]
fn a_text_of_four_mebibytes_is_read(rt: HostRuntime) {
    let alloc = rt.alloc();
    let text = long_text(&rt, alloc, 4_194_302);
    assert_eq!(rt; size_of_document(&rt, alloc, text.as_str()), 4_194_302);
}

#[test]
fn many_objects_are_read(rt: HostRuntime) {
    let alloc = rt.alloc();
    let objects = many_objects(&rt, alloc, 600_000);
    assert_eq!(rt; size_of_document(&rt, alloc, objects.as_str()), 600_000);
}

#[test]
fn many_names_are_read(rt: HostRuntime) {
    let alloc = rt.alloc();
    let members = many_members(&rt, alloc, 300_000);
    assert_eq!(rt; size_of_document(&rt, alloc, members.as_str()), 300_000);
}
