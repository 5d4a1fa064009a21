use crate::fixtures::{cut, text, tree};
use pv_notation::{write_loc, write_tree};
use pv_ser::{InForce, Pick, PickFault, Picks, read_pick};
use pv_text::{ByteBuf, Text};
use pv_tree::{Members, Tree};
use std::alloc::Global;
use std::process::Abort;

/// A tree in each row, and the object that its pick is, or `true`, or the place of the first part
/// that cannot stand there.
const TABLE: &str = r#"true true
{} {}
{"a":true,"b":{"c":true}} {"a":true,"b":{"c":true}}
{"a":true,"b":true,"a":{}} {"a":{},"b":true}
[] {}
["b","a","b"] {"b":true,"a":true}
[0,-0,4294967295,"4294967295"] {"0":true,"4294967295":true}
{"__all__":["é",7]} {"__all__":{"é":true,"7":true}}
false []
null []
1 []
"a" []
{"a":{"b":false}} ["a","b"]
{"a":[true],"b":null} ["a",0]
["a",[],false] [1]
[0,-1] [1]
[4294967296] [0]
[1.0] [0]
[1e0] [0]
[{"a":true}] [0]"#;

/// What is included and what is excluded, the names that lead to a part of the value, and whether the
/// part is kept. `-` is no pick.
const KEPT: &str = r#"- - a yes
- - a.0.b yes
true - a.b yes
- true a yes
{} - a no
[] - a no
["a"] - a yes
["a"] - b no
["a"] - a.b yes
- ["a"] a no
- ["a"] b yes
- {"a":["b"]} a yes
- {"a":["b"]} a.b no
- {"a":["b"]} b.b yes
{"a":["b"]} - a.b yes
{"a":["b"]} - a.c no
["a"] ["a"] a no
{"a":true,"b":true} {"a":["x"]} a.x no
{"a":true,"b":true} {"a":["x"]} a.y yes
[0,2] - 0 yes
[0,2] - 1 no
- [1] 1 no
- [1] 10 yes
{"__all__":["id"]} - 0.id yes
{"__all__":["id"]} - 7.name no
{"__all__":["id"],"7":["name"]} - 7.name yes
{"__all__":["id"],"7":["name"]} - 7.id yes
{"__all__":["id"],"7":["name"]} - 8.name no
- {"__all__":["id"]} 0.id no
- {"__all__":["id"],"3":true} 3 no
- {"__all__":true} x no
["__all__"] - x yes
{"__all__":["x"]} - __all__.x yes
- {"__all__":["x"]} __all__.x no"#;

/// The pick that is written, or none.
fn pick_of(rt: &impl Abort, alloc: Global, word: &str) -> Option<Pick> {
    if word == "-" {
        return None;
    }
    match read_pick(alloc, &tree(rt, alloc, word.as_bytes())) {
        Ok(pick) => Some(pick),
        Err(_) => panic!(rt; "a pick"),
    }
}

/// Whether the part is kept to which these names lead.
fn is_kept(rt: &impl Abort, alloc: Global, include: &str, exclude: &str, names: &str) -> bool {
    let include = pick_of(rt, alloc, include);
    let exclude = pick_of(rt, alloc, exclude);
    let each = Text::from_str(alloc, "__all__").expect(rt, "memory");
    let mut in_force = InForce::at_root(alloc, include.as_ref(), exclude.as_ref()).expect(
        rt, "memory",
    );
    for name in names.split('.') {
        let name = text(rt, alloc, name);
        let Some(part) = in_force.at_part(alloc, &name, &each).expect(rt, "memory") else {
            return false;
        };
        in_force = part;
    }
    true
}

#[test]
fn picks_keep_parts(rt: HostRuntime) {
    let alloc = rt.alloc();
    for row in KEPT.lines() {
        let (include, rest) = cut(&rt, row);
        let (exclude, rest) = cut(&rt, rest);
        let (names, want) = cut(&rt, rest);
        assert_eq!(rt; is_kept(&rt, alloc, include, exclude, names), want == "yes");
    }
}

/// Whether picks have the names of these members and no others, under each what it has there.
#[cycle(read)]
fn have_members(members: &Members, picks: &Picks) -> bool {
    if picks.len() != members.len() {
        return false;
    }
    for (name, tree) in members.as_slice() {
        let Some(pick) = picks.get(name) else {
            return false;
        };
        if !is_read(tree, pick) {
            return false;
        }
    }
    true
}

/// Whether a pick is all, for `true`, or else this object.
#[cycle(read)]
fn is_read(tree: &Tree, pick: &Pick) -> bool {
    match pick {
        Pick::All => matches!(tree, Tree::Bool(true)),
        Pick::Some(picks) => match tree {
            Tree::Object(members) => have_members(members, picks),
            Tree::Null | Tree::Bool(_) | Tree::Num(_) | Tree::Str(_) | Tree::Array(_) => false,
        },
    }
}

/// Whether what is read of a tree is the object, or all, or the place, that is wanted.
fn reads(rt: &impl Abort, alloc: Global, tree: &Tree, want: &Tree) -> bool {
    match read_pick(alloc, tree) {
        Ok(pick) => is_read(want, &pick),
        Err(PickFault::Shape { path }) => {
            let mut place = ByteBuf::new(alloc);
            let mut wanted = ByteBuf::new(alloc);
            write_loc(&path, &mut place).expect(rt, "memory");
            write_tree(want, &mut wanted).expect(rt, "memory");
            place.as_slice() == wanted.as_slice()
        }
        Err(PickFault::Memory) => panic!(rt; "memory"),
    }
}

#[test]
fn trees_are_read_as_picks(rt: HostRuntime) {
    let alloc = rt.alloc();
    for row in TABLE.lines() {
        let (json, want) = cut(&rt, row);
        let read = tree(&rt, alloc, json.as_bytes());
        let want = tree(&rt, alloc, want.as_bytes());
        assert!(rt; reads(&rt, alloc, &read, &want));
    }
}
