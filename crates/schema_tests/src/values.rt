use crate::fixtures::{cut, tree};
use ValueKind::{
    Alias, Anything, AtLeastOne, Count, EmptyList, Engine, ExtraBehavior, False, Flag, Function,
    Int, Literals, Members, OnError, Revalidation, SubType, Text, Texts, True, UnionMode, Version,
};
use pv_rules::Literal;
use pv_schema_values::{ValueKind, is_value, members_of};
use std::alloc::Global;
use std::process::Abort;

const KINDS: [ValueKind; 21] = [
    Anything,
    Text,
    Flag,
    False,
    True,
    Count,
    Int,
    AtLeastOne,
    Version,
    Engine,
    SubType,
    Texts,
    Literals,
    Members,
    ExtraBehavior,
    OnError,
    Revalidation,
    EmptyList,
    Alias,
    UnionMode,
    Function,
];

/// JSON, and the kinds of values that it may stand for.
const VALUES: &str = r#"null Anything
{} Anything
true Anything Flag True
false Anything Flag False
-1 Anything Int
-0 Anything Count Int
0 Anything Count Int
1 Anything Count Int AtLeastOne Version
8 Anything Count Int AtLeastOne Version
9 Anything Count Int AtLeastOne
4294967295 Anything Count Int AtLeastOne
4294967296 Anything Int AtLeastOne
18446744073709551617 Anything Int AtLeastOne
170141183460469231731687303715884105727 Anything Int AtLeastOne
170141183460469231731687303715884105728 Anything
-170141183460469231731687303715884105728 Anything Int
1.0 Anything
1e0 Anything
"" Anything Text Alias
"int" Anything Text SubType Alias
"str" Anything Text SubType Alias
"float" Anything Text Alias
"Int" Anything Text Alias
"rust-regex" Anything Text Engine Alias
"python-re" Anything Text Alias
[] Anything EmptyList
["a","a"] Anything Texts Literals Alias
[null,true,1,"a"] Anything Literals
["a",0.5] Anything
[{}] Anything
[1,{}] Anything
[["A",1],["B",2]] Anything Members Alias
[["A",1],["B","1"]] Anything Members Alias
[["A","B"],["B","A"]] Anything Members Alias
[["A",1],["A",2]] Anything Alias
[["A",0],["B",-0]] Anything Alias
[["A","x"],["B","x"]] Anything Alias
[["A",true]] Anything
[["A",null]] Anything
[["A",2.0]] Anything
[[1,1]] Anything
[[]] Anything
[["A"]] Anything Alias
[["A",1,1]] Anything Alias
"ignore" Anything Text ExtraBehavior Alias
"allow" Anything Text ExtraBehavior Alias
"forbid" Anything Text ExtraBehavior Alias
"raise" Anything Text OnError Alias
"default" Anything Text OnError Alias
"always" Anything Text Revalidation Alias
"never" Anything Text Revalidation Alias
"subclass-instances" Anything Text Revalidation Alias
"smart" Anything Text UnionMode Alias
"left_to_right" Anything Text UnionMode Alias
"left-to-right" Anything Text Alias
{"type":"no-info","function":"f"} Anything Function
{"function":"","type":"no-info"} Anything Function
{"type":"no-info","function":null} Anything
{"type":"with-info","function":"f"} Anything
{"type":"no-info","schema":"f"} Anything
{"type":"no-info"} Anything
{"type":"no-info","function":"f","schema":{}} Anything
["a",4294967295] Anything Literals Alias
["a",4294967296] Anything Literals
[["a"],"b"] Anything"#;

fn has_word(words: &str, name: &str) -> bool {
    for word in words.split(' ') {
        if word == name {
            return true;
        }
    }
    false
}

#[test]
fn json_stands_for_values_of_its_kinds(rt: HostRuntime) {
    let alloc = rt.alloc();
    for row in VALUES.lines() {
        let (json, kinds) = cut(&rt, row);
        let tree = tree(&rt, alloc, json.as_bytes());
        for kind in KINDS {
            let stands = is_value(alloc, kind, &tree).expect(&rt, "memory");
            let name = format!(in alloc; "{kind:?}").expect(&rt, "memory");
            assert!(rt; stands == has_word(kinds, name.as_str()), "{row} {kind:?}");
        }
    }
}

/// So many members, each with its place as its name and its value, as JSON.
fn members(rt: &impl Abort, alloc: Global, count: u32) -> String {
    let mut json = String::new(alloc);
    json.push_str("[").expect(rt, "memory");
    for place in 0..count {
        let comma = if place == 0 { "" } else { "," };
        write!(json, "{comma}[\"{place}\",{place}]").expect(rt, "memory");
    }
    json.push_str("]").expect(rt, "memory");
    json
}

#[test]
fn a_hundred_thousand_members_are_told_apart(rt: HostRuntime) {
    let alloc = rt.alloc();
    let json = members(&rt, alloc, 100_000);
    let tree = tree(&rt, alloc, json.as_bytes());
    let members = members_of(alloc, &tree).expect(&rt, "memory");
    let members = members.expect(&rt, "members");
    assert_eq!(rt; members.len(), 100_000);
    let last = members.get(99_999).expect(&rt, "a last member");
    assert_eq!(rt; last.name.as_str(), "99999");
    assert!(rt; matches!(last.value, Literal::Int(99_999)));
}
