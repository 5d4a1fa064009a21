use crate::fixtures::{cut, entries_of, notation, tree, values_of};
use pv_distinct::{distinct, merged, merged_named};
use pv_tree::{Tree, Value};
use sqlite_items::Items;
use std::process::Abort;

/// Notations of items that come to a set, and of those that it keeps.
const ITEMS: &str = r#"[] []
[1,2,30] [1,2,30]
[1,2,2,1] [1,2]
["a","ab","b"] ["a","ab","b"]
["a","b","b"] ["a","b"]
[1,"1",true,{"number":"10e-1"},"1"] [1,"1"]
[1,2,3,4,5,6,7,8,9,9] [1,2,3,4,5,6,7,8,9]
["a","b","c","d","e","f","g","h","i","a"] ["a","b","c","d","e","f","g","h","i"]
[9,8,7,6,5,4,3,2,1,true,{"number":"90e-1"}] [9,8,7,6,5,4,3,2,1]
[1,"1",{"number":"1e999999999999999999999"},true,{"number":"10e-1"},{"number":"10e999999999999999999998"},"1",{"frozenset":[{"frozenset":[1,2]},"a"]},{"frozenset":["a",{"frozenset":[{"number":"2.0"},1]}]},{"tuple":[1,2]},{"tuple":[2,1]},{"frozenset":[1,1]}] [1,"1",{"number":"1e999999999999999999999"},{"frozenset":[{"frozenset":[1,2]},"a"]},{"tuple":[1,2]},{"tuple":[2,1]},{"frozenset":[1,1]}]"#;

/// Notations of entries that come to a dict, as pairs, and of the dict.
const ENTRIES: &str = r#"[] {"dict":[]}
[["a",1],["b",2]] {"dict":[["a",1],["b",2]]}
[["a",1],["b",2],["b",3]] {"dict":[["a",1],["b",3]]}
[[1,"a"],[2,"b"],[true,"c"],[{"number":"1.0"},"d"]] {"dict":[[1,"d"],[2,"b"]]}
[[9,0],[8,0],[7,0],[6,0],[5,0],[4,0],[3,0],[2,0],[1,0],[true,1],[8,2],[1,3]] {"dict":[[9,0],[8,2],[7,0],[6,0],[5,0],[4,0],[3,0],[2,0],[1,3]]}"#;

/// Names of an object, and behind them the same for entries that came from its members.
const NAMED: &str = r#"{"b":0,"a":0} [["b",1],["a",2]] {"dict":[["b",1],["a",2]]}
{"b":0,"a":0} [["b",1],["b",2]] {"dict":[["b",2]]}
{"b":0,"a":0} [["b",1]] {"dict":[["b",1]]}
{"1":0,"01":0} [[1,"a"],[1,"b"]] {"dict":[[1,"b"]]}"#;

#[test]
fn items_are_kept_once(rt: HostRuntime) {
    let alloc = rt.alloc();
    for row in ITEMS.lines() {
        let (given, want) = cut(&rt, row);
        let kept = distinct(alloc, values_of(&rt, alloc, given)).expect(&rt, "memory");
        let kept = notation(&rt, alloc, &Value::List(Items::from_vec(kept)));
        assert!(rt; kept.as_slice() == want.as_bytes(), "{row}");
    }
}

#[test]
fn keys_are_kept_once_with_their_last_values(rt: HostRuntime) {
    let alloc = rt.alloc();
    for row in ENTRIES.lines() {
        let (given, want) = cut(&rt, row);
        let kept = merged(alloc, entries_of(&rt, alloc, given)).expect(&rt, "memory");
        let kept = notation(&rt, alloc, &Value::Dict(Items::from_vec(kept)));
        assert!(rt; kept.as_slice() == want.as_bytes(), "{row}");
    }
}

#[test]
fn entries_of_an_object_are_merged_alike(rt: HostRuntime) {
    let alloc = rt.alloc();
    for row in NAMED.lines() {
        let (object, rest) = cut(&rt, row);
        let (given, want) = cut(&rt, rest);
        let Tree::Object(members) = tree(&rt, alloc, object) else {
            continue;
        };
        let kept = merged_named(alloc, &members, entries_of(&rt, alloc, given)).expect(
            &rt, "memory",
        );
        let kept = notation(&rt, alloc, &Value::Dict(Items::from_vec(kept)));
        assert!(rt; kept.as_slice() == want.as_bytes(), "{row}");
    }
}
