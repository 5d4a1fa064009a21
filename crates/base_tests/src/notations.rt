use crate::fixtures::{compact, notation, tree, value};
use pv_tree::Value;
use sqlite_items::Items;

/// A notation of each kind of value.
const NOTATIONS: &str = r#"null
false
-170141183460469231731687303715884105728
{"number":"1.50"}
"a\"\\\b\f\n\r\t\u001f/é"
{"bytes":"00abff"}
{"uuid":"67e55044-10b1-426f-9247-bb680e5fe0c8"}
{"url":"http://a/"}
{"date":"D"}
{"time":"T"}
{"datetime":"T"}
{"decimal":"1.0"}
[]
[1,[true]]
{"tuple":[1]}
{"set":[1]}
{"frozenset":[]}
{"dict":[[true,null],[-2,false]]}
{"dict":[]}
{"enum":["C","N",1]}
{"root":["R",null]}
{"model":["M",[["x",1]],["y"],[["z",1]]]}
{"model":["M",[],[],[]]}
{"set":[{"frozenset":[{"tuple":["a",{"bytes":""}]}]}]}"#;

#[test]
fn each_kind_of_value_is_copied_and_has_its_notation(rt: HostRuntime) {
    let alloc = rt.alloc();
    for want in NOTATIONS.lines() {
        let value = value(&rt, alloc, want);
        let copied = value.copy(alloc).expect(&rt, "memory");
        let written = notation(&rt, alloc, &copied);
        assert_eq!(rt; written.as_slice(), want.as_bytes(), "{want}");
    }
}

#[test]
fn blanks_of_a_document_are_not_written(rt: HostRuntime) {
    let alloc = rt.alloc();
    let spaced = tree(
        &rt,
        alloc,
        " { \"a\" : -0.50e+1 ,\n\"b\": [ null, true ] } ",
    );
    let want = br#"{"a":-0.50e+1,"b":[null,true]}"#.as_slice();
    assert_eq!(rt; compact(&rt, alloc, &spaced).as_slice(), want);
}

#[test]
fn a_thousand_nested_values_are_copied_and_printed(rt: HostRuntime) {
    let alloc = rt.alloc();
    let mut value = Value::List(Items::new(alloc));
    for _ in 0..999u32 {
        let mut items = Items::new(alloc);
        items.push(value).expect(&rt, "memory");
        value = Value::List(items);
    }
    let copied = value.copy(alloc).expect(&rt, "memory");
    assert_eq!(rt; notation(&rt, alloc, &copied).len(), 2000);
}
