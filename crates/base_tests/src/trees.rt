use crate::fixtures::{compact, location, notation, text, tree};
use pv_tree::{Loc, Step, Tree, plain_value};

#[test]
fn a_repeated_name_keeps_its_place_and_its_last_value(rt: HostRuntime) {
    let alloc = rt.alloc();
    let read = tree(&rt, alloc, r#"{"b":true,"a":null,"b":7}"#);
    let merged = read.share(alloc).expect(&rt, "memory");
    assert_eq!(rt;
        compact(&rt, alloc, &merged).as_slice(),
        br#"{"b":7,"a":null}"#.as_slice()
    );
    let mut items = Vec::new(alloc);
    items.push(merged).expect(&rt, "memory");
    let array = Tree::array(alloc, items).expect(&rt, "memory");
    let plain = plain_value(alloc, &array).expect(&rt, "memory");
    let copied = plain.copy(alloc).expect(&rt, "memory");
    let want = br#"[{"dict":[["b",7],["a",null]]}]"#.as_slice();
    assert_eq!(rt; notation(&rt, alloc, &copied).as_slice(), want);
}

#[test]
fn trees_lend_what_they_hold(rt: HostRuntime) {
    let alloc = rt.alloc();
    let object = tree(&rt, alloc, r#"{"a":[null,true,1.50,"é"]}"#);
    let Tree::Object(members) = &object else {
        panic!(rt; "an object");
    };
    assert_eq!(rt; members.len(), 1);
    let (name, array) = members.get(0).expect(&rt, "a member");
    assert_eq!(rt; name.as_str(), "a");
    let Some([nothing, flag, number, word]) = array.as_array() else {
        panic!(rt; "four items");
    };
    assert!(rt; nothing.is_null() && !object.is_null());
    assert_eq!(rt; flag.as_flag(), Some(true));
    assert!(rt;
        number
            .as_lexeme()
            .is_some_and(|n| n.as_slice() == b"1.50".as_slice())
    );
    assert!(rt; word.as_text().is_some_and(|text| text.as_str() == "é"));
    assert!(rt; object.as_object().is_some_and(|all| all.len() == 1));
    assert!(rt; object.as_array().is_none() && array.as_object().is_none());
}

#[test]
fn locations_grow_at_both_ends(rt: HostRuntime) {
    let alloc = rt.alloc();
    let mut loc = Loc::new(alloc);
    loc.push(Step::Index(3)).expect(&rt, "memory");
    loc.push_front(Step::Name(text(&rt, alloc, "a")))
        .expect(&rt, "memory");
    loc.push(Step::Index(12)).expect(&rt, "memory");
    assert_eq!(rt;
        location(&rt, alloc, &loc).as_slice(),
        br#"["a",3,12]"#.as_slice()
    );
    let mut copied = loc.copy(alloc).expect(&rt, "memory");
    assert_eq!(rt; copied.len(), 3);
    copied.cut(2);
    assert_eq!(rt;
        location(&rt, alloc, &copied).as_slice(),
        br#"["a",3]"#.as_slice()
    );
    loc.drop_front();
    assert_eq!(rt; location(&rt, alloc, &loc).as_slice(), b"[3,12]".as_slice());
}
