use crate::fixtures::{cut, value};
use pv_equality::{hashable, same};

/// Notations of two values, and between them whether the values are the same.
const PAIRS: &str = r#"null != false
true == 1
false == {"number":"-0.0e9"}
1 == {"number":"10e-1"}
{"number":"1.5"} != 1
"1" != 1
{"number":"1e99999999999999999999"} == {"number":"10e99999999999999999998"}
"a" == "a"
"a" != {"bytes":"61"}
{"url":"a"} == {"url":"a"}
{"url":"a"} != {"date":"a"}
{"enum":["C","R",1]} == {"enum":["C","R",1]}
{"enum":["C","R",1]} != {"enum":["C","B",1]}
{"enum":["C","R",1]} != {"enum":["C","R",2]}
[1,2] == [1,2]
[1,2] != [2,1]
[1,2] != {"tuple":[1,2]}
{"set":[1,2]} == {"frozenset":[2,1]}
{"set":[1,1]} != {"set":[1,2]}
{"set":[1,2]} != [1,2]
{"dict":[[1,null],[2,7]]} == {"dict":[[1,null],[2,7]]}
{"dict":[[1,null],[2,7]]} != {"dict":[[2,null],[1,7]]}
{"dict":[[1,null],[2,7]]} == {"dict":[[2,7],[1,null]]}
{"model":["M",[["a",1]],["a"],[["b",1]]]} == {"model":["M",[["a",1]],["b"],[["b",1]]]}
{"model":["M",[["a",1]],["a"],[["b",1]]]} != {"model":["M",[["a",1]],["a"],[["b",2]]]}
{"model":["M",[["a",1]],["a"],[["b",1]]]} != {"model":["N",[["a",1]],["a"],[["b",1]]]}
{"root":["M",1]} != {"root":["M",2]}"#;

/// Notations of values, behind whether they may be items of a set.
const HASHABLE: &str = r#"true {"tuple":[1,2]}
true {"frozenset":[1,2]}
true {"enum":["C","R",1]}
false [1,2]
false {"set":[1,2]}
false {"root":["M",1]}
false {"tuple":[null,[1,2]]}"#;

#[test]
fn values_are_told_apart(rt: HostRuntime) {
    let alloc = rt.alloc();
    for row in PAIRS.lines() {
        let (left, rest) = cut(&rt, row);
        let (sign, right) = cut(&rt, rest);
        let left = value(&rt, alloc, left);
        let right = value(&rt, alloc, right);
        assert!(rt; same(&left, &right) == (sign == "=="), "{row}");
        assert!(rt; same(&right, &left) == (sign == "=="), "{row}");
    }
}

#[test]
fn hashable_values_may_be_items_of_sets(rt: HostRuntime) {
    let alloc = rt.alloc();
    for row in HASHABLE.lines() {
        let (want, notation) = cut(&rt, row);
        let value = value(&rt, alloc, notation);
        assert!(rt; hashable(&value) == (want == "true"), "{row}");
    }
}
