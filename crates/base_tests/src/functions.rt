//! Shipped functions, and the registry that finds them by their names.

use crate::fixtures::{compact, notation, text, tree, value};
use pv_func::{
    AddFault, AfterFn, BeforeFn, FuncKind, Made, Objects, PlainFn, Raise, Raw, Registry,
};
use pv_shipped::{Even, Pair, Positive, SplitCommas, Strip, Unhex, Upper};
use pv_text::ByteBuf;
use std::alloc::Global;
use std::process::Abort;

/// Inputs, and what the function gives or raises for them.
const STRIPS: &str = r#"" a b\t" => "a b"
"\u2003a\u001f" => "a\u001f"
[" a"] => [" a"]"#;

const SPLITS: &str = r#""1,,2" => ["1","","2"]
"" => [""]
7 => 7"#;

const EVENS: &str = r#"4 => 4
-2 => -2
3 => value_error:not even
"4" => value_error:not even
170141183460469231731687303715884105726 => 170141183460469231731687303715884105726"#;

const POSITIVES: &str = r#"1 => 1
0 => assertion_error:not positive
-1 => assertion_error:not positive
true => assertion_error:not positive"#;

const UPPERS: &str = r#""aZ\u00e9" => "AZé"
7 => not_text:A text is wanted"#;

const UNHEXES: &str = r#""fF0a" => {"bytes":"ff0a"}
"" => {"bytes":""}
"abc" => value_error:not hexadecimal
"0g" => value_error:not hexadecimal
7 => value_error:not hexadecimal"#;

fn raised(rt: &impl Abort, alloc: Global, raise: &Raise) -> ByteBuf {
    let (kind, words) = match raise {
        Raise::Value(words) => ("value_error", words.as_str()),
        Raise::Assertion(words) => ("assertion_error", words.as_str()),
        Raise::Custom { kind, message } => (kind.as_str(), message.as_str()),
    };
    let mut out = ByteBuf::new(alloc);
    for part in [kind, ":", words] {
        out.push_slice(part.as_bytes()).expect(rt, "memory");
    }
    out
}

fn shown_made(rt: &impl Abort, alloc: Global, made: &Made) -> ByteBuf {
    match made {
        Made::Give(value) => notation(rt, alloc, value),
        Made::Raise(raise) => raised(rt, alloc, raise),
    }
}

fn shown_raw(rt: &impl Abort, alloc: Global, raw: &Raw) -> ByteBuf {
    match raw {
        Raw::Give(tree) => compact(rt, alloc, tree),
        Raw::Raise(raise) => raised(rt, alloc, raise),
    }
}

/// The input of a row, and what has to come.
fn halves<'a>(rt: &impl Abort, row: &'a str) -> (&'a str, &'a str) {
    row.split_once(" => ").expect(rt, "an arrow")
}

fn try_before<F: BeforeFn>(rt: &impl Abort, alloc: Global, f: &F, rows: &str) {
    for row in rows.lines() {
        let (input, want) = halves(rt, row);
        let raw = f.call(alloc, &tree(rt, alloc, input)).expect(rt, "memory");
        assert_eq!(rt; shown_raw(rt, alloc, &raw).as_slice(), want.as_bytes());
    }
}

fn try_after<F: AfterFn>(rt: &impl Abort, alloc: Global, f: &F, rows: &str) {
    for row in rows.lines() {
        let (input, want) = halves(rt, row);
        let made = f.call(alloc, &value(rt, alloc, input)).expect(rt, "memory");
        assert_eq!(rt; shown_made(rt, alloc, &made).as_slice(), want.as_bytes());
    }
}

fn try_plain<F: PlainFn>(rt: &impl Abort, alloc: Global, f: &F, rows: &str) {
    for row in rows.lines() {
        let (input, want) = halves(rt, row);
        let made = f.call(alloc, &tree(rt, alloc, input)).expect(rt, "memory");
        assert_eq!(rt; shown_made(rt, alloc, &made).as_slice(), want.as_bytes());
    }
}

#[test]
fn shipped_functions_do_what_their_rows_say(rt: HostRuntime) {
    let alloc = rt.alloc();
    try_before(&rt, alloc, &Strip, STRIPS);
    try_before(&rt, alloc, &SplitCommas, SPLITS);
    try_after(&rt, alloc, &Even, EVENS);
    try_after(&rt, alloc, &Positive, POSITIVES);
    try_plain(&rt, alloc, &Upper, UPPERS);
    try_plain(&rt, alloc, &Unhex, UNHEXES);
}

#[test]
fn a_registry_finds_functions_by_their_names(rt: HostRuntime) {
    let alloc = rt.alloc();
    let mut all: Registry<Strip, Even, Upper, Pair> = Registry::new(alloc);
    let Ok(strip) = all.add_before(text(&rt, alloc, "strip"), Strip) else {
        panic!(rt; "refused");
    };
    let Ok(even) = all.add_after(text(&rt, alloc, "even"), Even) else {
        panic!(rt; "refused");
    };
    let Ok(_) = all.add_plain(text(&rt, alloc, "upper"), Upper) else {
        panic!(rt; "refused");
    };
    let taken = all.add_plain(text(&rt, alloc, "even"), Upper);
    assert!(rt; matches!(taken, Err(AddFault::NameTaken { .. })));
    assert_eq!(rt; all.find(&text(&rt, alloc, "strip")), Some(strip));
    assert_eq!(rt; all.find(&text(&rt, alloc, "even")), Some(even));
    assert_eq!(rt;
        all.kind_named(&text(&rt, alloc, "upper")),
        Some(FuncKind::Plain)
    );
    assert_eq!(rt; all.kind_named(&text(&rt, alloc, "nope")), None);
    let input = tree(&rt, alloc, r#"" a""#);
    let name = text(&rt, alloc, "strip");
    let raw = all.before(alloc, &name, &input).expect(&rt, "memory");
    let Some(raw) = raw else {
        panic!(rt; "no function");
    };
    assert_eq!(rt;
        shown_raw(&rt, alloc, &raw).as_slice(),
        br#""a""#.as_slice()
    );
    let none = all.plain(alloc, &name, &input).expect(&rt, "memory");
    assert!(rt; none.is_none());
}
