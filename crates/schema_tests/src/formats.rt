use crate::fixtures::text;
use pv_formats::{compile_pattern, uuid};

#[test]
fn what_no_document_shows_of_uuids_and_patterns(rt: HostRuntime) {
    let alloc = rt.alloc();
    let found = uuid(alloc, "00000000-0000-f000-0000-000000000000").expect(&rt, "memory");
    assert_eq!(rt; found.expect(&rt, "a UUID").version, 15);
    let pattern = compile_pattern(alloc, &text(&rt, alloc, "a|b")).expect(&rt, "a pattern");
    assert_eq!(rt; pattern.as_str(), "a|b");
}
