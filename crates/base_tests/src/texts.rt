use crate::fixtures::text;
use pv_text::{ByteBuf, Bytes, Text};

#[test]
fn texts_and_bytes_keep_what_they_are_given(rt: HostRuntime) {
    let alloc = rt.alloc();
    let spelling = Vec::from_slice(alloc, "né😀".as_bytes()).expect(&rt, "memory");
    let decoded = Text::from_utf8(spelling).expect(&rt, "memory");
    let shared = decoded.share(alloc).expect(&rt, "memory");
    assert_eq!(rt; shared.as_str(), "né😀");
    assert!(rt; shared == text(&rt, alloc, "né😀"));
    assert!(rt; shared != text(&rt, alloc, "n"));
    assert!(rt; text(&rt, alloc, "n") < shared);
    let mut out = ByteBuf::new(alloc);
    assert!(rt; out.is_empty());
    out.push_slice(b"abc").expect(&rt, "memory");
    out.push(b'd').expect(&rt, "memory");
    out.cut(2);
    let bytes = Bytes::from_slice(alloc, out.as_slice()).expect(&rt, "memory");
    assert_eq!(rt; bytes.as_slice(), b"ab".as_slice());
    assert_eq!(rt; out.into_vec().as_slice(), b"ab".as_slice());
    let owned = [7u8, 0].to_vec(alloc).expect(&rt, "memory");
    assert_eq!(rt; Bytes::from_vec(owned).as_slice(), [7u8, 0].as_slice());
}
