use pv_edge::{LoadFault, StdShelf, StdSink, load, put_all};
use std::{env, fs, process};

#[test]
fn real_files_and_streams_serve(rt: HostRuntime) {
    let alloc = rt.alloc();
    let mut place = env::temp_dir(&rt).expect(&rt, "a folder");
    let number = process::id(rt.process());
    let file = format!(in alloc; "pydcore-{number}.json").expect(&rt, "memory");
    place.push(file.as_str()).expect(&rt, "memory");
    let name = place.as_path().as_str();
    fs::write(&rt, name, "[1, 2]\n").expect(&rt, "a file");
    let mut shelf = StdShelf::new(&rt);
    let bytes = load(alloc, &mut shelf, name, 100).expect(&rt, "the file");
    assert_eq!(rt; bytes.as_slice(), b"[1, 2]\n".as_slice());
    let refused = load(alloc, &mut shelf, name, 6);
    assert_eq!(rt; refused.err(), Some(LoadFault::TooLarge));
    fs::remove_file(&rt, name).expect(&rt, "the file is removed");
    let refused = load(alloc, &mut shelf, name, 100);
    assert_eq!(rt; refused.err(), Some(LoadFault::Failed));
    put_all(&mut StdSink::out(&rt), b"standard output\n").expect(&rt, "standard output");
    put_all(&mut StdSink::err(&rt), b"standard error\n").expect(&rt, "standard error");
}
