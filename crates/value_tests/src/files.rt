// The real ends of the outside: a text in a file, and a writer that has room for a part alone.
use policy_outside::{FetchFault, FileShelf, PutFault, Shelf, Sink, WriteSink};
use std::alloc::Global;
use std::fs;
use std::test::Fail;

/// Whether a fetch answers this text, or this fault.
fn fetches<S: Shelf>(
    alloc: Global,
    shelf: &mut S,
    (name, most): (&str, u64),
    want: Result<&str, FetchFault>,
) -> bool {
    match (shelf.fetch(alloc, name, most), want) {
        (Ok(text), Ok(wanted)) => text.as_slice() == wanted.as_bytes(),
        (Err(fault), Err(wanted)) => fault == wanted,
        _ => false,
    }
}

#[test]
fn texts_in_files(rt: HostRuntime) -> Result<(), Fail> {
    let text = String::from_utf8(vec![in rt.alloc(); b'x'; 20_000]?)?;
    fs::write(&rt, "fetched.cfg", text.as_str())?;
    let mut shelf = FileShelf::new(&rt, rt.alloc());
    for (name, most, want) in [
        ("fetched.cfg", 20_000, Ok(text.as_str())),
        ("fetched.cfg", 19_999, Err(FetchFault::TooLong)),
        ("absent.cfg", 20_000, Err(FetchFault::Failed)),
        (".", 20_000, Err(FetchFault::Failed)),
    ] {
        assert!(rt;
            fetches(rt.alloc(), &mut shelf, (name, most), want),
            "{name}"
        );
    }
    fs::remove_file(&rt, "fetched.cfg")?;
    Ok(())
}

#[test]
fn sink_of_a_writer(rt: HostRuntime) -> Result<(), Fail> {
    let mut room = [0u8; 6];
    let mut sink = WriteSink::new(room.as_mut_slice());
    sink.put(b"one\n")?;
    let answer = sink.put(b"two\n");
    drop(sink);
    assert!(rt; answer == Err(PutFault::Failed) && room.as_slice() == b"one\ntw".as_slice());
    Ok(())
}
