//! The host in memory: files that are read and made, and texts that are printed and complained.

use poke_base::{Host, MemoryHost, ReadFail};
use std::process::Abort;
use std::test::Fail;

/// A name, a limit, and how the read ends: its answer, and the bytes that were read.
type Read<'a> = (&'a str, u64, Result<(), ReadFail>, &'a [u8]);

/// Reads a file, and asserts how the read ends.
fn reads<R: Abort + AllocGlobal>(rt: &R, host: &mut MemoryHost, row: Read<'_>) {
    let (name, limit, answer, bytes) = row;
    let mut out = Vec::new(rt.alloc());
    assert_eq!(rt;
        host.read_file(name, limit, &mut out),
        answer,
        "reading {name}"
    );
    assert_eq!(rt; out.as_slice(), bytes, "reading {name}");
}

#[test]
fn reads_files(rt: HostRuntime) -> Result<(), Fail> {
    let mut host = MemoryHost::new(rt.alloc());
    host.put("a", b"abcd")?;
    host.fail_at(5)?;
    let rows: [Read<'_>; 5] = [
        ("a", 4, Ok(()), b"abcd"),
        ("a", 3, Err(ReadFail::TooLong), b"abcd"),
        ("a", 1, Err(ReadFail::TooLong), b"ab"),
        ("b", 9, Err(ReadFail::Failed), b""),
        ("a", 4, Err(ReadFail::Failed), b""),
    ];
    for row in rows {
        reads(&rt, &mut host, row);
    }
    assert_eq!(rt; host.starved(), 0);
    Ok(())
}

#[test]
fn writes_files(rt: HostRuntime) -> Result<(), Fail> {
    let mut host = MemoryHost::new(rt.alloc());
    host.fail_at(3)?;
    host.fail_at(4)?;
    host.make_file("c")?;
    host.append(b"xyz")?;
    assert!(rt; host.append(b"stuv").is_err());
    assert!(rt; host.make_file("d").is_err());
    assert_eq!(rt; host.file("c"), Some(b"xyzst".as_slice()));
    assert_eq!(rt; host.file("d"), None);
    Ok(())
}

#[test]
fn writes_texts(rt: HostRuntime) -> Result<(), Fail> {
    let mut host = MemoryHost::new(rt.alloc());
    host.fail_at(3)?;
    host.fail_at(4)?;
    for (piece, fails) in [("hi", false), ("hello", true)] {
        assert_eq!(rt; host.print(piece.as_bytes()).is_err(), fails);
        assert_eq!(rt; host.complain(piece.as_bytes()).is_err(), fails);
    }
    assert_eq!(rt; host.printed(), b"hihe".as_slice());
    assert_eq!(rt; host.complained(), b"hihe".as_slice());
    Ok(())
}
