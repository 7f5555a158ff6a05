//! The host of the running program: files of its own, which are read and written.

use poke_base::{Host, ReadFail, WriteFail};
use real_host::RealHost;
use std::alloc::Global;
use std::process::Abort;
use std::test::Fail;
use std::{env, fs, process};

/// More than three buffers, and a multiple of `PERIOD`.
const LEN: usize = 50 * PERIOD;

/// After so many bytes they begin anew, at another place of a buffer each time.
const PERIOD: usize = 251;

/// So many bytes that differ from one buffer to the next.
fn pattern(alloc: Global, len: usize) -> Result<Vec<u8>, Fail> {
    let bytes = (0..len).map(|i| (i % PERIOD) as u8);
    Ok(bytes.collect(alloc)?)
}

/// The name of a file that no other process has.
fn own_name(rt: &HostRuntime) -> Result<String, Fail> {
    let folder = env::temp_dir(rt)?;
    let number = process::id(rt.process());
    Ok(format!(in rt.alloc(); "{}/textpoke_{number}", folder.as_str())?)
}

/// Makes a file, and appends the same bytes twice.
fn write_twice<H: Host>(host: &mut H, name: &str, bytes: &[u8]) -> Result<(), WriteFail> {
    host.make_file(name)?;
    host.append(bytes)?;
    host.append(bytes)
}

/// A limit, and how a read ends: its answer, and how many bytes were read.
type Read = (usize, Result<(), ReadFail>, usize);

/// Reads a file of these bytes, and asserts how the read ends.
fn reads<R: Abort + AllocGlobal, H: Host>(
    rt: &R,
    host: &mut H,
    (name, bytes): (&str, &[u8]),
    (limit, answer, count): Read,
) {
    let mut out = Vec::new(rt.alloc());
    assert_eq!(rt;
        host.read_file(name, limit as u64, &mut out),
        answer,
        "at {limit}"
    );
    assert_eq!(rt; Some(out.as_slice()), bytes.get(..count), "at {limit}");
    assert_eq!(rt; out.capacity(), count, "at {limit}");
}

#[test]
fn a_file_is_read_as_it_was_written(rt: HostRuntime) -> Result<(), Fail> {
    let name = own_name(&rt)?;
    let mut host = RealHost::new(&rt);
    write_twice(&mut host, &name, &pattern(rt.alloc(), LEN)?)?;
    let whole = pattern(rt.alloc(), 2 * LEN)?;
    let rows: [Read; 4] = [
        (2 * LEN + 1, Ok(()), 2 * LEN),
        (2 * LEN, Ok(()), 2 * LEN),
        (2 * LEN - 1, Err(ReadFail::TooLong), 2 * LEN),
        (4095, Err(ReadFail::TooLong), 4096),
    ];
    for row in rows {
        reads(&rt, &mut host, (&name, &whole), row);
    }
    fs::remove_file(&rt, &name)?;
    let missing = (5, Err(ReadFail::Failed), 0);
    reads(&rt, &mut host, (&name, &whole), missing);
    Ok(())
}

#[test]
fn nothing_is_printed_and_complained(rt: HostRuntime) -> Result<(), Fail> {
    let mut host = RealHost::new(&rt);
    host.print(b"")?;
    host.complain(b"")?;
    Ok(())
}
