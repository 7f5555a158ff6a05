//! What runs the rows of a table: a command over a host in memory, and what has to come of it.

use poke_base::MemoryHost;
use std::process::Abort;
use std::test::Fail;
use std::thread::Threads;
use tried_commands::status_of;

/// A name, the words, the files before; the status, what is printed and what is reported.
pub type Row<'a> = (
    &'a str,
    &'a [&'a str],
    &'a [(&'a str, &'a [u8])],
    u8,
    &'a [u8],
    &'a [u8],
);

/// Runs the words of a row over a host, and asserts what comes of it.
pub fn run_over<R: Abort + AllocGlobal + Threads + Sync>(
    rt: &R,
    host: &mut MemoryHost,
    row: &Row<'_>,
) -> Result<(), Fail> {
    let &(name, list, _, status, printed, reported) = row;
    let answer = status_of(rt, host, list)?;
    assert_eq!(rt; host.complained(), reported, "{name}");
    assert_eq!(rt; host.printed(), printed, "{name}");
    assert_eq!(rt; answer, status, "{name}");
    Ok(())
}

/// The name of a file, and its bytes if it is there.
pub type Left<'a> = (&'a str, Option<&'a [u8]>);

/// Runs a row over a host with its files, whose calls with these numbers fail, and asserts what comes of it and
/// which files are left.
pub fn run_leaving<R: Abort + AllocGlobal + Threads + Sync>(
    rt: &R,
    failing: &[u64],
    row: &Row<'_>,
    left: &[Left<'_>],
) -> Result<(), Fail> {
    let mut host = MemoryHost::new(rt.alloc());
    run_on(rt, &mut host, failing, row)?;
    for &(name, bytes) in left {
        assert_eq!(rt; host.file(name), bytes, "{name}");
    }
    Ok(())
}

/// Gives a host the files of a row, has calls with these numbers fail, and runs the row over it.
fn run_on<R: Abort + AllocGlobal + Threads + Sync>(
    rt: &R,
    host: &mut MemoryHost,
    failing: &[u64],
    row: &Row<'_>,
) -> Result<(), Fail> {
    for (name, bytes) in row.2 {
        host.put(name, bytes)?;
    }
    for call in failing {
        host.fail_at(*call)?;
    }
    run_over(rt, host, row)
}

/// Runs a row over a host with its files, and asserts what comes of it.
pub fn run<R: Abort + AllocGlobal + Threads + Sync>(rt: &R, row: &Row<'_>) -> Result<(), Fail> {
    run_leaving(rt, &[], row, &[])
}

/// Which call of the host fails, the status, what is printed and what is reported.
pub type Failing<'a> = (u64, u8, &'a [u8], &'a [u8]);

/// Runs a command on a file once for each row, and once where there is no such file, and asserts what
/// comes of it. The first call of the host reads the file.
pub fn run_failing_calls<R: Abort + AllocGlobal + Threads + Sync>(
    rt: &R,
    words: &[&str],
    file: (&str, &[u8]),
    rows: &[Failing<'_>],
) -> Result<(), Fail> {
    for &(failing, status, printed, reported) in rows {
        let row: Row<'_> = ("a call fails", words, &[file], status, printed, reported);
        run_leaving(rt, &[failing], &row, &[])?;
    }
    let read = b"textpoke: read failed\n";
    run(rt, &("no such file", words, &[], 5, b"", read))
}

/// What `show` prints of a module, which is done and reports nothing.
pub fn shown_of<R: Abort + AllocGlobal + Threads + Sync>(
    rt: &R,
    module: &[u8],
) -> Result<Vec<u8>, Fail> {
    let mut host = MemoryHost::new(rt.alloc());
    show_on(rt, &mut host, module)?;
    Ok(Vec::from_slice(rt.alloc(), host.printed())?)
}

/// Gives a host a module, and runs `show` on it, which is done and reports nothing.
fn show_on<R: Abort + AllocGlobal + Threads + Sync>(
    rt: &R,
    host: &mut MemoryHost,
    module: &[u8],
) -> Result<(), Fail> {
    host.put("m", module)?;
    let status = status_of(rt, host, &["show", "m"])?;
    assert_eq!(rt; host.complained(), b"".as_slice());
    assert_eq!(rt; status, 0);
    Ok(())
}
