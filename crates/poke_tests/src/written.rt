//! Modules that are written of plans: their files, and what `show` prints of them.

use crate::frame::{run, shown_of};
use elf_build::KeyStart;
use small_module::{BRANCH, CALL, F, LOOP, Small, TAIL, file_of};
use std::process::Abort;
use std::test::Fail;
use std::thread::Threads;
use tried_modules::{TWO_SWITCHES, jump, traced};

/// Asserts of a module that its file has this size, and that `show` prints this of it.
fn is_written<R: Abort + AllocGlobal + Threads + Sync>(
    rt: &R,
    name: &str,
    small: &Small<'_>,
    size: usize,
    printed: &[u8],
) -> Result<(), Fail> {
    let bytes = small.file(rt.alloc())?;
    assert_eq!(rt; bytes.len(), size, "{name}");
    run(
        rt,
        &(name, &["show", "m"], &[("m", &bytes)], 0, printed, b""),
    )
}

#[test]
fn modules_are_written(rt: HostRuntime) -> Result<(), Fail> {
    let of_two_keys = Small {
        text: b"\xb8\x01\0\0\0f\x90\xc3",
        sites: &[jump(F, F + 5, 0), jump(F + 5, F + 7, 1)],
        keys: &[(b"k", KeyStart::Count(0)), (b"k2", KeyStart::Count(0))],
        functions: &[(b"f", F)],
    };
    let branching = b"jump 401000 40100e 451000 unlikely\n";
    is_written(&rt, "a branch", &BRANCH, 944, branching)?;
    let both = b"jump 401000 401009 451000 unlikely\njump 401002 401009 451000 likely\n";
    is_written(&rt, "one key", &TWO_SWITCHES, 896, both)?;
    let rows: [(&str, Small<'_>, usize, &[u8]); 4] = [
        ("a loop", LOOP, 896, b"jump 401005 40100f 451000 unlikely\n"),
        (
            "two keys",
            of_two_keys,
            928,
            b"jump 401000 401005 451000 unlikely\njump 401005 401007 451010 unlikely\n",
        ),
        ("a call", CALL, 944, b"call 401000 451000\n"),
        ("a tail call", TAIL, 912, b"tail 401008 451000\n"),
    ];
    for (name, small, size, printed) in rows {
        is_written(&rt, name, &small, size, printed)?;
    }
    Ok(())
}

#[test]
fn three_hundred_traces_are_written(rt: HostRuntime) -> Result<(), Fail> {
    let alloc = rt.alloc();
    let bytes = file_of(alloc, &traced(alloc)?)?;
    assert_eq!(rt; bytes.len(), 13_632);
    let printed = shown_of(&rt, &bytes)?;
    assert_eq!(rt; printed.len(), 300 * 13);
    assert!(rt; printed.starts_with(b"trace 401001\ntrace 401007\n"));
    assert!(rt; printed.ends_with(b"trace 4016fd\ntrace 401703\n"));
    Ok(())
}
