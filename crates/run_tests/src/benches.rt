//! `bench`: the counts of a run.

use poke_base::MemoryHost;
use std::process::Abort;
use std::test::Fail;
use std::thread::Threads;
use tried_commands::status_of;

/// What a bench of ten blocks prints.
fn benched<R: Abort + AllocGlobal + Threads + Sync>(rt: &R) -> Result<Vec<u8>, Fail> {
    let mut host = MemoryHost::new(rt.alloc());
    let list = ["bench", "10", "1"];
    let status = status_of(rt, &mut host, &list)?;
    assert_eq!(rt; status, 0);
    assert!(rt; host.complained().is_empty());
    Ok(Vec::from_slice(rt.alloc(), host.printed())?)
}

#[test]
fn a_bench_is_counted(rt: HostRuntime) -> Result<(), Fail> {
    let begins = b"bench 10 1\nupdates 7\nwrites 78\nrequests 21\ntakes 42\npasses ";
    let printed = benched(&rt)?;
    assert!(rt; printed.starts_with(begins));
    // (the same at each run)
    assert_eq!(rt; benched(&rt)?, printed);
    Ok(())
}
