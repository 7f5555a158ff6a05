//! What runs a command over a host in memory, and what has to come of it.

use poke_base::MemoryHost;
use small_module::Small;
use std::process::Abort;
use std::test::Fail;
use std::thread::Threads;
use tried_commands::{put_script, status_of};

/// The status, what is printed and what is reported.
pub type Ended<'a> = (u8, &'a [u8], &'a [u8]);

/// Runs the words of a command over a host, without a tracer, and asserts what comes of it.
pub fn ends<R: Abort + AllocGlobal + Threads + Sync>(
    rt: &R,
    name: &str,
    host: &mut MemoryHost,
    list: &[&str],
    ended: Ended<'_>,
) -> Result<(), Fail> {
    let (status, printed, reported) = ended;
    let answer = status_of(rt, host, list)?;
    assert_eq!(rt; host.complained(), reported, "{name}");
    assert_eq!(rt; host.printed(), printed, "{name}");
    assert_eq!(rt; answer, status, "{name}");
    Ok(())
}

/// A command on a module `m` and a script `s` of it, and what has to come of it.
#[derive(Clone, Copy)]
pub struct Run<'a> {
    pub name: &'a str,
    pub small: Small<'a>,
    pub script: &'a [u8],
    pub words: &'a [&'a str],
    /// What the file `j` holds before, where there is one.
    pub before: Option<&'a [u8]>,
    /// Which call of the host fails, where one does.
    pub failing: Option<u64>,
    pub ended: Ended<'a>,
    /// What the file `j` holds in the end, where that is asked.
    pub after: Option<&'a [u8]>,
}

/// Runs a command over a new host, and asserts what comes of it.
pub fn runs<R: Abort + AllocGlobal + Threads + Sync>(rt: &R, run: &Run<'_>) -> Result<(), Fail> {
    let mut host = MemoryHost::new(rt.alloc());
    runs_on(rt, &mut host, run)
}

/// Runs a command over a host without files, and asserts what comes of it.
fn runs_on<R: Abort + AllocGlobal + Threads + Sync>(
    rt: &R,
    host: &mut MemoryHost,
    run: &Run<'_>,
) -> Result<(), Fail> {
    put_script(rt.alloc(), host, &run.small, run.script)?;
    if let Some(bytes) = run.before {
        host.put("j", bytes)?;
    }
    if let Some(call) = run.failing {
        host.fail_at(call)?;
    }
    ends(rt, run.name, host, run.words, run.ended)?;
    if run.after.is_some() {
        assert_eq!(rt; host.file("j"), run.after, "{}", run.name);
    }
    Ok(())
}
