//! What runs `check` over a host in memory, and what has to come of it.

use poke_base::MemoryHost;
use small_module::Small;
use std::process::Abort;
use std::test::Fail;
use std::thread::Threads;
use tried_commands::check_on;
use tried_modules::{Place, change};

/// The status, what is printed and what is reported.
pub type Ended<'a> = (u8, &'a [u8], &'a [u8]);

/// Runs `check` on a file, and asserts what comes of it.
pub fn checks<R: Abort + AllocGlobal + Threads + Sync>(
    rt: &R,
    name: &str,
    file: &[u8],
    ended: Ended<'_>,
) -> Result<(), Fail> {
    let mut host = MemoryHost::new(rt.alloc());
    let answer = check_on(rt, &mut host, file)?;
    let (status, printed, reported) = ended;
    assert_eq!(rt; host.complained(), reported, "{name}");
    assert_eq!(rt; host.printed(), printed, "{name}");
    assert_eq!(rt; answer, status, "{name}");
    Ok(())
}

/// What `check` prints of a file, which it accepts.
pub fn printed_of<R: Abort + AllocGlobal + Threads + Sync>(
    rt: &R,
    file: &[u8],
) -> Result<Vec<u8>, Fail> {
    let mut host = MemoryHost::new(rt.alloc());
    assert_eq!(rt; check_on(rt, &mut host, file)?, 0);
    Ok(Vec::from_slice(rt.alloc(), host.printed())?)
}

/// Asserts that `check` refuses a file, and says why.
pub fn refuses_file<R: Abort + AllocGlobal + Threads + Sync>(
    rt: &R,
    name: &str,
    file: &[u8],
    why: &[u8],
) -> Result<(), Fail> {
    let mut reported = Vec::from_slice(rt.alloc(), b"textpoke: module: ")?;
    reported.extend_from_slice(why)?;
    reported.push(b'\n')?;
    checks(rt, name, file, (2, b"", &reported))
}

/// Asserts that `check` refuses a written module, some bytes of which were changed, and says why.
pub fn refuses<R: Abort + AllocGlobal + Threads + Sync>(
    rt: &R,
    name: &str,
    small: &Small<'_>,
    edits: &[(Place, u8)],
    why: &[u8],
) -> Result<(), Fail> {
    let mut bytes = small.file(rt.alloc())?;
    change(&mut bytes, edits);
    refuses_file(rt, name, &bytes, why)
}
