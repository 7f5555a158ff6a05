//! `wants`: how the updates of a script end, and what the sites then hold.

use crate::frame::{Row, run, run_leaving};
use elf_build::KeyStart;
use small_module::{F, Small, TAIL};
use std::process::Abort;
use std::test::Fail;
use std::thread::Threads;
use tried_modules::{TWO_SWITCHES, jump};

/// Gives the tail call no function, and then the one that it had.
const THERE_AND_BACK: &[u8] = b"cpu f\ncall tk -\ncall tk a\n";

/// Commands that a count allows and others that it doesn't, with steps that no update is.
const COUNTS: &[u8] = b"# j is 0\n\
    cpu f\n\
    dec j\n\
    inc j\n\
    run 5\n\
    inc j\n\
    enable j\n\
    disable j\n\
    drop 0\n\
    dec j\n\
    disable j\n\
    disable j\n";

/// What is printed for it.
const COUNTS_TEXT: &[u8] = b"update 1 refused count 0\n\
    update 2 done 2\n\
    update 3 done 0\n\
    update 4 refused count 2\n\
    update 5 refused count 2\n\
    update 6 done 0\n\
    update 7 done 2\n\
    update 8 done 0\n\
    site 401000 jump 6690\n\
    site 401002 jump e902000000\n";

/// Runs `wants` on a module and a script, and asserts the status, what is printed and what is reported.
fn wants<R: Abort + AllocGlobal + Threads + Sync>(
    rt: &R,
    name: &str,
    module: &[u8],
    script: &[u8],
    ended: (u8, &[u8], &[u8]),
) -> Result<(), Fail> {
    let (status, printed, reported) = ended;
    let files: [(&str, &[u8]); 2] = [("m", module), ("s", script)];
    run(
        rt,
        &(
            name,
            &["wants", "m", "s"],
            &files,
            status,
            printed,
            reported,
        ),
    )
}

#[test]
fn updates_end(rt: HostRuntime) -> Result<(), Fail> {
    let full = Small {
        keys: &[(b"j", KeyStart::Count(0x7fff_ffff))],
        ..TWO_SWITCHES
    };
    // A load stands at the first jump entry.
    let foreign = Small {
        text: b"\xb8\x01\0\0\0f\x90\xc3",
        sites: &[jump(F, F + 5, 0), jump(F + 5, F + 7, 1)],
        keys: &[(b"k", KeyStart::Count(0)), (b"k2", KeyStart::Count(0))],
        functions: &[(b"f", F)],
    };
    let rows: [(&str, Small<'_>, &[u8], &[u8]); 4] = [
        (
            "there and back",
            TAIL,
            THERE_AND_BACK,
            b"update 1 done 1\nupdate 2 done 1\nsite 401008 tail e900000000\n",
        ),
        ("counts", TWO_SWITCHES, COUNTS, COUNTS_TEXT),
        (
            "the greatest count",
            full,
            b"cpu f\ninc j",
            b"update 1 refused count 2147483647\nsite 401000 jump eb07\nsite 401002 jump 0f1f440000\n",
        ),
        (
            "a foreign site",
            foreign,
            b"cpu f\ninc k\ninc k\ninc k2\n",
            b"update 1 refused clash 401000 b801000000 0f1f440000\n\
            update 2 refused clash 401000 b801000000 0f1f440000\n\
            update 3 done 1\n\
            site 401000 jump b801000000 foreign\n\
            site 401005 jump eb00\n",
        ),
    ];
    for (name, small, script, printed) in rows {
        let module = small.file(rt.alloc())?;
        wants(&rt, name, &module, script, (0, printed, b""))?;
    }
    Ok(())
}

#[test]
fn scripts_are_refused(rt: HostRuntime) -> Result<(), Fail> {
    let module = TAIL.file(rt.alloc())?;
    let rows: [(&str, &[u8], &[u8]); 2] = [
        ("no line", b"", b"textpoke: script: line 1: NoCpu\n"),
        (
            "no key",
            b"cpu f\ncall tk a\ncall k a\n",
            b"textpoke: script: line 3: Name\n",
        ),
    ];
    for (name, script, reported) in rows {
        wants(&rt, name, &module, script, (3, b"", reported))?;
    }
    Ok(())
}

#[test]
fn long_scripts_are_refused(rt: HostRuntime) -> Result<(), Fail> {
    let alloc = rt.alloc();
    let module = TAIL.file(alloc)?;
    let site: &[u8] = b"site 401008 tail e900000000\n";
    let rows: [(&str, usize, u8, &[u8], &[u8]); 2] = [
        ("65536 bytes", 65_531, 0, site, b""),
        (
            "65537 bytes",
            65_532,
            3,
            b"",
            b"textpoke: script: TooLong\n",
        ),
    ];
    for (name, blanks, status, printed, reported) in rows {
        let mut script = vec![in alloc; b' '; blanks]?;
        script.extend_from_slice(b"cpu f")?;
        wants(&rt, name, &module, &script, (status, printed, reported))?;
    }
    Ok(())
}

#[test]
fn missing_files_and_bad_modules(rt: HostRuntime) -> Result<(), Fail> {
    let module = TAIL.file(rt.alloc())?;
    let read: &[u8] = b"textpoke: read failed\n";
    let rows: [(&str, &[(&str, &[u8])], u8, &[u8]); 3] = [
        ("no module", &[("s", b"inc j")], 5, read),
        ("no script", &[("m", &module)], 5, read),
        (
            "a bad module",
            &[("m", b"?"), ("s", b"inc j")],
            2,
            b"textpoke: module: Short 1\n",
        ),
    ];
    for (name, files, status, reported) in rows {
        run(
            &rt,
            &(name, &["wants", "m", "s"], files, status, b"", reported),
        )?;
    }
    Ok(())
}

#[test]
fn failing_calls_leave_a_prefix(rt: HostRuntime) -> Result<(), Fail> {
    let module = TAIL.file(rt.alloc())?;
    let files: [(&str, &[u8]); 2] = [("m", &module), ("s", THERE_AND_BACK)];
    let read: &[u8] = b"textpoke: read failed\n";
    let write: &[u8] = b"textpoke: write failed\n";
    // The module is read, then the script, and three prints follow.
    let rows: [(u64, u8, &[u8], &[u8]); 5] = [
        (1, 5, b"", read),
        (2, 5, b"", read),
        (3, 6, b"update 1", write),
        (4, 6, b"update 1 done 1\nupdate 2", write),
        (
            5,
            6,
            b"update 1 done 1\nupdate 2 done 1\nsite 401008 ta",
            write,
        ),
    ];
    for (failing, status, printed, reported) in rows {
        let row: Row<'_> = (
            "a call fails",
            &["wants", "m", "s"],
            &files,
            status,
            printed,
            reported,
        );
        run_leaving(&rt, &[failing], &row, &[])?;
    }
    Ok(())
}
