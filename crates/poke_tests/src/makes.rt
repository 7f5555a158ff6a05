//! `make`: the file that is made.

use crate::frame::{run_leaving, run_over};
use elf_build::generated;
use poke_base::MemoryHost;
use small_module::file_of;
use std::process::Abort;
use std::test::Fail;
use std::thread::Threads;
use tried_modules::ten_blocks;

/// What `show` prints of the module with ten blocks.
const SHOWN: &[u8] = b"\
    jump 401011 401018 451000 unlikely\n\
    jump 401018 40101c 451000 unlikely\n\
    jump 401032 401039 451010 unlikely\n\
    jump 401039 40103d 451010 unlikely\n\
    call 40101c 451020\n\
    tail 40102d 451030\n\
    call 40103d 451020\n\
    tail 40104e 451030\n\
    trace 401021\n\
    trace 401042\n";

/// Makes a module on a host, and asserts what `show` then prints of it.
fn shows_made<R: Abort + AllocGlobal + Threads + Sync>(
    rt: &R,
    host: &mut MemoryHost,
) -> Result<(), Fail> {
    run_over(rt, host, &("made", &["make", "10", "m"], &[], 0, b"", b""))?;
    run_over(rt, host, &("shown", &["show", "m"], &[], 0, SHOWN, b""))
}

#[test]
fn a_made_module_is_shown(rt: HostRuntime) -> Result<(), Fail> {
    shows_made(&rt, &mut MemoryHost::new(rt.alloc()))
}

#[test]
fn the_file_holds_the_module(rt: HostRuntime) -> Result<(), Fail> {
    let alloc = rt.alloc();
    let ten = ten_blocks(alloc)?;
    let thousand = file_of(alloc, &generated(alloc, 1_000)?)?;
    // Nine section headers of 64 bytes stand at 24,112, after 84 bytes of section names at 24,016.
    assert_eq!(rt; thousand.len(), 24_688);
    let rows: [(&str, &str, &[u8]); 3] = [
        ("ten blocks", "10", &ten),
        ("zeros before a number", "0010", &ten),
        ("a thousand blocks", "1000", &thousand),
    ];
    for (name, number, module) in rows {
        run_leaving(
            &rt,
            &[],
            &(name, &["make", number, "m"], &[], 0, b"", b""),
            &[("m", Some(module))],
        )?;
    }
    Ok(())
}

#[test]
fn failing_calls_leave_a_prefix(rt: HostRuntime) -> Result<(), Fail> {
    let whole = ten_blocks(rt.alloc())?;
    let half = &whole[..whole.len() / 2];
    // The first call makes the file, the second adds all of it.
    let before: [(&str, &[u8]); 1] = [("m", b"before")];
    let rows: [(&str, u64, &[(&str, &[u8])], Option<&[u8]>); 4] = [
        ("not made", 1, &[], None),
        ("not made again", 1, &before, Some(b"before")),
        ("made", 2, &[], Some(half)),
        ("made again", 2, &before, Some(half)),
    ];
    for (name, failing, files, after) in rows {
        let reported = b"textpoke: write failed\n";
        run_leaving(
            &rt,
            &[failing],
            &(name, &["make", "10", "m"], files, 6, b"", reported),
            &[("m", after)],
        )?;
    }
    Ok(())
}
