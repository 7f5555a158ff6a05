//! What `check` prints of sites: those that are written to what their keys want, and foreign ones.

use crate::frame::accepts;
use elf_build::{KeyStart, PlanSite};
use small_module::{F, Small};
use std::process::Abort;
use std::test::Fail;
use std::thread::Threads;
use tried_modules::{NO_FUNCTION, RETURN, call, jump, tail};

/// The bytes of a NOP, of a load of 1 and of a call to what follows it, each with a return after it.
const NOP: &[u8] = b"\x0f\x1fD\0\0\xc3";

const LOAD: &[u8] = b"\xb8\x01\0\0\0\xc3";

const CALL: &[u8] = b"\xe8\0\0\0\0\xc3";

/// A name, a text with one site, its key's start, and what is printed.
type Row<'a> = (&'a str, &'a [u8], PlanSite, KeyStart, &'a [u8]);

/// Asserts of each row that `check` accepts a module with that site and key, and prints this.
fn accepts_each<R: Abort + AllocGlobal + Threads + Sync>(
    rt: &R,
    rows: &[Row<'_>],
) -> Result<(), Fail> {
    for &(name, text, site, start, printed) in rows {
        let small = Small {
            text,
            sites: &[site],
            keys: &[(b"k", start)],
            functions: &[],
        };
        accepts(rt, name, &small, &[], printed)?;
    }
    Ok(())
}

#[test]
fn jumps_are_written(rt: HostRuntime) -> Result<(), Fail> {
    let switch = jump(F, F + 5, 0);
    let likely = PlanSite::Jump {
        at: F,
        target: F + 5,
        key: 0,
        likely: true,
    };
    let off = KeyStart::Count(0);
    let on = KeyStart::Count(1);
    let full = KeyStart::Count(0x7fff_ffff);
    let nop = b"text 401000 6\nsite 401000 jump 0f1f440000\naccepted\n";
    let jmp = b"text 401000 6\nsite 401000 jump e900000000\naccepted\n";
    let short = b"text 401000 3\nsite 401000 jump 6690\naccepted\n";
    let rows: [Row<'_>; 7] = [
        ("off", NOP, switch, off, nop),
        ("on", NOP, switch, on, jmp),
        ("the greatest count", NOP, switch, full, jmp),
        ("likely and off", NOP, likely, off, jmp),
        ("likely and on", NOP, likely, on, nop),
        ("a jump that is off", b"\xe9\0\0\0\0\xc3", switch, off, nop),
        ("a short one", b"\xeb\0\xc3", jump(F, F + 2, 0), off, short),
    ];
    accepts_each(&rt, &rows)
}

#[test]
fn jumps_may_be_foreign(rt: HostRuntime) -> Result<(), Fail> {
    let off = KeyStart::Count(0);
    let on = KeyStart::Count(1);
    let rows: [Row<'_>; 6] = [
        (
            "a load",
            LOAD,
            jump(F, F + 5, 0),
            on,
            b"text 401000 6\nsite 401000 jump b801000000 foreign\naccepted\n",
        ),
        (
            "an addition",
            b"\x01\xc9\xc3",
            jump(F, F + 2, 0),
            on,
            b"text 401000 3\nsite 401000 jump 01c9 foreign\naccepted\n",
        ),
        (
            "a jump to another place than the entry's target",
            b"\xe9\0\0\0\0\xc3",
            jump(F, F, 0),
            on,
            b"text 401000 6\nsite 401000 jump e900000000 foreign\naccepted\n",
        ),
        (
            "a short jump to another place",
            b"\xeb\0\xc3",
            jump(F, F, 0),
            off,
            b"text 401000 3\nsite 401000 jump eb00 foreign\naccepted\n",
        ),
        (
            "a jump on a condition",
            b"\x75\0\xc3",
            jump(F, F + 2, 0),
            off,
            b"text 401000 3\nsite 401000 jump 7500 foreign\naccepted\n",
        ),
        // A site that isn't foreign would cut the load in which this one stands.
        (
            "inside a load",
            b"\xb8\x01\xc9\0\0\xc3",
            jump(F + 1, F + 5, 0),
            off,
            b"text 401000 6\nsite 401001 jump 01c9 foreign\naccepted\n",
        ),
    ];
    accepts_each(&rt, &rows)
}

#[test]
fn calls_are_written(rt: HostRuntime) -> Result<(), Fail> {
    let to_return = KeyStart::Func(F + 5);
    // It leads to 80401004, out of the text.
    let far: &[u8] = b"\xe8\xff\xff\xff\x7f\xc3";
    let nop = b"text 401000 6\nsite 401000 call 0f1f440000\naccepted\n";
    let called = b"text 401000 6\nsite 401000 call e800000000\naccepted\n";
    let rows: [Row<'_>; 8] = [
        ("no function", NOP, call(F, 0), NO_FUNCTION, nop),
        ("a function", NOP, call(F, 0), to_return, called),
        ("a call and no function", CALL, call(F, 0), NO_FUNCTION, nop),
        ("a far call", far, call(F, 0), to_return, called),
        (
            "a far call and no function",
            far,
            call(F, 0),
            NO_FUNCTION,
            nop,
        ),
        (
            "a load",
            LOAD,
            call(F, 0),
            to_return,
            b"text 401000 6\nsite 401000 call b801000000 foreign\naccepted\n",
        ),
        (
            "a jump",
            b"\xe9\0\0\0\0\xc3",
            call(F, 0),
            to_return,
            b"text 401000 6\nsite 401000 call e900000000 foreign\naccepted\n",
        ),
        (
            "a return",
            b"\xc3\xcc\xcc\xcc\xcc\xc3",
            call(F, 0),
            to_return,
            b"text 401000 6\nsite 401000 call c3cccccccc foreign\naccepted\n",
        ),
    ];
    accepts_each(&rt, &rows)
}

#[test]
fn tail_calls_are_written(rt: HostRuntime) -> Result<(), Fail> {
    // A return, and a jump out of the text.
    let far: &[u8] = b"\xc3\xe9\x78\x56\x34\x12";
    let to_return = KeyStart::Func(F);
    let returns = b"text 401000 6\nsite 401001 tail c3cccccccc\naccepted\n";
    let jumps = b"text 401000 6\nsite 401001 tail e9faffffff\naccepted\n";
    let rows: [Row<'_>; 6] = [
        ("no function", far, tail(F + 1, 0), NO_FUNCTION, returns),
        ("a function", far, tail(F + 1, 0), to_return, jumps),
        (
            "a return and a function",
            b"\xc3\xc3\xcc\xcc\xcc\xcc",
            tail(F + 1, 0),
            to_return,
            jumps,
        ),
        (
            "a return before NOPs",
            b"\xc3\x90\x90\x90\x90\xc3",
            tail(F, 0),
            NO_FUNCTION,
            b"text 401000 6\nsite 401000 tail c390909090 foreign\naccepted\n",
        ),
        (
            "a call",
            CALL,
            tail(F, 0),
            NO_FUNCTION,
            b"text 401000 6\nsite 401000 tail e800000000 foreign\naccepted\n",
        ),
        (
            "a NOP",
            NOP,
            tail(F, 0),
            NO_FUNCTION,
            b"text 401000 6\nsite 401000 tail 0f1f440000 foreign\naccepted\n",
        ),
    ];
    accepts_each(&rt, &rows)
}

#[test]
fn traces_are_written(rt: HostRuntime) -> Result<(), Fail> {
    let nop = b"text 401000 6\nsite 401000 trace 0f1f440000\naccepted\n";
    let rows: [(&str, &[u8], u64, &[u8]); 5] = [
        ("a NOP", NOP, F, nop),
        ("a call", CALL, F, nop),
        ("a far call", b"\xe8\xff\xff\xff\x7f\xc3", F, nop),
        (
            "a load",
            LOAD,
            F,
            b"text 401000 6\nsite 401000 trace b801000000 foreign\naccepted\n",
        ),
        (
            "after an ENDBR64",
            b"\xf3\x0f\x1e\xfa\x0f\x1fD\0\0\xc3",
            F + 4,
            b"text 401000 10\nsite 401004 trace 0f1f440000\naccepted\n",
        ),
    ];
    for (name, text, at, printed) in rows {
        let small = Small {
            text,
            sites: &[PlanSite::Trace { at }],
            functions: &[(b"ftrace_caller", F)],
            ..RETURN
        };
        accepts(&rt, name, &small, &[], printed)?;
    }
    Ok(())
}

#[test]
fn sites_are_shown_ascending(rt: HostRuntime) -> Result<(), Fail> {
    let small = Small {
        text: b"f\x90f\x90\x0f\x1fD\0\0\x0f\x1fD\0\0\xc3",
        sites: &[
            PlanSite::Trace { at: F + 9 },
            call(F + 4, 1),
            jump(F + 2, F, 0),
            jump(F, F + 2, 0),
        ],
        keys: &[(b"k", KeyStart::Count(1)), (b"ck", NO_FUNCTION)],
        functions: &[(b"ftrace_caller", F + 14)],
    };
    let printed = b"text 401000 15\n\
        site 401000 jump eb00\n\
        site 401002 jump ebfc\n\
        site 401004 call 0f1f440000\n\
        site 401009 trace 0f1f440000\n\
        accepted\n";
    accepts(&rt, "four sites", &small, &[], printed)
}

#[test]
fn short_jumps_reach_so_far(rt: HostRuntime) -> Result<(), Fail> {
    let alloc = rt.alloc();
    let mut ahead = Vec::from_slice(alloc, b"f\x90")?;
    ahead.extend_from_slice(&vec![in alloc; 0x90; 128]?)?;
    ahead.push(0xc3)?;
    let mut back = vec![in alloc; 0x90; 126]?;
    back.extend_from_slice(b"f\x90\xc3")?;
    let on = KeyStart::Count(1);
    let rows: [Row<'_>; 2] = [
        (
            "ahead",
            &ahead,
            jump(F, F + 129, 0),
            on,
            b"text 401000 131\nsite 401000 jump eb7f\naccepted\n",
        ),
        (
            "back",
            &back,
            jump(F + 126, F, 0),
            on,
            b"text 401000 129\nsite 40107e jump eb80\naccepted\n",
        ),
    ];
    accepts_each(&rt, &rows)
}
