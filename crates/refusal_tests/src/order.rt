//! Modules that could be refused for more than one reason: the first in the order is reported.

use crate::frame::{refuses, refuses_file};
use elf_build::{KeyStart, PlanSite};
use small_module::{F, Small, file_of};
use std::alloc::Global;
use std::process::Abort;
use std::test::Fail;
use std::thread::Threads;
use tried_modules::{NO_FUNCTION, Place, RETURN, SWITCH, call, change, full, jump, tail};

#[test]
fn sections_come_before_tables(rt: HostRuntime) -> Result<(), Fail> {
    let no_bytes = (Place::Header(1, 4), 8);
    let other_text = (Place::Header(5, 0), 1);
    let jumps = (Place::Header(2, 32), 1);
    let calls = (Place::Header(3, 32), 9);
    let traces = (Place::Header(4, 32), 0x11);
    let rows: [(&str, &[(Place, u8)], &[u8]); 4] = [
        ("count", &[no_bytes, other_text, jumps], b"TextCount 2"),
        ("size", &[no_bytes, jumps, calls, traces], b"TextSize 1"),
        ("jumps", &[jumps, calls, traces], b"Table jump 1"),
        ("calls", &[calls, traces], b"Table call 9"),
    ];
    for (name, edits, why) in rows {
        refuses(&rt, name, &RETURN, edits, why)?;
    }
    Ok(())
}

#[test]
fn tables_come_before_their_count(rt: HostRuntime) -> Result<(), Fail> {
    let one_more = (Place::Header(4, 32), 8);
    let one_more_and_a_byte = (Place::Header(4, 32), 9);
    let rows: [(&str, &[(Place, u8)], &[u8]); 3] = [
        (
            "jumps",
            &[one_more, (Place::Header(2, 32), 1)],
            b"Table jump 1",
        ),
        ("traces", &[one_more_and_a_byte], b"Table trace 2009"),
        // The last entry, of the address 0, is outside the text.
        ("count", &[one_more], b"SiteCount 401"),
    ];
    let alloc = rt.alloc();
    let module = file_of(alloc, &full(alloc)?)?;
    for (name, edits, why) in rows {
        let mut bytes = Vec::from_slice(alloc, &module)?;
        change(&mut bytes, edits);
        refuses_file(&rt, name, &bytes, why)?;
    }
    Ok(())
}

#[test]
fn places_lengths_and_overlaps_have_an_order(rt: HostRuntime) -> Result<(), Fail> {
    // No jump has one byte, but the call, whose last byte is missing, comes first.
    let short_and_outside = Small {
        text: b"\xc3\x0f\x1fD\0",
        sites: &[jump(F, F, 0), call(F + 1, 1)],
        keys: &[(b"k", KeyStart::Count(0)), (b"ck", NO_FUNCTION)],
        functions: &[],
    };
    // The first in the order of the tables: calls come before traces.
    let calls_and_traces = Small {
        text: b"\x0f\x1fD\0\0",
        sites: &[
            PlanSite::Trace { at: F + 1 },
            call(F + 3, 0),
            tail(F + 2, 0),
        ],
        keys: &[(b"ck", NO_FUNCTION)],
        functions: &[],
    };
    let twice = Small {
        text: b"\xc3",
        sites: &[jump(F, F, 0), jump(F, F, 0)],
        ..SWITCH
    };
    // The first in the order of the table.
    let descending = Small {
        text: b"\x90\x90\xc3",
        sites: &[jump(F + 1, F, 0), jump(F, F, 0)],
        ..SWITCH
    };
    let rows: [(&str, Small<'_>, &[u8]); 4] = [
        (
            "short and outside",
            short_and_outside,
            b"SiteOutside 401001",
        ),
        ("calls and traces", calls_and_traces, b"SiteOutside 401003"),
        ("short and twice", twice, b"SiteLength 401000"),
        ("descending", descending, b"SiteLength 401001"),
    ];
    for (name, small, why) in rows {
        refuses(&rt, name, &small, &[], why)?;
    }
    Ok(())
}

#[test]
fn overlaps_and_keys_have_an_order(rt: HostRuntime) -> Result<(), Fail> {
    let twice = Small {
        sites: &[jump(F, F + 2, 0), jump(F, F + 2, 0)],
        ..SWITCH
    };
    let two_keys = Small {
        text: b"f\x90f\x90\xc3",
        sites: &[jump(F, F + 4, 0), jump(F + 2, F + 4, 1)],
        keys: &[(b"k", KeyStart::Count(0)), (b"k2", KeyStart::Count(0))],
        functions: &[],
    };
    // The first entry's key is four bytes further on.
    let further = (Place::File(0x58), 0xfc);
    let first_negative = (Place::File(0x73), 0x80);
    let second_negative = (Place::File(0x83), 0x80);
    let second_further = (Place::File(0x68), 0xfc);
    let rows: [(&str, Small<'_>, &[(Place, u8)], &[u8]); 4] = [
        ("overlap", twice, &[further], b"SiteOverlap 401000"),
        (
            "key",
            two_keys,
            &[first_negative, second_further],
            b"KeyOutside 451014",
        ),
        (
            "first state",
            two_keys,
            &[first_negative, second_negative],
            b"KeyState 451000",
        ),
        (
            "second state",
            two_keys,
            &[second_negative],
            b"KeyState 451010",
        ),
    ];
    for (name, small, edits, why) in rows {
        refuses(&rt, name, &small, edits, why)?;
    }
    Ok(())
}

#[test]
fn states_come_before_reach(rt: HostRuntime) -> Result<(), Fail> {
    let alloc = rt.alloc();
    let mut text = Vec::from_slice(alloc, b"f\x90")?;
    text.extend_from_slice(&vec![in alloc; 0x90; 128]?)?;
    text.push(0xc3)?;
    let far = Small {
        text: &text,
        sites: &[jump(F, F + 130, 0)],
        keys: &[(b"k", KeyStart::Count(0))],
        functions: &[],
    };
    refuses(&rt, "reach", &far, &[], b"NoReach 401000")?;
    let negative = [(Place::File(0xe3), 0x80)];
    refuses(&rt, "state", &far, &negative, b"KeyState 451000")
}

/// A text of a traced NOP, two bytes, a jump's NOP, 128 NOPs and a last byte.
fn long_text(alloc: Global, plain: &[u8], last: u8) -> Result<Vec<u8>, Fail> {
    let mut text = Vec::from_slice(alloc, b"\x0f\x1fD\0\0")?;
    text.extend_from_slice(plain)?;
    text.extend_from_slice(b"f\x90")?;
    text.extend_from_slice(&vec![in alloc; 0x90; 128]?)?;
    text.push(last)?;
    Ok(text)
}

/// Asserts that `check` refuses such a text, whose jump leads to this target, and says why; a function has
/// this name.
fn refuses_long<R: Abort + AllocGlobal + Threads + Sync>(
    rt: &R,
    text: &[u8],
    target: u64,
    function: &[u8],
    why: &[u8],
) -> Result<(), Fail> {
    let small = Small {
        text,
        sites: &[PlanSite::Trace { at: F }, jump(F + 7, target, 0)],
        keys: &[(b"k", KeyStart::Count(0))],
        functions: &[(function, F + 9)],
    };
    refuses(rt, "a long text", &small, &[], why)
}

#[test]
fn reach_tracer_bytes_targets_and_end(rt: HostRuntime) -> Result<(), Fail> {
    let alloc = rt.alloc();
    // A jump into the traced NOP, and no instruction at the end, or a NOP.
    let cut = long_text(alloc, b"\xeb\xfa", b'H')?;
    let astray = long_text(alloc, b"\xeb\xfa", 0x90)?;
    let falling = long_text(alloc, b"f\x90", 0x90)?;
    let tracer = b"ftrace_caller";
    refuses_long(&rt, &cut, F + 137, b"f", b"NoReach 401007")?;
    refuses_long(&rt, &cut, F + 136, b"f", b"TracerMissing 401000")?;
    refuses_long(&rt, &cut, F + 136, tracer, b"Undecoded 401089")?;
    refuses_long(&rt, &astray, F + 136, tracer, b"BadTarget 401005 401001")?;
    refuses_long(&rt, &falling, F + 136, tracer, b"EndFalls 401089")
}

/// Where a module leads: a plain jump by its displacement, a switch, a call's key and a function.
#[derive(Clone, Copy)]
struct Leads {
    plain: u8,
    site: u64,
    key: u64,
    function: u64,
}

/// A load, a switch, a call, a plain jump and a return, which lead so.
fn leading(alloc: Global, leads: Leads) -> Result<Vec<u8>, Fail> {
    let mut text = Vec::from_slice(alloc, b"\xb8\x01\0\0\0f\x90\xe8\0\0\0\0\xeb")?;
    text.push(leads.plain)?;
    text.push(0xc3)?;
    let small = Small {
        text: &text,
        sites: &[jump(F + 5, leads.site, 0), call(F + 7, 1)],
        keys: &[
            (b"k", KeyStart::Count(0)),
            (b"ck", KeyStart::Func(leads.key)),
        ],
        functions: &[(b"f", F), (b"g", leads.function), (b"h", F + 2)],
    };
    Ok(small.file(alloc)?)
}

#[test]
fn targets_have_an_order(rt: HostRuntime) -> Result<(), Fail> {
    // The jump at 40100c, whose end is 40100e, leads back into the load at 401000.
    let astray = Leads {
        plain: 0xf5,
        site: F + 1,
        key: F + 3,
        function: F + 4,
    };
    let plain = Leads { plain: 0, ..astray };
    let site = Leads {
        site: F + 5,
        ..plain
    };
    let key = Leads { key: F, ..site };
    let function = Leads { function: F, ..key };
    let rows: [(&str, Leads, &[u8]); 5] = [
        ("a plain jump", astray, b"BadTarget 40100c 401003"),
        ("a site", plain, b"BadTarget 401005 401001"),
        ("a key", site, b"BadTarget 451010 401003"),
        // Functions in the order of the symbols.
        ("a function", key, b"BadTarget 401004 401004"),
        ("the next function", function, b"BadTarget 401002 401002"),
    ];
    for (name, leads, why) in rows {
        refuses_file(&rt, name, &leading(rt.alloc(), leads)?, why)?;
    }
    Ok(())
}

#[test]
fn the_first_target_counts(rt: HostRuntime) -> Result<(), Fail> {
    // Two jumps into the load that follows them.
    let plain = Small {
        text: b"\xeb\x03\xeb\x02\xb8\x01\0\0\0\xc3",
        ..RETURN
    };
    // Sites and keys ascend, whatever the order of the entries.
    let sites = Small {
        text: b"f\x90f\x90\xb8\x01\0\0\0\xc3",
        sites: &[jump(F + 2, F + 5, 0), jump(F, F + 6, 0)],
        ..SWITCH
    };
    let keys = Small {
        text: b"\x0f\x1fD\0\0\x0f\x1fD\0\0\xc3",
        sites: &[call(F, 1), call(F + 5, 0)],
        keys: &[
            (b"ck", KeyStart::Func(F + 1)),
            (b"ck2", KeyStart::Func(F + 2)),
        ],
        functions: &[],
    };
    let rows: [(&str, Small<'_>, &[u8]); 3] = [
        ("plain jumps", plain, b"BadTarget 401000 401005"),
        ("sites", sites, b"BadTarget 401000 401006"),
        ("keys", keys, b"BadTarget 451000 401001"),
    ];
    for (name, small, why) in rows {
        refuses(&rt, name, &small, &[], why)?;
    }
    Ok(())
}
