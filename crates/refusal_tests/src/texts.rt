//! Modules that `check` refuses for what their texts say and where they lead.

use crate::frame::refuses;
use elf_build::{KeyStart, PlanSite};
use small_module::{F, Small};
use std::process::Abort;
use std::test::Fail;
use std::thread::Threads;
use tried_modules::{NO_FUNCTION, Place, RETURN, TRACE, call, jump, tail};

/// A name, a text without sites, and why it is refused.
type Plain<'a> = (&'a str, &'a [u8], &'a [u8]);

/// A name, a text with one site, its key's start, and why it is refused.
type One<'a> = (&'a str, &'a [u8], PlanSite, KeyStart, &'a [u8]);

/// Asserts of each text without sites that `check` refuses it, and says why.
fn refuses_texts<R: Abort + AllocGlobal + Threads + Sync>(
    rt: &R,
    rows: &[Plain<'_>],
) -> Result<(), Fail> {
    for &(name, text, why) in rows {
        refuses(rt, name, &Small { text, ..RETURN }, &[], why)?;
    }
    Ok(())
}

/// Asserts of each text with one site that `check` refuses it, and says why.
pub fn refuses_sites<R: Abort + AllocGlobal + Threads + Sync>(
    rt: &R,
    rows: &[One<'_>],
) -> Result<(), Fail> {
    for &(name, text, site, start, why) in rows {
        let small = Small {
            text,
            sites: &[site],
            keys: &[(b"k", start)],
            functions: &[],
        };
        refuses(rt, name, &small, &[], why)?;
    }
    Ok(())
}

#[test]
fn short_jumps_reach_their_targets(rt: HostRuntime) -> Result<(), Fail> {
    let alloc = rt.alloc();
    let mut ahead = Vec::from_slice(alloc, b"f\x90")?;
    ahead.extend_from_slice(&vec![in alloc; 0x90; 128]?)?;
    ahead.push(0xc3)?;
    let mut back = vec![in alloc; 0x90; 127]?;
    back.extend_from_slice(b"f\x90\xc3")?;
    let off = KeyStart::Count(0);
    let rows: [One<'_>; 2] = [
        ("ahead", &ahead, jump(F, F + 130, 0), off, b"NoReach 401000"),
        ("back", &back, jump(F + 127, F, 0), off, b"NoReach 40107f"),
    ];
    refuses_sites(&rt, &rows)
}

#[test]
fn traces_have_a_tracer(rt: HostRuntime) -> Result<(), Fail> {
    // No name is the tracer's, but begins it or is longer.
    let other = Small {
        text: b"\x0f\x1fD\0\0\x0f\x1fD\0\0\xc3",
        sites: &[PlanSite::Trace { at: F + 5 }, PlanSite::Trace { at: F }],
        keys: &[],
        functions: &[(b"ftrace_call", F), (b"ftrace_callers", F)],
    };
    let rows: [(&str, Small<'_>, &[(Place, u8)]); 3] = [
        ("other names", other, &[]),
        ("an object", TRACE, &[(Place::File(0x7c), 0x11)]),
        ("another section", TRACE, &[(Place::File(0x7e), 5)]),
    ];
    for (name, small, edits) in rows {
        refuses(&rt, name, &small, edits, b"TracerMissing 401000")?;
    }
    Ok(())
}

#[test]
fn texts_are_read_to_their_ends(rt: HostRuntime) -> Result<(), Fail> {
    let plain: [Plain<'_>; 2] = [
        ("no instruction", b"H\x89\xe5\xc3", b"Undecoded 401000"),
        ("cut by the end", b"\x90\xb8\x01\0", b"Undecoded 401001"),
    ];
    refuses_texts(&rt, &plain)?;
    let one: [One<'_>; 1] = [(
        "cut by a site",
        b"\xb8f\x90\x90\x90\xc3",
        jump(F + 1, F + 5, 0),
        KeyStart::Count(0),
        b"Undecoded 401000",
    )];
    refuses_sites(&rt, &one)
}

#[test]
fn plain_jumps_lead_to_instructions(rt: HostRuntime) -> Result<(), Fail> {
    let one: [One<'_>; 1] = [(
        "into a site",
        b"\x0f\x1fD\0\0\xeb\xfa",
        jump(F, F + 5, 0),
        KeyStart::Count(0),
        b"BadTarget 401005 401001",
    )];
    refuses_sites(&rt, &one)?;
    let plain: [Plain<'_>; 5] = [
        ("to the end", b"\xeb\0", b"BadTarget 401000 401002"),
        (
            "far after the end",
            b"\xe8\xff\xff\xff\x7f\xc3",
            b"BadTarget 401000 80401004",
        ),
        (
            "into a load, on a condition",
            b"\x75\x01\xb8\x01\0\0\0\xc3",
            b"BadTarget 401000 401003",
        ),
        (
            "into a load, on a condition, long",
            b"\x0f\x84\x01\0\0\0\xb8\x01\0\0\0\xc3",
            b"BadTarget 401000 401007",
        ),
        (
            "into a load, long",
            b"\xe9\x01\0\0\0\xb8\x01\0\0\0\xc3",
            b"BadTarget 401000 401006",
        ),
    ];
    refuses_texts(&rt, &plain)
}

#[test]
fn sites_and_functions_lead_to_instructions(rt: HostRuntime) -> Result<(), Fail> {
    let off = KeyStart::Count(0);
    let load: &[u8] = b"\xb8\x01\0\0\0\xc3";
    let sites: [One<'_>; 2] = [
        (
            "a switch",
            b"f\x90\xb8\x01\0\0\0\xc3",
            jump(F, F + 3, 0),
            off,
            b"BadTarget 401000 401003",
        ),
        (
            "a foreign switch",
            load,
            jump(F, F + 1, 0),
            off,
            b"BadTarget 401000 401001",
        ),
    ];
    refuses_sites(&rt, &sites)?;
    let function = Small {
        text: load,
        functions: &[(b"f", F + 1)],
        ..RETURN
    };
    let why = b"BadTarget 401001 401001";
    refuses(&rt, "a function", &function, &[], why)
}

#[test]
fn keys_lead_to_instructions(rt: HostRuntime) -> Result<(), Fail> {
    let rows: [(&str, u64, &[u8]); 4] = [
        ("into a load", F + 6, b"BadTarget 451000 401006"),
        ("to the end", F + 11, b"BadTarget 451000 40100b"),
        ("before the text", F - 1, b"BadTarget 451000 400fff"),
        // A call doesn't reach it.
        (
            "far away",
            0x7fff_0000_0000,
            b"BadTarget 451000 7fff00000000",
        ),
    ];
    for (name, function, why) in rows {
        // A call, which is the key's site, a load and a return.
        let small = Small {
            text: b"\xe8\0\0\0\0\xb8\x01\0\0\0\xc3",
            sites: &[call(F, 0)],
            keys: &[(b"k", KeyStart::Func(function))],
            functions: &[],
        };
        refuses(&rt, name, &small, &[], why)?;
    }
    Ok(())
}

#[test]
fn texts_end_with_what_ends_them(rt: HostRuntime) -> Result<(), Fail> {
    let off = KeyStart::Count(0);
    let sites: [One<'_>; 3] = [
        (
            "a switch",
            b"\xc3f\x90",
            jump(F + 1, F, 0),
            off,
            b"EndFalls 401001",
        ),
        (
            "a call",
            b"\xc3\x0f\x1fD\0\0",
            call(F + 1, 0),
            NO_FUNCTION,
            b"EndFalls 401001",
        ),
        (
            "a foreign tail call, which ends with a NOP",
            b"\xc3\x90\x90\x90\x90",
            tail(F, 0),
            NO_FUNCTION,
            b"EndFalls 401004",
        ),
    ];
    refuses_sites(&rt, &sites)?;
    let plain: [Plain<'_>; 3] = [
        ("a NOP", b"\x90", b"EndFalls 401000"),
        (
            "a plain call",
            b"\xc3\xe8\xfa\xff\xff\xff",
            b"EndFalls 401001",
        ),
        ("a jump on a condition", b"\xc3\x75\xfd", b"EndFalls 401001"),
    ];
    refuses_texts(&rt, &plain)?;
    let traced = Small {
        text: b"\xc3\x0f\x1fD\0\0",
        sites: &[PlanSite::Trace { at: F + 1 }],
        keys: &[],
        functions: &[(b"ftrace_caller", F)],
    };
    refuses(&rt, "a trace", &traced, &[], b"EndFalls 401001")
}
