//! Modules that `check` refuses for their text's place, their tables, their sites or their keys.

use crate::frame::{printed_of, refuses, refuses_file};
use crate::texts::refuses_sites;
use elf_build::{KeyStart, PlanSite};
use small_module::{F, Small, file_of};
use std::test::Fail;
use tried_modules::{
    CALL, NO_FUNCTION, Place, RETURN, SWITCH, TRACE, call, change, full, jump, tail, text_at,
};

#[test]
fn a_module_has_one_text(rt: HostRuntime) -> Result<(), Fail> {
    // The names of `.text` and `.data` become others: none, `text`, `.text`.
    let rows: [(&str, &[(Place, u8)], &[u8]); 4] = [
        ("no name", &[(Place::Header(1, 0), 0)], b"TextCount 0"),
        ("no dot", &[(Place::Header(1, 0), 2)], b"TextCount 0"),
        ("two", &[(Place::Header(5, 0), 1)], b"TextCount 2"),
        (
            "three",
            &[(Place::Header(4, 0), 1), (Place::Header(5, 0), 1)],
            b"TextCount 3",
        ),
    ];
    for (name, edits, why) in rows {
        refuses(&rt, name, &RETURN, edits, why)?;
    }
    Ok(())
}

#[test]
fn a_text_has_bytes_and_a_place(rt: HostRuntime) -> Result<(), Fail> {
    let text = vec![in rt.alloc(); 0xc3; 65_536]?;
    let longest = Small {
        text: &text,
        ..RETURN
    };
    let rows: [(&str, Small<'_>, &[(Place, u8)], &[u8]); 6] = [
        (
            "without bytes in the file",
            RETURN,
            &[(Place::Header(1, 4), 8)],
            b"TextSize 1",
        ),
        (
            "no section",
            RETURN,
            &[(Place::Header(1, 4), 0)],
            b"TextSize 1",
        ),
        (
            "long, without bytes in the file",
            RETURN,
            &[(Place::Header(1, 4), 8), (Place::Header(1, 33), 0x12)],
            b"TextSize 1201",
        ),
        ("empty", RETURN, &[(Place::Header(1, 32), 0)], b"TextSize 0"),
        ("at the last address", RETURN, &text_at(0xff), b"TextSize 1"),
        (
            "too long",
            longest,
            &[(Place::Header(1, 32), 1)],
            b"TextSize 10001",
        ),
    ];
    for (name, small, edits, why) in rows {
        refuses(&rt, name, &small, edits, why)?;
    }
    Ok(())
}

#[test]
fn tables_have_whole_entries(rt: HostRuntime) -> Result<(), Fail> {
    let rows: [(&str, (Place, u8), &[u8]); 6] = [
        ("jumps, 1", (Place::Header(2, 32), 1), b"Table jump 1"),
        ("jumps, 8", (Place::Header(2, 32), 8), b"Table jump 8"),
        ("calls, 9", (Place::Header(3, 32), 9), b"Table call 9"),
        ("calls, 4", (Place::Header(3, 32), 4), b"Table call 4"),
        ("traces, 4", (Place::Header(4, 32), 4), b"Table trace 4"),
        ("traces, 17", (Place::Header(4, 32), 17), b"Table trace 11"),
    ];
    for (name, edit, why) in rows {
        refuses(&rt, name, &RETURN, &[edit], why)?;
    }
    Ok(())
}

#[test]
fn sites_are_counted(rt: HostRuntime) -> Result<(), Fail> {
    let alloc = rt.alloc();
    let mut bytes = file_of(alloc, &full(alloc)?)?;
    let printed = printed_of(&rt, &bytes)?;
    let lines = printed.iter().filter(|byte| **byte == b'\n').count();
    assert_eq!(rt; lines, 1_026);
    assert!(rt; printed.ends_with(b"\nsite 4023fc trace 0f1f440000\naccepted\n"));

    // After the table the first symbol stands, 24 zeros: an entry of the address 0.
    change(&mut bytes, &[(Place::Header(4, 32), 8)]);
    refuses_file(&rt, "one more", &bytes, b"SiteCount 401")
}

#[test]
fn sites_stand_in_the_text(rt: HostRuntime) -> Result<(), Fail> {
    let text = b"\x0f\x1fD\0\0\xc3";
    let traced = PlanSite::Trace { at: F + 2 };
    refuses_sites(
        &rt,
        &[
            (
                "call",
                text,
                call(F + 2, 0),
                NO_FUNCTION,
                b"SiteOutside 401002",
            ),
            (
                "tail",
                text,
                tail(F + 5, 0),
                NO_FUNCTION,
                b"SiteOutside 401005",
            ),
            ("trace", text, traced, NO_FUNCTION, b"SiteOutside 401002"),
        ],
    )?;

    let rows: [(&str, Small<'_>, &[(Place, u8)], &[u8]); 3] = [
        (
            "before the text",
            SWITCH,
            &[
                (Place::File(0x50), 0xff),
                (Place::File(0x51), 0xff),
                (Place::File(0x52), 0xfd),
            ],
            b"SiteOutside 400fff",
        ),
        (
            "at the text's end",
            SWITCH,
            &[(Place::File(0x50), 3)],
            b"SiteOutside 401003",
        ),
        // Five bytes after the entry's address is the address 2.
        (
            "at the last addresses",
            TRACE,
            &[
                (Place::File(0x50), 0xfd),
                (Place::File(0x51), 0xff),
                (Place::File(0x52), 0xff),
                (Place::File(0x53), 0xff),
                (Place::File(0x54), 0xff),
                (Place::File(0x55), 0xff),
                (Place::File(0x56), 0xff),
                (Place::File(0x57), 0xff),
            ],
            b"SiteOutside fffffffffffffffd",
        ),
    ];
    for (name, small, edits, why) in rows {
        refuses(&rt, name, &small, edits, why)?;
    }
    Ok(())
}

#[test]
fn jumps_have_two_bytes_or_five(rt: HostRuntime) -> Result<(), Fail> {
    let rows: [(&str, &[u8], u64, &[u8]); 9] = [
        ("one byte", b"\xc3", F, b"SiteLength 401000"),
        ("three", b"\x0f\x1f\0\xc3", F, b"SiteLength 401000"),
        ("four", b"\xf3\x0f\x1e\xfa\xc3", F, b"SiteLength 401000"),
        ("six", b"\x0f\x84\0\0\0\0\xc3", F, b"SiteLength 401000"),
        (
            "no instruction of the subset",
            b"\xc3H\x89\xe5\xc3",
            F + 1,
            b"SiteLength 401001",
        ),
        ("a cut nop2", b"\xc3f", F + 1, b"SiteLength 401001"),
        ("a cut jmp8", b"\xc3\xeb", F + 1, b"SiteLength 401001"),
        (
            "a cut nop5",
            b"\xc3\x0f\x1fD\0",
            F + 1,
            b"SiteLength 401001",
        ),
        (
            "a cut jmp32",
            b"\xc3\xe9\0\0\0",
            F + 1,
            b"SiteLength 401001",
        ),
    ];
    for (name, text, at, why) in rows {
        let site = jump(at, F, 0);
        refuses_sites(&rt, &[(name, text, site, KeyStart::Count(0), why)])?;
    }
    Ok(())
}

#[test]
fn sites_are_apart(rt: HostRuntime) -> Result<(), Fail> {
    let twice = Small {
        text: b"\x0f\x1fD\0\0\xc3",
        sites: &[jump(F, F + 5, 0), jump(F, F + 5, 0)],
        keys: &[(b"k", KeyStart::Count(0))],
        functions: &[],
    };
    // The last bytes of a call, a foreign one, are a jump.
    let inside = Small {
        text: b"\x0f\x1fDf\x90\xc3",
        sites: &[jump(F + 3, F + 5, 0), call(F, 1)],
        keys: &[(b"k", KeyStart::Count(0)), (b"ck", NO_FUNCTION)],
        functions: &[],
    };
    let reaching_out = Small {
        text: b"\x0f\x1fD\0f\x90\xc3",
        sites: &[jump(F + 4, F + 6, 0), call(F, 1)],
        keys: &[(b"k", KeyStart::Count(0)), (b"ck", NO_FUNCTION)],
        functions: &[],
    };
    refuses(&rt, "twice", &twice, &[], b"SiteOverlap 401000")?;
    refuses(&rt, "inside", &inside, &[], b"SiteOverlap 401003")?;
    refuses(
        &rt,
        "reaching out",
        &reaching_out,
        &[],
        b"SiteOverlap 401004",
    )
}

#[test]
fn keys_are_loaded(rt: HostRuntime) -> Result<(), Fail> {
    let rows: [(&str, Small<'_>, &[(Place, u8)], &[u8]); 4] = [
        (
            "four bytes further on",
            SWITCH,
            &[(Place::File(0x58), 0xfc)],
            b"KeyOutside 451004",
        ),
        (
            "four bytes before",
            SWITCH,
            &[(Place::File(0x58), 0xf4)],
            b"KeyOutside 450ffc",
        ),
        (
            "in a section that isn't loaded",
            SWITCH,
            &[(Place::Header(5, 8), 1)],
            b"KeyOutside 451000",
        ),
        (
            "a call's, four bytes further on",
            CALL,
            &[
                (Place::File(0x54), 0),
                (Place::File(0x55), 0),
                (Place::File(0x56), 2),
            ],
            b"KeyOutside 451004",
        ),
    ];
    for (name, small, edits, why) in rows {
        refuses(&rt, name, &small, edits, why)?;
    }
    Ok(())
}

#[test]
fn counts_are_not_negative(rt: HostRuntime) -> Result<(), Fail> {
    let greatest = Small {
        keys: &[(b"k", KeyStart::Count(0x7fff_ffff))],
        ..SWITCH
    };
    for (name, byte) in [("the least", 0x80), ("minus 1", 0xff)] {
        let edits = [(Place::File(0x63), byte)];
        refuses(&rt, name, &greatest, &edits, b"KeyState 451000")?;
    }
    Ok(())
}
