//! `check`: what is printed of modules that are accepted.

use crate::frame::{accepts, accepts_file, printed_of};
use elf_build::{KeyStart, generated};
use small_module::{F, Small, file_of};
use std::test::Fail;
use tried_modules::{Place, RETURN, SWITCH, TWO_SWITCHES, call, jump, ten_blocks, text_at};

/// What is printed of the module with two switches.
const TWO_SWITCHES_TEXT: &[u8] =
    b"text 401000 10\nsite 401000 jump 6690\nsite 401002 jump e902000000\naccepted\n";

#[test]
fn modules_are_accepted(rt: HostRuntime) -> Result<(), Fail> {
    accepts(&rt, "early forms", &TWO_SWITCHES, &[], TWO_SWITCHES_TEXT)?;
    let ten = b"text 401000 94\n\
        site 401011 jump 0f1f440000\n\
        site 401018 jump 6690\n\
        site 40101c call e8dfffffff\n\
        site 401021 trace 0f1f440000\n\
        site 40102d tail e9d2ffffff\n\
        site 401032 jump e902000000\n\
        site 401039 jump eb02\n\
        site 40103d call e8beffffff\n\
        site 401042 trace 0f1f440000\n\
        site 40104e tail e9b1ffffff\n\
        accepted\n";
    accepts_file(&rt, "ten blocks", &ten_blocks(rt.alloc())?, ten)
}

#[test]
fn a_thousand_sites_are_shown(rt: HostRuntime) -> Result<(), Fail> {
    let alloc = rt.alloc();
    let module = file_of(alloc, &generated(alloc, 1_000)?)?;
    let printed = printed_of(&rt, &module)?;
    let lines = printed.iter().filter(|byte| **byte == b'\n').count();
    assert_eq!(rt; lines, 1_002);
    assert!(rt; printed.starts_with(b"text 401000 6628\nsite 401011 jump 0f1f440000\n"));
    assert!(rt; printed.ends_with(b"\nsite 4029d4 tail e92be6ffff\naccepted\n"));
    Ok(())
}

#[test]
fn texts_end_where_nothing_follows(rt: HostRuntime) -> Result<(), Fail> {
    let rows: [(&str, &[u8], &[u8]); 6] = [
        ("ret", b"\xc3", b"text 401000 1\naccepted\n"),
        ("hlt", b"\xf4", b"text 401000 1\naccepted\n"),
        ("int3", b"\xcc", b"text 401000 1\naccepted\n"),
        ("ud2", b"\x0f\x0b", b"text 401000 2\naccepted\n"),
        ("jmp8", b"\xeb\xfe", b"text 401000 2\naccepted\n"),
        (
            "jmp32",
            b"\xe9\xfb\xff\xff\xff",
            b"text 401000 5\naccepted\n",
        ),
    ];
    for (name, text, printed) in rows {
        accepts(&rt, name, &Small { text, ..RETURN }, &[], printed)?;
    }
    Ok(())
}

#[test]
fn texts_may_be_long_and_high(rt: HostRuntime) -> Result<(), Fail> {
    let mut text = vec![in rt.alloc(); 0x90; 65_535]?;
    text.push(0xc3)?;
    let long = Small {
        text: &text,
        ..RETURN
    };
    accepts(&rt, "long", &long, &[], b"text 401000 65536\naccepted\n")?;

    // The last byte stands at the last address but one.
    let printed = b"text fffffffffffffffe 1\naccepted\n";
    accepts(&rt, "high", &RETURN, &text_at(0xfe), printed)
}

#[test]
fn an_address_may_be_two_keys(rt: HostRuntime) -> Result<(), Fail> {
    let small = Small {
        text: b"f\x90\xe8\0\0\0\0\xc3",
        sites: &[jump(F, F + 2, 0), call(F + 2, 1)],
        keys: &[(b"k", KeyStart::Count(0)), (b"ck", KeyStart::Func(F + 7))],
        functions: &[],
    };
    let rows: [(&str, &[(Place, u8)], &[u8]); 2] = [
        // The entry of the jump names 451010, which the call's key holds: the count is 401007.
        (
            "a jump's key",
            &[
                (Place::File(0x58), 0x08),
                (Place::File(0x59), 0x00),
                (Place::File(0x5a), 0x03),
            ],
            b"text 401000 8\nsite 401000 jump eb00\nsite 401002 call e800000000\naccepted\n",
        ),
        // The entry of the call names 451000, which the jump's key holds: there is no function.
        (
            "a call's key",
            &[
                (Place::File(0x64), 0xfc),
                (Place::File(0x65), 0xff),
                (Place::File(0x66), 0x01),
            ],
            b"text 401000 8\nsite 401000 jump 6690\nsite 401002 call 0f1f440000\naccepted\n",
        ),
    ];
    for (name, edits, printed) in rows {
        accepts(&rt, name, &small, edits, printed)?;
    }
    Ok(())
}

#[test]
fn a_section_without_bytes_holds_zeros(rt: HostRuntime) -> Result<(), Fail> {
    let enabled = Small {
        keys: &[(b"k", KeyStart::Count(1))],
        ..SWITCH
    };
    let rows: [(&str, &[(Place, u8)], &[u8]); 2] = [
        (
            "with bytes",
            &[],
            b"text 401000 3\nsite 401000 jump eb00\naccepted\n",
        ),
        (
            "without bytes",
            &[(Place::Header(5, 4), 8)],
            b"text 401000 3\nsite 401000 jump 6690\naccepted\n",
        ),
    ];
    for (name, edits, printed) in rows {
        accepts(&rt, name, &enabled, edits, printed)?;
    }
    Ok(())
}
