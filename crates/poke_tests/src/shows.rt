//! `show`: what is printed of a module's tables, and why other files are refused.

use crate::frame::{Failing, run, run_failing_calls};
use std::alloc::Global;
use std::test::Fail;
use tried_modules::{Place, TWO_SWITCHES, change};

/// The jump entries of the module with two switches.
const JUMPS: &[u8] = b"jump 401000 401009 451000 unlikely\njump 401002 401009 451000 likely\n";

/// The file of the module with two switches, some bytes of which were changed. It has 896 bytes: the
/// header, the contents, and nine section headers from 140 (hexadecimal) on.
fn changed(alloc: Global, edits: &[(usize, u8)]) -> Result<Vec<u8>, Fail> {
    let mut file = TWO_SWITCHES.file(alloc)?;
    for &(at, byte) in edits {
        change(&mut file, &[(Place::File(at), byte)]);
    }
    Ok(file)
}

/// Bytes that are changed in the module with two switches, and what is then printed.
const SHOWN: &[(&str, &[(usize, u8)], &[u8])] = &[
    ("as written", &[], JUMPS),
    (
        "bit 1",
        &[(0x58, 0xfa), (0x68, 0xeb)],
        b"jump 401000 401009 451000 unlikely bit1\njump 401002 401009 451000 likely bit1\n",
    ),
    (
        "at an address that isn't a multiple of 4",
        &[(0x58, 0xfb), (0x1d0, 2)],
        b"jump 401002 40100b 451002 likely bit1\njump 401004 40100b 451002 likely\n",
    ),
    ("three empty tables", &[(0x1e0, 0)], b""),
    ("a missing table", &[(0x1c0, 8)], b""),
    (
        "a second table of the same name",
        &[(0x200, 7), (0x220, 1)],
        JUMPS,
    ),
    (
        "a tail call",
        &[(0x1e0, 16), (0x218, 0x60), (0x220, 8)],
        b"jump 401000 401009 451000 unlikely\ntail 410ff2 410ff8\n",
    ),
    (
        "calls alone",
        &[(0x1c0, 8), (0x218, 0x50), (0x220, 32), (0x5c, 2), (0x6c, 3)],
        b"tail 411000 411008\ncall 461000 43100c init\ntail 411002 411008\ntail 461001 43101c init\n",
    ),
    (
        "jumps, calls and traces",
        &[
            (0x1e0, 16),
            (0x218, 0x50),
            (0x220, 8),
            (0x258, 0x98),
            (0x260, 16),
        ],
        b"jump 401000 401009 451000 unlikely\ntail 411000 411008\ntrace 1001200000001\ntrace 401000\n",
    ),
];

#[test]
fn tables_are_shown(rt: HostRuntime) -> Result<(), Fail> {
    for &(name, edits, printed) in SHOWN {
        let file = changed(rt.alloc(), edits)?;
        run(
            &rt,
            &(name, &["show", "m"], &[("m", &file)], 0, printed, b""),
        )?;
    }
    Ok(())
}

/// Bytes that are changed in the module with two switches, and what is then reported.
const REFUSED: &[(&str, &[(usize, u8)], &[u8])] = &[
    ("magic", &[(0x00, 0)], b"textpoke: module: Magic 0\n"),
    ("class", &[(0x04, 1)], b"textpoke: module: Class 4\n"),
    ("data", &[(0x05, 2)], b"textpoke: module: Data 5\n"),
    ("ident", &[(0x06, 0)], b"textpoke: module: Version 6\n"),
    ("version", &[(0x14, 2)], b"textpoke: module: Version 14\n"),
    ("machine", &[(0x12, 3)], b"textpoke: module: Machine 12\n"),
    ("kind", &[(0x10, 4)], b"textpoke: module: Kind 10\n"),
    (
        "relocatable",
        &[(0x10, 1)],
        b"textpoke: module: Relocatable 10\n",
    ),
    ("headers", &[(0x3a, 63)], b"textpoke: module: Headers 3a\n"),
    ("a section", &[(0x299, 4)], b"textpoke: module: Section 5\n"),
    ("names", &[(0x344, 1)], b"textpoke: module: Names 8\n"),
    ("symbols", &[(0xd4, b'x')], b"textpoke: module: Symbols 2\n"),
    (
        "jumps before traces",
        &[(0x1e0, 17), (0x260, 9)],
        b"textpoke: module: Table jump 11\n",
    ),
    (
        "calls before traces",
        &[(0x220, 4), (0x260, 9)],
        b"textpoke: module: Table call 4\n",
    ),
    (
        "traces",
        &[(0x260, 9)],
        b"textpoke: module: Table trace 9\n",
    ),
    (
        "the first section of a name",
        &[(0x180, 7)],
        b"textpoke: module: Table jump a\n",
    ),
];

#[test]
fn modules_are_refused(rt: HostRuntime) -> Result<(), Fail> {
    for &(name, edits, reported) in REFUSED {
        let file = changed(rt.alloc(), edits)?;
        run(
            &rt,
            &(name, &["show", "m"], &[("m", &file)], 2, b"", reported),
        )?;
    }
    Ok(())
}

#[test]
fn cut_modules_are_refused(rt: HostRuntime) -> Result<(), Fail> {
    let module = changed(rt.alloc(), &[])?;
    assert_eq!(rt; module.len(), 896);
    let a_byte_less = module.get(..895).expect(&rt, "895 bytes");
    let header = module.get(..64).expect(&rt, "64 bytes");
    let rows: [(&str, &[u8], &[u8]); 5] = [
        (
            "a byte less",
            a_byte_less,
            b"textpoke: module: Headers 28\n",
        ),
        ("a header", header, b"textpoke: module: Headers 28\n"),
        ("64 zeros", &[0; 64], b"textpoke: module: Magic 0\n"),
        ("63 zeros", &[0; 63], b"textpoke: module: Short 3f\n"),
        ("no bytes", b"", b"textpoke: module: Short 0\n"),
    ];
    for (name, file, reported) in rows {
        run(
            &rt,
            &(name, &["show", "m"], &[("m", file)], 2, b"", reported),
        )?;
    }
    Ok(())
}

#[test]
fn long_modules_are_refused(rt: HostRuntime) -> Result<(), Fail> {
    let module = vec![in rt.alloc(); 0; 0x400_0001]?;
    let reported = b"textpoke: module: TooLong\n";
    run(
        &rt,
        &("long", &["show", "m"], &[("m", &module)], 2, b"", reported),
    )
}

#[test]
fn failing_calls_have_a_status(rt: HostRuntime) -> Result<(), Fail> {
    let read: &[u8] = b"textpoke: read failed\n";
    let write: &[u8] = b"textpoke: write failed\n";
    // The first call reads the file, and two prints follow.
    let rows: [Failing<'_>; 4] = [
        (1, 5, b"", read),
        (2, 6, b"jump 401000 40100", write),
        (
            3,
            6,
            b"jump 401000 401009 451000 unlikely\njump 401002 4010",
            write,
        ),
        (4, 0, JUMPS, b""),
    ];
    let module = changed(rt.alloc(), &[])?;
    run_failing_calls(&rt, &["show", "m"], ("m", &module), &rows)
}
