//! `plan`: what is printed of plan files, and why others are refused.

use crate::frame::{Failing, run, run_failing_calls, run_leaving};
use std::test::Fail;

/// A no-operation of five bytes becomes a jump.
pub const NOP_TO_JMP: &[u8] = b"401000 0f1f440000 jmp32 402000\n";

/// What is printed for it. A tail byte that doesn't change is written too.
const NOP_TO_JMP_POKE: &[u8] =
    b"w 401000 cc\nsync\nw 401001 fb\nw 401002 0f\nw 401003 00\nw 401004 00\nsync\nw 401000 e9\nsync\n";

/// Plan files, each with what is printed for it.
const PRINTED: &[(&str, &[u8], &[u8])] = &[
    ("a line", NOP_TO_JMP, NOP_TO_JMP_POKE),
    (
        "no line feed",
        b"401000 0f1f440000 jmp32 402000",
        NOP_TO_JMP_POKE,
    ),
    (
        "other blanks",
        b" 401000\t0F1F440000  jmp32 402000 \r\n",
        NOP_TO_JMP_POKE,
    ),
    (
        "jmp8 to nop2",
        b"1000 eb7f nop2\n",
        b"w 1000 cc\nsync\nw 1001 90\nsync\nw 1000 66\nsync\n",
    ),
    (
        "jmp32 to nop5",
        b"401000 e9fb0f0000 nop5\n",
        b"w 401000 cc\nsync\nw 401001 1f\nw 401002 44\nw 401003 00\nw 401004 00\nsync\nw 401000 0f\nsync\n",
    ),
    (
        "jmp32 to ret",
        b"401000 E9FB0F0000 ret\n",
        b"w 401000 cc\nsync\nw 401001 cc\nw 401002 cc\nw 401003 cc\nw 401004 cc\nsync\nw 401000 c3\nsync\n",
    ),
    (
        "nop2 to jmp8",
        b"1000 6690 jmp8 1081\n",
        b"w 1000 cc\nsync\nw 1001 7f\nsync\nw 1000 eb\nsync\n",
    ),
    (
        "ret to a call back",
        b"402000 c3cccccccc call 401000\n",
        b"w 402000 cc\nsync\nw 402001 fb\nw 402002 ef\nw 402003 ff\nw 402004 ff\nsync\nw 402000 e8\nsync\n",
    ),
    (
        "the highest address",
        b"ffffffffffffff00 6690 nop2\n",
        b"w ffffffffffffff00 cc\nsync\nw ffffffffffffff01 90\nsync\nw ffffffffffffff00 66\nsync\n",
    ),
];

#[test]
fn plans_are_printed(rt: HostRuntime) -> Result<(), Fail> {
    for &(name, text, printed) in PRINTED {
        run(
            &rt,
            &(name, &["plan", "p"], &[("p", text)], 0, printed, b""),
        )?;
    }
    Ok(())
}

const LINE: &[u8] = b"textpoke: plan: Line\n";

const NO_REACH: &[u8] = b"textpoke: plan: NoReach\n";

const OLD: &[u8] = b"textpoke: plan: Old\n";

/// Plan files that are refused, each with what is reported.
const REFUSED: &[(&str, &[u8], &[u8])] = &[
    ("no bytes", b"", LINE),
    ("a line feed", b"\n", LINE),
    ("a comment", b"# 401000 0f1f440000 nop5\n", LINE),
    ("an empty line", b"401000 0f1f440000 jmp32 402000\n\n", LINE),
    (
        "two lines",
        b"401000 0f1f440000 jmp32 402000\n401000 0f1f440000 nop5",
        LINE,
    ),
    ("17 digits", b"00000000000401000 0f1f440000 nop5\n", LINE),
    ("too high", b"ffffffffffffff01 6690 nop2\n", LINE),
    ("a prefix 0x", b"0x401000 0f1f440000 nop5\n", LINE),
    ("half a byte", b"401000 0f1f44000 nop5\n", LINE),
    ("no digit", b"401000 0f1f44000g nop5\n", LINE),
    ("no bytes", b"401000 nop5\n", LINE),
    ("no form", b"401000 0f1f440000\n", LINE),
    ("no target", b"401000 0f1f440000 jmp32\n", LINE),
    ("a word more", b"401000 0f1f440000 jmp32 402000 x\n", LINE),
    ("a target more", b"401000 0f1f440000 nop5 402000\n", LINE),
    ("a capital", b"401000 0f1f440000 Nop5\n", LINE),
    ("too far", b"1000 6690 jmp8 1082\n", NO_REACH),
    ("too far back", b"1000 00 jmp8 f81\n", NO_REACH),
    ("another size", b"401000 0f1f440000 jmp8 401010\n", OLD),
    ("a byte more", b"401000 0f1f440000cc jmp32 402000\n", OLD),
    ("a byte less", b"401000 0f1f4400 jmp32 402000\n", OLD),
    ("a load", b"401000 b801000000 jmp32 402000\n", OLD),
];

#[test]
fn plans_are_refused(rt: HostRuntime) -> Result<(), Fail> {
    for &(name, text, reported) in REFUSED {
        run(
            &rt,
            &(name, &["plan", "p"], &[("p", text)], 3, b"", reported),
        )?;
    }
    Ok(())
}

#[test]
fn long_files_are_refused(rt: HostRuntime) -> Result<(), Fail> {
    let rows: [(&str, usize, u8, &[u8], &[u8]); 2] = [
        ("256 bytes", 226, 0, NOP_TO_JMP_POKE, b""),
        ("257 bytes", 227, 3, b"", b"textpoke: plan: TooLong\n"),
    ];
    for (name, blanks, status, printed, reported) in rows {
        let mut text = vec![in rt.alloc(); b' '; blanks]?;
        text.extend_from_slice(b"401000 0f1f440000 jmp32 402000")?;
        run(
            &rt,
            &(
                name,
                &["plan", "p"],
                &[("p", &text)],
                status,
                printed,
                reported,
            ),
        )?;
    }
    Ok(())
}

const READ: &[u8] = b"textpoke: read failed\n";

const WRITE: &[u8] = b"textpoke: write failed\n";

/// The first call reads the file, and nine prints follow.
const FAILING: &[Failing] = &[
    (1, 5, b"", READ),
    (2, 6, b"w 4010", WRITE),
    (3, 6, b"w 401000 cc\nsy", WRITE),
    (4, 6, b"w 401000 cc\nsync\nw 4010", WRITE),
    (5, 6, b"w 401000 cc\nsync\nw 401001 fb\nw 4010", WRITE),
    (
        6,
        6,
        b"w 401000 cc\nsync\nw 401001 fb\nw 401002 0f\nw 4010",
        WRITE,
    ),
    (
        7,
        6,
        b"w 401000 cc\nsync\nw 401001 fb\nw 401002 0f\nw 401003 00\nw 4010",
        WRITE,
    ),
    (
        8,
        6,
        b"w 401000 cc\nsync\nw 401001 fb\nw 401002 0f\nw 401003 00\nw 401004 00\nsy",
        WRITE,
    ),
    (
        9,
        6,
        b"w 401000 cc\nsync\nw 401001 fb\nw 401002 0f\nw 401003 00\nw 401004 00\nsync\nw 4010",
        WRITE,
    ),
    (
        10,
        6,
        b"w 401000 cc\nsync\nw 401001 fb\nw 401002 0f\nw 401003 00\nw 401004 00\nsync\nw 401000 e9\nsy",
        WRITE,
    ),
    (11, 0, NOP_TO_JMP_POKE, b""),
];

#[test]
fn failing_calls_have_a_status(rt: HostRuntime) -> Result<(), Fail> {
    run_failing_calls(&rt, &["plan", "p"], ("p", NOP_TO_JMP), FAILING)
}

#[test]
fn a_complaint_that_fails_changes_no_status(rt: HostRuntime) -> Result<(), Fail> {
    run_leaving(
        &rt,
        &[1, 2],
        &(
            "two calls fail",
            &["plan", "p"],
            &[("p", NOP_TO_JMP)],
            5,
            b"",
            b"textpoke: r",
        ),
        &[],
    )
}
