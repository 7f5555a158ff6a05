//! `run`: what is printed, and the journal that is written.

use crate::frame::{Run, runs};
use poke_base::MemoryHost;
use small_module::{BRANCH, F, Small, file_of};
use std::process::Abort;
use std::test::Fail;
use std::thread::Threads;
use tried_commands::status_of;
use tried_modules::traced;

/// A function that calls itself without end.
const ENDLESS: Small<'static> = Small {
    text: b"\xe8\xfb\xff\xff\xff\xc3",
    sites: &[],
    keys: &[],
    functions: &[(b"f", F)],
};

/// The words of a run by a seed, with the journal `j`.
const RUN: &[&str] = &["run", "m", "s", "j", "7"];

/// Four turns of one processor.
const FOUR_TURNS: Run<'static> = Run {
    name: "four turns",
    small: BRANCH,
    script: b"cpu f\nrun 4\n",
    words: RUN,
    before: None,
    failing: None,
    ended: (0, FOUR_TURNS_TEXT, b""),
    after: Some(FOUR_TURNS_JOURNAL),
};

/// What they print.
const FOUR_TURNS_TEXT: &[u8] = b"0 401000 nop\n0 out 10 01\n0 done\nsite 401000 jump 0f1f440000\n";

/// Their journal.
const FOUR_TURNS_JOURNAL: &[u8] = b"journal 1\na 0 0f1f440000\np 0\np 0\np 0\n";

#[test]
fn one_processor_has_one_run(rt: HostRuntime) -> Result<(), Fail> {
    runs(&rt, &FOUR_TURNS)?;
    let breakpoint = Run {
        name: "a breakpoint of nobody",
        script: b"cpu brk\nrun 1\n",
        ended: (0, b"0 fault breakpoint\nsite 401000 jump 0f1f440000\n", b""),
        after: Some(b"journal 1\np 0\n"),
        ..FOUR_TURNS
    };
    runs(&rt, &breakpoint)?;
    let endless = Run {
        name: "calls without end",
        small: ENDLESS,
        script: b"cpu f\nrun 65\n",
        ended: (0, b"0 fault depth\n", b""),
        after: None,
        ..FOUR_TURNS
    };
    runs(&rt, &endless)
}

/// Which call fails, the status, what is printed and reported, and what the journal holds, which was an old one.
type Failing = (u64, u8, &'static [u8], &'static [u8], &'static [u8]);

const READ_FAILED: &[u8] = b"textpoke: read failed\n";

const WRITE_FAILED: &[u8] = b"textpoke: write failed\n";

/// Four turns, each of whose calls fails.
const FAILING: &[Failing] = &[
    (1, 5, b"", READ_FAILED, b"old"),
    (2, 5, b"", READ_FAILED, b"old"),
    (3, 6, b"", WRITE_FAILED, b"old"),
    (4, 6, b"", WRITE_FAILED, b"journ"),
    (5, 6, b"", WRITE_FAILED, b"journal 1\na 0 0f1"),
    (
        6,
        6,
        b"0 4010",
        WRITE_FAILED,
        b"journal 1\na 0 0f1f440000\n",
    ),
    (
        7,
        6,
        b"0 401000 nop\n",
        WRITE_FAILED,
        b"journal 1\na 0 0f1f440000\np ",
    ),
    (
        8,
        6,
        b"0 401000 nop\n",
        WRITE_FAILED,
        b"journal 1\na 0 0f1f440000\np 0\np ",
    ),
    (
        9,
        6,
        b"0 401000 nop\n0 out ",
        WRITE_FAILED,
        b"journal 1\na 0 0f1f440000\np 0\np 0\n",
    ),
];

#[test]
fn each_call_fails_in_turn(rt: HostRuntime) -> Result<(), Fail> {
    for &(failing, status, printed, reported, journal) in FAILING {
        let run = Run {
            before: Some(b"old"),
            failing: Some(failing),
            ended: (status, printed, reported),
            after: Some(journal),
            ..FOUR_TURNS
        };
        runs(&rt, &run)?;
    }
    Ok(())
}

/// How many lines begin with this letter.
fn lines_of(letter: u8, text: &[u8]) -> u64 {
    let mut count = 0;
    let mut begins = true;
    for byte in text {
        if begins && *byte == letter && count < 10_000 {
            count += 1;
        }
        begins = *byte == b'\n';
    }
    count
}

/// Traces 300 functions beside a processor that halts, and asserts what is printed and how many lines of each kind the journal
/// has.
fn halts<R: Abort + AllocGlobal + Threads + Sync>(
    rt: &R,
    host: &mut MemoryHost,
) -> Result<(), Fail> {
    let alloc = rt.alloc();
    host.put("m", &file_of(alloc, &traced(alloc)?)?)?;
    host.put("s", b"cpu h\nrun 1\ntrace *\n")?;
    let list = ["run", "m", "s", "j", "1"];
    assert_eq!(rt; status_of(rt, host, &list)?, 0);
    let begins = b"0 halt\nupdate 1 begin 300\nupdate 1 done 300\nsite 401001 trace e8faffffff\n";
    assert!(rt; host.printed().starts_with(begins));
    assert_eq!(rt; lines_of(b's', host.printed()), 300);
    let journal = host.file("j").unwrap_or(b"");
    let rows: [(u8, u64); 7] = [
        (b'p', 1),
        (b'b', 1),
        (b'w', 1800),
        (b's', 6),
        (b't', 6),
        (b'r', 1),
        (b'a', 0),
    ];
    for (letter, count) in rows {
        assert_eq!(rt; lines_of(letter, journal), count, "{letter}");
    }
    Ok(())
}

#[test]
fn a_halted_processor_takes_every_request(rt: HostRuntime) -> Result<(), Fail> {
    halts(&rt, &mut MemoryHost::new(rt.alloc()))
}

const BAD_WORDS: &[u8] = b"textpoke: bad words\n";

/// Words that are refused, or whose files are: the status, and what is reported.
const REFUSED: &[(&[&str], u8, &[u8])] = &[
    (&["run", "m", "s", "j"], 1, BAD_WORDS),
    (
        &["run", "m", "s", "j", "18446744073709551616"],
        1,
        BAD_WORDS,
    ),
    (&["run", "m", "s", "j", "1", "1"], 1, BAD_WORDS),
    (&["replay", "m", "s"], 1, BAD_WORDS),
    (&["bench", "9", "1"], 1, BAD_WORDS),
    (&["bench", "10", "-1"], 1, BAD_WORDS),
    (
        &["run", "m", "m", "j", "1"],
        3,
        b"textpoke: script: line 1: Word\n",
    ),
    (
        &["run", "s", "s", "j", "1"],
        2,
        b"textpoke: module: Short c\n",
    ),
];

#[test]
fn nothing_is_made_before_all_is_accepted(rt: HostRuntime) -> Result<(), Fail> {
    for &(words, status, reported) in REFUSED {
        let run = Run {
            words,
            before: Some(b"old"),
            ended: (status, b"", reported),
            after: Some(b"old"),
            ..FOUR_TURNS
        };
        runs(&rt, &run)?;
    }
    Ok(())
}
