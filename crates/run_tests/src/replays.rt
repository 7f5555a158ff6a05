//! `replay`: the trace of a journal, or its first line that can't be.

use crate::frame::{Ended, Run, runs};
use small_module::{BRANCH, CALL, LOOP, Small, TAIL};
use std::process::Abort;
use std::test::Fail;
use std::thread::Threads;

/// Replays a journal, and asserts what comes of it.
fn replays<R: Abort + AllocGlobal + Threads + Sync>(
    rt: &R,
    name: &str,
    small: &Small<'_>,
    script: &[u8],
    journal: &[u8],
    ended: Ended<'_>,
) -> Result<(), Fail> {
    let run = Run {
        name,
        small: *small,
        script,
        words: &["replay", "m", "s", "j"],
        before: Some(journal),
        failing: None,
        ended,
        after: Some(journal),
    };
    runs(rt, &run)
}

/// A switch is turned while a processor stands at it.
const SWITCHED: &[u8] = b"cpu f\ninc k\nrun 3\n";

/// The processor fetches the old instruction after its first byte was written: a stale byte.
const STALE: &[u8] =
    b"journal 1\nb\nw\na 0 0f1f440000\ns\nt 0\nw\nw\nw\nw\ns\nt 0\nw\ns\nt 0\nr\np 0\np 0\np 0\n";

/// What its events show, and what the site then holds.
const STALE_TEXT: &[u8] =
    b"update 1 begin 1\n0 401000 nop\nupdate 1 done 1\n0 out 10 01\n0 done\nsite 401000 jump e909000000\n";

#[test]
fn journals_are_replayed(rt: HostRuntime) -> Result<(), Fail> {
    replays(
        &rt,
        "a stale byte",
        &BRANCH,
        SWITCHED,
        STALE,
        (0, STALE_TEXT, b""),
    )?;
    replays(
        &rt,
        "a tail call becomes a return",
        &TAIL,
        b"cpu f\ncall tk -\nrun 4\n",
        b"journal 1\nb\nw\ns\nt 0\nw\nw\nw\nw\ns\nt 0\nw\ns\nt 0\nr\np 0\na 0 c3\np 0\np 0\n",
        (
            0,
            b"update 1 begin 1\nupdate 1 done 1\n0 401008 ret\n0 out 10 00\n0 halt\nsite 401008 tail c3cccccccc\n",
            b"",
        ),
    )
}

/// Replays a journal, and asserts that this line of it is refused, and what is printed before.
fn refuses<R: Abort + AllocGlobal + Threads + Sync>(
    rt: &R,
    name: &str,
    small: &Small<'_>,
    script: &[u8],
    journal: &[u8],
    (printed, line): (&[u8], &[u8]),
) -> Result<(), Fail> {
    let mut reported = Vec::from_slice(rt.alloc(), b"textpoke: journal: ")?;
    reported.extend_from_slice(line)?;
    reported.push(b'\n')?;
    replays(rt, name, small, script, journal, (4, printed, &reported))
}

/// What an update of one site prints when it begins.
const BEGINS: &[u8] = b"update 1 begin 1\n";

/// An update of a call.
const CALLED: &[u8] = b"cpu f\ncall ck b\nrun 1\n";

#[test]
fn an_event_that_may_not_come_is_named(rt: HostRuntime) -> Result<(), Fail> {
    refuses(
        &rt,
        "old bytes after a request",
        &BRANCH,
        SWITCHED,
        b"journal 1\nb\nw\ns\nt 0\na 0 0f1f440000\n",
        (BEGINS, b"line 6"),
    )?;
    refuses(
        &rt,
        "old bytes after the handler",
        &LOOP,
        b"cpu f\nrun 1\ninc k\nrun 1\n",
        b"journal 1\np 0\nb\nw\na 0 cc\nh 0\np 0\np 0\np 0\np 0\na 0 0f1f440000\n",
        (b"update 1 begin 1\n0 401005 jmp 40100f\n", b"line 11"),
    )?;
    refuses(
        &rt,
        "torn bytes",
        &CALL,
        CALLED,
        b"journal 1\nb\nw\ns\nt 0\nw\na 0 e809000000\n",
        (BEGINS, b"line 7"),
    )?;
    refuses(
        &rt,
        "torn bytes at once",
        &CALL,
        CALLED,
        b"journal 1\nb\nw\na 0 e809000000\n",
        (BEGINS, b"line 4"),
    )
}

/// What is wrong with a journal of the switch, the journal, what is printed, and the line that is refused.
type Misspelt = (&'static str, &'static [u8], &'static [u8], &'static [u8]);

/// Journals that have a line which is no event's, or lack one.
const MISSPELT: &[Misspelt] = &[
    ("an empty journal", b"", b"", b"line 1"),
    (
        "a space after the header",
        b"journal 1 \nb\n",
        b"",
        b"line 1",
    ),
    ("another header", b"journal 01\nb\n", b"", b"line 1"),
    (
        "a header of another kind",
        b"journal 2\nb\n",
        b"",
        b"line 1",
    ),
    ("a carriage return", b"journal 1\r\nb\n", b"", b"line 1"),
    ("no line feed", b"journal 1", b"", b"line 1"),
    ("a header alone", b"journal 1\n", b"", b"line 2"),
    (
        "upper case",
        b"journal 1\nb\nw\na 0 0F1F440000\n",
        BEGINS,
        b"line 4",
    ),
    (
        "ten bytes",
        b"journal 1\nb\na 0 0f1f4400000f1f440000\n",
        BEGINS,
        b"line 3",
    ),
    (
        "processor 16",
        b"journal 1\nb\nw\nt 16\n",
        BEGINS,
        b"line 4",
    ),
    (
        "a leading zero",
        b"journal 1\nb\nw\ns\nt 00\n",
        BEGINS,
        b"line 5",
    ),
    (
        "no line feed at the end",
        b"journal 1\nb\nw",
        BEGINS,
        b"line 3",
    ),
];

#[test]
fn a_line_that_is_no_event_is_named(rt: HostRuntime) -> Result<(), Fail> {
    for (name, journal, printed, line) in MISSPELT {
        refuses(&rt, name, &BRANCH, SWITCHED, journal, (printed, line))?;
    }
    Ok(())
}

/// From which number of whole lines on more is printed, and what.
const SHOWN: &[(usize, &[u8])] = &[
    (2, b"update 1 begin 1\n"),
    (4, b"0 401000 nop\n"),
    (16, b"update 1 done 1\n"),
    (18, b"0 out 10 01\n"),
    (19, b"0 done\n"),
];

#[test]
fn a_journal_is_cut_at_each_byte(rt: HostRuntime) -> Result<(), Fail> {
    for len in 0..STALE.len() {
        let cut = &STALE[..len];
        // The line that isn't whole, by its number from 1 on.
        let mut line: usize = 1;
        for byte in cut {
            if *byte == b'\n' {
                line = line.saturating_add(1);
            }
        }
        let mut printed = Vec::new(rt.alloc());
        for (lines, text) in SHOWN {
            if *lines < line {
                printed.extend_from_slice(text)?;
            }
        }
        let reported = format!(in rt.alloc(); "textpoke: journal: line {line}\n")?;
        replays(
            &rt,
            "cut",
            &BRANCH,
            SWITCHED,
            cut,
            (4, &printed, reported.as_bytes()),
        )?;
    }
    Ok(())
}

#[test]
fn nothing_comes_after_the_end(rt: HostRuntime) -> Result<(), Fail> {
    let mut more = Vec::from_slice(rt.alloc(), STALE)?;
    more.extend_from_slice(b"p 0\n")?;
    let printed: &[u8] = b"update 1 begin 1\n0 401000 nop\nupdate 1 done 1\n0 out 10 01\n0 done\n";
    let ended = (4, printed, b"textpoke: journal: line 20\n".as_slice());
    replays(&rt, "one event more", &BRANCH, SWITCHED, &more, ended)
}
