//! `live`: what is printed, and that its workers run beside one another and share their words.

use live_engine::{Gate, OpenGate};
use poke_base::MemoryHost;
use poke_tool::textpoke;
use small_module::{BRANCH, SPIN, Small};
use std::hint::spin_loop;
use std::process::Abort;
use std::sync::atomic::{AtomicU64, Ordering};
use std::test::Fail;
use std::thread::Threads;
use tried_commands::{put_script, words};

/// The status, what is printed and what is reported.
type Ended<'a> = (u8, &'a [u8], &'a [u8]);

/// Runs a script of a module with a gate, for so many turns by a seed, and asserts what comes of it.
fn lives<R: Abort + AllocGlobal + Threads + Sync, G: Gate + Sync>(
    rt: &R,
    small: &Small<'_>,
    script: &[u8],
    turns: &str,
    seed: &str,
    gate: &G,
    ended: Ended<'_>,
) -> Result<(), Fail> {
    let mut host = MemoryHost::new(rt.alloc());
    put_script(rt.alloc(), &mut host, small, script)?;
    lives_on(rt, &mut host, turns, seed, gate, ended)
}

/// Runs the script of a host with a gate, for so many turns by a seed, and asserts what comes of it.
fn lives_on<R: Abort + AllocGlobal + Threads + Sync, G: Gate + Sync>(
    rt: &R,
    host: &mut MemoryHost,
    turns: &str,
    seed: &str,
    gate: &G,
    ended: Ended<'_>,
) -> Result<(), Fail> {
    let (status, printed, reported) = ended;
    let answer = status_of(rt, host, turns, seed, gate)?;
    assert_eq!(rt; host.complained(), reported, "{turns} {seed}");
    assert_eq!(rt; host.printed(), printed, "{turns} {seed}");
    assert_eq!(rt; answer, status, "{turns} {seed}");
    Ok(())
}

/// Runs the script of a host with a gate, for so many turns by a seed, and answers the status.
fn status_of<R: AllocGlobal + Threads + Sync, G: Gate + Sync>(
    rt: &R,
    host: &mut MemoryHost,
    turns: &str,
    seed: &str,
    gate: &G,
) -> Result<u8, Fail> {
    let list = words(rt.alloc(), &["live", "m", "s", turns, seed])?;
    Ok(textpoke(rt, &list, host, &mut Vec::new(rt.alloc()), gate))
}

/// What a script of the loop prints with a gate, for so many turns by the seed 1.
fn printed_of<R: Abort + AllocGlobal + Threads + Sync, G: Gate + Sync>(
    rt: &R,
    script: &[u8],
    turns: &str,
    gate: &G,
) -> Result<Vec<u8>, Fail> {
    let mut host = MemoryHost::new(rt.alloc());
    put_script(rt.alloc(), &mut host, &SPIN, script)?;
    assert_eq!(rt; status_of(rt, &mut host, turns, "1", gate)?, 0);
    Ok(Vec::from_slice(rt.alloc(), host.printed())?)
}

/// An update of the branch, beside a processor that does one instruction.
const ONE_TURN: &[u8] = b"cpu leaf\ninc k\n";

const ONE_TURN_TEXT: &[u8] = b"update 1 done 1\n0 done\nsite 401000 jump e909000000\n";

#[test]
fn a_turn_is_printed(rt: HostRuntime) -> Result<(), Fail> {
    let last = "18446744073709551615";
    lives(
        &rt,
        &BRANCH,
        ONE_TURN,
        "1",
        "0",
        &OpenGate,
        (0, ONE_TURN_TEXT, b""),
    )?;
    lives(
        &rt,
        &BRANCH,
        ONE_TURN,
        "00001",
        last,
        &OpenGate,
        (0, ONE_TURN_TEXT, b""),
    )
}

#[test]
fn walks_are_printed_by_number(rt: HostRuntime) -> Result<(), Fail> {
    let printed =
        b"0 401000 nop v 0 g 0\n0 out 10 01\n0 done\n1 done\nsite 401000 jump 0f1f440000\n";
    lives(
        &rt,
        &BRANCH,
        b"cpu f\ncpu leaf\n",
        "100000",
        "7",
        &OpenGate,
        (0, printed, b""),
    )
}

#[test]
fn outcomes_are_those_of_wants(rt: HostRuntime) -> Result<(), Fail> {
    let script = b"cpu leaf\ndec k\nrun 9\ndrop 0\nenable k\ninc k\ndisable k\n";
    let printed =
        b"update 1 refused count 0\nupdate 2 done 1\nupdate 3 done 0\nupdate 4 refused count 2\n0 done\nsite 401000 jump e909000000\n";
    lives(&rt, &BRANCH, script, "1", "7", &OpenGate, (0, printed, b""))
}

#[test]
fn turns_are_from_1_to_100000(rt: HostRuntime) -> Result<(), Fail> {
    let bad: Ended<'_> = (1, b"", b"textpoke: bad words\n");
    for turns in ["0", "100001", "18446744073709551616", "1x", "-1", ""] {
        lives(&rt, &BRANCH, ONE_TURN, turns, "7", &OpenGate, bad)?;
    }
    for seed in ["18446744073709551616", "x", ""] {
        lives(&rt, &BRANCH, ONE_TURN, "1", seed, &OpenGate, bad)?;
    }
    Ok(())
}

#[test]
fn a_script_is_refused_before_all_is_printed(rt: HostRuntime) -> Result<(), Fail> {
    let refused: Ended<'_> = (3, b"", b"textpoke: script: line 2: Name\n");
    lives(
        &rt,
        &BRANCH,
        b"cpu leaf\ninc other\n",
        "1",
        "7",
        &OpenGate,
        refused,
    )
}

/// Which call of the host fails, the status, what is printed and what is reported.
type Failing<'a> = (u64, u8, &'a [u8], &'a [u8]);

const WRITE_FAILED: &[u8] = b"textpoke: write failed\n";

/// The update of a turn, each of whose calls fails. A print that fails leaves the first half of its piece.
const FAILING: &[Failing] = &[
    (1, 5, b"", b"textpoke: read failed\n"),
    (2, 5, b"", b"textpoke: read failed\n"),
    (3, 6, b"update 1", WRITE_FAILED),
    (4, 6, b"update 1 done 1\n0 d", WRITE_FAILED),
    (
        5,
        6,
        b"update 1 done 1\n0 done\nsite 401000 ju",
        WRITE_FAILED,
    ),
    (6, 0, ONE_TURN_TEXT, b""),
];

/// Runs the update of a turn over a host one of whose calls fails, and asserts what comes of it.
fn fails<R: Abort + AllocGlobal + Threads + Sync>(
    rt: &R,
    (failing, status, printed, reported): Failing<'_>,
) -> Result<(), Fail> {
    let mut host = MemoryHost::new(rt.alloc());
    put_script(rt.alloc(), &mut host, &BRANCH, ONE_TURN)?;
    host.fail_at(failing)?;
    let ended = (status, printed, reported);
    lives_on(rt, &mut host, "1", "7", &OpenGate, ended)
}

#[test]
fn a_write_that_fails_leaves_a_prefix(rt: HostRuntime) -> Result<(), Fail> {
    for row in FAILING {
        fails(&rt, *row)?;
    }
    Ok(())
}

/// How often a worker looks for another before it goes on without it.
const MOST_LOOKS: u32 = 10_000_000;

/// The turns that the worker that patches and processor 0 have begun, and how often a worker missed the other.
#[derive(Drop)]
struct Begun {
    patch: AtomicU64,
    first: AtomicU64,
    misses: AtomicU64,
}

impl Begun {
    fn none() -> Begun {
        Begun {
            patch: AtomicU64::new(0),
            first: AtomicU64::new(0),
            misses: AtomicU64::new(0),
        }
    }

    /// How often a worker missed the other.
    fn missed(&self) -> u64 {
        self.misses.load(Ordering::SeqCst)
    }

    /// Notes that a worker has begun its turn with this number. Answers the turns of the other one.
    fn note(&self, who: u8, turn: u32) -> &AtomicU64 {
        let (own, other) = if who == 0 {
            (&self.patch, &self.first)
        } else {
            (&self.first, &self.patch)
        };
        own.store(u64::from(turn), Ordering::SeqCst);
        other
    }

    /// Looks until another worker has begun its turn with this number, or notes a miss.
    fn wait(&self, other: &AtomicU64, turn: u32) {
        for _ in 0..MOST_LOOKS {
            if other.load(Ordering::SeqCst) >= u64::from(turn) {
                return;
            }
            spin_loop();
        }
        self.misses.fetch_add(1, Ordering::SeqCst);
    }
}

/// Holds the first turn of each of two workers until the other has begun its first.
#[derive(Drop)]
struct Meeting(Begun);

impl Gate for Meeting {
    fn pass(&self, who: u8, turn: u32) {
        let other = self.0.note(who, turn);
        if turn == 1 {
            self.0.wait(other, 1);
        }
    }
}

#[test]
fn workers_meet_at_the_gate(rt: HostRuntime) -> Result<(), Fail> {
    let gate = Meeting(Begun::none());
    lives(
        &rt,
        &BRANCH,
        ONE_TURN,
        "1",
        "7",
        &gate,
        (0, ONE_TURN_TEXT, b""),
    )?;
    assert_eq!(rt; gate.0.missed(), 0);
    Ok(())
}

/// Holds each turn of two workers until the other has begun the turn with the same number; after a miss it holds nobody.
#[derive(Drop)]
struct Abreast(Begun);

impl Gate for Abreast {
    fn pass(&self, who: u8, turn: u32) {
        let other = self.0.note(who, turn);
        if self.0.missed() == 0 {
            self.0.wait(other, turn);
        }
    }
}

/// Holds the first turn of the worker that patches until processor 0 has begun its last turn.
#[derive(Drop)]
struct Behind {
    begun: Begun,
    last: u32,
}

impl Gate for Behind {
    fn pass(&self, who: u8, turn: u32) {
        let other = self.begun.note(who, turn);
        if who == 0 && turn == 1 {
            self.begun.wait(other, self.last);
        }
    }
}

/// An update of the loop, beside a processor that goes round it.
const SPINNING: &[u8] = b"cpu f\ninc k\n";

/// What is printed where the processor passes its site 200 times before the update.
fn all_old<R: AllocGlobal>(rt: &R) -> Result<Vec<u8>, Fail> {
    let mut text = Vec::from_slice(rt.alloc(), b"update 1 done 1\n")?;
    for _ in 0..200 {
        text.extend_from_slice(b"0 401000 nop v 0 g 0\n")?;
    }
    text.extend_from_slice(b"site 401000 jump e900000000\n")?;
    Ok(text)
}

#[test]
fn updates_reach_a_running_processor(rt: HostRuntime) -> Result<(), Fail> {
    let printed = printed_of(&rt, SPINNING, "400", &Abreast(Begun::none()))?;
    let ending = b"\n0 401000 jmp 401005 v 1 g 3\nsite 401000 jump e900000000\n";
    assert!(rt; printed.ends_with(ending));
    Ok(())
}

#[test]
fn updates_may_come_after_the_last_turn(rt: HostRuntime) -> Result<(), Fail> {
    let behind = Behind {
        begun: Begun::none(),
        last: 400,
    };
    let printed = printed_of(&rt, SPINNING, "400", &behind)?;
    assert_eq!(rt; printed, all_old(&rt)?);
    assert_eq!(rt; behind.begun.missed(), 0);
    Ok(())
}

/// Whether a line isn't of processor 15, or is a pass of its whole old or its whole new form.
fn is_whole(line: &[u8]) -> bool {
    let Some(form) = line.strip_prefix(b"15 401000 ") else {
        return true;
    };
    let old = form.starts_with(b"nop v 0 g ") || form.starts_with(b"nop v 2 g ");
    let new = form.starts_with(b"jmp 401005 v 1 g ") || form.starts_with(b"jmp 401005 v 3 g ");
    old || new
}

#[test]
fn sixteen_processors_run_at_once(rt: HostRuntime) -> Result<(), Fail> {
    let script: &[u8] =
        b"cpu f\ncpu f\ncpu f\ncpu f\ncpu f\ncpu f\ncpu f\ncpu f\ncpu f\ncpu f\ncpu f\ncpu f\ncpu f\ncpu f\ncpu f\ncpu f\ninc k\ndec k\ninc k\n";
    let printed = printed_of(&rt, script, "300", &OpenGate)?;
    let begins = b"update 1 done 1\nupdate 2 done 1\nupdate 3 done 1\n0 401000 ";
    assert!(rt; printed.starts_with(begins));
    assert!(rt; printed.ends_with(b"\nsite 401000 jump e900000000\n"));
    for line in printed.split(|byte| *byte == b'\n') {
        assert!(rt; is_whole(line));
    }
    Ok(())
}
