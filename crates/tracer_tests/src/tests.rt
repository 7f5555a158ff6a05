//! Tracers that a caller hands in: what `replay` feeds them, and what it prints of them.

use live_engine::OpenGate;
use poke_base::{MemoryHost, NoMemory};
use poke_tool::textpoke;
use small_module::file_of;
use std::alloc::Global;
use std::process::Abort;
use std::test::Fail;
use std::thread::Threads;
use tracer_ops::{Count, LastSites, Tracer};
use tried_commands::words;
use tried_modules::traced;

/// Always answers 7, whatever it is told.
#[derive(Drop)]
struct Seven;

impl Tracer for Seven {
    ghost use Rattle.std.specs.Prelude.{[]};
    ghost use Rattle.tracer_ops.specs.Meaning.{Meaning};
    ghost use Rattle.tracer_ops.specs.declared.tracer.TracerRule.TheVariants.{Untold};

    ghost meaning = { λ seven. record { rule = Untold; numbers = [] } };

    fn hit(&mut self, _cpu: u8, _site: u64) {}

    fn total(&self) -> u64 {
        7
    }
}

/// One processor calls the first traced function; then a tracer that is there is dropped, and one that isn't.
const ONE: (&[u8], &[u8]) = (
    b"cpu f0\ntrace f0\nrun 3\ndrop 0\ndrop 5\n",
    b"journal 1\nb\nw\ns\nt 0\nw\nw\nw\nw\ns\nt 0\nw\ns\nt 0\nr\na 0 e8faffffff\np 0\np 0\nb\nb\n",
);

/// What its events show, and then what is printed of the tracers.
const ONE_TEXT: (&[u8], &[u8]) = (
    b"update 1 begin 1\nupdate 1 done 1\n0 401001 call 401000\n0 done\ndrop 0\ndrop 5\nsite 401001 trace e8faffffff\n",
    b"dropped 0 total 1\ndropped 5 none\ntracer 0 total 1\n",
);

/// Two processors call it, one before and one after a tracer is dropped.
const TWO: (&[u8], &[u8]) = (
    b"cpu f0\ncpu f0\ntrace f0\nrun 1\ndrop 0\nrun 1\n",
    b"journal 1\nb\nw\ns\nt 0\nt 1\nw\nw\nw\nw\ns\nt 0\nt 1\nw\ns\nt 0\nt 1\nr\na 0 e8faffffff\nb\na 1 e8faffffff\n",
);

const TWO_TEXT: &[u8] =
    b"update 1 begin 1\nupdate 1 done 1\n0 401001 call 401000\ndrop 0\n1 401001 call 401000\nsite 401001 trace e8faffffff\n";

/// Two processors, as before, but for the last line, which can't be.
const REFUSED: &[u8] =
    b"journal 1\nb\nw\ns\nt 0\nt 1\nw\nw\nw\nw\ns\nt 0\nt 1\nw\ns\nt 0\nt 1\nr\na 0 e8faffffff\nb\na 1 e9faffffff\n";

const REFUSED_TEXT: &[u8] = b"update 1 begin 1\nupdate 1 done 1\n0 401001 call 401000\ndrop 0\n";

/// The status of a replay, and what it reports.
type Answer<'a> = (u8, &'a [u8]);

/// The answer where all is well.
const DONE: Answer<'static> = (0, b"");

/// Replays a journal of the module with 300 traced functions, and asserts the answer, what the printed text begins with, how
/// many lines of sites it has, and with what it ends.
fn replays<R: Abort + AllocGlobal + Threads + Sync>(
    rt: &R,
    (script, journal): (&[u8], &[u8]),
    tracers: &mut Vec<Box<dyn Tracer>>,
    (status, reported): Answer<'_>,
    (first, last): (&[u8], &[u8]),
    sites: usize,
) -> Result<(), Fail> {
    let mut host = MemoryHost::new(rt.alloc());
    put_files(rt.alloc(), &mut host, script, journal)?;
    let words = ["replay", "m", "s", "j"];
    assert_eq!(rt; status_of(rt, &mut host, &words, tracers)?, status);
    assert_eq!(rt; host.complained(), reported);
    prints(rt, host.printed(), first, last, sites);
    Ok(())
}

/// Runs the words of a command over a host, with the tracers that are told of it, and answers the status.
fn status_of<R: AllocGlobal + Threads + Sync>(
    rt: &R,
    host: &mut MemoryHost,
    list: &[&str],
    tracers: &mut Vec<Box<dyn Tracer>>,
) -> Result<u8, NoMemory> {
    let words = words(rt.alloc(), list)?;
    Ok(textpoke(rt, &words, host, tracers, &OpenGate))
}

/// Gives a host the module with 300 traced functions, a script and a journal.
fn put_files(
    alloc: Global,
    host: &mut MemoryHost,
    script: &[u8],
    journal: &[u8],
) -> Result<(), NoMemory> {
    host.put("m", &file_of(alloc, &traced(alloc)?)?)?;
    host.put("s", script)?;
    host.put("j", journal)
}

/// Asserts what a text begins with, with what it ends, and how many lines of sites it has.
fn prints<R: Abort>(rt: &R, printed: &[u8], first: &[u8], last: &[u8], sites: usize) {
    assert!(rt; printed.starts_with(first));
    assert!(rt; printed.ends_with(last));
    let lines = printed.split(|byte| *byte == b'\n');
    assert_eq!(rt;
        lines.filter(|line| line.starts_with(b"site ")).count(),
        sites
    );
}

/// A tracer that counts calls, and one that keeps the last sites.
fn both(alloc: Global) -> Result<Vec<Box<dyn Tracer>>, NoMemory> {
    let mut tracers: Vec<Box<dyn Tracer>> = Vec::new(alloc);
    tracers.push(Box::new(alloc, Count::new())?)?;
    tracers.push(Box::new(alloc, LastSites::new())?)?;
    Ok(tracers)
}

#[test]
fn tracers_are_fed_and_dropped(rt: HostRuntime) -> Result<(), Fail> {
    let mut tracers = both(rt.alloc())?;
    replays(&rt, ONE, &mut tracers, DONE, ONE_TEXT, 300)?;
    assert_eq!(rt; tracers.len(), 1);
    assert_eq!(rt; tracers[0].total(), 1);
    Ok(())
}

#[test]
fn a_dropped_tracer_is_told_no_more(rt: HostRuntime) -> Result<(), Fail> {
    let mut tracers = both(rt.alloc())?;
    let ending: &[u8] = b"dropped 0 total 1\ntracer 0 total 2\n";
    replays(&rt, TWO, &mut tracers, DONE, (TWO_TEXT, ending), 300)
}

#[test]
fn a_refused_journal_has_fed_the_events_before(rt: HostRuntime) -> Result<(), Fail> {
    let mut tracers = both(rt.alloc())?;
    let refused: Answer<'_> = (4, b"textpoke: journal: line 21\n");
    let text = (REFUSED_TEXT, REFUSED_TEXT);
    replays(&rt, (TWO.0, REFUSED), &mut tracers, refused, text, 0)?;
    assert_eq!(rt; tracers.len(), 1);
    assert_eq!(rt; tracers[0].total(), 1);
    Ok(())
}

#[test]
fn a_tracer_may_answer_what_it_likes(rt: HostRuntime) -> Result<(), Fail> {
    let mut tracers: Vec<Box<dyn Tracer>> = Vec::new(rt.alloc());
    tracers.push(Box::new(rt.alloc(), Count::new())?)?;
    tracers.push(Box::new(rt.alloc(), Seven)?)?;
    tracers.push(Box::new(rt.alloc(), LastSites::new())?)?;
    let ending: &[u8] = b"dropped 0 total 1\ntracer 0 total 7\ntracer 1 total 2\n";
    replays(&rt, TWO, &mut tracers, DONE, (TWO_TEXT, ending), 300)
}

#[test]
fn three_hundred_tracers_close_up(rt: HostRuntime) -> Result<(), Fail> {
    let mut tracers: Vec<Box<dyn Tracer>> = Vec::new(rt.alloc());
    for _ in 0..300 {
        tracers.push(Box::new(rt.alloc(), Count::new())?)?;
    }
    let script: &[u8] = b"cpu f0\ntrace f0\nrun 3\ndrop 255\ndrop 255\n";
    let text: (&[u8], &[u8]) = (
        b"update 1 begin 1\nupdate 1 done 1\n0 401001 call 401000\n0 done\ndrop 255\ndrop 255\n",
        b"tracer 296 total 1\ntracer 297 total 1\n",
    );
    replays(&rt, (script, ONE.1), &mut tracers, DONE, text, 300)?;
    assert_eq!(rt; tracers.len(), 298);
    Ok(())
}

/// Runs a script by a seed and replays its journal, and asserts that both print the same.
fn repeats<R: Abort + AllocGlobal + Threads + Sync>(
    rt: &R,
    host: &mut MemoryHost,
    seed: &str,
    told: &mut Vec<Box<dyn Tracer>>,
    again: &mut Vec<Box<dyn Tracer>>,
) -> Result<(), Fail> {
    put_files(rt.alloc(), host, TWO.0, b"")?;
    assert_eq!(rt;
        status_of(rt, host, &["run", "m", "s", "j", seed], told)?,
        0
    );
    let printed = Vec::from_slice(rt.alloc(), host.printed())?;
    assert_eq!(rt; status_of(rt, host, &["replay", "m", "s", "j"], again)?, 0);
    assert_eq!(rt;
        host.printed().strip_prefix(printed.as_slice()),
        Some(printed.as_slice()),
        "{seed}"
    );
    Ok(())
}

/// How many calls a tracer has counted that is told of a run by a seed, as is one that is told of its replay.
fn counted<R: Abort + AllocGlobal + Threads + Sync>(rt: &R, seed: &str) -> Result<u64, Fail> {
    let mut host = MemoryHost::new(rt.alloc());
    let mut told = both(rt.alloc())?;
    let mut again = both(rt.alloc())?;
    repeats(rt, &mut host, seed, &mut told, &mut again)?;
    assert_eq!(rt; told.len(), 1, "{seed}");
    assert_eq!(rt; again.len(), 1, "{seed}");
    assert_eq!(rt; told[0].total(), again[0].total(), "{seed}");
    Ok(told[0].total())
}

#[test]
fn a_run_tells_what_its_replay_tells(rt: HostRuntime) -> Result<(), Fail> {
    let mut hits: u64 = 0;
    for seed in ["1", "2", "3", "4", "5", "6"] {
        hits = hits.saturating_add(counted(&rt, seed)?);
    }
    // (which processors pass the site before it is traced depends on the seeds)
    assert_eq!(rt; hits, 4);
    Ok(())
}
