//! Small modules that run by given events, with values from outside.

use elf_build::{KeyStart, PlanSite};
use elf_module::ElfFile;
use module_image::Image;
use poke_base::{CodeBytes, Line};
use run_journal::Event;
use script_runner::{Acted, World};
use script_text::Script;
use small_module::{BRANCH, CALL, F, LOOP, SPIN, Small, TAIL};
use std::process::Abort;
use std::test::Fail;

/// A load where the file says that there is a switch.
const FOREIGN: Small<'static> = Small {
    text: b"\xb8\x01\0\0\0\xc3",
    ..SPIN
};

/// A traced function, after the one that is called where it is traced.
const TRACE: Small<'static> = Small {
    text: b"\xc3\x0f\x1fD\0\0\xc3",
    sites: &[PlanSite::Trace { at: F + 1 }],
    keys: &[(b"k", KeyStart::Count(0))],
    functions: &[(b"ftrace_caller", F), (b"f", F + 1)],
};

/// The module.
fn image<R: Abort + AllocGlobal>(rt: &R, small: &Small<'_>) -> Result<Image, Fail> {
    let file = small.file(rt.alloc())?;
    assert!(rt; file.len() < 10_000);
    Ok(Image::accept(rt.alloc(), &ElfFile::read(&file)?)?)
}

/// A module and a script before the first event.
fn world<R: Abort + AllocGlobal>(rt: &R, small: &Small<'_>, text: &[u8]) -> Result<World, Fail> {
    assert!(rt; text.len() < 100);
    let image = image(rt, small)?;
    let script = Script::read(rt.alloc(), text, &image)?;
    Ok(World::new(rt.alloc(), image, script)?)
}

/// A run by events, and all that it shows.
struct Run<'a> {
    small: &'a Small<'a>,
    script: &'a [u8],
    /// Events by letters: those of a journal, all of processor 0, and fetches: `n` of a no-operation, `c` of a breakpoint,
    /// `x` of the bytes after this field. An event in capitals may not come.
    events: &'a [u8],
    fetched: &'a [u8],
    shown: &'a [u8],
    /// What tracers last saw.
    seen: Acted,
    finished: bool,
}

/// A fetch of processor 0.
fn fetch(bytes: &[u8]) -> Event {
    let mut fetched = CodeBytes::new();
    let _ = fetched.try_extend_from_slice(bytes);
    Event::At(0, fetched)
}

/// The event of a letter.
fn event(letter: u8, fetched: &[u8]) -> Event {
    match letter {
        b'b' => Event::Begin,
        b'w' => Event::Write,
        b's' => Event::Request,
        b't' => Event::Take(0),
        b'r' => Event::Return,
        b'p' => Event::Plain(0),
        b'h' => Event::Handle(0),
        b'i' => Event::Tick(0),
        b'q' => Event::Plain(1),
        b'n' => fetch(b"\x0f\x1fD\0\0"),
        b'c' => fetch(b"\xcc"),
        _ => fetch(fetched),
    }
}

/// Tries events, and checks which come, what they show and what tracers see.
fn tries<R: Abort + AllocGlobal>(rt: &R, world: &mut World, run: &Run<'_>) -> Result<(), Fail> {
    let mut shown = Vec::new(rt.alloc());
    let mut seen = Acted::Plain;
    for letter in run.events {
        let event = event(letter.to_ascii_lowercase(), run.fetched);
        let comes = letter.is_ascii_lowercase();
        assert_eq!(rt; world.may(&event), comes, "{event:?}");
        let mut line = Line::new();
        match world.act(&event, &mut line) {
            Some(Acted::Plain) | None => {}
            Some(acted) => seen = acted,
        }
        shown.extend_from_slice(&line)?;
    }
    assert_eq!(rt; shown.as_slice(), run.shown);
    assert_eq!(rt; seen, run.seen);
    assert_eq!(rt; world.finished(), run.finished);
    Ok(())
}

/// Tries the events of a run from its beginning on.
fn runs<R: Abort + AllocGlobal>(rt: &R, run: &Run<'_>) -> Result<(), Fail> {
    let mut world = world(rt, run.small, run.script)?;
    tries(rt, &mut world, run)
}

#[test]
fn a_stale_byte_gives_the_old_instruction_whole(rt: HostRuntime) -> Result<(), Fail> {
    runs(
        &rt,
        &Run {
            small: &BRANCH,
            script: b"cpu f\ninc k\nrun 3",
            events: b"WSTRNPbBRPHIQwWnstTwwwwstwstrpppPI",
            fetched: b"",
            shown: b"update 1 begin 1\n0 401000 nop\nupdate 1 done 1\n0 out 10 01\n0 done\n",
            seen: Acted::Plain,
            finished: true,
        },
    )
}

#[test]
fn an_open_update_is_not_the_end(rt: HostRuntime) -> Result<(), Fail> {
    runs(
        &rt,
        &Run {
            small: &BRANCH,
            script: b"cpu f\ninc k\nrun 3",
            events: b"bwnstwwwwstwst",
            fetched: b"",
            shown: b"update 1 begin 1\n0 401000 nop\n",
            seen: Acted::Plain,
            finished: false,
        },
    )
}

#[test]
fn old_bytes_may_not_come_after_a_request_is_taken(rt: HostRuntime) -> Result<(), Fail> {
    runs(
        &rt,
        &Run {
            small: &BRANCH,
            script: b"cpu f\ninc k\nrun 3",
            events: b"bwstNcwwwwsThtT",
            fetched: b"",
            shown: b"update 1 begin 1\n0 401000 jmp 40100e\n",
            seen: Acted::Plain,
            finished: false,
        },
    )
}

#[test]
fn old_bytes_may_not_come_after_the_handler(rt: HostRuntime) -> Result<(), Fail> {
    runs(
        &rt,
        &Run {
            small: &LOOP,
            script: b"cpu f\nrun 1\ninc k\nrun 1",
            events: b"pPbwcPIhppppNc",
            fetched: b"",
            shown: b"update 1 begin 1\n0 401005 jmp 40100f\n",
            seen: Acted::Plain,
            finished: false,
        },
    )
}

#[test]
fn torn_bytes_may_not_come(rt: HostRuntime) -> Result<(), Fail> {
    runs(
        &rt,
        &Run {
            small: &CALL,
            script: b"cpu f\ncall ck b\nrun 1",
            events: b"bwXstwX",
            fetched: b"\xe8\x09\0\0\0",
            shown: b"update 1 begin 1\n",
            seen: Acted::Plain,
            finished: false,
        },
    )
}

#[test]
fn a_tail_call_becomes_a_return(rt: HostRuntime) -> Result<(), Fail> {
    runs(
        &rt,
        &Run {
            small: &TAIL,
            script: b"cpu f\ncall tk -\nrun 4",
            events: b"bwstwwwwstwstrpxpp",
            fetched: b"\xc3",
            shown: b"update 1 begin 1\nupdate 1 done 1\n0 401008 ret\n0 out 10 00\n0 halt\n",
            seen: Acted::Plain,
            finished: true,
        },
    )
}

#[test]
fn steps_that_open_no_update_are_passed(rt: HostRuntime) -> Result<(), Fail> {
    runs(
        &rt,
        &Run {
            small: &BRANCH,
            script: b"cpu f\ndrop 7\ndec k\ndisable k\nrun 2\ninc k",
            events: b"NbbbBnBpPb",
            fetched: b"",
            shown: b"drop 7\nupdate 1 refused count 0\nupdate 2 done 0\n0 401000 nop\nupdate 3 begin 1\n",
            seen: Acted::Drop { place: 7 },
            finished: false,
        },
    )
}

#[test]
fn a_clash_opens_no_update(rt: HostRuntime) -> Result<(), Fail> {
    runs(
        &rt,
        &Run {
            small: &FOREIGN,
            script: b"cpu f\ninc k\nrun 1",
            events: b"bWBp",
            fetched: b"",
            shown: b"update 1 refused clash 401000 b801000000 0f1f440000\n",
            seen: Acted::Plain,
            finished: true,
        },
    )
}

#[test]
fn a_traced_call_is_a_hit(rt: HostRuntime) -> Result<(), Fail> {
    runs(
        &rt,
        &Run {
            small: &TRACE,
            script: b"cpu f\ntrace f\nrun 3",
            events: b"bwstwwwwstwstrxpp",
            fetched: b"\xe8\xfa\xff\xff\xff",
            shown: b"update 1 begin 1\nupdate 1 done 1\n0 401001 call 401000\n0 done\n",
            seen: Acted::Hit {
                cpu: 0,
                site: F + 1,
            },
            finished: true,
        },
    )
}

#[test]
fn a_traced_call_by_the_handler_is_a_hit(rt: HostRuntime) -> Result<(), Fail> {
    runs(
        &rt,
        &Run {
            small: &TRACE,
            script: b"cpu f\ntrace f\nrun 3",
            events: b"bwchppi",
            fetched: b"",
            shown: b"update 1 begin 1\n0 401001 call 401000\n0 done\n",
            seen: Acted::Hit {
                cpu: 0,
                site: F + 1,
            },
            finished: false,
        },
    )
}
