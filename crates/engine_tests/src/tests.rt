//! Plans of small modules, and modules that run on threads.
ghost use Rattle.std.specs.Prelude.{IfOk};
ghost use Rattle.script_text.specs.Laws.{IsScriptOf};

use elf_module::ElfFile;
use insn_forms::{Change, Form};
use live_engine::{Gate, LiveRun, OpenGate, Turn, live_plan, run_live};
use live_text::LiveSite;
use module_image::Image;
use script_text::Script;
use small_module::{BRANCH, F, SPIN, Small};
use std::alloc::Global;
use std::process::Abort;
use std::sync::atomic::{AtomicU64, Ordering};
use std::test::Fail;
use std::thread::Threads;
use tried_modules::PAIR;
use x64_subset::Mark;

/// The module.
fn image(rt: &impl Abort, alloc: Global, small: &Small<'_>) -> Result<Image, Fail> {
    let file = small.file(alloc)?;
    assert!(rt; file.len() < 10_000);
    Ok(Image::accept(alloc, &ElfFile::read(&file)?)?)
}

/// A script of the module.
fn script(rt: &impl Abort, alloc: Global, text: &[u8], image: &Image) -> Result<Script, Fail>
    ensures { IfOk result (IsScriptOf image.now) }
{
    assert!(rt; text.len() < 1_000);
    Ok(Script::read(alloc, text, image)?)
}

/// Asserts the sites of the plan of a script, and its chunks, which have one change each.
fn plans(
    rt: &(impl Abort + AllocGlobal),
    image: &Image,
    script: &Script,
    sites: &[LiveSite],
    changes: &[Change],
) -> Result<(), Fail>
    requires { IsScriptOf image.now script.now }
{
    let plan = live_plan(rt.alloc(), image, script)?;
    assert_eq!(rt; plan.sites.as_slice(), sites);
    assert_eq!(rt; plan.chunks.len(), changes.len());
    for (chunk, change) in plan.chunks.iter().zip(changes) {
        assert_eq!(rt; chunk.as_slice(), [*change].as_slice());
    }
    Ok(())
}

#[test]
fn a_plan_has_the_chunks_of_updates_that_are_done(rt: HostRuntime) -> Result<(), Fail> {
    let near = LiveSite {
        at: F,
        start: Form::Nop2,
    };
    let far = LiveSite {
        at: F + 2,
        start: Form::Nop5,
    };
    let on = Change {
        at: F,
        old: Form::Nop2,
        new: Form::Jmp8(F + 2),
    };
    let other = Change {
        at: F + 2,
        old: Form::Nop5,
        new: Form::Jmp32(F + 7),
    };
    let off = Change {
        at: F,
        old: on.new,
        new: on.old,
    };
    let text = b"cpu f\ndec k\ninc k\ninc k\ndec k\ninc l\ndec k";
    let image = image(&rt, rt.alloc(), &PAIR)?;
    let script = script(&rt, rt.alloc(), text, &image)?;
    plans(&rt, &image, &script, &[near, far], &[on, other, off])
}

/// A live run of a script.
fn lives<R: Abort + AllocGlobal + Threads + Sync, G: Gate + Sync>(
    rt: &R,
    small: &Small<'_>,
    text: &[u8],
    turns: u32,
    gate: &G,
) -> Result<LiveRun, Fail> {
    let alloc = rt.alloc();
    let image = image(rt, alloc, small)?;
    let script = script(rt, alloc, text, &image)?;
    Ok(run_live(rt, alloc, &image, &script, turns, 1, gate)?)
}

#[test]
fn a_processor_ends_before_the_first_update(rt: HostRuntime) -> Result<(), Fail> {
    let run = lives(&rt, &BRANCH, b"cpu leaf\ninc k", 1, &OpenGate)?;
    assert_eq!(rt; run.walks.len(), 1);
    let ended = [Turn::Ran(Mark::Ended)];
    assert_eq!(rt; run.walks[0].as_slice(), ended.as_slice());
    assert_eq!(rt; run.sites.as_slice(), b"\xe9\x09\0\0\0".as_slice());
    Ok(())
}

#[test]
fn a_run_without_updates_passes_the_old_forms(rt: HostRuntime) -> Result<(), Fail> {
    let run = lives(&rt, &SPIN, b"cpu f", 4, &OpenGate)?;
    assert_eq!(rt; run.walks.len(), 1);
    let old = Turn::Pass {
        site: 0,
        form: Form::Nop5,
        version: 0,
        ack: 0,
        mark: Mark::None,
    };
    let ran = Turn::Ran(Mark::None);
    assert_eq!(rt; run.walks[0].as_slice(), [old, ran, old, ran].as_slice());
    assert_eq!(rt; run.sites.as_slice(), b"\x0f\x1fD\0\0".as_slice());
    Ok(())
}

#[test]
fn a_run_of_no_turns_ends_the_updates(rt: HostRuntime) -> Result<(), Fail> {
    let run = lives(&rt, &PAIR, b"cpu f\ninc k\ninc l", 0, &OpenGate)?;
    assert_eq!(rt; run.walks.len(), 1);
    assert!(rt; run.walks[0].is_empty());
    assert_eq!(rt; run.sites.as_slice(), b"\xeb\0\xe9\0\0\0\0".as_slice());
    Ok(())
}

/// Counts the turns of the first workers.
#[derive(Drop)]
struct Counter {
    patch: AtomicU64,
    first: AtomicU64,
    last: AtomicU64,
}

impl Gate for Counter {
    fn pass(&self, who: u8, _turn: u32) {
        match who {
            0 => self.patch.fetch_add(1, Ordering::SeqCst),
            1 => self.first.fetch_add(1, Ordering::SeqCst),
            16 => self.last.fetch_add(1, Ordering::SeqCst),
            _ => 0,
        };
    }
}

/// Checks a pass of the one site: the old form before the update, the new one after it.
fn passes_whole(rt: &impl Abort, turn: Turn) {
    if let Turn::Pass { form, version, .. } = turn {
        let want = if version == 0 {
            Form::Nop5
        } else {
            Form::Jmp32(F + 5)
        };
        assert_eq!(rt; form, want);
    }
}

/// Checks the walks of sixteen processors, 100 to 200 turns each.
fn walk_whole(rt: &impl Abort, walks: &[Vec<Turn>]) {
    assert_eq!(rt; walks.len(), 16);
    for walk in walks {
        assert!(rt; 100 <= walk.len() && walk.len() <= 200);
        for turn in walk {
            passes_whole(rt, *turn);
        }
    }
}

#[test]
fn sixteen_processors_run_beside_the_patch(rt: HostRuntime) -> Result<(), Fail> {
    let text =
        b"cpu f\ncpu f\ncpu f\ncpu f\ncpu f\ncpu f\ncpu f\ncpu f\ncpu f\ncpu f\ncpu f\ncpu f\ncpu f\ncpu f\ncpu f\ncpu f\ninc k";
    let gate = Counter {
        patch: AtomicU64::new(0),
        first: AtomicU64::new(0),
        last: AtomicU64::new(0),
    };
    let run = lives(&rt, &SPIN, text, 200, &gate)?;
    assert_eq!(rt; run.sites.as_slice(), b"\xe9\0\0\0\0".as_slice());
    walk_whole(&rt, &run.walks);
    assert_eq!(rt; gate.first.load(Ordering::SeqCst), 200);
    assert_eq!(rt; gate.last.load(Ordering::SeqCst), 200);
    let patched = gate.patch.load(Ordering::SeqCst);
    assert!(rt; 1 <= patched && patched <= 200);
    Ok(())
}
