//! Turns of a processor beside the worker that patches, one by one.
ghost use Rattle.std.specs.Prelude.{◌≡◌, IfOk};
ghost use Rattle.live_text.specs.Own.{IsOwn};
ghost use Rattle.script_text.specs.Laws.{IsScriptOf};
ghost use Rattle.live_engine.specs.LiveCpu.{IsPaired, runner};
ghost use Rattle.live_engine.specs.LivePlan.{IsLivePlan};

use crate::job::Job;
use crate::laws::new_cpus_are_paired;
use crate::run::Crew;
use crate::worker::Patcher;
use crate::{Advance, Turn};
use elf_module::ElfFile;
use insn_forms::Form;
use live_text::LiveText;
use module_image::Image;
use script_text::Script;
use small_module::{BRANCH, F, SPIN, Small};
use std::alloc::Global;
use std::process::Abort;
use std::test::Fail;
use tried_modules::PAIR;
use x64_subset::{FaultKind, Life, Mark};

/// The module.
fn image(rt: &impl Abort, alloc: Global, small: &Small<'_>) -> Result<Image, Fail> {
    let file = small.file(alloc)?;
    assert!(rt; file.len() < 10_000);
    Ok(Image::accept(alloc, &ElfFile::read(&file)?)?)
}

/// A script of the module.
fn script(rt: &impl Abort, alloc: Global, text: &[u8], image: &Image) -> Result<Script, Fail>
    ensures { IfOk result (IsScriptOf image.now) }
{
    assert!(rt; text.len() < 1_000);
    Ok(Script::read(alloc, text, image)?)
}

/// An instruction that shows nothing.
const RAN: Turn = Turn::Ran(Mark::None);

/// A pass of a site that shows nothing.
fn pass(site: u32, form: Form, version: u32, ack: u64) -> Turn {
    Turn::Pass {
        site,
        form,
        version,
        ack,
        mark: Mark::None,
    }
}

/// A word that asks for nothing: what is cached is done.
const STAY: u64 = 0;

/// A word that asks for a look at the generation.
const LOOK: u64 = 1;

/// A word that asks for each byte of a fetch anew.
const ANEW: u64 = 0x1f00;

/// A word that asks for the bytes after the first anew.
const TAILS_ANEW: u64 = 0x1e00;

/// The processor ends.
const ENDED: Turn = Turn::Ran(Mark::Ended);

/// The patch worker waits for the one processor, which has acknowledged this request.
fn waiting(ack: u64) -> Advance {
    Advance::Waiting { cpu: 0, ack }
}

/// A pass of the only switch in its old form, with no request acknowledged.
fn old() -> Turn {
    pass(0, Form::Nop5, 0, 0)
}

/// A pass of the switch of `SPIN` in its new form, with this acknowledgement.
fn new(ack: u64) -> Turn {
    pass(0, Form::Jmp32(F + 5), 1, ack)
}

/// The shared words of a script, the worker that patches, and the last processor, before their first turns.
fn lone(
    rt: &impl Abort,
    alloc: Global,
    image: &Image,
    script: &Script,
) -> Result<(LiveText, Patcher, Job), Fail>
    requires { IsScriptOf image.now script.now }
    ensures plan { IfOk result (λ made. IsLivePlan image.now made.0.plan) }
    ensures patch { IfOk result (λ made. IsOwn made.0 made.1.seat) }
    ensures worker { IfOk result (λ made. made.1.worker ≡ made.0.cpus) }
    ensures own { IfOk result (λ made. IsOwn made.0 made.2.seat) }
    ensures paired { IfOk result (λ made. IsPaired image.now made.0.plan (runner made.2.cpu made.2.seat)) }
{
    new_cpus_are_paired();
    let Crew {
        text,
        patcher,
        mut jobs,
        ..
    } = Crew::of(alloc, image, script, 0, 0)?;
    let Some(job) = jobs.pop() else {
        panic!(rt; "a script has a processor")
    };
    Ok((text, patcher, job))
}

/// A step of a test, and what has to come of it.
#[derive(Clone, Copy)]
enum Step {
    /// So many turns of the worker that patches, with the same answer each time.
    Patch(u8, Advance),
    /// A turn of the processor, by a word.
    Play(u64, Turn),
}

/// Does so many turns of the worker that patches, and has the same answer each time.
fn patches(rt: &impl Abort, text: &LiveText, patcher: &mut Patcher, times: u8, want: Advance)
    requires own { IsOwn text.now patcher.old.seat }
    requires cpus { patcher.old.worker ≡ text.now.cpus }
    ensures own { IsOwn text.now patcher.new.seat }
    ensures cpus { patcher.new.worker ≡ text.now.cpus }
{
    for _ in 0..times {
        let done = patcher.worker.advance(text, &mut patcher.seat);
        assert_eq!(rt; done, want);
    }
}

/// Does a turn of a processor by a word, and has this answer.
fn plays(rt: &impl Abort, image: &Image, text: &LiveText, job: &mut Job, word: u64, want: Turn)
    requires plan { IsLivePlan image.now text.now.plan }
    requires own { IsOwn text.now job.old.seat }
    requires paired { IsPaired image.now text.now.plan (runner job.old.cpu job.old.seat) }
    ensures own { IsOwn text.now job.new.seat }
    ensures paired { IsPaired image.now text.now.plan (runner job.new.cpu job.new.seat) }
{
    let done = job.cpu.turn(image, text, &mut job.seat, word);
    assert_eq!(rt; done, want);
}

/// Does steps of the worker that patches and of a processor.
fn goes(
    rt: &impl Abort,
    image: &Image,
    text: &LiveText,
    patcher: &mut Patcher,
    job: &mut Job,
    steps: &[Step],
)
    requires plan { IsLivePlan image.now text.now.plan }
    requires patch { IsOwn text.now patcher.old.seat }
    requires cpus { patcher.old.worker ≡ text.now.cpus }
    requires own { IsOwn text.now job.old.seat }
    requires paired { IsPaired image.now text.now.plan (runner job.old.cpu job.old.seat) }
{
    for step in steps {
        match *step {
            Step::Patch(times, want) => patches(rt, text, patcher, times, want),
            Step::Play(word, want) => plays(rt, image, text, job, word, want),
        }
    }
}

/// Does steps from the beginning of a script of one processor on; whether the processor runs in the end, and what it has
/// acknowledged.
fn walks(
    rt: &(impl Abort + AllocGlobal),
    image: &Image,
    script: &Script,
    steps: &[Step],
) -> Result<(Life, u64), Fail>
    requires { IsScriptOf image.now script.now }
{
    let (text, mut patcher, mut job) = lone(rt, rt.alloc(), image, script)?;
    goes(rt, image, &text, &mut patcher, &mut job, steps);
    Ok((job.cpu.proc().life, text.acked(&job.seat)))
}

/// Does steps from the beginning of a module's script of one processor on; what comes of it is as `walks` has it.
fn follows(
    rt: &(impl Abort + AllocGlobal),
    small: &Small<'_>,
    script_text: &[u8],
    steps: &[Step],
) -> Result<(Life, u64), Fail> {
    let image = image(rt, rt.alloc(), small)?;
    let script = script(rt, rt.alloc(), script_text, &image)?;
    walks(rt, &image, &script, steps)
}

/// The update of the one key, and a processor that begins at the switch.
const SWITCHED: &[u8] = b"cpu f\ninc k";

#[test]
fn a_stale_fetch_does_the_old_form_whole(rt: HostRuntime) -> Result<(), Fail> {
    let steps = [
        Step::Play(STAY, old()),
        Step::Play(STAY, RAN),
        Step::Patch(2, Advance::Moved),
        Step::Play(STAY, old()),
        Step::Play(STAY, RAN),
        Step::Play(TAILS_ANEW, old()),
        Step::Play(STAY, RAN),
        Step::Play(ANEW, Turn::Trapped),
        Step::Play(ANEW, new(0)),
        Step::Play(STAY, RAN),
        // The handler has emptied the cache.
        Step::Play(STAY, Turn::Trapped),
        Step::Play(STAY, new(0)),
    ];
    assert_eq!(rt; follows(&rt, &SPIN, SWITCHED, &steps)?, (Life::Running, 0));
    Ok(())
}

#[test]
fn a_patch_waits_for_each_acknowledgement(rt: HostRuntime) -> Result<(), Fail> {
    let steps = [
        Step::Patch(2, Advance::Moved),
        Step::Patch(2, waiting(0)),
        Step::Play(LOOK, Turn::Trapped),
        // It hears of the processor, and stores four bytes and a request.
        Step::Patch(6, Advance::Moved),
        Step::Patch(1, waiting(1)),
        // A trapped processor doesn't look.
        Step::Play(LOOK, new(1)),
        Step::Patch(1, waiting(1)),
        Step::Play(LOOK, RAN),
        Step::Patch(3, Advance::Moved),
        Step::Patch(1, waiting(2)),
        Step::Play(LOOK, new(3)),
        Step::Patch(1, Advance::Moved),
        Step::Patch(2, Advance::Finished),
    ];
    assert_eq!(rt; follows(&rt, &SPIN, SWITCHED, &steps)?, (Life::Running, 3));
    Ok(())
}

#[test]
fn an_acknowledgement_leaves_only_the_new_form(rt: HostRuntime) -> Result<(), Fail> {
    let steps = [
        Step::Patch(2, Advance::Moved),
        Step::Play(LOOK, Turn::Trapped),
        Step::Play(STAY, new(1)),
        Step::Play(STAY, RAN),
        Step::Patch(6, Advance::Moved),
        Step::Play(LOOK, Turn::Trapped),
        Step::Play(STAY, new(2)),
        Step::Play(STAY, RAN),
        // The new first byte is stored, and the third request isn't.
        Step::Patch(2, Advance::Moved),
        Step::Play(LOOK, new(2)),
        Step::Play(STAY, RAN),
        Step::Patch(1, Advance::Moved),
        Step::Play(LOOK, new(3)),
    ];
    assert_eq!(rt; follows(&rt, &SPIN, SWITCHED, &steps)?, (Life::Running, 3));
    Ok(())
}

#[test]
fn serialize_makes_a_processor_fetch_anew(rt: HostRuntime) -> Result<(), Fail> {
    // A switch, SERIALIZE, and a jump back to the switch.
    let fence = Small {
        text: b"\x0f\x1fD\0\0\x0f\x01\xe8\xeb\xf6",
        ..SPIN
    };
    let steps = [
        Step::Play(STAY, old()),
        Step::Play(STAY, RAN),
        Step::Play(STAY, RAN),
        Step::Play(STAY, old()),
        Step::Patch(2, Advance::Moved),
        Step::Play(STAY, RAN),
        Step::Play(STAY, RAN),
        Step::Play(STAY, Turn::Trapped),
    ];
    assert_eq!(rt; follows(&rt, &fence, SWITCHED, &steps)?, (Life::Running, 0));
    Ok(())
}

#[test]
fn an_ended_processor_still_acknowledges(rt: HostRuntime) -> Result<(), Fail> {
    let steps = [
        Step::Play(STAY, ENDED),
        Step::Play(STAY, Turn::Still),
        Step::Patch(2, Advance::Moved),
        Step::Play(LOOK, Turn::Still),
        Step::Patch(6, Advance::Moved),
        Step::Play(STAY, Turn::Still),
        Step::Patch(1, waiting(1)),
        Step::Play(LOOK, Turn::Still),
        Step::Patch(3, Advance::Moved),
        Step::Play(LOOK, Turn::Still),
        Step::Patch(1, Advance::Moved),
        Step::Patch(1, Advance::Finished),
    ];
    let ended = follows(&rt, &BRANCH, b"cpu leaf\ninc k", &steps)?;
    assert_eq!(rt; ended, (Life::Done, 3));
    Ok(())
}

#[test]
fn a_breakpoint_of_the_text_is_a_fault(rt: HostRuntime) -> Result<(), Fail> {
    let steps = [
        Step::Play(ANEW, ENDED),
        Step::Play(LOOK, Turn::Still),
        Step::Patch(1, Advance::Finished),
    ];
    let ended = follows(&rt, &BRANCH, b"cpu brk", &steps)?;
    assert_eq!(rt; ended, (Life::Fault(FaultKind::Breakpoint), 0));
    Ok(())
}

/// A pass of the first switch of `PAIR` in its new form, with this acknowledgement.
fn near(ack: u64) -> Turn {
    pass(0, Form::Jmp8(F + 2), 1, ack)
}

/// A pass of the second switch of `PAIR` in its old form, in this version, with this acknowledgement.
fn far(version: u32, ack: u64) -> Turn {
    pass(1, Form::Nop5, version, ack)
}

#[test]
fn a_chunk_counts_for_each_site(rt: HostRuntime) -> Result<(), Fail> {
    let steps = [
        Step::Play(STAY, pass(0, Form::Nop2, 0, 0)),
        Step::Play(STAY, far(0, 0)),
        Step::Play(STAY, RAN),
        Step::Patch(2, Advance::Moved),
        Step::Play(LOOK, Turn::Trapped),
        Step::Play(STAY, near(1)),
        Step::Play(STAY, far(0, 1)),
        Step::Play(STAY, RAN),
        Step::Patch(3, Advance::Moved),
        Step::Play(LOOK, Turn::Trapped),
        Step::Play(STAY, near(2)),
        Step::Play(STAY, far(0, 2)),
        Step::Play(STAY, RAN),
        Step::Patch(3, Advance::Moved),
        // The second chunk is under way, and the second switch is at its old form still.
        Step::Play(LOOK, near(3)),
        Step::Play(STAY, far(1, 3)),
        Step::Play(STAY, RAN),
        Step::Patch(3, Advance::Moved),
        Step::Play(STAY, near(3)),
        Step::Play(ANEW, Turn::Trapped),
        Step::Play(STAY, pass(1, Form::Jmp32(F + 7), 2, 3)),
    ];
    let ended = follows(&rt, &PAIR, b"cpu f\ninc k\ninc l", &steps)?;
    assert_eq!(rt; ended, (Life::Running, 3));
    Ok(())
}
