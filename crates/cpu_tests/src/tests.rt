//! Processors that fetch from texts of both kinds, and run through an update.
ghost use Rattle.std.specs.Prelude.{◌≡◌, ◌≤◌, ◌<◌, ◌+◌, true, length, None};
ghost use Rattle.stale_fetch.specs.Log.{IsLogOf, log_shape};
ghost use Rattle.stale_fetch.specs.Text.{Covers};
ghost use Rattle.stale_fetch.specs.Windows.{IsWindowsOf, window_shape};
ghost use Rattle.cpu_core.specs.Standing.{IsStanding};

use cpu_core::{Cpu, Stepped, TurnKind};
use elf_build::{KeyStart, PlanSite};
use elf_module::ElfFile;
use insn_forms::{Change, Changes, Form, Held};
use int3_handler::Handled;
use module_image::Image;
use poke_base::CodeBytes;
use poke_batch::{Batch, Due};
use small_module::{F, Small};
use stale_fetch::{LogText, Text, WindowText};
use std::alloc::Global;
use std::process::Abort;
use std::test::Fail;
use x64_subset::{FaultKind, Insn, Life, Mark};

/// A no-operation of five bytes.
const NOP: [u8; 5] = [0x0f, 0x1f, 0x44, 0x00, 0x00];

/// SERIALIZE, a switch, and a return.
const CODE: [u8; 9] = [0x0f, 0x01, 0xe8, 0x0f, 0x1f, 0x44, 0x00, 0x00, 0xc3];

/// Where the switch is, and where it leads.
const SITE: u64 = 0x40_1003;

const TARGET: u64 = 0x40_1008;

/// A text of these bytes that keeps four writes, for one processor.
fn log_text(rt: &impl Abort, alloc: Global, code: &[u8]) -> LogText
    requires some { 1 ≤ length code.now }
    requires few { length code.now ≤ 64 }
    ensures stands { IsStanding (IsLogOf result) }
    ensures base { (log_shape result).base ≡ 0x401000 }
    ensures size { (log_shape result).size ≡ length code.now }
    ensures cpus { (log_shape result).cpus ≡ 1 }
{
    LogText::new(alloc, F, code, 1, 4).expect(rt, "memory")
}

/// A text of these bytes that keeps two values of each, for one processor.
fn window_text(rt: &impl Abort, alloc: Global, code: &[u8]) -> WindowText
    requires some { 1 ≤ length code.now }
    requires few { length code.now ≤ 64 }
    ensures stands { IsStanding (IsWindowsOf result) }
    ensures base { (window_shape result).base ≡ 0x401000 }
    ensures size { (window_shape result).size ≡ length code.now }
    ensures cpus { (window_shape result).cpus ≡ 1 }
{
    WindowText::new(alloc, F, code, 1).expect(rt, "memory")
}

/// Writes a byte, for which there has to be room.
fn put<T: Text>(rt: &impl Abort, text: &mut T, at: u64, byte: u8)
    requires stands { IsStanding (T.stands text.old) }
    requires inside { Covers (T.shape text.old) at }
    ensures stands { IsStanding (T.stands text.new) }
    ensures shape { T.shape text.new ≡ T.shape text.old }
{
    let fits = text.fits(at, byte);
    assert!(rt; fits);
    text.write(at, byte);
}

/// Checks what a processor that stands there fetches with a word, and that it may.
fn fetches<T: Text>(rt: &impl Abort, text: &T, at: u64, word: u64, bytes: &[u8])
    requires stands { IsStanding (T.stands text.now) }
    requires known { 1 ≤ (T.shape text.now).cpus }
    requires inside { Covers (T.shape text.now) at }
{
    let cpu = Cpu::new(at);
    let fetched = cpu.fetch(0, text, word);
    assert_eq!(rt; fetched.as_slice(), bytes);
    assert!(rt; cpu.may_fetch(0, text, &fetched));
}

/// Checks that a processor that stands there may not fetch these bytes.
fn refuses<T: Text>(rt: &impl Abort, text: &T, at: u64, bytes: &[u8])
    requires stands { IsStanding (T.stands text.now) }
    requires known { 1 ≤ (T.shape text.now).cpus }
    requires inside { Covers (T.shape text.now) at }
{
    let mut fetched = CodeBytes::new();
    let all = fetched.try_extend_from_slice(bytes);
    assert!(rt; all.is_ok());
    assert!(rt; !Cpu::new(at).may_fetch(0, text, &fetched));
}

/// Fetches where it stands, which has to be there, and does what that is.
fn pass<T: Text>(rt: &impl Abort, cpu: &mut Cpu, text: &T, at: u64, word: u64) -> Stepped
    requires stands { IsStanding (T.stands text.now) }
    requires known { 1 ≤ (T.shape text.now).cpus }
    requires inside { Covers (T.shape text.now) at }
{
    assert!(rt; cpu.proc().life == Life::Running);
    assert!(rt; cpu.proc().ip == at);
    assert!(rt; !cpu.trapped());
    let bytes = cpu.fetch(0, text, word);
    cpu.at(&bytes)
}

/// A fetch that is an instruction, one that is none, and one that the text's end cuts off.
fn fetches_enough<T: Text>(rt: &impl Abort, text: &T)
    requires stands { IsStanding (T.stands text.now) }
    requires base { (T.shape text.now).base ≡ 0x401000 }
    requires size { (T.shape text.now).size ≡ 7 }
    requires cpus { (T.shape text.now).cpus ≡ 1 }
{
    fetches(rt, text, F, 7, &NOP);
    fetches(rt, text, F + 5, 7, &[0x06]);
    fetches(rt, text, F + 6, 7, &[0x0f]);
}

/// Bytes that are too few or too many, and others.
fn refuses_others<T: Text>(rt: &impl Abort, text: &T)
    requires stands { IsStanding (T.stands text.now) }
    requires base { (T.shape text.now).base ≡ 0x401000 }
    requires size { (T.shape text.now).size ≡ 7 }
    requires cpus { (T.shape text.now).cpus ≡ 1 }
{
    refuses(rt, text, F, &[]);
    refuses(rt, text, F, &[0x0f, 0x1f, 0x44, 0x00]);
    refuses(rt, text, F, &[0x0f, 0x1f, 0x44, 0x00, 0x01]);
    refuses(rt, text, F, &[0x0f, 0x1f, 0x44, 0x00, 0x00, 0x06]);
    refuses(rt, text, F + 5, &[0x06, 0x0f]);
    refuses(rt, text, F + 6, &[0x0f, 0x1f]);
}

/// Checks what a processor does that stands there, and where and how it is left.
fn does<T: Text>(rt: &impl Abort, text: &T, at: u64, done: Stepped, left: u64, life: Life)
    requires stands { IsStanding (T.stands text.now) }
    requires known { 1 ≤ (T.shape text.now).cpus }
    requires inside { Covers (T.shape text.now) at }
{
    let mut cpu = Cpu::new(at);
    assert_eq!(rt; pass(rt, &mut cpu, text, at, 0), done);
    assert_eq!(rt; cpu.proc().ip, left);
    assert_eq!(rt; cpu.proc().life, life);
}

#[test]
fn fetches_as_many_bytes_as_tell(rt: HostRuntime) {
    let code = [0x0f, 0x1f, 0x44, 0x00, 0x00, 0x06, 0x0f];
    let text = log_text(&rt, rt.alloc(), &code);
    fetches_enough(&rt, &text);
    refuses_others(&rt, &text);
    let nop = Stepped::Pass {
        at: F,
        insn: Insn::Nop(5),
        mark: Mark::None,
    };
    let fault = Life::Fault(FaultKind::Undefined);
    does(&rt, &text, F, nop, F + 5, Life::Running);
    does(&rt, &text, F + 5, Stepped::Torn, F + 5, fault);
    does(&rt, &text, F + 6, Stepped::Torn, F + 6, fault);
}

/// A word picks each byte by eight bits of its own.
fn picks_bytes<T: Text>(rt: &impl Abort, text: &mut T)
    requires stands { IsStanding (T.stands text.old) }
    requires base { (T.shape text.old).base ≡ 0x401000 }
    requires size { (T.shape text.old).size ≡ 6 }
    requires cpus { (T.shape text.old).cpus ≡ 1 }
{
    put(rt, text, F, 0xe9);
    put(rt, text, F + 1, 0x03);
    put(rt, text, F + 1, 0x04);
    fetches(rt, text, F, 0, &NOP);
    fetches(rt, text, F, 1, &[0xe9, 0x1f, 0x44, 0x00, 0x00]);
    fetches(rt, text, F, 0x0103, &[0xe9, 0x03, 0x44, 0x00, 0x00]);
    fetches(rt, text, F, 0x0501, &[0xe9, 0x04, 0x44, 0x00, 0x00]);
    fetches(rt, text, F, 0x0300, &NOP);
    fetches(rt, text, F, 0x0100, &[0x0f, 0x03]);
}

#[test]
fn words_pick_bytes(rt: HostRuntime) {
    let code = [0x0f, 0x1f, 0x44, 0x00, 0x00, 0xc3];
    picks_bytes(&rt, &mut log_text(&rt, rt.alloc(), &code));
}

/// The accepted module of a text with these sites, which have one key.
fn module(rt: &impl Abort, alloc: Global, code: &[u8], sites: &[PlanSite]) -> Result<Image, Fail> {
    let small = Small {
        text: code,
        sites,
        keys: &[(b"k", KeyStart::Count(0))],
        functions: &[],
    };
    let file = small.file(alloc)?;
    assert!(rt; file.len() < 10_000);
    Ok(Image::accept(alloc, &ElfFile::read(&file)?)?)
}

/// Opens the update of the switch to a jump.
fn open<T: Text>(rt: &impl Abort, alloc: Global, batch: &mut Batch, text: &T)
    requires idle { batch.old.update ≡ None }
    requires one { batch.old.sites ≡ 1 }
    requires stands { IsStanding (T.stands text.now) }
    requires base { (T.shape text.now).base ≡ 0x401000 }
    requires size { (T.shape text.now).size ≡ 9 }
{
    let mut changes = Changes::with_room(alloc, 1).expect(rt, "memory");
    changes.push(Change {
        at: SITE,
        old: Form::Nop5,
        new: Form::Jmp32(TARGET),
    });
    let opened = batch.fill(&changes, text);
    assert_eq!(rt; opened, Ok(()));
}

/// Puts the due write of a breakpoint into the text.
fn trap<T: Text>(rt: &impl Abort, batch: &mut Batch, text: &mut T)
    requires stands { IsStanding (T.stands text.old) }
    requires base { (T.shape text.old).base ≡ 0x401000 }
    requires size { (T.shape text.old).size ≡ 9 }
    ensures stands { IsStanding (T.stands text.new) }
    ensures shape { T.shape text.new ≡ T.shape text.old }
{
    let due = batch.due();
    assert_eq!(rt;
        due,
        Due::Write {
            at: SITE,
            byte: 0xcc
        }
    );
    put(rt, text, SITE, 0xcc);
    batch.took();
}

/// Does the plain instruction at which the processor stands.
fn step<T: Text>(rt: &impl Abort, cpu: &mut Cpu, image: &Image, text: &mut T) -> Stepped
    requires stands { IsStanding (T.stands text.old) }
    requires known { 1 ≤ (T.shape text.old).cpus }
    ensures stands { IsStanding (T.stands text.new) }
    ensures shape { T.shape text.new ≡ T.shape text.old }
{
    let kind = cpu.kind(image);
    assert!(rt; kind == TurnKind::Plain);
    cpu.plain(0, image, text)
}

/// Runs the handler of the breakpoint that the processor hit.
fn handle<T: Text>(rt: &impl Abort, cpu: &mut Cpu, batch: &Batch, text: &mut T) -> Handled
    requires stands { IsStanding (T.stands text.old) }
    requires known { 1 ≤ (T.shape text.old).cpus }
    ensures stands { IsStanding (T.stands text.new) }
    ensures shape { T.shape text.new ≡ T.shape text.old }
{
    assert!(rt; cpu.trapped());
    cpu.handled(0, batch, text)
}

/// A breakpoint is written, the processor serialises and hits it, and its handler jumps.
fn runs_through<T: Text>(rt: &impl Abort, alloc: Global, image: &Image, text: &mut T)
    requires stands { IsStanding (T.stands text.old) }
    requires base { (T.shape text.old).base ≡ 0x401000 }
    requires size { (T.shape text.old).size ≡ 9 }
    requires cpus { (T.shape text.old).cpus ≡ 1 }
{
    let mut batch = Batch::new(alloc, 1, 1).expect(rt, "memory");
    open(rt, alloc, &mut batch, text);
    trap(rt, &mut batch, text);
    fetches(rt, text, SITE, 0, &NOP);
    fetches(rt, text, SITE, 1, &[0xcc]);

    let mut cpu = Cpu::new(F);
    assert_eq!(rt; cpu.kind(image), TurnKind::Plain);
    assert_eq!(rt; step(rt, &mut cpu, image, text), Stepped::Plain(Mark::None));
    assert_eq!(rt; cpu.kind(image), TurnKind::At);
    fetches(rt, text, SITE, 0, &[0xcc]);
    refuses(rt, text, SITE, &NOP);
    assert_eq!(rt; text.held(SITE + 1), Some(0x1f));

    assert_eq!(rt; pass(rt, &mut cpu, text, SITE, 0), Stepped::Trapped);
    assert_eq!(rt; cpu.kind(image), TurnKind::Handle);
    assert_eq!(rt; cpu.proc().ip, SITE + 1);
    let jump = Handled::Emulated {
        at: SITE,
        form: Form::Jmp32(TARGET),
        mark: Mark::None,
    };
    assert_eq!(rt; handle(rt, &mut cpu, &batch, text), jump);
    assert_eq!(rt; cpu.kind(image), TurnKind::Plain);
    assert_eq!(rt; cpu.proc().ip, TARGET);
    assert_eq!(rt;
        step(rt, &mut cpu, image, text),
        Stepped::Plain(Mark::Ended)
    );
    assert_eq!(rt; cpu.proc().life, Life::Done);
    assert_eq!(rt; cpu.kind(image), TurnKind::Tick);
}

#[test]
fn processors_run_through_an_update(rt: HostRuntime) -> Result<(), Fail> {
    let switch = PlanSite::Jump {
        at: SITE,
        target: TARGET,
        key: 0,
        likely: false,
    };
    let image = module(&rt, rt.alloc(), &CODE, &[switch])?;
    runs_through(
        &rt,
        rt.alloc(),
        &image,
        &mut log_text(&rt, rt.alloc(), &CODE),
    );
    runs_through(
        &rt,
        rt.alloc(),
        &image,
        &mut window_text(&rt, rt.alloc(), &CODE),
    );
    Ok(())
}

/// What is put out and where it ends, and that there is no instruction inside of another.
fn runs_plainly<T: Text>(rt: &impl Abort, image: &Image, text: &mut T)
    requires stands { IsStanding (T.stands text.old) }
    requires cpus { (T.shape text.old).cpus ≡ 1 }
{
    let mut cpu = Cpu::new(F);
    let out = Mark::Out {
        port: 0x10,
        value: 0,
    };
    assert_eq!(rt; step(rt, &mut cpu, image, text), Stepped::Plain(out));
    assert_eq!(rt;
        step(rt, &mut cpu, image, text),
        Stepped::Plain(Mark::Ended)
    );
    assert_eq!(rt; cpu.proc().life, Life::Halted);
    assert_eq!(rt; cpu.kind(image), TurnKind::Tick);
    let mut lost = Cpu::new(F + 1);
    assert_eq!(rt; step(rt, &mut lost, image, text), Stepped::Torn);
    assert_eq!(rt; lost.proc().life, Life::Fault(FaultKind::Undefined));
}

#[test]
fn plain_instructions_are_done(rt: HostRuntime) -> Result<(), Fail> {
    let code = [0xe6, 0x10, 0xf4];
    let image = module(&rt, rt.alloc(), &code, &[])?;
    runs_plainly(&rt, &image, &mut log_text(&rt, rt.alloc(), &code));
    Ok(())
}
