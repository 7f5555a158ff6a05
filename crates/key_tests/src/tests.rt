//! Updates of small modules whose text stands at 401000.
ghost use Rattle.key_state.specs.Settled.{IsSettledOf};
ghost use Rattle.module_image.specs.Command.{IsCommandOf};
ghost use Rattle.module_image.specs.Lent.{IsKeyOf};

use elf_build::{KeyStart, PlanSite};
use elf_module::ElfFile;
use insn_forms::{Change, Form, Held};
use key_state::{Keys, Outcome, Settled};
use module_image::{Command, Image, KeyClass};
use poke_base::code_bytes;
use poke_batch::Clash;
use small_module::{F, Small};
use std::process::Abort;
use std::test::Fail;
use tried_modules::TWO_SWITCHES;

/// The greatest count of a key.
const GREATEST: u32 = 2_147_483_647;

/// Two switches of one key, which isn't enabled: one of two bytes, and a likely one of five.
const SWITCHES: Small<'static> = Small {
    keys: &[(b"k", KeyStart::Count(0))],
    ..TWO_SWITCHES
};

/// The text of the two switches while their key isn't enabled.
const SWITCHED_OFF: &[u8] = b"f\x90\xe9\x02\0\0\0\xff\xc0\xc3";

/// Their text while it is.
const SWITCHED_ON: &[u8] = b"\xeb\x07\x0f\x1fD\0\0\xff\xc0\xc3";

/// Three traced sites of five bytes, the second of which holds a load, and the function that is called where they are
/// traced.
const TRACES: Small<'static> = Small {
    text: b"\x0f\x1fD\0\0\xb8\x01\0\0\0\x0f\x1fD\0\0\xc3",
    sites: &[
        PlanSite::Trace { at: F },
        PlanSite::Trace { at: F + 5 },
        PlanSite::Trace { at: F + 10 },
    ],
    keys: &[],
    functions: &[(b"ftrace_caller", F + 15)],
};

/// A call and a tail call of one key, which holds no function, and a function.
const CALLS: Small<'static> = Small {
    text: b"\x0f\x1fD\0\0\xc3\xcc\xcc\xcc\xcc\xc3",
    sites: &[
        PlanSite::Call {
            at: F,
            key: 0,
            tail: false,
        },
        PlanSite::Call {
            at: F + 5,
            key: 0,
            tail: true,
        },
    ],
    keys: &[(b"k", KeyStart::Func(0))],
    functions: &[(b"g", F + 10)],
};

/// The module.
fn image<R: Abort + AllocGlobal>(rt: &R, small: &Small<'_>) -> Result<Image, Fail> {
    let bytes = small.file(rt.alloc())?;
    assert!(rt; bytes.len() < 10_000);
    Ok(Image::accept(rt.alloc(), &ElfFile::read(&bytes)?)?)
}

/// A command, by what its key `k`, its function or its site is called.
#[derive(Clone, Copy, Debug)]
enum Asked {
    Inc,
    Dec,
    Enable,
    Disable,
    Call(&'static [u8]),
    CallNone,
    Trace(u64),
    TraceAll,
    TraceNone,
}

/// The command of a module.
fn command<R: Abort>(rt: &R, image: &Image, asked: Asked) -> Command
    ensures { IsCommandOf image.now result }
{
    match asked {
        Asked::Inc => Command::Inc(key(rt, image, KeyClass::Jump)),
        Asked::Dec => Command::Dec(key(rt, image, KeyClass::Jump)),
        Asked::Enable => Command::Enable(key(rt, image, KeyClass::Jump)),
        Asked::Disable => Command::Disable(key(rt, image, KeyClass::Jump)),
        Asked::Call(name) => {
            let function = image.function_named(name).expect(rt, "a function");
            Command::Target(key(rt, image, KeyClass::Call), function)
        }
        Asked::CallNone => Command::Target(key(rt, image, KeyClass::Call), 0),
        Asked::Trace(at) => {
            let site = image.trace_site_of(at).expect(rt, "a trace site");
            Command::Trace(site, true)
        }
        Asked::TraceAll => Command::TraceAll(true),
        Asked::TraceNone => Command::TraceAll(false),
    }
}

/// The number of the key `k`.
fn key<R: Abort>(rt: &R, image: &Image, class: KeyClass) -> u32
    ensures { IsKeyOf image.now.keys class result }
{
    image.key_named(class, b"k").expect(rt, "a key")
}

/// How an update ends: as an outcome, but for a clash by its address alone, at a site that holds a load of 1.
#[derive(Clone, Copy)]
enum Ended {
    Done(u32),
    Count(u32),
    Clash(u64),
}

/// The outcome.
fn outcome(ended: Ended) -> Outcome {
    match ended {
        Ended::Done(changes) => Outcome::Done(changes),
        Ended::Count(count) => Outcome::Count(count),
        Ended::Clash(at) => Outcome::Clash(Clash {
            at,
            found: code_bytes(0xb8, &[1, 0, 0, 0]),
            expected: code_bytes(0x0f, &[0x1f, 0x44, 0, 0]),
        }),
    }
}

/// Takes commands one after the other, and asserts how their updates end.
fn takes<R: Abort>(rt: &R, image: &Image, settled: &mut Settled, steps: &[(Asked, Ended)])
    requires { IsSettledOf image.now settled.old }
    ensures { IsSettledOf image.now settled.new }
{
    for (asked, ended) in steps {
        let command = command(rt, image, *asked);
        assert_eq!(rt; settled.take(image, &command), outcome(*ended), "{asked:?}");
    }
}

/// Asserts what stands there at the end of a run, in its text and outside, and which changes the last update made.
fn stands<R: Abort>(rt: &R, settled: &Settled, text: &[u8], changed: &[Change]) {
    assert_eq!(rt; settled.text(), text);
    assert_eq!(rt; settled.changed(), changed);
    assert_eq!(rt; settled.held(F), text.first().copied());
    let ends_at = F.wrapping_add(text.len() as u64);
    assert_eq!(rt; settled.held(ends_at.wrapping_sub(1)), text.last().copied());
    assert_eq!(rt; settled.held(F - 1), None);
    assert_eq!(rt; settled.held(ends_at), None);
}

/// Takes commands of a module one after the other, and asserts how their updates end, what the text then holds and which changes the
/// last update made.
fn runs<R: Abort + AllocGlobal>(
    rt: &R,
    small: &Small<'_>,
    steps: &[(Asked, Ended)],
    text: &[u8],
    changed: &[Change],
) -> Result<(), Fail> {
    let image = image(rt, small)?;
    let mut settled = Settled::new(rt.alloc(), &image)?;
    takes(rt, &image, &mut settled, steps);
    stands(rt, &settled, text, changed);
    Ok(())
}

/// A switch of two bytes, and one of five, as they are while their key isn't enabled, and as they are while it is.
const ENABLED: [Change; 2] = [
    Change {
        at: F,
        old: Form::Nop2,
        new: Form::Jmp8(F + 9),
    },
    Change {
        at: F + 2,
        old: Form::Jmp32(F + 9),
        new: Form::Nop5,
    },
];

/// Takes commands of the two switches where the count of their key begins at one, and asserts how their updates end and what
/// the text then holds. The last of them changes nothing.
fn counts<R: Abort + AllocGlobal>(
    rt: &R,
    count: u32,
    steps: &[(Asked, Ended)],
    text: &[u8],
) -> Result<(), Fail> {
    let small = Small {
        keys: &[(b"k", KeyStart::Count(count))],
        ..SWITCHES
    };
    runs(rt, &small, steps, text, &[])
}

#[test]
fn counts_begin_low(rt: HostRuntime) -> Result<(), Fail> {
    let none = [
        (Asked::Dec, Ended::Count(0)),
        (Asked::Disable, Ended::Done(0)),
    ];
    counts(&rt, 0, &none, SWITCHED_OFF)?;
    let on_and_off = [
        (Asked::Enable, Ended::Done(2)),
        (Asked::Enable, Ended::Done(0)),
        (Asked::Disable, Ended::Done(2)),
        (Asked::Dec, Ended::Count(0)),
    ];
    counts(&rt, 0, &on_and_off, SWITCHED_OFF)?;
    let one = [
        (Asked::Enable, Ended::Done(0)),
        (Asked::Inc, Ended::Done(0)),
        (Asked::Enable, Ended::Count(2)),
    ];
    counts(&rt, 1, &one, SWITCHED_ON)?;
    let none_left = [(Asked::Dec, Ended::Done(2)), (Asked::Dec, Ended::Count(0))];
    counts(&rt, 1, &none_left, SWITCHED_OFF)
}

#[test]
fn counts_begin_high(rt: HostRuntime) -> Result<(), Fail> {
    let two = [
        (Asked::Enable, Ended::Count(2)),
        (Asked::Disable, Ended::Count(2)),
        (Asked::Dec, Ended::Done(0)),
        (Asked::Dec, Ended::Done(2)),
        (Asked::Dec, Ended::Count(0)),
    ];
    counts(&rt, 2, &two, SWITCHED_OFF)?;
    let greatest = [
        (Asked::Inc, Ended::Count(GREATEST)),
        (Asked::Enable, Ended::Count(GREATEST)),
        (Asked::Disable, Ended::Count(GREATEST)),
    ];
    counts(&rt, GREATEST, &greatest, SWITCHED_ON)?;
    let down_and_up = [
        (Asked::Dec, Ended::Done(0)),
        (Asked::Inc, Ended::Done(0)),
        (Asked::Inc, Ended::Count(GREATEST)),
    ];
    counts(&rt, GREATEST, &down_and_up, SWITCHED_ON)
}

#[test]
fn commands_end_in_order(rt: HostRuntime) -> Result<(), Fail> {
    let steps = [
        (Asked::Dec, Ended::Count(0)),
        (Asked::Inc, Ended::Done(2)),
        (Asked::Inc, Ended::Done(0)),
        (Asked::Enable, Ended::Count(2)),
        (Asked::Disable, Ended::Count(2)),
    ];
    runs(&rt, &SWITCHES, &steps, SWITCHED_ON, &[])
}

#[test]
fn a_count_goes_up_and_down(rt: HostRuntime) -> Result<(), Fail> {
    let steps = [
        (Asked::Inc, Ended::Done(2)),
        (Asked::Inc, Ended::Done(0)),
        (Asked::Dec, Ended::Done(0)),
        (Asked::Disable, Ended::Done(2)),
        (Asked::Disable, Ended::Done(0)),
    ];
    runs(&rt, &SWITCHES, &steps, SWITCHED_OFF, &[])
}

#[test]
fn an_update_writes_the_text(rt: HostRuntime) -> Result<(), Fail> {
    runs(&rt, &SWITCHES, &[], SWITCHED_OFF, &[])?;
    let enabled = [(Asked::Enable, Ended::Done(2))];
    runs(&rt, &SWITCHES, &enabled, SWITCHED_ON, &ENABLED)
}

/// Asserts which forms the sites of a module want, by their numbers.
fn want<R: Abort + AllocGlobal>(rt: &R, image: &Image, forms: &[Form]) -> Result<(), Fail> {
    let keys = Keys::of(rt.alloc(), image)?;
    assert_eq!(rt; forms.len(), image.sites().len());
    for site in 0..forms.len() {
        assert_eq!(rt; keys.wants(image, site as u32), forms[site], "{site}");
    }
    Ok(())
}

#[test]
fn sites_want_forms(rt: HostRuntime) -> Result<(), Fail> {
    let image = image(&rt, &SWITCHES)?;
    want(&rt, &image, &[Form::Nop2, Form::Jmp32(F + 9)])
}

#[test]
fn foreign_sites_clash(rt: HostRuntime) -> Result<(), Fail> {
    let rows: [(&[u8], u64); 4] = [
        (b"\xb8\x01\0\0\0\x0f\x1fD\0\0\x0f\x1fD\0\0\xc3", F),
        (b"\x0f\x1fD\0\0\xb8\x01\0\0\0\x0f\x1fD\0\0\xc3", F + 5),
        (b"\x0f\x1fD\0\0\x0f\x1fD\0\0\xb8\x01\0\0\0\xc3", F + 10),
        (b"\x0f\x1fD\0\0\xb8\x01\0\0\0\xb8\x01\0\0\0\xc3", F + 5),
    ];
    for (text, at) in rows {
        let small = Small { text, ..TRACES };
        let steps = [
            (Asked::TraceAll, Ended::Clash(at)),
            (Asked::TraceNone, Ended::Done(0)),
        ];
        runs(&rt, &small, &steps, text, &[])?;
    }
    Ok(())
}

/// The text of the three sites while the last is traced.
const LAST_TRACED: &[u8] = b"\x0f\x1fD\0\0\xb8\x01\0\0\0\xe8\0\0\0\0\xc3";

#[test]
fn a_site_is_traced(rt: HostRuntime) -> Result<(), Fail> {
    let call = Change {
        at: F + 10,
        old: Form::Nop5,
        new: Form::Call(F + 15),
    };
    let traced = (Asked::Trace(F + 10), Ended::Done(1));
    runs(&rt, &TRACES, &[traced], LAST_TRACED, &[call])?;
    // A clash leaves no change of the update before.
    let clash = (Asked::TraceAll, Ended::Clash(F + 5));
    runs(&rt, &TRACES, &[traced, clash], LAST_TRACED, &[])
}

/// The text of the call and the tail call while their key holds the function.
const CALLED: &[u8] = b"\xe8\x05\0\0\0\xe9\0\0\0\0\xc3";

#[test]
fn a_call_has_another_function(rt: HostRuntime) -> Result<(), Fail> {
    let call = Change {
        at: F,
        old: Form::Nop5,
        new: Form::Call(F + 10),
    };
    let tail = Change {
        at: F + 5,
        old: Form::Ret,
        new: Form::Jmp32(F + 10),
    };
    let called = (Asked::Call(b"g"), Ended::Done(2));
    runs(&rt, &CALLS, &[called], CALLED, &[call, tail])?;
    let back = |change: Change| Change {
        at: change.at,
        old: change.new,
        new: change.old,
    };
    let changed = [back(call), back(tail)];
    let none = (Asked::CallNone, Ended::Done(2));
    runs(&rt, &CALLS, &[called, none], CALLS.text, &changed)
}
