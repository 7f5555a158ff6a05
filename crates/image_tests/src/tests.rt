//! What an accepted module says of addresses and names.

use elf_build::{KeyStart, PlanSite};
use elf_module::ElfFile;
use insn_forms::Form;
use module_image::{Image, Key, KeyClass, Site, SiteKind, wanted_form};
use small_module::{F, Small};
use std::process::Abort;
use std::test::Fail;
use tried_modules::{NO_FUNCTION, Place, call, change, jump, tail};
use x64_subset::Insn;

/// Where the keys stand.
const K: u64 = 0x45_1000;

/// The accepted module of a file.
fn accepted<R: Abort + AllocGlobal>(rt: &R, file: &[u8]) -> Result<Image, Fail> {
    assert!(rt; file.len() < 10_000);
    Ok(Image::accept(rt.alloc(), &ElfFile::read(file)?)?)
}

/// ENDBR64 and a traced NOP after it, a switch, a load, a call and two returns. The key of the switch has two
/// names, and two functions have one name.
fn module<R: Abort + AllocGlobal>(rt: &R) -> Result<Image, Fail> {
    let small = Small {
        text: b"\xf3\x0f\x1e\xfa\x0f\x1fD\0\0f\x90\xb8\x01\0\0\0\xe8\0\0\0\0\xc3\xc3",
        sites: &[
            jump(F + 9, F + 11, 0),
            call(F + 16, 1),
            PlanSite::Trace { at: F + 4 },
        ],
        keys: &[
            (b"k", KeyStart::Count(0)),
            (b"ck", KeyStart::Func(F)),
            (b"also_k", KeyStart::Count(0)),
        ],
        functions: &[
            (b"f", F),
            (b"ftrace_caller", F + 22),
            (b"g", F + 9),
            (b"f", F + 22),
        ],
    };
    let mut bytes = small.file(rt.alloc())?;
    // The value of the last symbol, `also_k`, becomes the address of `k`.
    change(&mut bytes, &[(Place::File(0x170), 0)]);
    accepted(rt, &bytes)
}

/// Asserts what the module says of addresses.
fn says_of_addresses<R: Abort>(rt: &R, image: &Image) {
    let sites = [
        (F, None),
        (F + 4, Some(0)),
        (F + 5, None),
        (F + 9, Some(1)),
        (F + 16, Some(2)),
        (F - 1, None),
        (F + 23, None),
    ];
    for (at, site) in sites {
        assert_eq!(rt; image.site_at(at), site);
    }
    let instructions = [
        (F - 1, None),
        (F, Some((Insn::Endbr64, 4))),
        (F + 4, None),
        (F + 9, None),
        (F + 11, Some((Insn::MovImm(0, 1), 5))),
        (F + 12, None),
        (F + 16, None),
        (F + 21, Some((Insn::Ret, 1))),
        (F + 22, Some((Insn::Ret, 1))),
        (F + 23, None),
    ];
    for (at, instruction) in instructions {
        assert_eq!(rt; image.insn_at(at), instruction);
    }
    // At the function, and after its ENDBR64.
    let traced = [(F, Some(0)), (F + 4, Some(0)), (F + 9, None)];
    for (function, site) in traced {
        assert_eq!(rt; image.trace_site_of(function), site);
    }
}

#[test]
fn addresses_are_looked_up(rt: HostRuntime) -> Result<(), Fail> {
    says_of_addresses(&rt, &module(&rt)?);
    Ok(())
}

/// Asserts what the module says of names.
fn says_of_names<R: Abort>(rt: &R, image: &Image) {
    let keys = [
        Key {
            class: KeyClass::Jump,
            at: K,
            start: 0,
        },
        Key {
            class: KeyClass::Call,
            at: K + 16,
            start: F,
        },
    ];
    assert_eq!(rt; image.keys(), keys.as_slice());
    let names: [(KeyClass, &[u8], Option<u32>); 6] = [
        (KeyClass::Jump, b"k", Some(0)),
        (KeyClass::Jump, b"also_k", Some(0)),
        (KeyClass::Jump, b"ck", None),
        (KeyClass::Call, b"ck", Some(1)),
        (KeyClass::Call, b"k", None),
        (KeyClass::Jump, b"f", None),
    ];
    for (class, name, key) in names {
        assert_eq!(rt; image.key_named(class, name), key);
    }
    let functions: [(&[u8], Option<u64>); 6] = [
        (b"f", Some(F)),
        (b"g", Some(F + 9)),
        (b"fg", None),
        (b"", None),
        (b"k", None),
        (b"ftrace_caller", Some(F + 22)),
    ];
    for (name, function) in functions {
        assert_eq!(rt; image.function_named(name), function);
    }
    assert_eq!(rt; image.tracer(), Some(F + 22));
}

#[test]
fn names_are_looked_up(rt: HostRuntime) -> Result<(), Fail> {
    says_of_names(&rt, &module(&rt)?);
    Ok(())
}

/// Asserts which keys a written module has, and its text after early writing.
fn holds<R: Abort + AllocGlobal>(
    rt: &R,
    small: &Small<'_>,
    keys: &[Key],
    text: &[u8],
) -> Result<(), Fail> {
    let image = accepted(rt, &small.file(rt.alloc())?)?;
    assert_eq!(rt; image.keys(), keys);
    assert_eq!(rt; image.text(), text);
    Ok(())
}

#[test]
fn keys_ascend_and_stand_once(rt: HostRuntime) -> Result<(), Fail> {
    // Two switches of the last key and one of the first, which are enabled, and a tail call of the key between.
    let small = Small {
        text: b"f\x90f\x90f\x90\xc3\xcc\xcc\xcc\xcc",
        sites: &[
            jump(F, F + 2, 2),
            jump(F + 2, F + 4, 0),
            jump(F + 4, F + 6, 2),
            tail(F + 6, 1),
        ],
        keys: &[
            (b"a", KeyStart::Count(7)),
            (b"b", NO_FUNCTION),
            (b"c", KeyStart::Count(8)),
        ],
        functions: &[],
    };
    let first = Key {
        class: KeyClass::Jump,
        at: K,
        start: 7,
    };
    let last = Key {
        at: K + 32,
        start: 8,
        ..first
    };
    let between = Key {
        class: KeyClass::Call,
        at: K + 16,
        start: 0,
    };
    let text = b"\xeb\0\xeb\0\xeb\0\xc3\xcc\xcc\xcc\xcc";
    holds(&rt, &small, &[first, last, between], text)
}

#[test]
fn foreign_sites_are_not_written(rt: HostRuntime) -> Result<(), Fail> {
    let small = Small {
        text: b"\x0f\x1fD\0\0\xb8\x01\0\0\0\xc3",
        sites: &[jump(F, F + 10, 0), call(F + 5, 1)],
        keys: &[(b"k", KeyStart::Count(1)), (b"ck", KeyStart::Func(F + 10))],
        functions: &[],
    };
    let jump = Key {
        class: KeyClass::Jump,
        at: K,
        start: 1,
    };
    let call = Key {
        class: KeyClass::Call,
        at: K + 16,
        start: F + 10,
    };
    let text = b"\xe9\x05\0\0\0\xb8\x01\0\0\0\xc3";
    holds(&rt, &small, &[jump, call], text)
}

/// A switch, whose branch is likely or isn't.
fn switch(likely: bool) -> SiteKind {
    SiteKind::Jump {
        target: F + 16,
        key: 0,
        likely,
    }
}

#[test]
fn sites_want_forms(rt: HostRuntime) {
    let call = SiteKind::Call { key: 0 };
    let tail = SiteKind::Tail { key: 0 };
    let rows: [(SiteKind, u8, u64, bool, Form); 11] = [
        (switch(false), 2, 0, false, Form::Nop2),
        (switch(false), 2, 1, false, Form::Jmp8(F + 16)),
        (switch(false), 5, 2, false, Form::Jmp32(F + 16)),
        (switch(true), 2, 0, false, Form::Jmp8(F + 16)),
        (switch(true), 5, 1, false, Form::Nop5),
        (call, 5, 0, false, Form::Nop5),
        (call, 5, F, false, Form::Call(F)),
        (tail, 5, 0, false, Form::Ret),
        (tail, 5, F, false, Form::Jmp32(F)),
        (SiteKind::Trace, 5, 0, false, Form::Nop5),
        (SiteKind::Trace, 5, 0, true, Form::Call(F + 32)),
    ];
    for (kind, len, state, on, form) in rows {
        let site = Site {
            at: F,
            len,
            kind,
            foreign: false,
        };
        assert_eq!(rt; wanted_form(&site, state, on, F + 32), form, "{kind:?}");
    }
}
