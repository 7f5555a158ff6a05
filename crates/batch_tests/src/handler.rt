//! Breakpoints of an update of two sites, and the update to its end.
ghost use Rattle.std.specs.Prelude.{◌≡◌, length, None};

use crate::frame::{Bytes, acknowledge, finish, request, write};
use insn_forms::{Change, Changes, Form};
use int3_handler::{Handled, emulate, handle};
use poke_batch::{Batch, Due};
use std::alloc::Global;
use std::process::Abort;
use x64_subset::{FaultKind, Life, Mark, Proc};

/// Where the first site is, and the second.
const FIRST: u64 = 0x40_1000;

const SECOND: u64 = 0x40_1002;

/// Where the sites' jumps lead.
const TARGET: u64 = 0x40_1009;

/// Opens the update of both sites over a text of these ten bytes.
fn open(rt: &impl Abort, alloc: Global, batch: &mut Batch, bytes: &[u8])
    requires idle { batch.old.update ≡ None }
    requires two { batch.old.sites ≡ 2 }
    requires ten { length bytes.now ≡ 10 }
    ensures { batch.new.cpus ≡ batch.old.cpus }
{
    let mut changes = Changes::with_room(alloc, 2).expect(rt, "memory");
    changes.push(Change {
        at: FIRST,
        old: Form::Nop2,
        new: Form::Jmp8(TARGET),
    });
    changes.push(Change {
        at: SECOND,
        old: Form::Jmp32(TARGET),
        new: Form::Nop5,
    });
    let opened = batch.fill(&changes, &Bytes { from: FIRST, bytes });
    assert_eq!(rt; opened, Ok(()));
}

/// Checks what the handler answers to a processor that stands there, and where and how it leaves it.
fn check(rt: &impl Abort, batch: &Batch, ip: u64, answer: Handled, left: u64, life: Life) {
    let mut proc = Proc::start(ip);
    let handled = handle(batch, &mut proc);
    assert_eq!(rt; handled, answer, "{ip:x}");
    assert_eq!(rt; proc.ip, left, "{ip:x}");
    assert_eq!(rt; proc.life, life, "{ip:x}");
}

/// Requests a synchronisation, which both processors acknowledge, the second one first.
fn synchronise(rt: &impl Abort, batch: &mut Batch)
    requires { batch.old.cpus ≡ 2 }
    ensures { batch.new.cpus ≡ 2 }
{
    request(rt, batch);
    acknowledge(rt, batch, 1);
    acknowledge(rt, batch, 0);
}

#[test]
fn two_sites_are_poked_and_their_breakpoints_handled(rt: HostRuntime) {
    let mut batch = Batch::new(rt.alloc(), 2, 2).expect(&rt, "memory");
    let text = [0x66, 0x90, 0xe9, 0x02, 0x00, 0x00, 0x00, 0xff, 0xc0, 0xc3];
    open(&rt, rt.alloc(), &mut batch, &text);

    let nothing = Mark::None;
    let jump = Handled::Emulated {
        at: FIRST,
        form: Form::Jmp8(TARGET),
        mark: nothing,
    };
    let nop = Handled::Emulated {
        at: SECOND,
        form: Form::Nop5,
        mark: nothing,
    };
    check(&rt, &batch, SECOND + 1, nop, SECOND + 5, Life::Running);
    check(&rt, &batch, FIRST + 1, jump, TARGET, Life::Running);
    let fault = Life::Fault(FaultKind::Breakpoint);
    check(&rt, &batch, 0x40_1008, Handled::NotOurs, 0x40_1008, fault);

    write(&rt, &mut batch, FIRST, 0xcc);
    write(&rt, &mut batch, SECOND, 0xcc);
    synchronise(&rt, &mut batch);
    write(&rt, &mut batch, 0x40_1001, 0x07);
    write(&rt, &mut batch, 0x40_1003, 0x1f);
    write(&rt, &mut batch, 0x40_1004, 0x44);
    write(&rt, &mut batch, 0x40_1005, 0x00);
    write(&rt, &mut batch, 0x40_1006, 0x00);
    synchronise(&rt, &mut batch);
    write(&rt, &mut batch, FIRST, 0xeb);
    write(&rt, &mut batch, SECOND, 0x0f);
    synchronise(&rt, &mut batch);
    finish(&rt, &mut batch);
}

#[test]
fn calls_push_the_address_after_them(rt: HostRuntime) {
    let mut proc = Proc::start(0x40_1001);
    let called = emulate(&Form::Call(0x40_2000), 0x40_1000, &mut proc);
    assert_eq!(rt; called, Mark::None);
    assert_eq!(rt; proc.ip, 0x40_2000);
    assert_eq!(rt; proc.depth, 1);
    assert_eq!(rt; proc.stack[0], 0x40_1005);

    let mut full = Proc::start(0x40_1001);
    full.depth = 64;
    let refused = emulate(&Form::Call(0x40_2000), 0x40_1000, &mut full);
    assert_eq!(rt; refused, Mark::Ended);
    assert_eq!(rt; full.life, Life::Fault(FaultKind::Depth));
    assert_eq!(rt; full.ip, 0x40_1001);
}

#[test]
fn a_return_with_no_address_ends(rt: HostRuntime) {
    let mut proc = Proc::start(0x40_1001);
    let returned = emulate(&Form::Ret, 0x40_1000, &mut proc);
    assert_eq!(rt; returned, Mark::Ended);
    assert_eq!(rt; proc.life, Life::Done);
    assert_eq!(rt; proc.ip, 0x40_1001);
}
