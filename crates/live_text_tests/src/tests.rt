//! One thread patches while a processor fetches.
ghost use Rattle.std.specs.Prelude.{◌≡◌, ◌≤◌, ◌<◌, false, length, IfOk};
ghost use Rattle.live_text.specs.Plan.{Stands};
ghost use Rattle.live_text.specs.Own.{IsOwn, HasByte, IsSeated, AreSeated};
ghost use Rattle.live_text_tests.specs.OneSite.{IsOneSite};

use insn_forms::{Change, Form};
use live_text::{CpuSeat, LivePlan, LiveSite, LiveText, PatchSeat, Put};
use poke_base::NoMemory;
use std::alloc::Global;
use std::process::Abort;

/// One site, a no-operation that becomes a jump.
fn one_site(alloc: Global) -> Result<LivePlan, NoMemory>
    ensures { IfOk result IsOneSite }
{
    let mut sites = Vec::new(alloc);
    sites.push(LiveSite {
        at: 0x40_1000,
        start: Form::Nop5,
    })?;
    let mut chunk = Vec::new(alloc);
    chunk.push(Change {
        at: 0x40_1000,
        old: Form::Nop5,
        new: Form::Jmp32(0x40_100e),
    })?;
    let mut chunks = Vec::new(alloc);
    chunks.push(chunk)?;
    Ok(LivePlan { sites, chunks })
}

/// The one seat of a list.
fn lone_seat(text: &LiveText, mut seats: Vec<CpuSeat>) -> CpuSeat
    requires { AreSeated text.now 1 seats.items }
    ensures { IsSeated text.now 0 result }
{
    let Some(seat) = seats.pop() else {
        unreachable!()
    };
    seat
}

/// Puts so often, and has the same answer each time.
fn puts(rt: &impl Abort, text: &LiveText, seat: &mut PatchSeat, times: u8, want: Put)
    requires own { IsOwn text.now seat.old }
    ensures own { IsOwn text.now seat.new }
{
    for _ in 0..times {
        let put = text.put_next(seat);
        assert_eq!(rt; put, want);
    }
}

/// Reads a byte.
fn reads(rt: &impl Abort, text: &LiveText, seat: &mut CpuSeat, j: u8, fresh: bool, want: u8)
    requires own { IsOwn text.now seat.old }
    requires stays { seat.old.view.cpu.left ≡ false }
    requires byte { HasByte text.now.plan 0 j }
    ensures own { IsOwn text.now seat.new }
    ensures stays { seat.new.view.cpu.left ≡ false }
    ensures ack { seat.new.view.cpu.ack ≡ seat.old.view.cpu.ack }
{
    let byte = text.byte(seat, 0, j, fresh);
    assert_eq!(rt; byte, want);
}

/// Loads the number of requests and acknowledges it.
fn takes(rt: &impl Abort, text: &LiveText, seat: &mut CpuSeat, want: u64)
    requires own { IsOwn text.now seat.old }
    requires stays { seat.old.view.cpu.left ≡ false }
    ensures own { IsOwn text.now seat.new }
    ensures stays { seat.new.view.cpu.left ≡ false }
{
    let generation = text.generation(seat);
    assert_eq!(rt; generation, want);
    if text.acked(seat) <= generation {
        text.acknowledge(seat, generation);
    }
}

#[test]
#[tactic(auto, using(crate::proofs::OnePlan::one_stands, crate::proofs::OnePlan::one_byte))]
fn a_site_becomes_a_jump(rt: HostRuntime) -> Result<(), NoMemory> {
    let alloc = rt.alloc();
    let (text, mut patch, seats) = LiveText::new(alloc, one_site(alloc)?, 1)?;
    let mut cpu = lone_seat(&text, seats);
    puts(&rt, &text, &mut patch, 2, Put::Stored);
    puts(&rt, &text, &mut patch, 1, Put::Wait);
    reads(&rt, &text, &mut cpu, 0, true, 0xcc);
    reads(&rt, &text, &mut cpu, 1, true, 0x1f);
    takes(&rt, &text, &mut cpu, 1);
    assert_eq!(rt; text.ack_of(&mut patch, 0), 1);
    puts(&rt, &text, &mut patch, 5, Put::Stored);
    puts(&rt, &text, &mut patch, 1, Put::Wait);
    text.leave(&mut cpu);
    assert_eq!(rt; text.ack_of(&mut patch, 0), u64::MAX);
    puts(&rt, &text, &mut patch, 2, Put::Stored);
    puts(&rt, &text, &mut patch, 1, Put::Finished);
    let bytes = text.finish(patch, Vec::new(alloc));
    assert_eq!(rt; bytes.as_slice(), [0xe9, 0x09, 0x00, 0x00, 0x00].as_slice());
    Ok(())
}

/// What was read before the tails were stored stays cached until a fresh load.
#[tactic(auto, using(crate::proofs::OnePlan::one_byte))]
fn stays_cached(rt: &impl Abort, text: &LiveText, cpu: &mut CpuSeat)
    requires own { IsOwn text.now cpu.old }
    requires stays { cpu.old.view.cpu.left ≡ false }
    requires site { IsOneSite text.now.plan }
    ensures own { IsOwn text.now cpu.new }
    ensures stays { cpu.new.view.cpu.left ≡ false }
{
    reads(rt, text, cpu, 1, false, 0x1f);
    reads(rt, text, cpu, 1, true, 0x09);
    reads(rt, text, cpu, 1, false, 0x09);
    reads(rt, text, cpu, 2, false, 0x44);
}

#[test]
#[tactic(auto, using(crate::proofs::OnePlan::one_stands, crate::proofs::OnePlan::one_byte))]
fn a_stale_byte_stays_cached_until_it_is_acknowledged(rt: HostRuntime) -> Result<(), NoMemory> {
    let alloc = rt.alloc();
    let (text, mut patch, seats) = LiveText::new(alloc, one_site(alloc)?, 1)?;
    let mut cpu = lone_seat(&text, seats);
    puts(&rt, &text, &mut patch, 2, Put::Stored);
    takes(&rt, &text, &mut cpu, 1);
    reads(&rt, &text, &mut cpu, 1, false, 0x1f);
    reads(&rt, &text, &mut cpu, 2, false, 0x44);
    assert_eq!(rt; text.ack_of(&mut patch, 0), 1);
    puts(&rt, &text, &mut patch, 5, Put::Stored);
    stays_cached(&rt, &text, &mut cpu);
    takes(&rt, &text, &mut cpu, 2);
    reads(&rt, &text, &mut cpu, 2, false, 0x00);
    Ok(())
}

/// A patch that ends after so many items leaves these bytes.
#[tactic(auto, using(crate::proofs::OnePlan::one_stands))]
fn ends_after(rt: &impl Abort, alloc: Global, items: u8, want: &[u8]) -> Result<(), NoMemory> {
    let (text, mut patch, seats) = LiveText::new(alloc, one_site(alloc)?, 1)?;
    let mut cpu = lone_seat(&text, seats);
    text.leave(&mut cpu);
    assert_eq!(rt; text.ack_of(&mut patch, 0), u64::MAX);
    puts(rt, &text, &mut patch, items, Put::Stored);
    let bytes = text.finish(patch, Vec::new(alloc));
    assert_eq!(rt; bytes.as_slice(), want);
    Ok(())
}

#[test]
fn a_patch_ends_at_each_place(rt: HostRuntime) -> Result<(), NoMemory> {
    let alloc = rt.alloc();
    ends_after(&rt, alloc, 0, &[0x0f, 0x1f, 0x44, 0x00, 0x00])?;
    ends_after(&rt, alloc, 1, &[0xcc, 0x1f, 0x44, 0x00, 0x00])?;
    ends_after(&rt, alloc, 2, &[0xcc, 0x1f, 0x44, 0x00, 0x00])?;
    ends_after(&rt, alloc, 3, &[0xcc, 0x09, 0x44, 0x00, 0x00])?;
    ends_after(&rt, alloc, 4, &[0xcc, 0x09, 0x00, 0x00, 0x00])?;
    ends_after(&rt, alloc, 5, &[0xcc, 0x09, 0x00, 0x00, 0x00])?;
    ends_after(&rt, alloc, 6, &[0xcc, 0x09, 0x00, 0x00, 0x00])?;
    ends_after(&rt, alloc, 7, &[0xcc, 0x09, 0x00, 0x00, 0x00])?;
    ends_after(&rt, alloc, 8, &[0xe9, 0x09, 0x00, 0x00, 0x00])?;
    ends_after(&rt, alloc, 9, &[0xe9, 0x09, 0x00, 0x00, 0x00])
}
