//! Updates of 300 sites, which are two chunks, on 16 processors.
ghost use Rattle.std.specs.Prelude.{◌≡◌, ◌<◌, ◌-◌, ◌%◌, ◌^◌, ◌==◌, nat_lt, if◌then◌else◌, None, Some, OnErr};

use crate::frame::{acknowledge, clashes, finish, request, write};
use insn_forms::{Change, Changes, Form, Held};
use poke_batch::{Batch, Clash, Due};
use std::alloc::Global;
use std::process::Abort;

/// The address of the first site. Each site begins where the one before it ends.
const FIRST: u64 = 0x40_1000;

/// How many sites there are.
const SITES: u32 = 300;

/// How many processors there are.
const CPUS: u8 = 16;

/// The returns that the sites hold, where those from a place of the text on have another first byte.
#[derive(Drop)]
struct Returns {
    wrong_from: u64,
}

impl Held for Returns {
    ghost held_byte = { λ text at. if nat_lt at 0x401000 then None else if nat_lt (at - 0x401000) 1500 then Some (if (at - 0x401000) % 5 == 0 then (if nat_lt (at - 0x401000) text.wrong_from then 0xc3 else 0x90) else 0xcc) else None };

    fn held(&self, at: u64) -> Option<u8> {
        if at < FIRST {
            return None;
        }
        let place = at - FIRST;
        if place < 1500 {
            Some(return_byte(place, self.wrong_from))
        } else {
            None
        }
    }
}

/// The byte at a place of the text.
fn return_byte(place: u64, wrong_from: u64) -> u8
    ensures { result ≡ (if place % 5 == 0 then (if nat_lt place wrong_from then 0xc3 else 0x90) else 0xcc) }
{
    if place % 5 == 0 {
        if place < wrong_from { 0xc3 } else { 0x90 }
    } else {
        0xcc
    }
}

/// The address of a site.
fn address(site: u32) -> u64
    ensures { result < 2 ^ 40 }
{
    FIRST + 5 * u64::from(site)
}

/// Opens the update of all sites from a return to a no-operation.
fn open(rt: &impl Abort, alloc: Global, batch: &mut Batch, wrong_from: u64) -> Result<(), Clash>
    requires idle { batch.old.update ≡ None }
    requires room { batch.old.sites ≡ 300 }
    ensures cpus { batch.new.cpus ≡ batch.old.cpus }
    ensures sites { batch.new.sites ≡ batch.old.sites }
    ensures refused { OnErr result (batch.new.update ≡ None) }
{
    let mut changes = Changes::with_room(alloc, SITES).expect(rt, "memory");
    for site in 0..SITES {
        changes.push(Change {
            at: FIRST + 5 * u64::from(site),
            old: Form::Ret,
            new: Form::Nop5,
        });
    }
    batch.fill(&changes, &Returns { wrong_from })
}

/// Requests a synchronisation, which all processors acknowledge.
fn synchronise(rt: &impl Abort, batch: &mut Batch)
    requires { batch.old.cpus ≡ 16 }
    ensures { batch.new.cpus ≡ 16 }
{
    request(rt, batch);
    for cpu in 0..CPUS {
        acknowledge(rt, batch, cpu);
    }
}

/// Does the poke of the chunk of these sites, which has to be due, and sees that they alone are found.
fn poke(rt: &impl Abort, batch: &mut Batch, from: u32, to: u32)
    requires { batch.old.cpus ≡ 16 }
    ensures { batch.new.cpus ≡ 16 }
{
    find(rt, batch, from, to);
    'traps: for site in from..to {
        write(rt, batch, address(site), 0xcc);
    }
    synchronise(rt, batch);
    'tails: for site in from..to {
        let at = address(site);
        write(rt, batch, at + 1, 0x1f);
        write(rt, batch, at + 2, 0x44);
        write(rt, batch, at + 3, 0x00);
        write(rt, batch, at + 4, 0x00);
    }
    synchronise(rt, batch);
    'firsts: for site in from..to {
        write(rt, batch, address(site), 0x0f);
    }
    find(rt, batch, from, to);
    synchronise(rt, batch);
}

/// Sees that these sites are found, and no others.
fn find(rt: &impl Abort, batch: &Batch, from: u32, to: u32) {
    for site in 0..SITES {
        let found = batch.find(address(site));
        if site < from || to <= site {
            assert_eq!(rt; found, None);
        } else {
            assert_eq!(rt; found, Some((Form::Nop5, 5)));
        }
        assert_eq!(rt; batch.find(address(site) + 1), None);
    }
}

/// Sees that a site clashes, and with it all after it.
fn refuse(rt: &impl Abort, alloc: Global, batch: &mut Batch, site: u32)
    requires idle { batch.old.update ≡ None }
    requires room { batch.old.sites ≡ 300 }
    ensures idle { batch.new.update ≡ None }
    ensures room { batch.new.sites ≡ 300 }
{
    let opened = open(rt, alloc, batch, 5 * u64::from(site));
    let (found, expected) = (
        [0x90, 0xcc, 0xcc, 0xcc, 0xcc],
        [0xc3, 0xcc, 0xcc, 0xcc, 0xcc],
    );
    clashes(rt, opened, address(site), &found, &expected);
    assert_eq!(rt; batch.due(), Due::Idle);
}

#[test]
fn pokes_two_chunks(rt: HostRuntime) {
    let mut batch = Batch::new(rt.alloc(), SITES, CPUS).expect(&rt, "memory");
    assert_eq!(rt; open(&rt, rt.alloc(), &mut batch, u64::MAX), Ok(()));
    poke(&rt, &mut batch, 0, 256);
    poke(&rt, &mut batch, 256, 300);
    find(&rt, &batch, 256, 300);
    finish(&rt, &mut batch);
    find(&rt, &batch, 300, 300);
}

#[test]
fn counts_what_is_due(rt: HostRuntime) {
    let mut batch = Batch::new(rt.alloc(), SITES, CPUS).expect(&rt, "memory");
    assert_eq!(rt; open(&rt, rt.alloc(), &mut batch, u64::MAX), Ok(()));
    let mut traps = 0_u32;
    let mut tails = 0_u32;
    let mut firsts = 0_u32;
    let mut requests = 0_u32;
    let mut acknowledgements = 0_u32;
    let mut returns = 0_u32;
    'events: for _ in 0..2_000_u32 {
        match batch.due() {
            Due::Idle => {}
            Due::Write { byte, .. } => {
                match byte {
                    0xcc => traps = traps.saturating_add(1),
                    0x0f => firsts = firsts.saturating_add(1),
                    _ => tails = tails.saturating_add(1),
                }
                batch.took();
            }
            Due::Request => {
                requests = requests.saturating_add(1);
                batch.took();
            }
            Due::Wait => {
                acknowledge(&rt, &mut batch, (acknowledgements % 16) as u8);
                acknowledgements = acknowledgements.saturating_add(1);
            }
            Due::Return => {
                returns = returns.saturating_add(1);
                batch.took();
            }
        }
    }
    assert_eq!(rt; (traps, tails, firsts), (300, 1_200, 300));
    assert_eq!(rt; (requests, acknowledgements, returns), (6, 96, 1));
}

#[test]
fn names_the_first_clash(rt: HostRuntime) {
    let mut batch = Batch::new(rt.alloc(), SITES, CPUS).expect(&rt, "memory");
    refuse(&rt, rt.alloc(), &mut batch, 0);
    refuse(&rt, rt.alloc(), &mut batch, 150);
    refuse(&rt, rt.alloc(), &mut batch, 299);
    assert_eq!(rt; open(&rt, rt.alloc(), &mut batch, u64::MAX), Ok(()));
    assert_eq!(rt;
        batch.due(),
        Due::Write {
            at: FIRST,
            byte: 0xcc
        }
    );
}
