//! A text to poke, and the events of an update one by one.
ghost use Rattle.std.specs.Prelude.{◌≡◌, ◌<◌, ◌-◌, nat_lt, if◌then◌else◌, None, IsErr, slice_get};

use insn_forms::Held;
use poke_batch::{Batch, Clash, Due};
use std::process::Abort;

/// The bytes of a text from an address on.
#[derive(Drop)]
pub struct Bytes<'a> {
    pub from: u64,
    pub bytes: &'a [u8],
}

impl Held for Bytes<'_> {
    ghost held_byte = { λ text at. if nat_lt at text.from then None else slice_get text.bytes.now (at - text.from) };

    fn held(&self, at: u64) -> Option<u8> {
        if at < self.from {
            return None;
        }
        self.bytes.get((at - self.from) as usize).copied()
    }
}

/// Does the due write, which has to be this one.
pub fn write(rt: &impl Abort, batch: &mut Batch, at: u64, byte: u8)
    ensures { batch.new.cpus ≡ batch.old.cpus }
{
    let due = batch.due();
    assert_eq!(rt; due, Due::Write { at, byte });
    batch.took();
}

/// Requests a synchronisation, which has to be due.
pub fn request(rt: &impl Abort, batch: &mut Batch)
    ensures { batch.new.cpus ≡ batch.old.cpus }
{
    let due = batch.due();
    assert_eq!(rt; due, Due::Request);
    batch.took();
}

/// Acknowledges the request that stands.
pub fn acknowledge(rt: &impl Abort, batch: &mut Batch, cpu: u8)
    requires { cpu < batch.old.cpus }
    ensures { batch.new.cpus ≡ batch.old.cpus }
{
    let due = batch.due();
    assert_eq!(rt; due, Due::Wait);
    let has_acked = batch.has_acked(cpu);
    assert!(rt; !has_acked);
    batch.acked(cpu);
}

/// Does the return, after which nothing is due.
pub fn finish(rt: &impl Abort, batch: &mut Batch) {
    let due = batch.due();
    assert_eq!(rt; due, Due::Return);
    batch.took();
    assert_eq!(rt; batch.due(), Due::Idle);
}

/// Asserts that an update was refused for the clash at this address, with what was found there and what was expected.
pub fn clashes(rt: &impl Abort, opened: Result<(), Clash>, at: u64, found: &[u8], expected: &[u8]) {
    match opened {
        Ok(()) => panic!(rt; "no clash"),
        Err(clash) => {
            assert_eq!(rt; clash.at, at);
            assert_eq!(rt; clash.found.as_slice(), found);
            assert_eq!(rt; clash.expected.as_slice(), expected);
        }
    }
}
