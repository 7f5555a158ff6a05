//! Texts that are written while processors fetch from them.
ghost use Rattle.std.specs.Prelude.{◌≡◌, ◌≤◌, ◌<◌, ◌^◌, ◌+◌, ℕ, IsTrue, length};
ghost use Rattle.std.specs.List.{Contains};
ghost use Rattle.stale_fetch.specs.Past.{Past, candidates, with_write, held_in};
ghost use Rattle.stale_fetch.specs.Text.{Covers, HasRoom};

use insn_forms::Held;
use stale_fetch::{LogText, Text, WindowText};
use std::process::Abort;

/// A no-operation, `mov eax, 1`, `out 0x10, al`, `ret`, `int3`, `mov eax, 2`, `out 0x10, al`, `ret`.
const CODE: [u8; 22] = [
    0x0f, 0x1f, 0x44, 0x00, 0x00, 0xb8, 0x01, 0x00, 0x00, 0x00, 0xe6, 0x10, 0xc3, 0xcc, 0xb8, 0x02,
    0x00, 0x00, 0x00, 0xe6, 0x10, 0xc3,
];

/// The byte that a processor fetches if it always fetches the candidate of this number, or the last one.
fn fetch<T: Text>(text: &T, cpu: u8, at: u64, n: u16) -> u8
    requires known { cpu < (T.shape text.now).cpus }
    requires inside { Covers (T.shape text.now) at }
    ensures { (p : Past) → T.stands text.now p → Contains (candidates p cpu at) result }
{
    let count = text.count(cpu, at);
    text.candidate(cpu, at, if n < count { n } else { count - 1 })
}

/// Writes a byte if there is room for it.
fn write_if_it_fits<T: Text>(text: &mut T, at: u64, byte: u8) -> bool
    requires { Covers (T.shape text.old) at }
    ensures shape { T.shape text.new ≡ T.shape text.old }
    ensures written { (p : Past) → IsTrue result → T.stands text.old p → T.stands text.new (with_write p at byte) }
{
    let fits = text.fits(at, byte);
    if fits {
        text.write(at, byte);
    }
    fits
}

/// The byte that is held, as what the text stands for says.
fn held_last<T: Text>(text: &T, at: u64) -> Option<u8>
    ensures { (p : Past) → T.stands text.now p → result ≡ held_in p at }
{
    text.held(at)
}

/// Writes a byte that what the text stands for leaves room for.
fn write_within<T: Text>(text: &mut T, at: u64, byte: u8)
    ghost p: { Past }
    requires stands { T.stands text.old p }
    requires inside { Covers (T.shape text.old) at }
    requires room { HasRoom (T.shape text.old).limit p at byte }
    ensures shape { T.shape text.new ≡ T.shape text.old }
    ensures stands { T.stands text.new (with_write p at byte) }
{
    text.write(at, byte);
}

/// Checks the candidates of a processor at an address.
fn has_candidates<T: Text>(rt: &impl Abort, text: &T, cpu: u8, at: u64, values: &[u8])
    requires known { cpu < (T.shape text.now).cpus }
    requires inside { Covers (T.shape text.now) at }
{
    let count = text.count(cpu, at);
    assert_eq!(rt; usize::from(count), values.len());
    for n in 0..count {
        let candidate = text.candidate(cpu, at, n);
        assert_eq!(rt; values.get(usize::from(n)).copied(), Some(candidate));
        assert!(rt; text.allows(cpu, at, candidate));
    }
}

/// One processor serialises after a byte became a breakpoint, the other doesn't.
fn serialises<T: Text>(rt: &impl Abort, text: &mut T)
    requires known { 2 ≤ (T.shape text.old).cpus }
    requires inside { Covers (T.shape text.old) 0x401000 }
    ensures { T.shape text.new ≡ T.shape text.old }
{
    has_candidates(rt, text, 0, 0x40_1000, &[0x0f]);
    let wrote = write_if_it_fits(text, 0x40_1000, 0xcc);
    assert!(rt; wrote);
    has_candidates(rt, text, 0, 0x40_1000, &[0x0f, 0xcc]);
    has_candidates(rt, text, 1, 0x40_1000, &[0x0f, 0xcc]);
    assert_eq!(rt; fetch(text, 1, 0x40_1000, 0), 0x0f);
    assert_eq!(rt; fetch(text, 1, 0x40_1000, 9), 0xcc);
    text.serialise(0);
    has_candidates(rt, text, 0, 0x40_1000, &[0xcc]);
    has_candidates(rt, text, 1, 0x40_1000, &[0x0f, 0xcc]);
    assert!(rt; !text.allows(0, 0x40_1000, 0x0f));
    assert_eq!(rt; text.held(0x40_1000), Some(0xcc));
}

/// A byte that comes back is held, and was a candidate already.
fn comes_back<T: Text>(rt: &impl Abort, text: &mut T)
    requires known { 1 ≤ (T.shape text.old).cpus }
    requires inside { Covers (T.shape text.old) 0x401001 }
    ensures { T.shape text.new ≡ T.shape text.old }
{
    let wrote = write_if_it_fits(text, 0x40_1001, 0xcc);
    assert!(rt; wrote);
    let wrote = write_if_it_fits(text, 0x40_1001, 0x1f);
    assert!(rt; wrote);
    has_candidates(rt, text, 0, 0x40_1001, &[0x1f, 0xcc]);
    assert_eq!(rt; text.held(0x40_1001), Some(0x1f));
}

/// Outside of the text no byte is held.
fn holds_its_bytes<T: Text>(rt: &impl Abort, text: &T) {
    assert_eq!(rt; text.held(0x40_0fff), None);
    assert_eq!(rt; text.held(0x40_1000), Some(0x0f));
    assert_eq!(rt; text.held(0x40_1015), Some(0xc3));
    assert_eq!(rt; text.held(0x40_1016), None);
    assert_eq!(rt; text.held(0), None);
    assert_eq!(rt; text.held(u64::MAX), None);
}

#[test]
fn keeps_all_writes(rt: HostRuntime) {
    let mut text = LogText::new(rt.alloc(), 0x40_1000, &CODE, 2, 2).expect(&rt, "memory");
    holds_its_bytes(&rt, &text);
    serialises(&rt, &mut text);
    let wrote = write_if_it_fits(&mut text, 0x40_1000, 0xe9);
    assert!(rt; wrote);
    has_candidates(&rt, &text, 0, 0x40_1000, &[0xcc, 0xe9]);
    has_candidates(&rt, &text, 1, 0x40_1000, &[0x0f, 0xcc, 0xe9]);
    for byte in 0..=255 {
        assert!(rt; !text.fits(0x40_1000, byte));
    }
}

#[test]
fn refuses_a_third_candidate(rt: HostRuntime) {
    let mut text = WindowText::new(rt.alloc(), 0x40_1000, &CODE, 2).expect(&rt, "memory");
    holds_its_bytes(&rt, &text);
    serialises(&rt, &mut text);
    assert!(rt; !text.fits(0x40_1000, 0xe9));
    assert!(rt; text.fits(0x40_1000, 0x0f));
    text.serialise(1);
    let wrote = write_if_it_fits(&mut text, 0x40_1000, 0xe9);
    assert!(rt; wrote);
    has_candidates(&rt, &text, 0, 0x40_1000, &[0xcc, 0xe9]);
    has_candidates(&rt, &text, 1, 0x40_1000, &[0xcc, 0xe9]);
    assert_eq!(rt; held_last(&text, 0x40_1000), Some(0xe9));
}

#[test]
fn writes_where_there_is_room(rt: HostRuntime) {
    let mut log = LogText::new(rt.alloc(), 0x40_1000, &CODE, 1, 1).expect(&rt, "memory");
    write_within(&mut log, 0x40_1004, 0x90);
    assert_eq!(rt; held_last(&log, 0x40_1004), Some(0x90));
}

#[test]
fn values_come_back(rt: HostRuntime) {
    let mut log = LogText::new(rt.alloc(), 0x40_1000, &CODE, 1, 9).expect(&rt, "memory");
    comes_back(&rt, &mut log);
    let mut windows = WindowText::new(rt.alloc(), 0x40_1000, &CODE, 1).expect(&rt, "memory");
    comes_back(&rt, &mut windows);
}

/// Compares all answers of two texts for a processor at an address.
fn same_answers<A: Text, B: Text>(rt: &impl Abort, one: &A, other: &B, cpu: u8, at: u64)
    requires known { cpu < (A.shape one.now).cpus }
    requires inside { Covers (A.shape one.now) at }
    requires other_known { cpu < (B.shape other.now).cpus }
    requires other_inside { Covers (B.shape other.now) at }
{
    assert_eq!(rt; one.held(at), other.held(at));
    let count = one.count(cpu, at);
    let other_count = other.count(cpu, at);
    assert_eq!(rt; count, other_count);
    for n in 0..count {
        assert_eq!(rt; one.candidate(cpu, at, n), other.candidate(cpu, at, n));
    }
    for byte in 0..=255 {
        assert_eq!(rt; one.allows(cpu, at, byte), other.allows(cpu, at, byte));
    }
}

/// A write of a byte that both texts take, or else a serialisation.
fn call_both<A: Text, B: Text>(one: &mut A, other: &mut B, cpu: u8, at: u64, byte: u8)
    requires known { cpu < (A.shape one.old).cpus }
    requires inside { Covers (A.shape one.old) at }
    requires other_known { cpu < (B.shape other.old).cpus }
    requires other_inside { Covers (B.shape other.old) at }
    ensures shape { A.shape one.new ≡ A.shape one.old }
    ensures other_shape { B.shape other.new ≡ B.shape other.old }
{
    if one.fits(at, byte) && other.fits(at, byte) {
        one.write(at, byte);
        other.write(at, byte);
    } else {
        one.serialise(cpu);
        other.serialise(cpu);
    }
}

/// Makes one call on both texts, which a number chooses, and compares their answers.
fn step<A: Text, B: Text>(rt: &impl Abort, one: &mut A, other: &mut B, draw: u64)
    requires known { 2 ≤ (A.shape one.old).cpus }
    requires inside { (k : ℕ) → k < 22 → Covers (A.shape one.old) (0x401000 + k) }
    requires other_known { 2 ≤ (B.shape other.old).cpus }
    requires other_inside { (k : ℕ) → k < 22 → Covers (B.shape other.old) (0x401000 + k) }
    ensures shape { A.shape one.new ≡ A.shape one.old }
    ensures other_shape { B.shape other.new ≡ B.shape other.old }
{
    let cpu = u8::from(draw & 1 != 0);
    let at = 0x40_1000 + (draw >> 8) % 3;
    let byte = CODE[((draw >> 16) % 4) as usize];
    call_both(one, other, cpu, at, byte);
    same_answers(rt, one, other, 0, at);
    same_answers(rt, one, other, 1, at);
}

#[test]
fn both_texts_answer_the_same(rt: HostRuntime) {
    let mut log = LogText::new(rt.alloc(), 0x40_1000, &CODE, 2, 300).expect(&rt, "memory");
    let mut windows = WindowText::new(rt.alloc(), 0x40_1000, &CODE, 2).expect(&rt, "memory");
    let mut draw: u64 = 1;
    for _ in 0..300 {
        draw = draw
            .wrapping_mul(6_364_136_223_846_793_005)
            .wrapping_add(1_442_695_040_888_963_407);
        step(&rt, &mut log, &mut windows, draw >> 32);
    }
    // The log had room for all, and not all were made: some were refused by the other text.
    assert!(rt; log.fits(0x40_1000, 0));
}
