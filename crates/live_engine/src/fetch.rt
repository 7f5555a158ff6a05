//! What a processor's seat does in a turn: a look at the generation, a fetch at a site, and fetching anew.
ghost use Rattle.std.specs.Prelude.{◌≡◌, ◌≢◌, ◌==◌, ◌<◌, ◌%◌, [], ◌∷◌, false, length, Some};
ghost use Rattle.live_text.specs.declared.view.View.{View};
ghost use Rattle.live_text.specs.Own.{IsOwn, byte_number};
ghost use Rattle.live_text.specs.Plan.{Stands};
ghost use Rattle.live_text.specs.Rule.{cached};
ghost use Rattle.live_engine.specs.Fetch.{Fetches, is_fresh};
ghost use Rattle.live_engine.specs.Fetched.{IsFetched};
ghost use Rattle.live_engine.specs.Look.{Begins};
ghost use Rattle.live_engine.specs.Turns.{after_insn, renewed};

use insn_forms::{Form, decode_form};
use live_text::laws::{bytes_go_by_phases, chunks_are_poked};
use live_text::{CpuSeat, LiveText};
use poke_base::CodeBytes;
use x64_subset::Insn;

/// The breakpoint that stands in a site's first byte while its other bytes change.
const INT3: u8 = 0xcc;

/// The instruction RET, which is one byte of the five of its form.
const RET: u8 = 0xc3;

/// What a processor fetched at a site.
#[derive(Clone, Copy, Debug, PartialEq, Eq)]
pub enum Fetched {
    /// A breakpoint.
    Trap,
    /// The whole first instruction of a form.
    Whole(Form),
}

/// Loads the generation where bit 0 of the word is 1, and acknowledges it where it is greater than what was acknowledged
/// last.
pub fn look(text: &LiveText, seat: &mut CpuSeat, word: u64)
    requires own { IsOwn text.now seat.old }
    requires stays { seat.old.view.cpu.left ≡ false }
    ensures own { IsOwn text.now seat.new }
    ensures begins { Begins (word % 2 == 1) seat.old.view seat.new.view }
{
    if word % 2 == 0 {
        return;
    }
    seat.keeps();
    let generation = text.generation(seat);
    if generation > text.acked(seat) {
        text.acknowledge(seat, generation);
    }
}

/// Makes the processor fetch anew: the last acknowledgement is stored again, which empties the cache.
pub fn renew(text: &LiveText, seat: &mut CpuSeat)
    requires own { IsOwn text.now seat.old }
    requires stays { seat.old.view.cpu.left ≡ false }
    ensures own { IsOwn text.now seat.new }
    ensures renewed { seat.new.view ≡ renewed seat.old.view }
{
    seat.keeps();
    let ack = text.acked(seat);
    text.acknowledge(seat, ack);
}

/// Makes the processor fetch anew after SERIALIZE.
pub fn renew_after(insn: Insn, text: &LiveText, seat: &mut CpuSeat)
    requires own { IsOwn text.now seat.old }
    requires stays { seat.old.view.cpu.left ≡ false }
    ensures own { IsOwn text.now seat.new }
    ensures view { seat.new.view ≡ after_insn insn seat.old.view }
{
    if let Insn::Serialize = insn {
        renew(text, seat);
    }
}

/// Whether byte `j` of a fetch is to be loaded even if it is cached: bit 8 + j of the word.
fn is_fresh(word: u64, j: u8) -> bool
    requires { j < 5 }
    ensures { result ≡ is_fresh word j }
{
    (word >> (8 + u32::from(j))) % 2 == 1
}

/// Fetches at a site, from its first byte on, as many bytes as its first instruction has.
pub fn fetch(text: &LiveText, seat: &mut CpuSeat, site: u32, word: u64) -> Fetched
    requires own { IsOwn text.now seat.old }
    requires stays { seat.old.view.cpu.left ≡ false }
    requires stands { Stands text.now.plan }
    requires site { site < length text.now.plan.sites.items }
    ensures own { IsOwn text.now seat.new }
    ensures fetched { IsFetched text.now.plan word site seat.old.view seat.new.view result }
{
    seat.keeps();
    bytes_go_by_phases();
    chunks_are_poked();
    let first = text.byte(seat, site, 0, is_fresh(word, 0));
    seat.keeps();
    match first {
        INT3 => Fetched::Trap,
        RET => Fetched::Whole(Form::Ret),
        _ => Fetched::Whole(fetch_rest(text, seat, site, word, first)),
    }
}

/// Fetches the bytes of a site after its first, and reads the form that they are.
fn fetch_rest(text: &LiveText, seat: &mut CpuSeat, site: u32, word: u64, first: u8) -> Form
    requires own { IsOwn text.now seat.old }
    requires stays { seat.old.view.cpu.left ≡ false }
    requires stands { Stands text.now.plan }
    requires site { site < length text.now.plan.sites.items }
    requires first { cached seat.old.view.cpu (byte_number text.now.plan site 0) ≡ Some first }
    requires no_trap { first ≢ 0xcc }
    requires no_ret { first ≢ 0xc3 }
    ensures own { IsOwn text.now seat.new }
    // With the first byte it is a whole fetch.
    ensures fetched { (before : View) → Fetches (byte_number text.now.plan site 0) word (first ∷ []) before seat.old.view → IsFetched text.now.plan word site before seat.new.view (Fetched.Whole result) }
{
    seat.keeps();
    bytes_go_by_phases();
    chunks_are_poked();
    let there = text.plan().sites[site as usize];
    let mut bytes = CodeBytes::new();
    bytes.push(first);
    for j in 1..there.start.size() {
        seat.keeps();
        let byte = text.byte(seat, site, j, is_fresh(word, j));
        bytes.push(byte);
    }
    seat.keeps();
    match decode_form(there.at, &bytes) {
        Some(form) => form,
        None => unreachable!(),
    }
}
