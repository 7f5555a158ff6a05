//! A text that processors fetch from.
ghost use Rattle.std.specs.Prelude.{◌≡◌, ◌≤◌, ◌<◌, ◌↔◌, ℕ, IsTrue, Some, length, slice_get};
ghost use Rattle.std.specs.List.{Contains};
ghost use Rattle.stale_fetch.specs.Past.{Past, candidates, with_write, with_serialised};
ghost use Rattle.stale_fetch.specs.Text.{Shape, Covers, HasRoom, Agrees};

use insn_forms::Held;

/// A text from which processors fetch, each by its number.
///
/// A processor may fetch any of the values that a byte has had since it last serialised: these are
/// its candidates, in the order in which the byte first had them. There is always at least one, since
/// the byte that the text holds now is among them. An interpreter fetches through `count` and
/// `candidate`, a replay asks `allows`, and whoever patches the text calls `fits` before `write`.
pub trait Text: Held {
    /// Where the text lies, how many processors fetch from it, and which writes it takes. No call changes it.
    ghost shape: { Self → Shape };

    /// The text stands for this past. More than one past may fit.
    ghost stands: { Self → Past → Type 0 };

    /// There is room for a write of this byte at this address.
    ghost can_write: { Self → ℕ → ℕ → Type 0 };

    /// Whether there is room for a write of a byte at an address inside of the text.
    fn fits(&self, at: u64, byte: u8) -> bool
        requires { Covers (shape self.now) at }
        ensures { IsTrue result ↔ can_write self.now at byte };

    /// Writes a byte at an address inside of the text. There has to be room for it.
    fn write(&mut self, at: u64, byte: u8)
        requires inside { Covers (shape self.old) at }
        requires room { can_write self.old at byte }
        ensures shape { shape self.new ≡ shape self.old }
        ensures stands { (p : Past) → stands self.old p → stands self.new (with_write p at byte) };

    /// Lets a processor serialise: from now on it fetches what the text holds now, or later.
    fn serialise(&mut self, cpu: u8)
        requires { cpu < (shape self.old).cpus }
        ensures shape { shape self.new ≡ shape self.old }
        ensures stands { (p : Past) → stands self.old p → stands self.new (with_serialised p cpu) };

    /// How many candidates a processor has at an address inside of the text: 1 to 256.
    fn count(&self, cpu: u8, at: u64) -> u16
        requires known { cpu < (shape self.now).cpus }
        requires inside { Covers (shape self.now) at }
        ensures some { 1 ≤ result }
        ensures most { result ≤ 256 }
        ensures counted { (p : Past) → stands self.now p → result ≡ length (candidates p cpu at) };

    /// The candidate of this number, from 0 on, of a processor at an address inside of the text.
    fn candidate(&self, cpu: u8, at: u64, n: u16) -> u8
        requires known { cpu < (shape self.now).cpus }
        requires inside { Covers (shape self.now) at }
        requires counted { (p : Past) → stands self.now p → n < length (candidates p cpu at) }
        ensures { (p : Past) → stands self.now p → slice_get (candidates p cpu at) n ≡ Some result };

    /// Whether a byte is a candidate of a processor at an address inside of the text.
    fn allows(&self, cpu: u8, at: u64, byte: u8) -> bool
        requires known { cpu < (shape self.now).cpus }
        requires inside { Covers (shape self.now) at }
        ensures { (p : Past) → stands self.now p → (IsTrue result ↔ Contains (candidates p cpu at) byte) };

    /// What a text keeps and holds agrees with what it stands for.
    ghost agrees: { (text : Self) (p : Past) → stands text p → Agrees (shape text) (Self.held_byte text) p };

    /// Which writes there is room for.
    ghost room_is: { (text : Self) (p : Past) (at byte : ℕ) → stands text p → Covers (shape text) at → (can_write text at byte ↔ HasRoom (shape text).limit p at byte) };
}
