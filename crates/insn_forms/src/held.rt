//! The bytes that a text holds.

/// A text of which each byte can be asked for.
pub trait Held {
    ghost use Rattle.std.specs.Prelude.{◌≡◌, ℕ, Option};

    /// The byte that the text holds at an address, or none outside of it.
    ghost held_byte: { Self → ℕ → Option ℕ };

    /// The byte that the text holds now at an address. `None` exactly for an address outside the text.
    fn held(&self, at: u64) -> Option<u8>
        ensures { result ≡ held_byte self.now at };
}
