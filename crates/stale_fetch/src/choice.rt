//! One or two values of a byte.
ghost use Rattle.std.specs.Prelude.{◌≡◌, ◌≤◌, ◌<◌, ◌↔◌, true, IsTrue, Some, length, slice_get};

/// The values of a byte that a processor may fetch.
#[derive(Clone, Copy)]
pub(crate) enum Choice {
    /// The byte that the text holds.
    One(u8),
    /// Two values, in the order in which the byte had them.
    Two(u8, u8),
}

impl Choice {
    ghost use Rattle.stale_fetch.specs.Gathered.{has};
    ghost use Rattle.stale_fetch.specs.Choice.{listed, takes};

    /// How many values there are.
    pub(crate) fn count(self) -> u16
        ensures counted { result ≡ length (listed self) }
        ensures some { 1 ≤ result }
        ensures most { result ≤ 2 }
    {
        match self {
            Choice::One(_) => 1,
            Choice::Two(_, _) => 2,
        }
    }

    /// The value of this number, from 0 on.
    pub(crate) fn value(self, n: u16) -> u8
        ensures { n < length (listed self) → slice_get (listed self) n ≡ Some result }
    {
        match self {
            Choice::One(byte) => byte,
            Choice::Two(first, second) => { if n == 0 { first } else { second } }
        }
    }

    /// Whether a byte is one of the values.
    pub(crate) fn has(self, byte: u8) -> bool
        ensures { result ≡ has (listed self) byte }
    {
        match self {
            Choice::One(value) => value == byte,
            Choice::Two(first, second) => first == byte || second == byte,
        }
    }

    /// Whether a write of a byte makes no third value.
    pub(crate) fn takes(self, byte: u8) -> bool
        ensures { result ≡ takes self byte }
    {
        match self {
            Choice::One(_) => true,
            Choice::Two(_, _) => self.has(byte),
        }
    }
}
