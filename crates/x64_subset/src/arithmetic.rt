//! Results of 32 bits, and what they say of carry and overflow (Intel SDM volume 1, section 3.4.3.1).
ghost use Rattle.std.specs.Prelude.{◌≡◌};
ghost use Rattle.x64_subset.specs.Effect.{sum, difference, bits, extended};

/// A result with what it says of carry and overflow.
#[derive(Clone, Copy)]
pub struct Computed {
    pub value: u32,
    pub carry: bool,
    pub overflow: bool,
}

/// The sum of two numbers, modulo 2^32.
pub fn sum(a: u32, b: u32) -> Computed
    ensures { result ≡ sum a b }
{
    let (value, carry) = a.overflowing_add(b);
    let (_, overflow) = a.cast_signed().overflowing_add(b.cast_signed());
    Computed {
        value,
        carry,
        overflow,
    }
}

/// The difference of two numbers, modulo 2^32. Its carry is a borrow.
pub fn difference(a: u32, b: u32) -> Computed
    ensures { result ≡ difference a b }
{
    let (value, carry) = a.overflowing_sub(b);
    let (_, overflow) = a.cast_signed().overflowing_sub(b.cast_signed());
    Computed {
        value,
        carry,
        overflow,
    }
}

/// A result of bits alone: neither carry nor overflow.
pub fn bits(value: u32) -> Computed
    ensures { result ≡ bits value }
{
    Computed {
        value,
        carry: false,
        overflow: false,
    }
}

/// A byte, read as two's complement, in 32 bits.
pub fn extended(byte: u8) -> u32
    ensures { result ≡ extended byte }
{
    i32::from(byte.cast_signed()).cast_unsigned()
}
