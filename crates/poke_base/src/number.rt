//! Reading numbers from words.
ghost use Rattle.std.specs.Prelude.{◌≡◌, ◌≤◌};
ghost use Rattle.poke_base.specs.Number.{dec_number, digits_number, hex_number, with_digit};

/// The value with one digit more at its end, where the byte is a digit of the base and the value
/// stays below 2^64.
fn with_digit(value: u64, base: u32, byte: u8) -> Option<u64>
    requires least { 2 ≤ base }
    requires most { base ≤ 36 }
    ensures { result ≡ with_digit base value byte }
{
    let digit = char::from(byte).to_digit(base)?;
    value
        .checked_mul(u64::from(base))?
        .checked_add(u64::from(digit))
}

/// The number below 2^64 that at least one and at most `most` digits of the base make.
fn read_digits(word: &[u8], base: u32, most: usize) -> Option<u64>
    requires least { 2 ≤ base }
    requires greatest { base ≤ 36 }
    ensures { result ≡ digits_number base most word.now }
{
    if word.is_empty() || word.len() > most {
        return None;
    }
    let mut value = 0;
    for byte in word {
        value = with_digit(value, base, *byte)?;
    }
    Some(value)
}

/// The number that 1 to 16 hexadecimal digits of either case make. `None` for every other word.
pub fn read_hex(word: &[u8]) -> Option<u64>
    ensures { result ≡ hex_number word.now }
{
    read_digits(word, 16, 16)
}

/// The number below 2^64 that 1 to 20 decimal digits make. `None` for every other word.
pub fn read_dec(word: &[u8]) -> Option<u64>
    ensures { result ≡ dec_number word.now }
{
    read_digits(word, 10, 20)
}
