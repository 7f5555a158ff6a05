//! A bounded line of text, and what is put into it.
ghost use Rattle.std.specs.Prelude.{◌≡◌, ◌≤◌, ◌+◌, ◌*◌, ◌++◌, ◌∷◌, [], ◌<◌, Some, codes, length, slice_index};
ghost use Rattle.arrayvec.specs.ArrayVec.{array_vec_len};
ghost use Rattle.hex.specs.Hex.{encode_lower};
ghost use Rattle.poke_base.specs.Number.{spelling, hexadecimal, decimal, hex_number, dec_number};

use arrayvec::ArrayVec;

/// One line of output: at most 96 bytes.
pub type Line = ArrayVec<u8, 96>;

/// The bytes of one instruction: at most 9.
pub type CodeBytes = ArrayVec<u8, 9>;

/// The bytes of an instruction: the first, and those after it.
pub fn code_bytes(first: u8, rest: &[u8]) -> CodeBytes
    requires { length rest.now ≤ 8 }
    ensures { result.items ≡ first ∷ rest.now }
{
    let mut code = CodeBytes::new();
    code.push(first);
    let _ = code.try_extend_from_slice(rest);
    code
}

/// Adds a text to the line, which has to have room for it.
pub fn put_text(line: &mut Line, text: &[u8])
    requires { array_vec_len line.old + length text.now ≤ 96 }
    ensures { line.new.items ≡ line.old.items ++ text.now }
{
    let _ = line.try_extend_from_slice(text);
}

/// Adds each byte as two hexadecimal digits in lower case. The line has to have room for them.
pub fn put_bytes(line: &mut Line, bytes: &[u8])
    requires { array_vec_len line.old + 2 * length bytes.now ≤ 96 }
    ensures { line.new.items ≡ line.old.items ++ encode_lower bytes.now }
{
    let mut buffer = [0; 96];
    let digits = &mut buffer[..2 * bytes.len()];
    // It fits: `digits` is twice as long as `bytes`.
    let _ = hex::encode_to_slice(bytes, digits);
    put_text(line, digits);
}

/// Adds the digit of a value below 16. The line has to have room for it.
fn put_digit(line: &mut Line, value: u64)
    requires digit { value < 16 }
    requires room { array_vec_len line.old < 96 }
    ensures { line.new.items ≡ line.old.items ++ slice_index (codes "0123456789abcdef") value ∷ [] }
{
    const DIGITS: &[u8; 16] = b"0123456789abcdef";
    line.push(DIGITS[value as usize]);
}

/// Adds a number's digits in a base from 2 to 16. The line has to have room for them.
fn put_digits(line: &mut Line, base: u64, n: u64)
    requires least { 2 ≤ base }
    requires most { base ≤ 16 }
    requires room { array_vec_len line.old + length (spelling base n) ≤ 96 }
    ensures { line.new.items ≡ line.old.items ++ spelling base n }
{
    if n < base {
        put_digit(line, n);
    } else {
        put_digits(line, base, n / base);
        put_digit(line, n % base);
    }
}

/// Adds a number in hexadecimal, in lower case, without a prefix and without leading zeros. The
/// line has to have room for it; `read_hex` reads it back.
pub fn put_hex(line: &mut Line, n: u64)
    requires { array_vec_len line.old + length (hexadecimal n) ≤ 96 }
    ensures added { line.new.items ≡ line.old.items ++ hexadecimal n }
    ensures short { length (hexadecimal n) ≤ 16 }
    ensures reads_back { hex_number (hexadecimal n) ≡ Some n }
{
    put_digits(line, 16, n);
}

/// Adds a number in decimal, without leading zeros. The line has to have room for it; `read_dec`
/// reads it back.
pub fn put_dec(line: &mut Line, n: u64)
    requires { array_vec_len line.old + length (decimal n) ≤ 96 }
    ensures added { line.new.items ≡ line.old.items ++ decimal n }
    ensures short { length (decimal n) ≤ 20 }
    ensures reads_back { dec_number (decimal n) ≡ Some n }
{
    put_digits(line, 10, n);
}
