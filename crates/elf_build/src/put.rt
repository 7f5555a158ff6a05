//! Records of a file: headers, symbols and entries, byte after byte.
ghost use Rattle.std.specs.Prelude.{◌≡◌, ◌≤◌, ◌+◌, ◌%◌, ◌^◌, ◌++◌, length};
ghost use Rattle.arrayvec.specs.ArrayVec.{array_vec_len};
ghost use Rattle.byteorder.specs.Endian.{little_bytes};

use arrayvec::ArrayVec;
use byteorder::{ByteOrder, LittleEndian};

/// A header, a symbol or an entry of a table.
pub type Record = ArrayVec<u8, 64>;

/// Adds bytes.
pub fn put(out: &mut Record, bytes: &[u8])
    requires { array_vec_len out.old + length bytes.now ≤ 64 }
    ensures bytes { out.new.items ≡ out.old.items ++ bytes.now }
    ensures len { array_vec_len out.new ≡ array_vec_len out.old + length bytes.now }
{
    let _ = out.try_extend_from_slice(bytes);
}

/// Adds a number of two bytes, the lowest first.
pub fn put_u16(out: &mut Record, number: u16)
    requires { array_vec_len out.old ≤ 62 }
    ensures bytes { out.new.items ≡ out.old.items ++ little_bytes 2 number }
    ensures len { array_vec_len out.new ≡ array_vec_len out.old + 2 }
{
    let mut bytes = [0; 2];
    LittleEndian::write_u16(&mut bytes, number);
    put(out, &bytes);
}

/// Adds a number of four bytes, the lowest first.
pub fn put_u32(out: &mut Record, number: u32)
    requires { array_vec_len out.old ≤ 60 }
    ensures bytes { out.new.items ≡ out.old.items ++ little_bytes 4 number }
    ensures len { array_vec_len out.new ≡ array_vec_len out.old + 4 }
{
    let mut bytes = [0; 4];
    LittleEndian::write_u32(&mut bytes, number);
    put(out, &bytes);
}

/// Adds a number of eight bytes, the lowest first.
pub fn put_u64(out: &mut Record, number: u64)
    requires { array_vec_len out.old ≤ 56 }
    ensures bytes { out.new.items ≡ out.old.items ++ little_bytes 8 number }
    ensures len { array_vec_len out.new ≡ array_vec_len out.old + 8 }
{
    let mut bytes = [0; 8];
    LittleEndian::write_u64(&mut bytes, number);
    put(out, &bytes);
}
