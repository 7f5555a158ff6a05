//! The values that a byte has had, in the order in which it first had them.
ghost use Rattle.std.specs.Prelude.{◌≡◌, ◌≤◌, [], ◌∷◌, length};
ghost use Rattle.stale_fetch.specs.Gathered.{added};
ghost use Rattle.stale_fetch.specs.ByteSet.{IsByteSet};

use arrayvec::ArrayVec;

/// Bytes, each of them once.
pub(crate) type Values = ArrayVec<u8, 256>;

/// The one value.
pub(crate) fn one_value(byte: u8) -> Values
    ensures one { result.items ≡ byte ∷ [] }
    ensures each_once { IsByteSet result.items }
{
    let mut values = Values::new();
    values.push(byte);
    values
}

/// Adds a value at the end, unless it is there.
pub(crate) fn add_value(values: &mut Values, byte: u8)
    requires { IsByteSet values.old.items }
    ensures added { values.new.items ≡ added values.old.items byte }
    ensures each_once { IsByteSet values.new.items }
{
    if !values.contains(&byte) {
        values.push(byte);
    }
}

/// How many values there are: at most 256.
pub(crate) fn count_values(values: &Values) -> u16
    requires { IsByteSet values.now.items }
    ensures counted { result ≡ length values.now.items }
    ensures most { result ≤ 256 }
{
    values.len() as u16
}
