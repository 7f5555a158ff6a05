//! Names in a string table, each with an ending zero.
ghost use Rattle.std.specs.Prelude.{◌≡◌, ◌<◌, ◌↔◌, ◌==◌, ℕ};
ghost use Rattle.std.specs.List.{position_or_len};
ghost use Rattle.std.specs.Str.{bytes_eq};
ghost use Rattle.elf_module.specs.Elf.{name_in};
ghost use Rattle.elf_module.specs.Refusals.{HasName};

/// The place after the last zero of a string table, 0 where it has none. A name stands in the
/// table with its ending zero exactly where it begins before that place.
pub(crate) fn names_end(table: &[u8]) -> usize
    ensures { (at : ℕ) → HasName table.now at ↔ (at < result) }
{
    let mut end = table.len();
    while end > 0 {
        if table[end - 1] == 0 {
            return end;
        }
        end -= 1;
    }
    0
}

/// The name that begins at a place of a string table, up to its ending zero.
pub(crate) fn name_at(table: &[u8], at: usize) -> &[u8]
    ensures { result.now ≡ name_in table.now at }
{
    if at >= table.len() {
        return &[];
    }
    let rest = &table[at..];
    &rest[..name_len(rest)]
}

/// Whether the name that begins at a place of a string table is this one. It looks at no more of
/// the table than the name is long, and one byte.
pub(crate) fn is_name_at(table: &[u8], at: usize, name: &[u8]) -> bool
    ensures { result ≡ bytes_eq (name_in table.now at) name.now }
{
    if at >= table.len() {
        return name.is_empty();
    }
    let rest = &table[at..];
    if rest.len() <= name.len() {
        return name_at(rest, 0) == name;
    }
    name_at(&rest[..name.len() + 1], 0) == name
}

/// The number of bytes before the first zero.
fn name_len(bytes: &[u8]) -> usize
    ensures { result ≡ position_or_len (λ byte. byte == 0) bytes.now }
{
    bytes
        .iter()
        .position(|byte| *byte == 0)
        .unwrap_or(bytes.len())
}
