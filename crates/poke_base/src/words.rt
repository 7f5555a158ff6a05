//! The words of a line, one after the other.
ghost use Rattle.std.specs.Prelude.{◌≡◌, ◌≤◌, ◌<◌, ◌+◌, ◌∷◌, [], IfSome, MatchOption, length, not};
ghost use Rattle.std.specs.List.{position_or_len};
ghost use Rattle.poke_base.specs.Text.{is_blank, words};

/// Whether the byte separates words.
fn is_blank(byte: u8) -> bool
    ensures { result ≡ is_blank byte }
{
    byte == b' ' || byte == b'\t' || byte == b'\r'
}

/// How many blanks the line begins with.
fn blanks_len(line: &[u8]) -> usize
    ensures { result ≡ position_or_len (λ byte. not (is_blank byte)) line.now }
{
    line.iter()
        .position(|byte| !is_blank(*byte))
        .unwrap_or(line.len())
}

/// How many bytes stand before the first blank.
fn word_len(text: &[u8]) -> usize
    ensures { result ≡ position_or_len is_blank text.now }
{
    text.iter()
        .position(|byte| is_blank(*byte))
        .unwrap_or(text.len())
}

/// The first word of a line, and what stands after it. Spaces, tabs and carriage returns separate
/// words. `None` where the line has no word.
pub fn next_word(line: &[u8]) -> Option<(&[u8], &[u8])>
    ensures words { MatchOption result (words line.now ≡ []) (λ found. words line.now ≡ found.0.now ∷ words found.1.now) }
    ensures within { IfSome result (λ found. length found.0.now + length found.1.now ≤ length line.now) }
    ensures some { IfSome result (λ found. 0 < length found.0.now) }
{
    let (_, text) = line.split_at(blanks_len(line));
    if text.is_empty() {
        return None;
    }
    Some(text.split_at(word_len(text)))
}
