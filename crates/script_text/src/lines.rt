//! The lines of a text, one after the other.
ghost use Rattle.std.specs.Prelude.{◌≡◌, ◌<◌, ◌∷◌, [], IfSome, MatchOption, length};
ghost use Rattle.std.specs.List.{position_or_len};
ghost use Rattle.script_text.specs.Lines.{is_line_feed, lines};

/// How many bytes stand before the first line feed.
fn line_len(text: &[u8]) -> usize
    ensures { result ≡ position_or_len is_line_feed text.now }
{
    text.iter()
        .position(|byte| *byte == b'\n')
        .unwrap_or(text.len())
}

/// The first line of a text without the line feed that ends it, and what stands after that. `None`
/// where the text is empty.
pub fn next_line(text: &[u8]) -> Option<(&[u8], &[u8])>
    ensures lines { MatchOption result (lines text.now ≡ []) (λ found. lines text.now ≡ found.0.now ∷ lines found.1.now) }
    ensures shorter { IfSome result (λ found. length found.1.now < length text.now) }
{
    if text.is_empty() {
        return None;
    }
    let (line, end) = text.split_at(line_len(text));
    match end.split_first() {
        Some((_, rest)) => Some((line, rest)),
        None => Some((line, end)),
    }
}
