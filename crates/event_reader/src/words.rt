//! Words of a line, with a blank between two of them: those of commands and of what a checkpoint says of
//! itself.

ghost use Rattle.std.specs.Prelude.{◌≡◌, ◌≤◌, length, option_map};
ghost use Rattle.std.specs.List.{position_or_len};
ghost use Rattle.event_reader.specs.LineWords.{is_blank, cut};

/// Stands between two words.
pub const BLANK: u8 = b' ';

/// What stands before the first blank and after it, where there is one.
pub fn cut(text: &[u8]) -> Option<(&[u8], &[u8])>
    ensures { option_map (λ parts. (parts.0.now, parts.1.now)) result ≡ cut text.now }
{
    let at = blank_at(text);
    if at < text.len() {
        Some((&text[..at], &text[at + 1..]))
    } else {
        None
    }
}

/// The place of the first blank, or the text's length.
fn blank_at(text: &[u8]) -> usize
    ensures place { result ≡ position_or_len is_blank text.now }
    ensures bound { result ≤ length text.now }
{
    for (i, byte) in text.iter().enumerate() {
        if *byte == BLANK {
            return i;
        }
    }
    text.len()
}
