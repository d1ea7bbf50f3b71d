//! Lines of a text.
ghost use Rattle.std.specs.Prelude.{◌≡◌, ◌<◌, ◌∷◌, [], IfSome, MatchOption, length};
ghost use Rattle.wording.specs.Lines.{lines_of};

const LINE_FEED: u8 = 10;

/// A text at its first line feed, if it has one.
pub fn split_line(text: &[u8]) -> Option<(&[u8], &[u8])>
    ensures lines { MatchOption result (lines_of text.now ≡ text.now ∷ []) (λ parts. lines_of text.now ≡ parts.0.now ∷ lines_of parts.1.now) }
    ensures shorter { IfSome result (λ parts. length parts.1.now < length text.now) }
{
    for (at, byte) in text.iter().enumerate() {
        if *byte == LINE_FEED {
            return Some((&text[..at], &text[at + 1..]));
        }
    }
    None
}
