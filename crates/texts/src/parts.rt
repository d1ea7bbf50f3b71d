//! Parts of a text.
ghost use Rattle.std.specs.Prelude.{◌≡◌, ◌<◌};
ghost use Rattle.std.specs.Option.{option_map};
ghost use Rattle.texts.specs.Splits.{split_at};

/// What stands before the first separator in a text, a character of ASCII, and what stands behind it.
pub fn split(text: &str, separator: char) -> Option<(&str, &str)>
    requires { separator < 128 }
    ensures { option_map (λ parts. (parts.0.now, parts.1.now)) result ≡ split_at separator text.now }
{
    text.split_once(separator)
}
