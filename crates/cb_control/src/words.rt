//! The words of a line, and the numbers that they write.

ghost use Rattle.std.specs.Prelude.{◌≡◌, ◌^◌, option_map};
ghost use Rattle.cb_control.specs.Words.{cut_of, number_in};

/// The text before the first space, and the text after it; `None` if there is no space.
pub fn cut(text: &str) -> Option<(&str, &str)>
    ensures { option_map (λ parts. (parts.0.now, parts.1.now)) result ≡ cut_of text.now }
{
    text.split_once(' ')
}

/// A decimal number below 2^16.
pub fn short(word: &str) -> Option<u16>
    ensures { result ≡ number_in (2 ^ 16) word.now }
{
    u16::try_from(number(word)?).ok()
}

/// A decimal number below 2^64: one digit or more and nothing else. Leading zeros are allowed.
pub fn number(word: &str) -> Option<u64>
    ensures { result ≡ number_in (2 ^ 64) word.now }
{
    if word.starts_with('+') {
        return None;
    }
    word.parse().ok()
}
