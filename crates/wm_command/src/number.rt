//! The numbers that words spell.
ghost use Rattle.std.specs.Prelude.{◌≡◌, ◌^◌};
ghost use Rattle.std.specs.Char.{is_ascii_digit};
ghost use Rattle.std.specs.List.{list_all};
ghost use Rattle.wm_command.specs.Numbers.{number_below};

/// Whether a word has only decimal digits.
fn is_digits(word: &str) -> bool
    ensures { result ≡ list_all is_ascii_digit word.now }
{
    word.bytes().all(|byte| byte.is_ascii_digit())
}

/// Whether a word can only be a number: it has decimal digits alone.
pub fn is_number(word: &str) -> bool
    ensures { result ≡ list_all is_ascii_digit word.now }
{
    is_digits(word)
}

/// The 64-bit integer that a word spells in decimal digits; they may begin with zeros and have no sign.
pub(crate) fn decimal(word: &str) -> Option<u64>
    ensures { result ≡ number_below (2 ^ 64) word.now }
{
    if !is_digits(word) {
        return None;
    }
    word.parse().ok()
}

/// The same for 32 bits.
pub(crate) fn small_decimal(word: &str) -> Option<u32>
    ensures { result ≡ number_below (2 ^ 32) word.now }
{
    u32::try_from(decimal(word)?).ok()
}
