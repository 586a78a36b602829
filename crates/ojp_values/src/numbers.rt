//! Decimal numbers and durations as texts.

ghost use Rattle.std.specs.Prelude.{◌≡◌, ◌≤◌, ◌<◌, ◌^◌, MatchOption, decimal};
ghost use Rattle.std.specs.List.{list_all};
ghost use Rattle.std.specs.Char.{is_ascii_digit};
ghost use Rattle.ojp_values.specs.Numbers.{Reads, are_digits, duration_text, is_plain, number};

/// The number below 2^32 that the text spells: decimal, without leading zeros; zero is `0`.
pub fn read_number(text: &[u8]) -> Option<u32>
    ensures { Reads (λ n. n < 2 ^ 32) decimal text.now result }
{
    if !is_plain(text) {
        return None;
    }
    read_digits(text, u32::MAX)
}

/// The seconds, below 2^32, of a duration that is spelled `PTnS`.
pub fn read_duration(text: &[u8]) -> Option<u32>
    ensures { Reads (λ n. n < 2 ^ 32) duration_text text.now result }
{
    match text {
        [b'P', b'T', digits @ .., b'S'] => read_number(digits),
        _ => None,
    }
}

/// The number that the bytes write as digits, if it is at most `most`.
pub fn read_digits(text: &[u8], most: u32) -> Option<u32>
    ensures { MatchOption result (most < number text.now) (λ n. (n ≡ number text.now) × (n ≤ most)) }
{
    let most = u64::from(most);
    let mut sum: u64 = 0;
    for digit in text {
        sum = 10 * sum + u64::from(digit.saturating_sub(b'0'));
        if sum > most {
            return None;
        }
    }
    Some(sum as u32)
}

fn all_digits(text: &[u8]) -> bool
    ensures { result ≡ list_all is_ascii_digit text.now }
{
    text.iter().all(|b| b.is_ascii_digit())
}

/// Whether the text is one digit or more.
pub fn are_digits(text: &[u8]) -> bool
    ensures { result ≡ are_digits text.now }
{
    if text.is_empty() {
        return false;
    }
    all_digits(text)
}

/// Whether the text is digits, of which the first of several is not 0.
pub fn is_plain(text: &[u8]) -> bool
    ensures { result ≡ is_plain text.now }
{
    are_digits(text) && (text.len() == 1 || text[0] != b'0')
}
