//! Numbers in decimal, within bounds.
ghost use Rattle.std.specs.Prelude.{◌≡◌, ◌≤◌, IfSome};
ghost use Rattle.ojp_zones.specs.Numbers.{is_hour, is_number, is_pair, number_if};

use ojp_values::{are_digits, is_plain, read_digits};

/// The number from `low` to `high`, if the text is one without leading zeros.
#[tactic(auto, unfolding(crate::specs::Numbers::is_number))]
pub fn read_number(text: &[u8], low: u32, high: u32) -> Option<u32>
    ensures value { result ≡ number_if (is_number low high text.now) text.now }
    ensures within { IfSome result (λ n. (low ≤ n) × (n ≤ high)) }
{
    if !is_plain(text) {
        return None;
    }
    let number = read_digits(text, high)?;
    if number < low {
        return None;
    }
    Some(number)
}

/// The number of two digits, if the text is one up to `most`.
#[tactic(auto, unfolding(crate::specs::Numbers::is_pair))]
pub fn read_pair(text: &[u8], most: u32) -> Option<u32>
    requires { most ≤ 1_000_000 }
    ensures value { result ≡ number_if (is_pair most text.now) text.now }
    ensures within { IfSome result (λ n. n ≤ most) }
{
    if text.len() != 2 {
        return None;
    }
    if !are_digits(text) {
        return None;
    }
    read_digits(text, most)
}

/// The number of one digit or two, if the text is one up to `most`.
#[tactic(auto, unfolding(crate::specs::Numbers::is_hour))]
pub fn read_hour(text: &[u8], most: u32) -> Option<u32>
    requires { most ≤ 1_000_000 }
    ensures value { result ≡ number_if (is_hour most text.now) text.now }
    ensures within { IfSome result (λ n. n ≤ most) }
{
    if text.len() > 2 {
        return None;
    }
    if !are_digits(text) {
        return None;
    }
    read_digits(text, most)
}
