//! Words as numbers.

ghost use Rattle.std.specs.Prelude.{◌≡◌, ◌≤◌, ◌^◌, ◌<◌, IfSome};
ghost use Rattle.std.specs.List.{list_all};
ghost use Rattle.std.specs.Char.{is_ascii_digit};
ghost use Rattle.command_words.specs.Numbers.{number_within, element_of, are_digits};

use crate::commands::Command;

/// The most digits of a number.
const MOST_DIGITS: usize = 20;

/// Whether all bytes are decimal digits.
fn are_digits(word: &str) -> bool
    ensures { result ≡ are_digits word.now }
{
    word.as_bytes().iter().all(|b| b.is_ascii_digit())
}

/// The number of a word of 1 to 20 decimal digits, from `low` to `high`.
#[tactic(auto, using(crate::proofs::Digits::parsed), unfolding(crate::specs::Numbers::number_within))]
pub(crate) fn number_within(low: u64, high: u64, word: &str) -> Option<u64>
    ensures number { result ≡ number_within low high word.now }
    ensures low { IfSome result (λ n. low ≤ n) }
    ensures high { IfSome result (λ n. n ≤ high) }
{
    if word.is_empty() || word.len() > MOST_DIGITS || !are_digits(word) {
        return None;
    }
    let n = word.parse::<u64>().ok()?;
    if n < low || n > high {
        return None;
    }
    Some(n)
}

/// The number of an element, which is one digit from 0 to 4.
#[tactic(auto, unfolding(crate::specs::Numbers::element_of))]
pub(crate) fn element(word: &str) -> Option<u8>
    ensures element { result ≡ element_of word.now }
    ensures small { IfSome result (λ e. e < 5) }
{
    match word.as_bytes() {
        [digit @ b'0'..=b'4'] => Some(*digit - b'0'),
        _ => None,
    }
}
