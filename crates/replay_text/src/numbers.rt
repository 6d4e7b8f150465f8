// Numbers: decimal digits without leading zeros.
ghost use Rattle.std.specs.Prelude.{◌≡◌, ◌<◌, ◌^◌, map, IfOk};
ghost use Rattle.std.specs.Char.{is_ascii_digit};
ghost use Rattle.std.specs.List.{list_all};
ghost use Rattle.spec_traces.specs.Reading.{begins_well, is_number, number_of, number_below, numbers_of};
ghost use Rattle.replay_text.specs.Given.{Gives};

use crate::unread::Unread;
use spec_traces::spec_hosts::wasm_form::List;
use std::alloc::Global;

/// Whether a byte is a decimal digit.
fn is_digit(b: u8) -> bool
    ensures { result ≡ is_ascii_digit b }
{
    b >= b'0' && b <= b'9'
}

/// Whether all bytes are decimal digits.
fn are_digits(word: &[u8]) -> bool
    ensures { result ≡ list_all is_ascii_digit word.now }
{
    word.iter().all(|b| is_digit(*b))
}

/// Whether there is a byte, and the first of several isn't a zero.
fn begins_well(word: &[u8]) -> bool
    ensures { result ≡ begins_well word.now }
{
    match word {
        [] => false,
        [_] => true,
        [b, _, ..] => *b != b'0',
    }
}

/// Whether a word is a number.
fn is_number(word: &str) -> bool
    ensures { result ≡ is_number word.now }
{
    begins_well(word.as_bytes()) && are_digits(word.as_bytes())
}

/// The number that a word is, if it has no more than 64 bits.
fn number(word: &str) -> Option<u64>
    ensures { result ≡ number_of word.now }
{
    if !is_number(word) {
        return None;
    }
    match word.parse::<u64>() {
        Ok(n) => Some(n),
        Err(_) => None,
    }
}

/// The number that a word is, if it is below an end.
pub(crate) fn number_below(word: &str, end: u64) -> Result<u64, Unread>
    ensures reads { Gives (λ n. n) result (number_below end word.now) }
    ensures low { IfOk result (λ n. n < end) }
{
    match number(word) {
        Some(n) if n < end => Ok(n),
        _ => Err(Unread::Malformed),
    }
}

/// The number of 32 bits that a word is.
pub(crate) fn number_of_32_bits(word: &str) -> Result<u32, Unread>
    ensures { Gives (λ n. n) result (number_below (2 ^ 32) word.now) }
{
    let n = number_below(word, 1 << 32)?;
    Ok(n as u32)
}

/// The numbers of 64 bits that words are.
pub(crate) fn numbers(alloc: Global, words: &[&str]) -> Result<List<u64>, Unread>
    ensures { Gives (λ ns. ns) result (numbers_of (map (λ word. word.now) words.now)) }
{
    let mut numbers = Vec::new(alloc);
    for word in words {
        match number(word) {
            Some(n) => numbers.push(n)?,
            None => return Err(Unread::Malformed),
        }
    }
    Ok(List::of(numbers))
}
