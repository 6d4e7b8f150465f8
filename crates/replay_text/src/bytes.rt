// Bytes as lower-case hexadecimal digits.
ghost use Rattle.std.specs.Prelude.{◌≡◌, ◌<◌, length, option_map, IfSome};
ghost use Rattle.spec_traces.specs.Reading.{digit_of, byte_of, front_byte, digits_as_bytes, some_bytes, bytes_of};
ghost use Rattle.replay_text.specs.Given.{Gives};

use crate::unread::Unread;
use spec_traces::spec_hosts::wasm_form::List;
use std::alloc::Global;

/// The number of a digit.
fn digit(c: u8) -> Option<u8>
    ensures is { result ≡ digit_of c }
    ensures low { IfSome result (λ n. n < 16) }
{
    match c {
        b'0'..=b'9' => Some(c - b'0'),
        b'a'..=b'f' => Some(c - b'a' + 10),
        _ => None,
    }
}

/// The byte of two digits.
pub(crate) fn byte(high: u8, low: u8) -> Option<u8>
    ensures { result ≡ byte_of high low }
{
    let high = digit(high)?;
    let low = digit(low)?;
    Some(high * 16 + low)
}

/// The byte of the two digits at the front of a word, and what stands behind them.
fn front_byte(word: &[u8]) -> Option<(u8, &[u8])>
    ensures is { option_map (λ front. (front.0, front.1.now)) result ≡ front_byte word.now }
    ensures shorter { IfSome result (λ front. length front.1.now < length word.now) }
{
    let [high, low, behind @ ..] = word else {
        return None;
    };
    let b = byte(*high, *low)?;
    Some((b, behind))
}

/// The bytes of digits, two each.
fn digits_as_bytes(alloc: Global, word: &[u8]) -> Result<Vec<u8>, Unread>
    ensures { Gives (λ bytes. bytes.items) result (digits_as_bytes word.now) }
{
    let mut bytes = Vec::new(alloc);
    let mut rest = word;
    while !rest.is_empty() {
        match front_byte(rest) {
            Some((b, behind)) => {
                bytes.push(b)?;
                rest = behind;
            }
            None => return Err(Unread::Malformed),
        }
    }
    Ok(bytes)
}

/// The bytes of a word that isn't empty.
fn some_bytes(alloc: Global, word: &[u8]) -> Result<List<u8>, Unread>
    ensures { Gives (λ bytes. bytes) result (some_bytes word.now) }
{
    if word.is_empty() {
        return Err(Unread::Malformed);
    }
    Ok(List::of(digits_as_bytes(alloc, word)?))
}

/// The bytes that a word is: a hyphen is none.
pub(crate) fn bytes_of(alloc: Global, word: &str) -> Result<List<u8>, Unread>
    ensures { Gives (λ bytes. bytes) result (bytes_of word.now) }
{
    if word == "-" {
        return Ok(List::of(Vec::new(alloc)));
    }
    some_bytes(alloc, word.as_bytes())
}
