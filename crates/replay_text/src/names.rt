// Names: printed bytes stand for themselves, and others as a backslash and two digits.
ghost use Rattle.std.specs.Prelude.{◌≡◌, ◌<◌, length, option_map, IfSome};
ghost use Rattle.dyl_print.specs.Printed.{is_printed};
ghost use Rattle.spec_traces.specs.Reading.{hidden_byte, hidden_front, front_of, unescaped, name_of};
ghost use Rattle.replay_text.specs.Given.{Gives};

use crate::bytes::byte;
use crate::unread::Unread;
use spec_traces::spec_hosts::wasm_form::Text;
use std::alloc::Global;

/// Whether a byte stands for itself.
fn is_printed(b: u8) -> bool
    ensures { result ≡ is_printed b }
{
    b > 0x20 && b < 0x7F && b != b'\\'
}

/// A byte that doesn't stand for itself, by its digits.
fn hidden_byte(high: u8, low: u8) -> Option<u8>
    ensures { result ≡ hidden_byte high low }
{
    let b = byte(high, low)?;
    if is_printed(b) { None } else { Some(b) }
}

/// The byte behind a backslash, and what stands behind its digits.
fn hidden_front(word: &[u8]) -> Option<(u8, &[u8])>
    ensures is { option_map (λ front. (front.0, front.1.now)) result ≡ hidden_front word.now }
    ensures shorter { IfSome result (λ front. length front.1.now < length word.now) }
{
    let [high, low, behind @ ..] = word else {
        return None;
    };
    let b = hidden_byte(*high, *low)?;
    Some((b, behind))
}

/// The byte that the front of a word stands for, and what stands behind it.
fn front(word: &[u8]) -> Option<(u8, &[u8])>
    ensures is { option_map (λ front. (front.0, front.1.now)) result ≡ front_of word.now }
    ensures shorter { IfSome result (λ front. length front.1.now < length word.now) }
{
    let [b, behind @ ..] = word else {
        return None;
    };
    if *b == b'\\' {
        return hidden_front(behind);
    }
    if is_printed(*b) {
        Some((*b, behind))
    } else {
        None
    }
}

/// The bytes that a word stands for.
fn unescaped(alloc: Global, word: &[u8]) -> Result<Vec<u8>, Unread>
    ensures { Gives (λ bytes. bytes.items) result (unescaped word.now) }
{
    let mut bytes = Vec::new(alloc);
    let mut rest = word;
    while !rest.is_empty() {
        match front(rest) {
            Some((b, behind)) => {
                bytes.push(b)?;
                rest = behind;
            }
            None => return Err(Unread::Malformed),
        }
    }
    Ok(bytes)
}

/// The name that a word stands for, which is in UTF-8.
pub(crate) fn name_of(alloc: Global, word: &str) -> Result<Text, Unread>
    ensures { Gives (λ name. name) result (name_of word.now) }
{
    let bytes = unescaped(alloc, word.as_bytes())?;
    match String::from_utf8(bytes) {
        Ok(name) => Ok(Text::of(name)),
        Err(_) => Err(Unread::Malformed),
    }
}
