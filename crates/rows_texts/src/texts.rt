// Bytes as text in a line, and back.
use crate::refused::Refused;
use std::alloc::{AllocError, Global};

/// Appends what stands behind a backslash: `n` is a line feed, and two hexadecimal digits are a byte.
fn put_escaped(to: &mut Vec<u8>, text: &str) -> Result<(), Refused> {
    let (byte, rest) = match text.strip_prefix('n') {
        Some(rest) => (b'\n', rest),
        None => {
            let (digits, rest) = text.split_at_checked(2).ok_or(Refused::Text)?;
            (u8::from_str_radix(digits, 16)?, rest)
        }
    };
    to.push(byte)?;
    Ok(to.extend_from_slice(rest.as_bytes())?)
}

/// The bytes of a text. Behind a backslash stand another, an `n` for a line feed, or two hexadecimal digits of a byte.
pub fn bytes_of(alloc: Global, text: &str) -> Result<Vec<u8>, Refused> {
    let mut bytes = Vec::new(alloc);
    let mut is_plain = true;
    for piece in text.split('\\') {
        if is_plain {
            bytes.extend_from_slice(piece.as_bytes())?;
            is_plain = false;
        } else if piece.is_empty() {
            bytes.push(b'\\')?;
            is_plain = true;
        } else {
            put_escaped(&mut bytes, piece)?;
        }
    }
    Ok(bytes)
}

/// Bytes in a line, so that they are those of the text.
pub fn shown(alloc: Global, bytes: &[u8]) -> Result<String, AllocError> {
    let mut text = String::new(alloc);
    for byte in bytes {
        match *byte {
            b'\n' => text.push_str("\\n")?,
            b'\\' => text.push_str("\\\\")?,
            b' '..=b'~' => text.push(char::from(*byte))?,
            other => text.push_str(&format!(in alloc; "\\{other:02x}")?)?,
        }
    }
    Ok(text)
}

/// A word with its escapes. Two quotation marks are the empty word.
pub fn word_of(alloc: Global, word: &str) -> Result<String, Refused> {
    if word == "\"\"" {
        return Ok(String::new(alloc));
    }
    match String::from_utf8(bytes_of(alloc, word)?) {
        Ok(text) => Ok(text),
        Err(_) => Err(Refused::Text),
    }
}

/// The words of a line.
pub fn words_of(alloc: Global, line: &str) -> Result<Vec<String>, Refused> {
    let mut words = Vec::new(alloc);
    for word in line.split_ascii_whitespace() {
        words.push(word_of(alloc, word)?)?;
    }
    Ok(words)
}

/// A name with a number behind it, and in front as many further copies of the name as there are bytes to that size.
fn numbered(alloc: Global, name: &str, number: u32, size: usize) -> Result<String, AllocError> {
    let digits = format!(in alloc; "{number}")?;
    let mut text = String::from_str(alloc, name)?;
    for _ in name.len().saturating_add(digits.len())..size {
        text.push_str(name)?;
    }
    text.push_str(&digits)?;
    Ok(text)
}

/// The names that a word stands for: `f*3` for `f1`, `f2`, `f3`, and `f*3*4` for `fff1`, `fff2`, `fff3`, of 4 bytes each; each other word for
/// itself.
pub fn names_of(alloc: Global, word: &str) -> Result<Vec<String>, Refused> {
    let mut names = Vec::new(alloc);
    match word.split_once('*') {
        Some((name, numbers)) => {
            let (count, size) = numbers.split_once('*').unwrap_or((numbers, "0"));
            let size = size.parse::<usize>()?;
            for number in 1..=count.parse::<u32>()? {
                names.push(numbered(alloc, name, number, size)?)?;
            }
        }
        None => names.push(word_of(alloc, word)?)?,
    }
    Ok(names)
}
