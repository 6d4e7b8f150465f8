// Bytes by words.
use crate::refused::Refused;
use crate::texts::bytes_of;
use spec_binary::wasm_form::Memory;
use std::alloc::Global;
use wasm_leb::{put_s64, put_u32};

/// Names of bytes, as `i32.const` of an opcode.
#[derive(Drop)]
pub struct Words<'a> {
    named: Vec<(&'a str, Vec<u8>)>,
}

/// Appends bytes behind their number.
pub fn put_sized(alloc: Global, to: &mut Vec<u8>, bytes: &[u8]) -> Result<(), Memory> {
    let Ok(count) = u32::try_from(bytes.len()) else {
        return Err(Memory);
    };
    put_u32(alloc, to, count)?;
    to.extend_from_slice(bytes)?;
    Ok(())
}

/// A word, and how often its bytes come: those behind a star so many times, a text once.
fn repeated(word: &str) -> Result<(&str, usize), Refused> {
    match word.rsplit_once('*') {
        Some((word, count)) if !word.starts_with('\'') => Ok((word, count.parse::<usize>()?)),
        _ => Ok((word, 1)),
    }
}

/// Appends a number in its shortest spelling as LEB128.
fn put_number(alloc: Global, to: &mut Vec<u8>, sign: &str, text: &str) -> Result<(), Refused> {
    if sign == "#" {
        return Ok(put_u32(alloc, to, text.parse::<u32>()?)?);
    }
    Ok(put_s64(alloc, to, text.parse::<i64>()?)?)
}

/// Appends bytes so many times.
fn put_times(alloc: Global, to: &mut Vec<u8>, bytes: &[u8], count: usize) -> Result<(), Memory> {
    match bytes {
        [byte] => to.extend_from_slice(&vec![in alloc; *byte; count]?)?,
        _ => {
            for _ in 0..count {
                to.extend_from_slice(bytes)?;
            }
        }
    }
    Ok(())
}

impl<'a> Words<'a> {
    /// No names.
    pub fn new(alloc: Global) -> Words<'a> {
        Words {
            named: Vec::new(alloc),
        }
    }

    /// Names the bytes of further words.
    pub fn add(&mut self, alloc: Global, line: &'a str) -> Result<(), Refused> {
        let (name, text) = line.split_once(' ').unwrap_or((line, ""));
        let bytes = self.bytes(alloc, text)?;
        self.named.push((name, bytes))?;
        Ok(())
    }

    /// The bytes of the words of a text.
    pub fn bytes(&self, alloc: Global, text: &str) -> Result<Vec<u8>, Refused> {
        let mut bytes = Vec::new(alloc);
        self.put(alloc, &mut bytes, text)?;
        Ok(bytes)
    }

    /// Appends the bytes of a name, or the byte of two hexadecimal digits.
    fn put_named(&self, to: &mut Vec<u8>, word: &str) -> Result<(), Refused> {
        for (name, bytes) in &self.named {
            if *name == word {
                to.extend_from_slice(bytes)?;
                return Ok(());
            }
        }
        match u8::from_str_radix(word, 16) {
            Ok(byte) if word.len() == 2 => Ok(to.push(byte)?),
            _ => Err(Refused::Text),
        }
    }

    /// Appends the bytes of a word.
    fn put_word(&self, alloc: Global, to: &mut Vec<u8>, word: &str) -> Result<(), Refused> {
        match word.split_at_checked(1) {
            Some(("'", text)) => Ok(to.extend_from_slice(&bytes_of(alloc, text)?)?),
            Some((sign, text)) if sign == "=" || sign == "#" => put_number(alloc, to, sign, text),
            _ => self.put_named(to, word),
        }
    }

    /// Appends the bytes of the words of a text.
    pub fn put(&self, alloc: Global, to: &mut Vec<u8>, text: &str) -> Result<(), Refused> {
        for word in text.split_ascii_whitespace() {
            let (word, count) = repeated(word)?;
            let mut bytes = Vec::new(alloc);
            self.put_word(alloc, &mut bytes, word)?;
            put_times(alloc, to, &bytes, count)?;
        }
        Ok(())
    }
}
