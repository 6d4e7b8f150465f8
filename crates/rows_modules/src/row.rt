// A row, and what comes of it.
use crate::code::hex;
use crate::{file, module, number, value};
use rows_texts::{Refused, Words};
use std::alloc::{AllocError, Global};

/// A row: its name, what is done, with what, and what is told to come of it.
#[derive(Clone, Copy)]
pub struct Row<'a> {
    name: &'a str,
    verb: &'a str,
    parts: &'a str,
    told: &'a str,
}

// The row of a text, if it is one.
fn parts_of(text: &str) -> Option<Row<'_>> {
    let (name, rest) = text.split_once(": ")?;
    let (_, rest) = rest.split_once('\n')?;
    let (verb, rest) = rest.split_once(' ')?;
    let (parts, rest) = rest.split_once("\n= ")?;
    let (told, _) = rest.split_once("\n\n").unwrap_or((rest, ""));
    Some(Row {
        name,
        verb,
        parts,
        told: told.trim(),
    })
}

/// The row of a text; one that tells nothing where it is none.
pub fn row_of(text: &str) -> Row<'_> {
    let none = Row {
        name: text,
        verb: "",
        parts: "",
        told: "a row",
    };
    parts_of(text).unwrap_or(none)
}

// What comes of bytes.
fn of_bytes(alloc: Global, verb: &str, bytes: &[u8]) -> Result<String, AllocError> {
    match verb {
        "decode" | "encode" | "check" | "heights" | "record" | "values" => {
            module::answer(alloc, verb, bytes)
        }
        _ if verb.starts_with("read_") => number::answer(alloc, verb, bytes),
        _ => value::answer(alloc, verb, bytes),
    }
}

// The bytes of a text, if it stands for some.
fn spelled(alloc: Global, words: &Words, verb: &str) -> Result<Option<Vec<u8>>, AllocError> {
    match words.bytes(alloc, verb) {
        Ok(bytes) => Ok(Some(bytes)),
        Err(Refused::Text) => Ok(None),
        Err(Refused::Memory) => Err(AllocError),
    }
}

// What comes of a part of a row. A verb that stands for bytes is an operator.
fn of_part(alloc: Global, words: &Words, verb: &str, part: &str) -> Result<String, Refused> {
    match spelled(alloc, words, verb)? {
        Some(opcode) => Ok(number::computed(alloc, &opcode, part)?),
        None if verb == "file" => file::answer(alloc, part),
        None if verb == "want" => Ok(module::want(alloc, part)?),
        None if verb.starts_with("put_") => number::written(alloc, verb, part),
        None => Ok(of_bytes(alloc, verb, &words.bytes(alloc, part)?)?),
    }
}

// What comes of a part of a row, or the part, if it isn't performed.
fn of_part_told(
    alloc: Global,
    words: &Words,
    verb: &str,
    part: &str,
) -> Result<String, AllocError> {
    match of_part(alloc, words, verb, part) {
        Ok(said) => Ok(said),
        Err(Refused::Text) => format!(in alloc; "{verb} {part} not performed"),
        Err(Refused::Memory) => Err(AllocError),
    }
}

// What comes of all parts of a row.
fn of_row(alloc: Global, words: &Words, row: &Row) -> Result<String, AllocError> {
    let mut said = String::new(alloc);
    for part in row.parts.split(", ") {
        let one = of_part_told(alloc, words, row.verb, part)?;
        if !said.as_str().is_empty() {
            said.push_str(", ")?;
        }
        said.push_str(one.as_str())?;
    }
    Ok(said)
}

// Whether this is what is told, as a text or as bytes.
fn is_told(alloc: Global, words: &Words, told: &str, came: &str) -> Result<bool, AllocError> {
    if came == told {
        return Ok(true);
    }
    match spelled(alloc, words, told)? {
        Some(bytes) => Ok(hex(alloc, &bytes)?.as_str() == came),
        None => Ok(false),
    }
}

/// Whether a row came as told, and what is printed of it.
pub fn judged(alloc: Global, words: &Words, row: &Row) -> Result<(bool, String), AllocError> {
    let came = of_row(alloc, words, row)?;
    if is_told(alloc, words, row.told, came.as_str())? {
        Ok((true, format!(in alloc; "{}: as told", row.name)?))
    } else {
        let line = format!(in alloc; "{}: told {}, came {came}", row.name, row.told)?;
        Ok((false, line))
    }
}
