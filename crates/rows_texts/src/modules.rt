// Modules by their parts.
use crate::refused::Refused;
use crate::texts::{bytes_of, names_of, word_of};
use crate::words::{Words, put_sized};
use spec_binary::wasm_form::Memory;
use std::alloc::Global;
use wasm_leb::put_u32;

/// A module: of each part what it is and its text. A later line of a part stands for an earlier one.
#[derive(Drop)]
pub struct Module<'a> {
    pub name: &'a str,
    pub parts: Vec<(&'a str, &'a str)>,
}

/// The parts that are sections, with their numbers, in the order in which they stand in a file.
const SECTIONS: &[(&str, u8)] = &[
    ("types", 1),
    ("imports", 2),
    ("functions", 3),
    ("tables", 4),
    ("memories", 5),
    ("globals", 6),
    ("exports", 7),
    ("start", 8),
    ("elems", 9),
    ("count", 12),
    ("bodies", 10),
    ("datas", 11),
];

// What the parts are isn't looked into where they are gone through.
fn sections() -> &'static [(&'static str, u8)] {
    SECTIONS
}

/// Whether a line with this first word says a part of a module.
pub fn is_part(key: &str) -> bool {
    let is_other = matches!(
        key,
        "memory" | "needed" | "notes" | "record" | "further" | "bytes" | "text" | "first"
    );
    is_other || sections().iter().any(|(part, _)| *part == key)
}

/// Appends a section of these contents, if there are any.
fn put_section(alloc: Global, to: &mut Vec<u8>, id: u8, contents: &[u8]) -> Result<(), Memory> {
    if contents.is_empty() {
        return Ok(());
    }
    to.push(id)?;
    put_sized(alloc, to, contents)
}

/// Appends the imports of the names that a word stands for, behind that of a module, and answers how many these are.
fn put_imports(alloc: Global, words: &Words, to: &mut Vec<u8>, text: &str) -> Result<u32, Refused> {
    let (from, rest) = text.split_once(' ').unwrap_or((text, ""));
    let (name, of) = rest.split_once(' ').unwrap_or((rest, ""));
    let from = word_of(alloc, from)?;
    let mut count = 0u32;
    for name in &names_of(alloc, name)? {
        count = count.saturating_add(1);
        put_sized(alloc, to, from.as_bytes())?;
        put_sized(alloc, to, name.as_bytes())?;
        words.put(alloc, to, of)?;
    }
    Ok(count)
}

/// Appends the exports of the names that a word stands for, and answers how many these are. A last `#` of what they
/// are of stands for the number of each.
fn put_exports(alloc: Global, words: &Words, to: &mut Vec<u8>, text: &str) -> Result<u32, Refused> {
    let (name, of) = text.split_once(' ').unwrap_or((text, ""));
    let mut count = 0u32;
    for name in &names_of(alloc, name)? {
        count = count.saturating_add(1);
        put_sized(alloc, to, name.as_bytes())?;
        match of.strip_suffix(" #") {
            Some(kind) => {
                words.put(alloc, to, kind)?;
                put_u32(alloc, to, count)?;
            }
            None => words.put(alloc, to, of)?,
        }
    }
    Ok(count)
}

/// Appends the names of a word, and answers how many these are.
fn put_names(alloc: Global, to: &mut Vec<u8>, word: &str) -> Result<u32, Refused> {
    let mut count = 0u32;
    for name in &names_of(alloc, word)? {
        count = count.saturating_add(1);
        put_sized(alloc, to, name.as_bytes())?;
    }
    Ok(count)
}

/// Appends a body behind its size.
fn put_body(alloc: Global, words: &Words, to: &mut Vec<u8>, text: &str) -> Result<(), Refused> {
    let body = words.bytes(alloc, text)?;
    Ok(put_sized(alloc, to, &body)?)
}

/// Appends the items of a text of a list, and answers how many these are.
fn put_items(
    alloc: Global,
    words: &Words,
    to: &mut Vec<u8>,
    key: &str,
    text: &str,
) -> Result<u32, Refused> {
    match key {
        "exports" => return put_exports(alloc, words, to, text),
        "needed" => return put_names(alloc, to, text),
        "imports" => return put_imports(alloc, words, to, text),
        _ => put_body(alloc, words, to, text)?,
    }
    Ok(1)
}

/// The contents of a section with a list of items, behind their number.
fn list_of(
    alloc: Global,
    words: &Words,
    key: &str,
    text: &str,
    between: &str,
) -> Result<Vec<u8>, Refused> {
    let mut items = Vec::new(alloc);
    let mut count = 0u32;
    for item in text.split(between) {
        count = count.saturating_add(put_items(alloc, words, &mut items, key, item)?);
    }
    let mut contents = Vec::new(alloc);
    put_u32(alloc, &mut contents, count)?;
    contents.extend_from_slice(&items)?;
    Ok(contents)
}

impl<'a> Module<'a> {
    /// The text of a part. Where there is none, the memory information is four zeros, and others are empty.
    fn part(&self, key: &str) -> &'a str {
        let mut found = if key == "memory" { "00 00 00 00" } else { "" };
        for (part, text) in &self.parts {
            if *part == key {
                found = text;
            }
        }
        found
    }

    /// The contents of the section of a part, empty where there is no text.
    fn contents(&self, alloc: Global, words: &Words, key: &str) -> Result<Vec<u8>, Refused> {
        let text = self.part(key);
        match key {
            _ if text.is_empty() => Ok(Vec::new(alloc)),
            "imports" | "exports" | "bodies" => list_of(alloc, words, key, text, ", "),
            "needed" => list_of(alloc, words, key, text, " "),
            "text" => bytes_of(alloc, text),
            _ => words.bytes(alloc, text),
        }
    }

    /// Appends the `dylink.0` section, unless the module is to have none.
    fn put_record(&self, alloc: Global, words: &Words, to: &mut Vec<u8>) -> Result<(), Refused> {
        if self.part("record") == "none" {
            return Ok(());
        }
        let mut record = Vec::new(alloc);
        put_sized(alloc, &mut record, b"dylink.0")?;
        put_section(
            alloc,
            &mut record,
            1,
            &self.contents(alloc, words, "memory")?,
        )?;
        put_section(
            alloc,
            &mut record,
            2,
            &self.contents(alloc, words, "needed")?,
        )?;
        words.put(alloc, &mut record, self.part("notes"))?;
        Ok(put_section(alloc, to, 0, &record)?)
    }

    /// Appends all sections.
    fn put_sections(&self, alloc: Global, words: &Words, to: &mut Vec<u8>) -> Result<(), Refused> {
        to.extend_from_slice(b"\0asm\x01\0\0\0")?;
        self.put_record(alloc, words, to)?;
        for (key, id) in sections() {
            put_section(alloc, to, *id, &self.contents(alloc, words, key)?)?;
        }
        words.put(alloc, to, self.part("further"))
    }

    /// The bytes of the module, of which a part may say how many are left.
    pub fn bytes(&self, alloc: Global, words: &Words) -> Result<Vec<u8>, Refused> {
        let mut bytes = self.contents(alloc, words, "bytes")?;
        if bytes.is_empty() {
            bytes = self.contents(alloc, words, "text")?;
        }
        if bytes.is_empty() {
            self.put_sections(alloc, words, &mut bytes)?;
        }
        let first = self.part("first");
        if !first.is_empty() {
            bytes.truncate(first.parse::<usize>()?);
        }
        Ok(bytes)
    }
}
