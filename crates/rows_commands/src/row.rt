// What a row's commands find.
use dyl_outside::MemFiles;
use rows_texts::Refused;
use spec_binary::wasm_form::Memory;
use std::alloc::{AllocError, Global};

/// A file of which each command finds the first bytes alone, and the least and the greatest number of these: for each one it is performed.
#[derive(Clone, Copy)]
pub struct Cut<'a> {
    pub path: &'a str,
    pub least: usize,
    pub most: usize,
}

/// What a command calls, and may be let fail.
#[derive(Clone, Copy)]
pub enum Device {
    Files,
    Input,
    Output,
    Errors,
    Clock,
}

/// A row: what its commands find, and what is told otherwise than it came.
#[derive(Drop)]
pub struct Row<'a> {
    pub name: &'a str,
    pub files: Vec<(String, Vec<u8>)>,
    pub input: Vec<u8>,
    pub clock: Vec<u64>,
    pub random: Vec<u64>,
    pub table: &'a str,
    pub picker: &'a str,
    pub fails: Vec<(Device, u64)>,
    pub cut: Option<Cut<'a>>,
    pub counts_calls: bool,
    pub report: String,
}

/// The device with a name.
fn device_named(name: &str) -> Result<Device, Refused> {
    match name {
        "files" => Ok(Device::Files),
        "input" => Ok(Device::Input),
        "output" => Ok(Device::Output),
        "errors" => Ok(Device::Errors),
        "clock" => Ok(Device::Clock),
        _ => Err(Refused::Text),
    }
}

/// The device and the number of a call that is to fail.
pub fn failing(text: &str) -> Result<(Device, u64), Refused> {
    let (name, call) = text.split_once(' ').unwrap_or((text, ""));
    Ok((device_named(name)?, call.parse::<u64>()?))
}

/// A path, and how many bytes of its file are left at the least and at the most.
pub fn cut_of(text: &str) -> Result<Cut<'_>, Refused> {
    let (path, lengths) = text.split_once(' ').unwrap_or((text, ""));
    let (least, most) = lengths.split_once(' ').unwrap_or((lengths, lengths));
    Ok(Cut {
        path,
        least: least.parse::<usize>()?,
        most: most.parse::<usize>()?,
    })
}

/// The numbers of a text.
pub fn numbers_of(alloc: Global, text: &str) -> Result<Vec<u64>, Refused> {
    let mut numbers = Vec::new(alloc);
    for word in text.split_ascii_whitespace() {
        numbers.push(word.parse::<u64>()?)?;
    }
    Ok(numbers)
}

impl<'a> Row<'a> {
    /// A row of no files and no input, with no host functions, in which nothing fails.
    pub fn new(alloc: Global, name: &'a str) -> Row<'a> {
        Row {
            name,
            files: Vec::new(alloc),
            input: Vec::new(alloc),
            clock: Vec::new(alloc),
            random: Vec::new(alloc),
            table: "",
            picker: "",
            fails: Vec::new(alloc),
            cut: None,
            counts_calls: false,
            report: String::new(alloc),
        }
    }

    /// Reports that something isn't performed, since it stands for nothing, or no memory could be had.
    pub fn refuse(&mut self, alloc: Global, text: &str) -> Result<(), AllocError> {
        let text = format!(in alloc; " {text} not performed;")?;
        self.report.push_str(&text)
    }

    /// Adds the files.
    pub fn put_files(&self, alloc: Global, to: &mut MemFiles) -> Result<(), Memory> {
        for (path, bytes) in &self.files {
            to.add(alloc, path, bytes)?;
        }
        Ok(())
    }

    /// Adds the first bytes of the file at a path in its place.
    pub fn cut_file(&mut self, alloc: Global, path: &str, length: usize) -> Result<(), Memory> {
        let mut found: &[u8] = &[];
        for (other, held) in &self.files {
            if other.as_str() == path {
                found = held;
            }
        }
        let mut bytes = Vec::from_slice(alloc, found)?;
        bytes.truncate(length);
        self.files.push((String::from_str(alloc, path)?, bytes))?;
        Ok(())
    }

    /// The paths at which a command may write something: those of its words, and of all files.
    pub fn paths(&self, alloc: Global, words: &[String]) -> Result<Vec<String>, Memory> {
        let mut paths = Vec::new(alloc);
        for word in words {
            paths.push(word.clone()?)?;
        }
        for (path, _) in &self.files {
            paths.push(path.clone()?)?;
        }
        Ok(paths)
    }

    /// Whether these bytes are new at a path. They stand there from now on.
    pub fn changes(&mut self, alloc: Global, path: &str, bytes: Vec<u8>) -> Result<bool, Memory> {
        let mut is_same = false;
        for (other, held) in &self.files {
            if other.as_str() == path {
                is_same = held.as_slice() == bytes.as_slice();
            }
        }
        if !is_same {
            self.files.push((String::from_str(alloc, path)?, bytes))?;
        }
        Ok(!is_same)
    }
}
