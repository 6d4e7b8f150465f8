// What is told of a command, and what came of it.
use rows_texts::shown;
use spec_binary::wasm_form::Memory;
use std::alloc::{AllocError, Global};

/// Facts of a command: what each is of, and its bytes. Those of one thing belong together.
#[derive(Drop)]
pub struct Facts<'a> {
    facts: Vec<(&'a str, Vec<u8>)>,
}

/// What may be told of a command, and what is told of it where it isn't named: a star for nothing.
const KEYS: &[(&str, &str)] = &[
    ("status", "0"),
    ("out", ""),
    ("err", ""),
    ("wrote", ""),
    ("order", ""),
    ("has", "*"),
    ("holds", "*"),
    ("keeps", "*"),
    ("end", "*"),
    ("steps", "*"),
    ("answers", "*"),
    ("picks", "*"),
    ("calls", "*"),
];

// What the keys are isn't looked into where they are gone through.
fn keys() -> &'static [(&'static str, &'static str)] {
    KEYS
}

/// Whether a line with this first word tells something of a command.
pub fn is_told(key: &str) -> bool {
    keys().iter().any(|(other, _)| *other == key)
}

/// Appends that one thing came otherwise than it is told, where it did: a star is told of all that may come.
fn put_other(
    alloc: Global,
    key: &str,
    told: &str,
    came: &str,
    to: &mut String,
) -> Result<(), AllocError> {
    if key == "has" || key == "keeps" || told == "*" || told == came {
        return Ok(());
    }
    to.push_str(&format!(in alloc; " {key} told {told} came {came};")?)
}

impl<'a> Facts<'a> {
    /// None.
    pub fn new(alloc: Global) -> Facts<'a> {
        Facts {
            facts: Vec::new(alloc),
        }
    }

    /// Whether there are none.
    pub fn is_empty(&self) -> bool {
        self.facts.is_empty()
    }

    /// Whether something is said of one thing.
    pub fn names(&self, key: &str) -> bool {
        self.facts.iter().any(|(other, _)| *other == key)
    }

    /// Adds a fact.
    pub fn add(&mut self, key: &'a str, bytes: Vec<u8>) -> Result<(), Memory> {
        self.facts.push((key, bytes))?;
        Ok(())
    }

    /// All that is said of one thing, else this.
    fn of(&self, alloc: Global, key: &str, unnamed: &str) -> Result<String, AllocError> {
        let mut all = Vec::new(alloc);
        for (other, bytes) in &self.facts {
            if *other == key {
                all.extend_from_slice(bytes)?;
            }
        }
        if all.is_empty() {
            return String::from_str(alloc, unnamed);
        }
        shown(alloc, &all)
    }

    /// Appends each text that is told by a key to stand in what came and doesn't.
    fn seek(
        &self,
        alloc: Global,
        key: &str,
        came: &str,
        to: &mut String,
    ) -> Result<(), AllocError> {
        for (other, bytes) in &self.facts {
            let text = shown(alloc, bytes)?;
            if *other == key && !came.contains(text.as_str()) {
                to.push_str(&format!(in alloc; " {key} told {text} came {came};")?)?;
            }
        }
        Ok(())
    }

    /// Appends one thing, if it is told, and otherwise than this.
    fn compare_one(
        &self,
        alloc: Global,
        key: &str,
        unnamed: &str,
        came: &str,
        to: &mut String,
    ) -> Result<(), AllocError> {
        let told = self.of(alloc, key, unnamed)?;
        put_other(alloc, key, told.as_str(), came, to)
    }

    /// Appends one thing, if it is told otherwise than it came. Where texts are told to stand in the output or in what was written, nothing else
    /// is told of that.
    fn compare_came(
        &self,
        alloc: Global,
        key: &str,
        unnamed: &str,
        came: &Facts,
        to: &mut String,
    ) -> Result<(), AllocError> {
        let came = came.of(alloc, key, unnamed)?;
        match key {
            "out" if self.names("has") => self.seek(alloc, "has", came.as_str(), to),
            "holds" if self.names("keeps") => self.seek(alloc, "keeps", came.as_str(), to),
            _ => self.compare_one(alloc, key, unnamed, came.as_str(), to),
        }
    }

    /// Appends each thing that is told otherwise than it came.
    pub fn compare(&self, alloc: Global, came: &Facts, to: &mut String) -> Result<(), AllocError> {
        for (key, unnamed) in keys() {
            self.compare_came(alloc, key, unnamed, came, to)?;
        }
        Ok(())
    }
}
