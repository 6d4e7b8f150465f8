// The lines of a text.
use crate::facts::{Facts, is_told};
use crate::lines::note_line;
use crate::orders::note_words;
use crate::pickers::perform;
use crate::row::{Cut, Row, cut_of, failing, numbers_of};
use crate::world::add_generated;
use rows_texts::{Module, Refused, Words, bytes_of, is_part, names_of, words_of};
use std::alloc::{AllocError, Global};

/// How far a text has come: what words stand for, its modules, the row, a command with what is told of it, what is to
/// be printed, how many rows there were and how many weren't as told.
#[derive(Drop)]
pub struct Script<'a> {
    words: Words<'a>,
    modules: Vec<Module<'a>>,
    row: Row<'a>,
    command: Option<(&'a str, &'a str)>,
    told: Facts<'a>,
    pub printed: String,
    rows: u64,
    others: u64,
}

/// Performs a command of a row, and reports what is told of it otherwise than it came.
fn compare(
    alloc: Global,
    key: &str,
    line: &str,
    told: &Facts,
    row: &mut Row,
) -> Result<(), Refused> {
    let words = words_of(alloc, line)?;
    let mut came = Facts::new(alloc);
    row.counts_calls = told.names("calls");
    match key {
        "order" => note_words(alloc, &words, &mut came)?,
        "line" => note_line(alloc, line, &mut came)?,
        _ => perform(alloc, &words, row, &mut came)?,
    }
    Ok(told.compare(alloc, &came, &mut row.report)?)
}

/// What a command makes of a set, which is written as `out.wasm`.
fn compare_made(alloc: Global, command: &str, options: &str, row: &mut Row) -> Result<(), Refused> {
    let made = format!(in alloc; "wdyl {command} {options} main.wasm out.wasm")?;
    let mut written = Facts::new(alloc);
    written.add("wrote", bytes_of(alloc, "out.wasm")?)?;
    compare(alloc, command, &made, &written, row)
}

/// A run of a set, and a run of what a command makes of it, before which no bytes stand at the output's path.
fn compare_both(
    alloc: Global,
    command: &str,
    options: &str,
    told: &Facts,
    row: &mut Row,
) -> Result<(), Refused> {
    let _ = row.changes(alloc, "out.wasm", Vec::new(alloc))?;
    let run = format!(in alloc; "wdyl run {options} main.wasm")?;
    compare(alloc, "run", &run, told, row)?;
    compare_made(alloc, command, options, row)?;
    compare(alloc, "exec", "wdyl exec out.wasm", told, row)
}

/// Performs a command as its first word says.
fn perform_line(
    alloc: Global,
    key: &str,
    text: &str,
    told: &Facts,
    row: &mut Row,
) -> Result<(), Refused> {
    match key {
        "both" => compare_both(alloc, "merge", text, told, row),
        "snapped" => compare_both(alloc, "snap", text, told, row),
        "words" | "line" => compare(alloc, key, text, told, row),
        _ => compare(alloc, key, &format!(in alloc; "wdyl {text}")?, told, row),
    }
}

/// Performs a command for each length to which a file is cut, and reports these where something is told otherwise.
fn perform_cut(
    alloc: Global,
    cut: Cut,
    key: &str,
    text: &str,
    told: &Facts,
    row: &mut Row,
) -> Result<(), Refused> {
    let kept = row.files.len();
    for length in cut.least..=cut.most {
        let reported = row.report.len();
        row.cut_file(alloc, cut.path, length)?;
        perform_line(alloc, key, text, told, row)?;
        row.files.truncate(kept);
        if row.report.len() > reported {
            row.report
                .push_str(&format!(in alloc; " at {length} bytes;")?)?;
        }
    }
    Ok(())
}

/// Adds files: a path, or more of one name, with a module, or a module at the path of its own name.
fn add_files<'a>(
    alloc: Global,
    words: &Words<'a>,
    modules: &[Module<'a>],
    row: &mut Row<'a>,
    word: &str,
) -> Result<(), Refused> {
    let (paths, name) = word.split_once('=').unwrap_or((word, word));
    let mut found = None;
    for other in modules {
        if other.name == name {
            found = Some(other);
        }
    }
    let Some(module) = found else {
        return Err(Refused::Text);
    };
    let bytes = module.bytes(alloc, words)?;
    for path in names_of(alloc, paths)? {
        row.files.push((path, bytes.clone()?))?;
    }
    Ok(())
}

/// Begins a module with the parts of another, if one is named.
fn begin_module<'a>(
    alloc: Global,
    modules: &mut Vec<Module<'a>>,
    text: &'a str,
) -> Result<(), Refused> {
    let (name, like) = text.split_once(" like ").unwrap_or((text, ""));
    let mut parts = Vec::new(alloc);
    for other in modules.iter() {
        if other.name == like {
            parts = Vec::from_slice(alloc, &other.parts)?;
        }
    }
    modules.push(Module { name, parts })?;
    Ok(())
}

impl<'a> Script<'a> {
    /// One without lines.
    pub fn new(alloc: Global) -> Script<'a> {
        Script {
            words: Words::new(alloc),
            modules: Vec::new(alloc),
            row: Row::new(alloc, ""),
            command: None,
            told: Facts::new(alloc),
            printed: String::new(alloc),
            rows: 0,
            others: 0,
        }
    }

    /// A part of the last module.
    fn put_part(&mut self, key: &'a str, text: &'a str) -> Result<(), Refused> {
        if !is_part(key) {
            return Err(Refused::Text);
        }
        match self.modules.last_mut() {
            Some(last) => Ok(last.parts.push((key, text))?),
            None => Err(Refused::Text),
        }
    }

    /// Puts what is to be printed of the last row, if there was one.
    fn end_row(&mut self, alloc: Global) -> Result<(), AllocError> {
        let (name, report) = (self.row.name, self.row.report.as_str());
        if name.is_empty() && report.is_empty() {
            return Ok(());
        }
        self.rows = self.rows.saturating_add(1);
        if report.is_empty() {
            return self
                .printed
                .push_str(&format!(in alloc; "{name}: as told\n")?);
        }
        self.others = self.others.saturating_add(1);
        self.printed
            .push_str(&format!(in alloc; "{name}:{report}\n")?)
    }

    /// Begins a row.
    fn begin_row(&mut self, alloc: Global, text: &'a str) -> Result<(), Refused> {
        self.end_row(alloc)?;
        let (name, _) = text.split_once(':').unwrap_or((text, ""));
        self.row = Row::new(alloc, name);
        Ok(())
    }

    /// Performs the last command, if it isn't performed yet.
    fn end_command(&mut self, alloc: Global) -> Result<(), Refused> {
        let Some((key, text)) = self.command.take() else {
            return Ok(());
        };
        let performed = match self.row.cut {
            Some(cut) => perform_cut(alloc, cut, key, text, &self.told, &mut self.row),
            None => perform_line(alloc, key, text, &self.told, &mut self.row),
        };
        self.told = Facts::new(alloc);
        if performed.is_err() {
            self.row.refuse(alloc, text)?;
        }
        Ok(())
    }

    /// Adds the files of each word.
    fn add_each(&mut self, alloc: Global, text: &str) -> Result<(), Refused> {
        for word in text.split_ascii_whitespace() {
            add_files(alloc, &self.words, &self.modules, &mut self.row, word)?;
        }
        Ok(())
    }

    /// A line that says what the commands of a row find, or a part of a module.
    fn set(&mut self, alloc: Global, key: &'a str, text: &'a str) -> Result<(), Refused> {
        match key {
            "files" => self.add_each(alloc, text)?,
            "generated" => add_generated(alloc, text.parse::<u32>()?, &mut self.row)?,
            "fails" if text == "nothing" => self.row.fails.clear(),
            "fails" => self.row.fails.push(failing(text)?)?,
            "cut" => self.row.cut = Some(cut_of(text)?),
            "input" => self.row.input = bytes_of(alloc, text)?,
            "reads" => self.row.input = self.words.bytes(alloc, text)?,
            "clock" => self.row.clock = numbers_of(alloc, text)?,
            "random" => self.row.random = numbers_of(alloc, text)?,
            "table" => self.row.table = text,
            "picker" => self.row.picker = text,
            _ => self.put_part(key, text)?,
        }
        Ok(())
    }

    /// A line that isn't told of a command.
    fn begin(&mut self, alloc: Global, key: &'a str, text: &'a str) -> Result<(), Refused> {
        self.end_command(alloc)?;
        match key {
            "word" => self.words.add(alloc, text),
            "module" => begin_module(alloc, &mut self.modules, text),
            "row" => self.begin_row(alloc, text),
            "wdyl" | "words" | "both" | "snapped" | "order" | "line" => {
                self.command = Some((key, text));
                Ok(())
            }
            _ => self.set(alloc, key, text),
        }
    }

    /// Whether a line with this first word is words to be read, and not what is told of such above it.
    fn begins_order(&self, key: &str) -> bool {
        let is_behind = matches!(self.command, Some(("order", _))) && self.told.is_empty();
        key == "order" && !is_behind
    }

    /// A line.
    fn read(&mut self, alloc: Global, line: &'a str) -> Result<(), Refused> {
        let line = line.trim_start();
        let (key, text) = line.split_once(' ').unwrap_or((line, ""));
        if key.is_empty() || key.starts_with('#') {
            return Ok(());
        }
        if is_told(key) && !self.begins_order(key) {
            self.told.add(key, bytes_of(alloc, text)?)?;
            return Ok(());
        }
        self.begin(alloc, key, text)
    }

    /// A line. One that can't be read is reported.
    pub fn take(&mut self, alloc: Global, line: &'a str) -> Result<(), AllocError> {
        match self.read(alloc, line) {
            Ok(()) => Ok(()),
            Err(_) => self.row.refuse(alloc, line),
        }
    }

    /// The last line of what is printed.
    pub fn end(&mut self, alloc: Global) -> Result<(), AllocError> {
        self.take(alloc, "row ")?;
        let (rows, others) = (self.rows, self.others);
        self.printed
            .push_str(&format!(in alloc; "{rows} rows, {others} not as told\n")?)
    }
}
