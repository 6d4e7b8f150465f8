// What words ask for.
ghost use Rattle.std.specs.Prelude.{◌≡◌, IfOk, IfErr, map, string_bytes, drop, length, Some, None, true, false};
ghost use Rattle.std.specs.List.{list_any};
ghost use Rattle.clap.specs.Words.{rows_of};
ghost use Rattle.clap.specs.Matches.{found_of};
ghost use Rattle.dyl_words.specs.Words as spec;
ghost use Rattle.dyl_words.specs.Clap.{has_stray, is_stray, texts_in, values_in, words_in, asked_in_rows};
ghost use Rattle.dyl_words.specs.Shown.{shown, text_in};

use crate::matching::matches_in;
use crate::names::{CommandName, OptionName};
use clap::ArgMatches;
use clap::error::ErrorKind;
use std::alloc::{AllocError, Global};

/// What is asked for: the plain words, and the values of the options that are given.
#[derive(Drop)]
pub struct Asked<'a> {
    pub plain: Vec<&'a str>,
    pub dl: Option<&'a str>,
    pub path: Option<&'a str>,
    pub pages: Option<&'a str>,
    pub stack: Option<&'a str>,
    pub no_duplicates: bool,
    pub steps: Option<&'a str>,
    pub slice: Option<&'a str>,
    pub turns: Option<&'a str>,
    pub one: bool,
}

/// Why nothing is asked for.
#[derive(Clone, Copy, Debug, PartialEq, Eq)]
pub enum AskFault {
    /// The words are none that the command takes.
    Words,
    /// No memory could be had.
    Memory,
}

impl From<AllocError> for AskFault {
    ghost use Rattle.std.specs.Prelude.{◌≡◌};
    ghost use Rattle.dyl_words.specs.declared.asked.AskFault.TheVariants as faults;

    ghost from_gives = { λ _ e. e ≡ faults.Memory };

    fn from(_: AllocError) -> AskFault {
        AskFault::Memory
    }
}

// Whether a word begins with exactly one hyphen.
fn is_stray(word: &str) -> bool
    ensures { result ≡ is_stray word.now }
{
    match word.as_bytes() {
        [b'-', b'-', ..] => false,
        [b'-', ..] => true,
        _ => false,
    }
}

// Whether a word before `--` begins with exactly one hyphen.
fn has_stray(words: &[String]) -> bool
    ensures { result ≡ has_stray (map string_bytes words.now) }
{
    let mut rest = words;
    while let Some((word, tail)) = rest.split_first() {
        if word.as_str() == "--" {
            return false;
        }
        if is_stray(word.as_str()) {
            return true;
        }
        rest = tail;
    }
    false
}

fn has_zero(word: &str) -> bool
    ensures { result ≡ spec.has_zero word.now }
{
    word.as_bytes().iter().any(|b| *b == 0)
}

// Whether a word has a zero character.
fn some_zero(words: &[String]) -> bool
    ensures { result ≡ list_any spec.has_zero (map string_bytes words.now) }
{
    let mut rest = words;
    while let Some((word, tail)) = rest.split_first() {
        if has_zero(word.as_str()) {
            return true;
        }
        rest = tail;
    }
    false
}

// Why `clap` has no matches.
fn refusal(kind: ErrorKind) -> AskFault
    ensures memory { kind ≡ ErrorKind.OutOfMemory → result ≡ AskFault.Memory }
{
    match kind {
        ErrorKind::OutOfMemory => AskFault::Memory,
        _ => AskFault::Words,
    }
}

// The matches of words, of which the first is the command.
fn matched<'a>(
    alloc: Global,
    command: CommandName,
    words: &'a [String],
) -> Result<ArgMatches<'a>, AskFault>
    ensures read { IfOk result (λ m. spec.asked command (drop 1 (map string_bytes words.entry.now)) ≡ asked_in_rows command (rows_of (found_of m))) }
    ensures refused { IfErr result (λ e. e ≡ AskFault.Words → spec.asked command (drop 1 (map string_bytes words.entry.now)) ≡ None) }
{
    let Some((_command, rest)) = words.split_first() else {
        return Err(AskFault::Words);
    };
    if some_zero(rest) {
        return Err(AskFault::Words);
    }
    if has_stray(rest) {
        return Err(AskFault::Words);
    }
    match matches_in(alloc, command, words) {
        Ok(matches) => Ok(matches),
        Err(error) => Err(refusal(error.kind())),
    }
}

// The value among those that an option is given: at most one, which isn't empty.
fn only<'a>(values: Option<&[&'a str]>) -> Result<Option<&'a str>, AskFault>
    ensures right { IfOk result (λ v. (spec.is_right (texts_in values.entry) ≡ true) × (spec.first_of (texts_in values.entry) ≡ text_in v)) }
    ensures wrong { IfErr result (λ e. (e ≡ AskFault.Words) × (spec.is_right (texts_in values.entry) ≡ false)) }
{
    match values {
        None | Some([]) => Ok(None),
        Some([value]) if !value.is_empty() => Ok(Some(value)),
        Some(_) => Err(AskFault::Words),
    }
}

// The value that an option is given.
fn value_in<'a>(matches: &ArgMatches<'a>, option: OptionName) -> Result<Option<&'a str>, AskFault>
    ensures right { IfOk result (λ v. (spec.is_right (values_in (rows_of (found_of matches.now)) option) ≡ true) × (spec.first_of (values_in (rows_of (found_of matches.now)) option) ≡ text_in v)) }
    ensures wrong { IfErr result (λ e. (e ≡ AskFault.Words) × (spec.is_right (values_in (rows_of (found_of matches.now)) option) ≡ false)) }
{
    only(matches.get_raw(option.word()))
}

// The plain words.
fn plain_in<'a>(
    alloc: Global,
    command: CommandName,
    matches: &ArgMatches<'a>,
) -> Result<Vec<&'a str>, AskFault>
    ensures right { IfOk result (λ v. (spec.takes_plain command (length (words_in (rows_of (found_of matches.now)))) ≡ true) × (map (λ t. t.now) v.items ≡ words_in (rows_of (found_of matches.now)))) }
    ensures wrong { IfErr result (λ e. e ≡ AskFault.Words → spec.takes_plain command (length (words_in (rows_of (found_of matches.now)))) ≡ false) }
{
    let Some(words) = matches.get_raw("words") else {
        return Err(AskFault::Words);
    };
    if !command.takes_plain(words.len()) {
        return Err(AskFault::Words);
    }
    Ok(Vec::from_slice(alloc, words)?)
}

// The plain words, and the values of the options.
fn values_in<'a>(
    alloc: Global,
    command: CommandName,
    matches: &ArgMatches<'a>,
) -> Result<Asked<'a>, AskFault>
    ensures right { IfOk result (λ a. asked_in_rows command (rows_of (found_of matches.now)) ≡ spec.unmixed (shown a)) }
    ensures wrong { IfErr result (λ e. e ≡ AskFault.Words → asked_in_rows command (rows_of (found_of matches.now)) ≡ None) }
{
    let plain = plain_in(alloc, command, matches)?;
    let dl = value_in(matches, OptionName::Dl)?;
    let path = value_in(matches, OptionName::Path)?;
    let pages = value_in(matches, OptionName::Pages)?;
    let stack = value_in(matches, OptionName::Stack)?;
    let no_duplicates = value_in(matches, OptionName::NoDuplicates)?.is_some();
    let steps = value_in(matches, OptionName::Steps)?;
    let slice = value_in(matches, OptionName::Slice)?;
    let turns = value_in(matches, OptionName::Turns)?;
    let one = value_in(matches, OptionName::One)?.is_some();
    Ok(Asked {
        plain,
        dl,
        path,
        pages,
        stack,
        no_duplicates,
        steps,
        slice,
        turns,
        one,
    })
}

// Whether an option of a set stands beside `--one`.
fn mixes(asked: &Asked<'_>) -> bool
    ensures { result ≡ spec.mixes (shown asked.now) }
{
    asked.one
        && (asked.dl.is_some()
            || asked.path.is_some()
            || asked.pages.is_some()
            || asked.stack.is_some()
            || asked.no_duplicates)
}

// What matches ask for.
fn asked_in<'a>(
    alloc: Global,
    command: CommandName,
    matches: &ArgMatches<'a>,
) -> Result<Asked<'a>, AskFault>
    ensures right { IfOk result (λ a. asked_in_rows command (rows_of (found_of matches.now)) ≡ Some (shown a)) }
    ensures wrong { IfErr result (λ e. e ≡ AskFault.Words → asked_in_rows command (rows_of (found_of matches.now)) ≡ None) }
{
    let asked = values_in(alloc, command, matches)?;
    if mixes(&asked) {
        return Err(AskFault::Words);
    }
    Ok(asked)
}

/// What the words after a command ask for. The first of `words` is the command's own.
pub fn ask<'a>(
    alloc: Global,
    command: CommandName,
    words: &'a [String],
) -> Result<Asked<'a>, AskFault>
    ensures asked { IfOk result (λ a. spec.asked command (drop 1 (map string_bytes words.entry.now)) ≡ Some (shown a)) }
    ensures refused { IfErr result (λ e. e ≡ AskFault.Words → spec.asked command (drop 1 (map string_bytes words.entry.now)) ≡ None) }
{
    let matches = matched(alloc, command, words)?;
    asked_in(alloc, command, &matches)
}
