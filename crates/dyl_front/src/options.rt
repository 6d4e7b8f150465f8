// The values of options.
ghost use Rattle.std.specs.Prelude.{◌≡◌, ◌==◌, ◌≤◌, ◌<◌, ◌^◌, IfOk, IfSome, IsNone, map, true};
ghost use Rattle.std.specs.List.{list_any, list_all, slice_split};
ghost use Rattle.std.specs.Str.Parse.{digits_value};
ghost use Rattle.dyl_words.specs.Shown.{shown, text_in};
ghost use Rattle.dyl_front.specs.Orders.{Reads, is_digit, is_number, is_empty, number_of, number_in, items_in, set_in, pages_in, link_in, steps_in, slice_in, turns_in};
ghost use Rattle.dyl_front.specs.declared.outcome.Opt.TheVariants.{N};

use crate::order::{
    LEAST_PAGES, LEAST_SLICE, LEAST_STACK, MOST_PAGES, MOST_SLICE, MOST_STACK, MOST_STEPS,
    MOST_TURNS,
};
use crate::outcome::{Opt, UsageKind};
use crate::words::WordFault;
use dyl_link::LinkOptions;
use dyl_link::dyl_search::SetOptions;
use dyl_words::Asked;
use spec_merging::wasm_form::{List, Memory, Text};
use std::alloc::{AllocError, Global};

// The most pages, the bytes of the stack, the most steps and the most steps of a turn where no number is given.
const DEFAULT_PAGES: u64 = 1_024;

const DEFAULT_STACK: u64 = 65_536;

const DEFAULT_STEPS: u64 = 1_000_000_000;

const DEFAULT_SLICE: u64 = 1_000;

// The greatest number of members that words can ask for.
const MOST_MEMBERS: u64 = 4_294_967_295;

fn is_digit(b: u8) -> bool
    ensures { result ≡ is_digit b }
{
    b >= b'0' && b <= b'9'
}

fn are_digits(text: &str) -> bool
    ensures { result ≡ list_all is_digit text.now }
{
    text.as_bytes().iter().all(|b| is_digit(*b))
}

fn is_number(text: &str) -> bool
    ensures { result ≡ is_number text.now }
{
    !text.is_empty() && are_digits(text)
}

// The number that a text writes, if it is one below 2^64.
fn number(text: &str) -> Option<u64>
    ensures small { IfSome result (λ n. (is_number text.now ≡ true) × (n ≡ digits_value 10 text.now)) }
    ensures none { IsNone result → is_number text.now ≡ true → 2 ^ 64 ≤ digits_value 10 text.now }
{
    if !is_number(text) {
        return None;
    }
    match text.parse::<u64>() {
        Ok(n) => Some(n),
        Err(_) => None,
    }
}

// The number that a text writes, in its range.
fn number_of(option: Opt, least: u64, most: u64, text: &str) -> Result<u64, UsageKind>
    ensures value { result ≡ number_of option least most text.now }
    ensures range { IfOk result (λ n. n ≤ most) }
{
    match number(text) {
        Some(n) if n >= least && n <= most => Ok(n),
        _ => Err(UsageKind::Number(option)),
    }
}

// The value of an option as a number in its range; where none is given, this one.
fn number_in(
    option: Opt,
    least: u64,
    most: u64,
    unless: u64,
    value: Option<&str>,
) -> Result<u64, UsageKind>
    requires { unless ≤ most }
    ensures value { result ≡ number_in option least most unless (text_in value.entry) }
    ensures range { IfOk result (λ n. n ≤ most) }
{
    match value {
        Some(text) => number_of(option, least, most, text),
        None => Ok(unless),
    }
}

// The most pages of memory.
pub(crate) fn pages_in(asked: &Asked<'_>) -> Result<u32, UsageKind>
    ensures { result ≡ pages_in (shown asked.now) }
{
    let pages = number_in(
        Opt::Pages,
        u64::from(LEAST_PAGES),
        u64::from(MOST_PAGES),
        DEFAULT_PAGES,
        asked.pages,
    )?;
    Ok(pages as u32)
}

// How a set is linked.
pub(crate) fn link_in(asked: &Asked<'_>) -> Result<LinkOptions, UsageKind>
    ensures { result ≡ link_in (shown asked.now) }
{
    let pages = pages_in(asked)?;
    let stack = number_in(
        Opt::Stack,
        u64::from(LEAST_STACK),
        u64::from(MOST_STACK),
        DEFAULT_STACK,
        asked.stack,
    )?;
    Ok(LinkOptions {
        stack: stack as u32,
        pages,
        no_duplicates: asked.no_duplicates,
    })
}

// The most steps of a run.
pub(crate) fn steps_in(asked: &Asked<'_>) -> Result<u64, UsageKind>
    ensures { result ≡ steps_in (shown asked.now) }
{
    number_in(Opt::Steps, 0, MOST_STEPS, DEFAULT_STEPS, asked.steps)
}

// The most steps of a turn.
pub(crate) fn slice_in(asked: &Asked<'_>) -> Result<u32, UsageKind>
    ensures { result ≡ slice_in (shown asked.now) }
{
    let slice = number_in(
        Opt::Slice,
        u64::from(LEAST_SLICE),
        u64::from(MOST_SLICE),
        DEFAULT_SLICE,
        asked.slice,
    )?;
    Ok(slice as u32)
}

// The most turns of a board.
pub(crate) fn turns_in(asked: &Asked<'_>) -> Result<u32, UsageKind>
    ensures { result ≡ turns_in (shown asked.now) }
{
    let most = u64::from(MOST_TURNS);
    let turns = number_in(Opt::Turns, 0, most, most, asked.turns)?;
    Ok(turns as u32)
}

// The number of members of a generated set.
pub(crate) fn members_in(text: &str) -> Result<u32, UsageKind>
    ensures { result ≡ number_of N 0 4294967295 text.now }
{
    let n = number_of(Opt::N, 0, MOST_MEMBERS, text)?;
    Ok(n as u32)
}

// The parts of a text between separators, which are ASCII.
fn parts<'a>(alloc: Global, text: &'a str, separator: char) -> Result<Vec<&'a str>, AllocError>
    requires { separator < 128 }
    ensures { IfOk result (λ v. map (λ x. x.now) v.items ≡ slice_split (λ b. b == separator) text.entry.now) }
{
    text.split(separator).collect(alloc)
}

fn some_empty(parts: &[&str]) -> bool
    ensures { result ≡ list_any (λ x. is_empty x.now) parts.now }
{
    parts.iter().any(|part| part.is_empty())
}

// Texts of their own.
pub(crate) fn owned_all(alloc: Global, parts: &[&str]) -> Result<List<Text>, Memory>
    ensures { IfOk result (λ texts. texts ≡ map (λ x. x.now) parts.now) }
{
    let mut texts = Vec::new(alloc);
    for part in parts {
        texts.push(Text::copied(alloc, part)?)?;
    }
    Ok(List::of(texts))
}

// The items of the value of an option; none where none is given.
fn items_in(
    alloc: Global,
    option: Opt,
    separator: char,
    value: Option<&str>,
) -> Result<List<Text>, WordFault>
    requires { separator < 128 }
    ensures { Reads result (items_in option separator (text_in value.entry)) }
{
    let Some(text) = value else {
        return Ok(List::of(Vec::new(alloc)));
    };
    let parts = parts(alloc, text, separator)?;
    if some_empty(&parts) {
        return Err(WordFault::Usage {
            kind: UsageKind::Name(option),
        });
    }
    Ok(owned_all(alloc, &parts)?)
}

// How a set is gathered.
pub(crate) fn set_in(alloc: Global, main: &str, asked: &Asked<'_>) -> Result<SetOptions, WordFault>
    ensures { Reads result (set_in main.now (shown asked.now)) }
{
    let dl = items_in(alloc, Opt::Dl, ',', asked.dl)?;
    let paths = items_in(alloc, Opt::Path, ':', asked.path)?;
    Ok(SetOptions {
        main: Text::copied(alloc, main)?,
        dl,
        paths,
    })
}
