// What a call of the program is asked for.
ghost use Rattle.std.specs.Prelude.{◌≡◌, ◌≤◌, length, true};
ghost use Rattle.std.specs.List.{list_all};
ghost use Rattle.dyl_words.specs.Words.{has_zero};
ghost use Rattle.dyl_front.specs.Orders.{has_no_zero, is_item, IsSetInRange, IsLinkInRange, AreArgumentsInRange, AreMainsInRange, AreTurnsInRange, IsInRange};

use dyl_link::LinkOptions;
use dyl_link::dyl_search::SetOptions;
use spec_merging::wasm_form::{List, Text};

/// The most steps that an order may allow.
pub(crate) const MOST_STEPS: u64 = 9_223_372_036_854_775_807;

/// The least and the most of the most pages of memory, 64 KiB each.
pub(crate) const LEAST_PAGES: u32 = 1;

pub(crate) const MOST_PAGES: u32 = 16_384;

/// The fewest and the most bytes of the stack.
pub(crate) const LEAST_STACK: u32 = 16;

pub(crate) const MOST_STACK: u32 = 16_777_216;

/// The most main modules of a board.
const MOST_MAINS: usize = 64;

/// The fewest and the most steps of a turn of a board.
pub(crate) const LEAST_SLICE: u32 = 1;

pub(crate) const MOST_SLICE: u32 = 1_000_000;

/// The most turns of a board.
pub(crate) const MOST_TURNS: u32 = 1_048_576;

/// Whether a text holds a zero character, which no word and no path can.
fn holds_zero(text: &str) -> bool
    ensures { result ≡ has_zero text.now }
{
    text.as_bytes().iter().any(|b| *b == 0)
}

fn is_whole(text: &Text) -> bool
    ensures { result ≡ has_no_zero text.now }
{
    !holds_zero(text.as_str())
}

fn are_whole(texts: &[Text]) -> bool
    ensures { result ≡ list_all has_no_zero texts.now }
{
    texts.iter().all(|text| is_whole(text))
}

fn is_item(text: &Text) -> bool
    ensures { result ≡ is_item text.now }
{
    !text.as_str().is_empty() && is_whole(text)
}

fn are_items(texts: &[Text]) -> bool
    ensures { result ≡ list_all is_item texts.now }
{
    texts.iter().all(|text| is_item(text))
}

/// Whether names and paths are as words give them.
fn is_set_in_range(set: &SetOptions) -> bool
    ensures range { result ≡ true → IsSetInRange set.now }
    ensures only { IsSetInRange set.now → result ≡ true }
{
    is_whole(&set.main) && are_items(set.dl.items()) && are_items(set.paths.items())
}

/// Whether there may be so many pages.
fn are_pages_in_range(pages: u32) -> bool
    ensures range { result ≡ true → (1 ≤ pages) × (pages ≤ 16384) }
    ensures only { 1 ≤ pages → pages ≤ 16384 → result ≡ true }
{
    pages >= LEAST_PAGES && pages <= MOST_PAGES
}

/// Whether the numbers of linking are in their ranges.
fn is_link_in_range(link: &LinkOptions) -> bool
    ensures range { result ≡ true → IsLinkInRange link.now }
    ensures only { IsLinkInRange link.now → result ≡ true }
{
    are_pages_in_range(link.pages) && link.stack >= LEAST_STACK && link.stack <= MOST_STACK
}

/// Whether steps and arguments are as words give them.
fn are_arguments_in_range(steps: u64, args: &List<Text>) -> bool
    ensures range { result ≡ true → AreArgumentsInRange steps args.now }
    ensures only { AreArgumentsInRange steps args.now → result ≡ true }
{
    steps <= MOST_STEPS && are_whole(args.items())
}

/// Whether there are as many main modules as a board may have, each a text that words can give.
fn are_mains_in_range(mains: &[Text]) -> bool
    ensures range { result ≡ true → AreMainsInRange mains.now }
    ensures only { AreMainsInRange mains.now → result ≡ true }
{
    !mains.is_empty() && mains.len() <= MOST_MAINS && are_whole(mains)
}

/// Whether a turn may have so many steps, and a board so many turns.
fn are_turns_in_range(slice: u32, turns: u32) -> bool
    ensures range { result ≡ true → AreTurnsInRange slice turns }
    ensures only { AreTurnsInRange slice turns → result ≡ true }
{
    slice >= LEAST_SLICE && slice <= MOST_SLICE && turns <= MOST_TURNS
}

/// What a call of the program is asked for.
#[derive(Drop)]
pub enum Order {
    /// Merges the set of a main module, and writes the merged module at a path.
    Merge {
        set: SetOptions,
        link: LinkOptions,
        out: Text,
    },
    /// Runs the set of a main module for at most so many steps, for a program with these arguments after its name.
    Run {
        set: SetOptions,
        link: LinkOptions,
        steps: u64,
        args: List<Text>,
    },
    /// Runs the module at a path for at most so many steps, for a program with these arguments after its name.
    Exec {
        file: Text,
        steps: u64,
        args: List<Text>,
    },
    /// Lists the set of a main module, its plan, its slots and its links.
    Plan {
        set: SetOptions,
        link: LinkOptions,
    },
    /// Makes a set of so many members, which may have so many pages of memory, and runs it loaded and merged, for at most so many steps
    /// each.
    Gen {
        n: u32,
        pages: u32,
        steps: u64,
    },
    /// Runs the set of a main module for at most so many steps, for a program with these arguments after its name, and writes the trace of the
    /// run at a path. Where `one`, the one module at the path of the main module is run in its place; words then give the other options of a
    /// set their defaults.
    Trace {
        one: bool,
        set: SetOptions,
        link: LinkOptions,
        steps: u64,
        out: Text,
        args: List<Text>,
    },
    /// Checks that the file at a path is the trace of a run, of at most so many steps, of the set of a main module. Where `one`, the one module
    /// at the path of the main module is taken in its place; words then give the other options of a set their defaults.
    Replay {
        one: bool,
        trace: Text,
        set: SetOptions,
        link: LinkOptions,
        steps: u64,
    },
    /// Runs the set of a main module up to the call of its entry, for at most so many steps, and writes the module that goes on from there at a
    /// path.
    Snap {
        set: SetOptions,
        link: LinkOptions,
        steps: u64,
        out: Text,
    },
    /// Runs the sets of 1 to 64 main modules in turns, each set for at most so many steps, each turn for at most `slice` steps, and at most
    /// `turns` turns.
    Board {
        mains: List<Text>,
        link: LinkOptions,
        steps: u64,
        slice: u32,
        turns: u32,
    },
}

impl Order {
    /// Whether its numbers are in their ranges, that of the main modules of a board among them, no name and no directory of a list is empty, and
    /// no text has a zero character.
    pub fn is_in_range(&self) -> bool
        ensures range { result ≡ true → IsInRange self.now }
        ensures only { IsInRange self.now → result ≡ true }
    {
        match self {
            Order::Merge { set, link, out } => {
                is_set_in_range(set) && is_link_in_range(link) && is_whole(out)
            }
            Order::Run {
                set,
                link,
                steps,
                args,
            } => {
                is_set_in_range(set)
                    && is_link_in_range(link)
                    && are_arguments_in_range(*steps, args)
            }
            Order::Exec { file, steps, args } => {
                is_whole(file) && are_arguments_in_range(*steps, args)
            }
            Order::Plan { set, link } => is_set_in_range(set) && is_link_in_range(link),
            Order::Gen { n: _, pages, steps } => are_pages_in_range(*pages) && *steps <= MOST_STEPS,
            Order::Trace {
                one: _,
                set,
                link,
                steps,
                out,
                args,
            } => {
                is_set_in_range(set)
                    && is_link_in_range(link)
                    && is_whole(out)
                    && are_arguments_in_range(*steps, args)
            }
            Order::Replay {
                one: _,
                trace,
                set,
                link,
                steps,
            } => {
                is_whole(trace)
                    && is_set_in_range(set)
                    && is_link_in_range(link)
                    && *steps <= MOST_STEPS
            }
            Order::Snap {
                set,
                link,
                steps,
                out,
            } => {
                is_set_in_range(set)
                    && is_link_in_range(link)
                    && is_whole(out)
                    && *steps <= MOST_STEPS
            }
            Order::Board {
                mains,
                link,
                steps,
                slice,
                turns,
            } => {
                are_mains_in_range(mains.items())
                    && is_link_in_range(link)
                    && *steps <= MOST_STEPS
                    && are_turns_in_range(*slice, *turns)
            }
        }
    }
}
