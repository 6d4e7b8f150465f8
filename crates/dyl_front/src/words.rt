// Words to an order.
ghost use Rattle.std.specs.Prelude.{◌≡◌, IfOk, IfErr, map, drop, string_bytes};
ghost use Rattle.std.specs.IoError.{error_kind};
ghost use Rattle.std.specs.Vec.Iter.{into_iter_items};
ghost use Rattle.dyl_words.specs.Words.{asked};
ghost use Rattle.dyl_words.specs.declared.names.CommandName.TheVariants as command;
ghost use Rattle.dyl_words.specs.Shown.{shown};
ghost use Rattle.dyl_front.specs.Orders.{Reads, word_fault, merge_order, run_order, exec_order, plan_order, gen_order, trace_order, replay_order, snap_order, board_order, order_by, order_asked, order_of, refused_words, IsInRange};
ghost use Rattle.dyl_front.specs.declared.words.WordFault.TheVariants as word;

use crate::options::{
    link_in, members_in, owned_all, pages_in, set_in, slice_in, steps_in, turns_in,
};
use crate::order::Order;
use crate::outcome::{Outcome, UsageKind};
use dyl_words::{AskFault, Asked, CommandName, ask};
use spec_merging::wasm_form::{Memory, Text};
use std::alloc::{AllocError, Global};
use std::env::Args;
use std::io::{self, ErrorKind};

/// Why words are no order.
#[derive(Clone, Copy, Debug, PartialEq, Eq)]
pub enum WordFault {
    /// They are no order.
    Usage { kind: UsageKind },
    /// No memory could be had.
    Memory,
}

impl From<Memory> for WordFault {
    ghost from_gives = { λ _ e. e ≡ word.Memory };

    fn from(_: Memory) -> WordFault {
        WordFault::Memory
    }
}

impl From<UsageKind> for WordFault {
    ghost from_gives = { λ kind e. e ≡ word.Usage kind };

    fn from(kind: UsageKind) -> WordFault {
        WordFault::Usage { kind }
    }
}

impl From<AllocError> for WordFault {
    ghost from_gives = { λ _ e. e ≡ word.Memory };

    fn from(_: AllocError) -> WordFault {
        WordFault::Memory
    }
}

/// What is answered where the system gives no words: want of memory as such, and else that the words are no texts.
fn refused(error: &io::Error) -> Outcome
    ensures { result ≡ refused_words (error_kind error.now) }
{
    if error.kind() == ErrorKind::OutOfMemory {
        return Outcome::Memory;
    }
    Outcome::Usage(UsageKind::Words)
}

/// All of these words, in order.
fn all_words(alloc: Global, words: Args) -> Result<Vec<String>, AllocError>
    ensures { IfOk result (λ all. all.items ≡ into_iter_items words) }
{
    words.collect(alloc)
}

/// The words of a call, all of them in order, where the system gives them and there is memory; or the outcome where there are none.
pub fn collected(alloc: Global, answer: io::Result<Args>) -> Result<Vec<String>, Outcome>
    ensures words { IfOk answer (λ given. IfOk result (λ words. words.items ≡ into_iter_items given)) }
    ensures refused { IfErr answer (λ error. result ≡ Err (refused_words (error_kind error))) }
    ensures memory { IfOk answer (λ words. IfErr result (λ outcome. outcome ≡ Outcome.Memory)) }
{
    match answer {
        Ok(given) => match all_words(alloc, given) {
            Ok(words) => Ok(words),
            Err(_) => Err(Outcome::Memory),
        },
        Err(error) => Err(refused(&error)),
    }
}

/// Why the words after a command ask for nothing.
fn word_fault(fault: AskFault) -> WordFault
    ensures { result ≡ word_fault fault }
{
    match fault {
        AskFault::Words => WordFault::Usage {
            kind: UsageKind::Words,
        },
        AskFault::Memory => WordFault::Memory,
    }
}

/// The order of `merge`.
fn merge_order(alloc: Global, main: &str, out: &str, asked: &Asked<'_>) -> Result<Order, WordFault>
    ensures { Reads result (merge_order main.now out.now (shown asked.now)) }
{
    let set = set_in(alloc, main, asked)?;
    let link = link_in(asked)?;
    let out = Text::copied(alloc, out)?;
    Ok(Order::Merge { set, link, out })
}

/// The order of `run`.
fn run_order(
    alloc: Global,
    main: &str,
    args: &[&str],
    asked: &Asked<'_>,
) -> Result<Order, WordFault>
    ensures { Reads result (run_order main.now (map (λ x. x.now) args.now) (shown asked.now)) }
{
    let set = set_in(alloc, main, asked)?;
    let link = link_in(asked)?;
    let steps = steps_in(asked)?;
    let args = owned_all(alloc, args)?;
    Ok(Order::Run {
        set,
        link,
        steps,
        args,
    })
}

/// The order of `run`, by its plain words.
fn run_words(alloc: Global, words: &[&str], asked: &Asked<'_>) -> Result<Order, WordFault>
    ensures { Reads result (order_by command.Run (map (λ x. x.now) words.now) (shown asked.now)) }
{
    match words.split_first() {
        Some((main, args)) => run_order(alloc, main, args, asked),
        None => Err(WordFault::Usage {
            kind: UsageKind::Words,
        }),
    }
}

/// The order of `exec`.
fn exec_order(
    alloc: Global,
    file: &str,
    args: &[&str],
    asked: &Asked<'_>,
) -> Result<Order, WordFault>
    ensures { Reads result (exec_order file.now (map (λ x. x.now) args.now) (shown asked.now)) }
{
    let steps = steps_in(asked)?;
    let file = Text::copied(alloc, file)?;
    let args = owned_all(alloc, args)?;
    Ok(Order::Exec { file, steps, args })
}

/// The order of `plan`.
fn plan_order(alloc: Global, main: &str, asked: &Asked<'_>) -> Result<Order, WordFault>
    ensures { Reads result (plan_order main.now (shown asked.now)) }
{
    let set = set_in(alloc, main, asked)?;
    let link = link_in(asked)?;
    Ok(Order::Plan { set, link })
}

/// The order of `gen`.
fn gen_order(number: &str, asked: &Asked<'_>) -> Result<Order, WordFault>
    ensures { Reads result (gen_order number.now (shown asked.now)) }
{
    let pages = pages_in(asked)?;
    let steps = steps_in(asked)?;
    let n = members_in(number)?;
    Ok(Order::Gen { n, pages, steps })
}

/// The order of `trace`.
fn trace_order(
    alloc: Global,
    main: &str,
    out: &str,
    args: &[&str],
    asked: &Asked<'_>,
) -> Result<Order, WordFault>
    ensures { Reads result (trace_order main.now out.now (map (λ x. x.now) args.now) (shown asked.now)) }
{
    let set = set_in(alloc, main, asked)?;
    let link = link_in(asked)?;
    let steps = steps_in(asked)?;
    let out = Text::copied(alloc, out)?;
    let args = owned_all(alloc, args)?;
    Ok(Order::Trace {
        one: asked.one,
        set,
        link,
        steps,
        out,
        args,
    })
}

/// The order of `trace`, by its plain words.
fn trace_words(alloc: Global, words: &[&str], asked: &Asked<'_>) -> Result<Order, WordFault>
    ensures { Reads result (order_by command.Trace (map (λ x. x.now) words.now) (shown asked.now)) }
{
    match words.split_first() {
        Some((main, rest)) => match rest.split_first() {
            Some((out, args)) => trace_order(alloc, main, out, args, asked),
            None => Err(WordFault::Usage {
                kind: UsageKind::Words,
            }),
        },
        None => Err(WordFault::Usage {
            kind: UsageKind::Words,
        }),
    }
}

/// The order of `replay`.
fn replay_order(
    alloc: Global,
    trace: &str,
    main: &str,
    asked: &Asked<'_>,
) -> Result<Order, WordFault>
    ensures { Reads result (replay_order trace.now main.now (shown asked.now)) }
{
    let set = set_in(alloc, main, asked)?;
    let link = link_in(asked)?;
    let steps = steps_in(asked)?;
    let trace = Text::copied(alloc, trace)?;
    Ok(Order::Replay {
        one: asked.one,
        trace,
        set,
        link,
        steps,
    })
}

/// The order of `snap`.
fn snap_order(alloc: Global, main: &str, out: &str, asked: &Asked<'_>) -> Result<Order, WordFault>
    ensures { Reads result (snap_order main.now out.now (shown asked.now)) }
{
    let set = set_in(alloc, main, asked)?;
    let link = link_in(asked)?;
    let steps = steps_in(asked)?;
    let out = Text::copied(alloc, out)?;
    Ok(Order::Snap {
        set,
        link,
        steps,
        out,
    })
}

/// The order of `board`.
fn board_order(alloc: Global, mains: &[&str], asked: &Asked<'_>) -> Result<Order, WordFault>
    ensures { Reads result (board_order (map (λ x. x.now) mains.now) (shown asked.now)) }
{
    let link = link_in(asked)?;
    let steps = steps_in(asked)?;
    let slice = slice_in(asked)?;
    let turns = turns_in(asked)?;
    let mains = owned_all(alloc, mains)?;
    Ok(Order::Board {
        mains,
        link,
        steps,
        slice,
        turns,
    })
}

/// The order that a command is, by what is asked for.
fn order_by(alloc: Global, command: CommandName, asked: &Asked<'_>) -> Result<Order, WordFault>
    ensures { Reads result (order_by command (shown asked.now).plain (shown asked.now)) }
{
    match (command, asked.plain.as_slice()) {
        (CommandName::Merge, [main, out]) => merge_order(alloc, main, out, asked),
        (CommandName::Run, words) => run_words(alloc, words, asked),
        (CommandName::Exec, [file, args @ ..]) => exec_order(alloc, file, args, asked),
        (CommandName::Plan, [main]) => plan_order(alloc, main, asked),
        (CommandName::Gen, [number]) => gen_order(number, asked),
        (CommandName::Trace, words) => trace_words(alloc, words, asked),
        (CommandName::Replay, [trace, main]) => replay_order(alloc, trace, main, asked),
        (CommandName::Snap, [main, out]) => snap_order(alloc, main, out, asked),
        (CommandName::Board, mains) => board_order(alloc, mains, asked),
        _ => Err(WordFault::Usage {
            kind: UsageKind::Words,
        }),
    }
}

/// The order of a command, of which the first word is its own.
fn order_asked(alloc: Global, command: CommandName, words: &[String]) -> Result<Order, WordFault>
    ensures { Reads result (order_asked command (asked command (drop 1 (map string_bytes words.now)))) }
{
    match ask(alloc, command, words) {
        Ok(asked) => order_by(alloc, command, &asked),
        Err(fault) => Err(word_fault(fault)),
    }
}

/// The order that words are, of which the first one is the program's name: each usage fault comes exactly where it is due.
pub fn read_words(alloc: Global, words: &[String]) -> Result<Order, WordFault>
    ensures reads { Reads result (order_of words.now) }
    ensures range { IfOk result IsInRange }
{
    let Some((_program, rest)) = words.split_first() else {
        return Err(WordFault::Usage {
            kind: UsageKind::NoCommand,
        });
    };
    let Some((word, _)) = rest.split_first() else {
        return Err(WordFault::Usage {
            kind: UsageKind::NoCommand,
        });
    };
    let Some(command) = CommandName::of(word.as_str()) else {
        return Err(WordFault::Usage {
            kind: UsageKind::UnknownCommand,
        });
    };
    order_asked(alloc, command, rest)
}
