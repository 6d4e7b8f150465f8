// What words are read as.
use crate::facts::Facts;
use dyl_front::{LinkOptions, Order, SetOptions, WordFault, read_words, usage_line};
use spec_binary::wasm_form::{List, Memory, Text};
use std::alloc::{AllocError, Global};

/// Texts with something between two.
fn joined(alloc: Global, texts: &List<Text>, between: &str) -> Result<String, AllocError> {
    let mut all = String::new(alloc);
    let mut lead = "";
    for text in texts.items() {
        all.push_str(lead)?;
        all.push_str(text.as_str())?;
        lead = between;
    }
    Ok(all)
}

/// The words of how a set is linked.
fn link_shown(alloc: Global, link: &LinkOptions) -> Result<String, AllocError> {
    let once = if link.no_duplicates { "yes" } else { "no" };
    format!(in alloc;
        "pages={} stack={} no-duplicates={once}",
        link.pages, link.stack
    )
}

/// The words of a set and of how it is linked.
fn set_shown(alloc: Global, set: &SetOptions, link: &LinkOptions) -> Result<String, AllocError> {
    let dl = joined(alloc, &set.dl, ",")?;
    let path = joined(alloc, &set.paths, ":")?;
    let link = link_shown(alloc, link)?;
    let main = set.main.as_str();
    format!(in alloc; "main={main} dl={dl} path={path} {link}")
}

/// The words of a run.
fn run_shown(
    alloc: Global,
    what: &str,
    steps: u64,
    args: &List<Text>,
) -> Result<String, AllocError> {
    let args = joined(alloc, args, ",")?;
    format!(in alloc; "{what} steps={steps} args={args}")
}

/// Whether there is to be one module alone.
fn one_shown(one: bool) -> &'static str {
    if one { "yes" } else { "no" }
}

/// The words of an order about a trace or a snapshot, that has a set.
fn trace_order_shown(alloc: Global, order: &Order, set: &str) -> Result<String, AllocError> {
    match order {
        Order::Trace {
            one,
            out,
            steps,
            args,
            ..
        } => {
            let one = one_shown(*one);
            let what = format!(in alloc; "trace one={one} {set} out={}", out.as_str())?;
            run_shown(alloc, &what, *steps, args)
        }
        Order::Replay {
            one,
            trace,
            steps,
            ..
        } => {
            let one = one_shown(*one);
            format!(in alloc;
                "replay one={one} trace={} {set} steps={steps}",
                trace.as_str()
            )
        }
        Order::Snap { steps, out, .. } => {
            format!(in alloc; "snap {set} out={} steps={steps}", out.as_str())
        }
        _ => format!(in alloc; "plan {set}"),
    }
}

/// The words of an order that has a set.
fn set_order_shown(alloc: Global, order: &Order, set: &str) -> Result<String, AllocError> {
    match order {
        Order::Merge { out, .. } => format!(in alloc; "merge {set} out={}", out.as_str()),
        Order::Run { steps, args, .. } => {
            run_shown(alloc, &format!(in alloc; "run {set}")?, *steps, args)
        }
        _ => trace_order_shown(alloc, order, set),
    }
}

/// The words of an order about a board.
fn board_shown(
    alloc: Global,
    mains: &List<Text>,
    link: &LinkOptions,
    steps: u64,
    slice: u32,
    turns: u32,
) -> Result<String, AllocError> {
    let mains = joined(alloc, mains, ",")?;
    let link = link_shown(alloc, link)?;
    format!(in alloc; "board mains={mains} {link} steps={steps} slice={slice} turns={turns}")
}

/// An order in a line.
fn order_shown(alloc: Global, order: &Order) -> Result<String, AllocError> {
    match order {
        Order::Merge { set, link, .. }
        | Order::Run { set, link, .. }
        | Order::Plan { set, link }
        | Order::Trace { set, link, .. }
        | Order::Replay { set, link, .. }
        | Order::Snap { set, link, .. } => {
            let set = set_shown(alloc, set, link)?;
            set_order_shown(alloc, order, &set)
        }
        Order::Exec { file, steps, args } => {
            run_shown(
                alloc,
                &format!(in alloc; "exec file={}", file.as_str())?,
                *steps,
                args,
            )
        }
        Order::Gen { n, pages, steps } => format!(in alloc;
            "gen n={n} pages={pages} steps={steps}"
        ),
        Order::Board {
            mains,
            link,
            steps,
            slice,
            turns,
        } => board_shown(alloc, mains, link, *steps, *slice, *turns),
    }
}

/// What is told of an order, or of what is wrong with words.
fn note_order(
    alloc: Global,
    read: &Result<Order, WordFault>,
    came: &mut Facts,
) -> Result<(), Memory> {
    match read {
        Ok(order) if order.is_in_range() => {
            came.add("order", order_shown(alloc, order)?.into_bytes())
        }
        Ok(_) => came.add(
            "order",
            String::from_str(alloc, "out of range")?.into_bytes(),
        ),
        Err(WordFault::Usage { kind }) => came.add("err", usage_line(alloc, kind)?),
        Err(WordFault::Memory) => Err(Memory),
    }
}

/// What words are read as: an order in a line, or the line of what is wrong.
pub fn note_words(alloc: Global, words: &[String], came: &mut Facts) -> Result<(), Memory> {
    let read = read_words(alloc, words);
    let noted = note_order(alloc, &read, came);
    drop(read);
    noted
}
