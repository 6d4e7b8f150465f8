// The summary of a set that was run as loaded and as merged.
ghost use Rattle.std.specs.Prelude.{◌≡◌, ◌++◌, length, decimal, IfOk, OnOk, string_bytes};
ghost use Rattle.dyl_front.specs.Listing.{space};
ghost use Rattle.dyl_front.specs.Summary.{run_line, modules_line, sizes_lines, set_lines, summary_of};

use crate::list::put_range;
use dyl_link::Linked;
use dyl_link::dyl_plan::Plan;
use spec_merging::wasm_form::{List, Memory};
use spec_traces::dyl_print::{put_bytes, put_end, put_text};
use spec_traces::spec_hosts::Ran;
use std::alloc::Global;

/// What came of a run: how it ended, and what it put to its output.
#[derive(Drop)]
pub struct Report {
    pub ran: Ran,
    pub output: List<u8>,
}

/// How many answers a host gave.
fn answers_text(alloc: Global, count: usize) -> Result<String, Memory>
    ensures { IfOk result (λ text. string_bytes text ≡ space ++ decimal count ++ space) }
{
    let text = format!(in alloc; " {count} ")?;
    Ok(text)
}

/// Puts the line of a run.
fn put_run(alloc: Global, name: &str, report: &Report, to: &mut Vec<u8>) -> Result<(), Memory>
    ensures { OnOk result (to.new.items ≡ to.old.items ++ run_line name.now report.now.ran report.now.output) }
{
    put_text(name, to)?;
    put_text(" ", to)?;
    put_end(alloc, report.ran.end, to)?;
    put_text(&answers_text(alloc, report.ran.answers.items().len())?, to)?;
    put_bytes(report.output.items(), to)?;
    put_text("\n", to)
}

/// The line of the number of members.
fn modules_text(alloc: Global, count: u32) -> Result<String, Memory>
    ensures { IfOk result (λ text. string_bytes text ≡ modules_line count) }
{
    let text = format!(in alloc; "modules {count}\n")?;
    Ok(text)
}

/// Puts a number of members, and the sizes of a memory and of a table.
fn put_sizes_lines(
    alloc: Global,
    count: u32,
    plan: &Plan,
    entries: u32,
    entries_most: u32,
    to: &mut Vec<u8>,
) -> Result<(), Memory>
    ensures { OnOk result (to.new.items ≡ to.old.items ++ sizes_lines count plan.now.pages plan.now.pages_max entries entries_most) }
{
    put_text(&modules_text(alloc, count)?, to)?;
    let (pages, most) = (u64::from(plan.pages()), u64::from(plan.pages_max()));
    put_range(alloc, "memory", pages, most, to)?;
    let (entries, entries_most) = (u64::from(entries), u64::from(entries_most));
    put_range(alloc, "table", entries, entries_most, to)
}

/// Puts the number of members, and the sizes of the memory and of the table.
fn put_sizes(alloc: Global, linked: &Linked, to: &mut Vec<u8>) -> Result<(), Memory>
    ensures { OnOk result (to.new.items ≡ to.old.items ++ set_lines linked.now) }
{
    let (entries, most) = (linked.table_entries(), linked.table_max());
    put_sizes_lines(
        alloc,
        linked.member_count(),
        linked.plan(),
        entries,
        most,
        to,
    )
}

/// The summary of a linked set, by what came of its run as loaded, and of the run of what merges it: the number of members, the sizes of the
/// memory and of the table, and how each run ended.
pub fn summary(
    alloc: Global,
    linked: &Linked,
    loaded: &Report,
    merged: &Report,
) -> Result<Vec<u8>, Memory>
    ensures { IfOk result (λ bytes. bytes.items ≡ summary_of linked.now loaded.now merged.now) }
{
    let mut bytes = Vec::new(alloc);
    put_sizes(alloc, linked, &mut bytes)?;
    put_run(alloc, "run", loaded, &mut bytes)?;
    put_run(alloc, "exec", merged, &mut bytes)?;
    Ok(bytes)
}
