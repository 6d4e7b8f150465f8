// The line that is put to the errors for an outcome.
ghost use Rattle.std.specs.Prelude.{◌≡◌, ◌++◌, [], codes, decimal, unwrap_or, true, false, Some, None, IsSome, IfOk, OnOk, string_bytes};
ghost use Rattle.spec_linking.specs.declared.fault.LinkFault.TheVariants as link;
ghost use Rattle.spec_traces.specs.dyl_print.Printed.{escaped};
ghost use Rattle.spec_snapshots.specs.declared.fault.SnapFault.TheVariants as snap;
ghost use Rattle.dyl_front.specs.Lines.{option_text, usage_text, set_text, kind_text, link_text, long_text, merge_text, end_text, single_text, gen_text, trace_fault_text, snap_text, outcome_text, line_with, line_of};
ghost use Rattle.std.specs.Option.{option_map};

use crate::boards::{board_text, is_any_told, is_end_told};
use crate::faults::put_set;
use crate::outcome::{Opt, Outcome, UsageKind};
use dyl_gen::GenFault;
use spec_linking::spec_execution::SingleFault;
use spec_linking::{Kind, LinkFault, SetFault};
use spec_merging::MergeFault;
use spec_merging::wasm_form::{Memory, Text, Trap};
use spec_snapshots::SnapFault;
use spec_traces::TraceFault;
use spec_traces::dyl_print::{put_escaped, put_number, put_text, put_trap};
use spec_traces::spec_hosts::RunEnd;
use std::alloc::Global;

/// An option as it is written.
fn opt_text(of: Opt) -> &'static str
    ensures { result.now ≡ option_text of }
{
    match of {
        Opt::Dl => "--dl",
        Opt::Path => "--path",
        Opt::Pages => "--pages",
        Opt::Stack => "--stack",
        Opt::Steps => "--steps",
        Opt::Slice => "--slice",
        Opt::Turns => "--turns",
        Opt::N => "N",
    }
}

/// Puts a text and a further one.
fn put_both(text: &str, end: &str, to: &mut Vec<u8>) -> Result<(), Memory>
    ensures { OnOk result (to.new.items ≡ to.old.items ++ (text.now ++ end.now)) }
{
    put_text(text, to)?;
    put_text(end, to)
}

/// Puts what is wrong with the words.
fn put_usage(kind: UsageKind, to: &mut Vec<u8>) -> Result<(), Memory>
    ensures { OnOk result (to.new.items ≡ to.old.items ++ usage_text kind) }
{
    match kind {
        UsageKind::NoCommand => put_text("usage: no command", to),
        UsageKind::UnknownCommand => put_text("usage: unknown command", to),
        UsageKind::Words => put_text("usage: words", to),
        UsageKind::Number(of) => put_both("usage: number for ", opt_text(of), to),
        UsageKind::Name(of) => put_both("usage: name for ", opt_text(of), to),
    }
}

/// What an import is of.
fn import_text(kind: Kind) -> &'static str
    ensures { result.now ≡ kind_text kind }
{
    match kind {
        Kind::Function => "function",
        Kind::Mem => "mem",
        Kind::Func => "func",
        Kind::Other => "other",
    }
}

/// The end of a line that names a member.
fn member_text(alloc: Global, member: u32) -> Result<String, Memory>
    ensures { IfOk result (λ text. string_bytes text ≡ codes " in " ++ decimal member) }
{
    let text = format!(in alloc; " in {member}")?;
    Ok(text)
}

/// Puts which import of a member is at fault.
fn put_member_import(
    alloc: Global,
    text: &str,
    member: u32,
    kind: Kind,
    name: &Text,
    to: &mut Vec<u8>,
) -> Result<(), Memory>
    ensures { OnOk result (to.new.items ≡ to.old.items ++ (text.now ++ kind_text kind ++ codes " " ++ escaped name.now ++ (codes " in " ++ decimal member))) }
{
    put_text(text, to)?;
    put_text(import_text(kind), to)?;
    put_text(" ", to)?;
    put_escaped(name.as_str(), to)?;
    put_text(&member_text(alloc, member)?, to)
}

/// That the members ask for too much memory.
fn pages_text(alloc: Global, pages: u64, max: u32) -> Result<String, Memory>
    ensures { IfOk result (λ text. string_bytes text ≡ link_text (link.MemoryLimit pages max)) }
{
    let text = format!(in alloc; "memory of {pages} pages is above {max}")?;
    Ok(text)
}

/// That the members ask for too large a table.
fn entries_text(alloc: Global, entries: u64, max: u32) -> Result<String, Memory>
    ensures { IfOk result (λ text. string_bytes text ≡ link_text (link.TableLimit entries max)) }
{
    let text = format!(in alloc; "table of {entries} entries is above {max}")?;
    Ok(text)
}

/// That a member has its own memory.
fn own_memory_text(alloc: Global, member: u32) -> Result<String, Memory>
    ensures { IfOk result (λ text. string_bytes text ≡ link_text (link.OwnMemory member)) }
{
    let text = format!(in alloc; "module {member} has its own memory")?;
    Ok(text)
}

/// That a member has a thread-local export, up to its name.
fn tls_text(alloc: Global, member: u32) -> Result<String, Memory>
    ensures { IfOk result (λ text. string_bytes text ≡ codes "module " ++ decimal member ++ codes " has TLS export ") }
{
    let text = format!(in alloc; "module {member} has TLS export ")?;
    Ok(text)
}

/// Which two members define a name.
fn pair_text(alloc: Global, first: u32, second: u32) -> Result<String, Memory>
    ensures { IfOk result (λ text. string_bytes text ≡ codes " in " ++ decimal first ++ codes " and " ++ decimal second) }
{
    let text = format!(in alloc; " in {first} and {second}")?;
    Ok(text)
}

/// Puts a text, a name and a further text.
pub(crate) fn put_around(text: &str, name: &str, end: &str, to: &mut Vec<u8>) -> Result<(), Memory>
    ensures { OnOk result (to.new.items ≡ to.old.items ++ (text.now ++ escaped name.now ++ end.now)) }
{
    put_text(text, to)?;
    put_escaped(name, to)?;
    put_text(end, to)
}

/// Puts why a set doesn't link.
fn put_link(alloc: Global, fault: &LinkFault, to: &mut Vec<u8>) -> Result<(), Memory>
    ensures { OnOk result (to.new.items ≡ to.old.items ++ link_text fault.now) }
{
    match fault {
        LinkFault::MemoryLimit { pages, max } => put_text(&pages_text(alloc, *pages, *max)?, to),
        LinkFault::TableLimit { entries, max } => put_text(
            &entries_text(alloc, *entries, *max)?,
            to,
        ),
        LinkFault::OwnMemory { module } => put_text(&own_memory_text(alloc, *module)?, to),
        LinkFault::TlsExport { module, name } => put_around(
            &tls_text(alloc, *module)?,
            name.as_str(),
            "",
            to,
        ),
        LinkFault::Unresolved { module, kind, name } => put_member_import(
            alloc,
            "unresolved ",
            *module,
            *kind,
            name,
            to,
        ),
        LinkFault::IllTyped { module, kind, name } => put_member_import(
            alloc,
            "ill-typed ",
            *module,
            *kind,
            name,
            to,
        ),
        LinkFault::Duplicate {
            name,
            first,
            second,
        } => put_around(
            "duplicate ",
            name.as_str(),
            &pair_text(alloc, *first, *second)?,
            to,
        ),
        LinkFault::NoEntry => put_text("no entry", to),
        LinkFault::Memory => put_text("out of memory", to),
    }
}

/// That the section of a number is too long to be written.
fn section_text(alloc: Global, id: u8) -> Result<String, Memory>
    ensures { IfOk result (λ text. string_bytes text ≡ long_text id) }
{
    let text = format!(in alloc; "section {id} too long")?;
    Ok(text)
}

/// Puts why no merged module is written.
fn put_merging(alloc: Global, fault: MergeFault, to: &mut Vec<u8>) -> Result<(), Memory>
    ensures { OnOk result (to.new.items ≡ to.old.items ++ merge_text fault) }
{
    match fault {
        MergeFault::SectionSize { id } => put_text(&section_text(alloc, id)?, to),
        MergeFault::Memory => put_text("out of memory", to),
    }
}

/// Puts how a run ended that neither returned nor exited.
pub(crate) fn put_end(end: RunEnd, to: &mut Vec<u8>) -> Result<(), Memory>
    ensures { OnOk result (to.new.items ≡ to.old.items ++ unwrap_or (end_text end) []) }
{
    match end {
        RunEnd::Return | RunEnd::Exit(_) => Ok(()),
        RunEnd::Trap(trap) => put_trap(trap, to),
        RunEnd::StepLimit => put_text("step limit", to),
        RunEnd::DepthLimit => put_text("depth limit", to),
        RunEnd::HostCallLimit => put_text("host call limit", to),
        RunEnd::TurnLimit => put_text("turn limit", to),
    }
}

/// Puts which import is at fault.
fn put_import(text: &str, module: &Text, name: &Text, to: &mut Vec<u8>) -> Result<(), Memory>
    ensures { OnOk result (to.new.items ≡ to.old.items ++ (text.now ++ escaped «module».now ++ codes " " ++ escaped name.now)) }
{
    put_text(text, to)?;
    put_escaped(module.as_str(), to)?;
    put_text(" ", to)?;
    put_escaped(name.as_str(), to)
}

/// Puts why a module isn't run.
fn put_single(fault: &SingleFault, to: &mut Vec<u8>) -> Result<(), Memory>
    ensures { OnOk result (to.new.items ≡ to.old.items ++ single_text fault.now) }
{
    match fault {
        SingleFault::NoEntry => put_text("no entry", to),
        SingleFault::HostImport { module, name } => put_import("no host import ", module, name, to),
        SingleFault::HostType { module, name } => put_import(
            "ill-typed host import ",
            module,
            name,
            to,
        ),
        SingleFault::SegmentTrap => put_text("segment out of bounds", to),
        SingleFault::Memory => put_text("out of memory", to),
    }
}

/// Why no set is made.
fn making_text(fault: GenFault) -> &'static str
    ensures { result.now ≡ gen_text fault }
{
    match fault {
        GenFault::Range => "N must be 1 to 255",
        GenFault::Memory => "out of memory",
    }
}

/// Puts a text and a number.
fn put_numbered(alloc: Global, text: &str, n: u32, to: &mut Vec<u8>) -> Result<(), Memory>
    ensures { OnOk result (to.new.items ≡ to.old.items ++ (text.now ++ decimal n)) }
{
    put_text(text, to)?;
    put_number(alloc, u64::from(n), to)
}

/// Puts why a trace isn't that of a run.
fn put_trace(alloc: Global, fault: &TraceFault, to: &mut Vec<u8>) -> Result<(), Memory>
    ensures { OnOk result (to.new.items ≡ to.old.items ++ trace_fault_text fault.now) }
{
    match fault {
        TraceFault::Line { line } => put_numbered(alloc, "trace malformed in line ", *line, to),
        TraceFault::Steps => put_text("trace has too many steps", to),
        TraceFault::Single(fault) => put_single(fault, to),
        TraceFault::Differs { call } => put_numbered(alloc, "trace differs at call ", *call, to),
        TraceFault::Memory => put_text("out of memory", to),
    }
}

/// Puts that start-up trapped.
fn put_startup_trap(trap: Trap, to: &mut Vec<u8>) -> Result<(), Memory>
    ensures { OnOk result (to.new.items ≡ to.old.items ++ snap_text (snap.Trap trap)) }
{
    put_text("snapshot: ", to)?;
    put_trap(trap, to)?;
    put_text(" in start-up", to)
}

/// Puts why there is no snapshot of a set.
fn put_snap(alloc: Global, fault: SnapFault, to: &mut Vec<u8>) -> Result<(), Memory>
    ensures { OnOk result (to.new.items ≡ to.old.items ++ snap_text fault) }
{
    match fault {
        SnapFault::HostCall => put_text("snapshot: host call in start-up", to),
        SnapFault::Trap(trap) => put_startup_trap(trap, to),
        SnapFault::Steps => put_text("snapshot: step limit in start-up", to),
        SnapFault::Depth => put_text("snapshot: depth limit in start-up", to),
        SnapFault::SectionSize { id } => put_text(&section_text(alloc, id)?, to),
        SnapFault::Memory => put_text("out of memory", to),
    }
}

/// Puts the text of an outcome, if there is one. A board has lines of its own.
fn put_outcome(alloc: Global, outcome: &Outcome, to: &mut Vec<u8>) -> Result<(), Memory>
    ensures { OnOk result (to.new.items ≡ to.old.items ++ unwrap_or (outcome_text outcome.now) []) }
{
    match outcome {
        Outcome::Done(_) => Ok(()),
        Outcome::Ran(ran) => put_end(ran.end, to),
        Outcome::Board(_) => Ok(()),
        Outcome::Usage(kind) => put_usage(*kind, to),
        Outcome::Set(fault) => put_set(alloc, fault, to),
        Outcome::Link(fault) => put_link(alloc, fault, to),
        Outcome::Merge(fault) => put_merging(alloc, *fault, to),
        Outcome::Single(fault) => put_single(fault, to),
        Outcome::Gen(fault) => put_text(making_text(*fault), to),
        Outcome::Trace(fault) => put_trace(alloc, fault, to),
        Outcome::TooLong(_) => put_text("trace too long", to),
        Outcome::Snap(fault) => put_snap(alloc, *fault, to),
        Outcome::WriteFault => put_text("write fault", to),
        Outcome::Memory => put_text("out of memory", to),
    }
}

/// The line of what is wrong with the words, its line feed included.
pub fn usage_line(alloc: Global, kind: &UsageKind) -> Result<Vec<u8>, Memory>
    ensures { IfOk result (λ line. line.items ≡ line_with (usage_text kind.now)) }
{
    let mut line = Vec::new(alloc);
    put_text("wdyl: ", &mut line)?;
    put_usage(*kind, &mut line)?;
    line.push(b'\n')?;
    Ok(line)
}

/// The line of why there is no closed set, its line feed included.
pub fn set_line(alloc: Global, fault: &SetFault) -> Result<Vec<u8>, Memory>
    ensures { IfOk result (λ line. line.items ≡ line_with (set_text fault.now)) }
{
    let mut line = Vec::new(alloc);
    put_text("wdyl: ", &mut line)?;
    put_set(alloc, fault, &mut line)?;
    line.push(b'\n')?;
    Ok(line)
}

/// The line of why a set doesn't link, its line feed included.
pub fn link_line(alloc: Global, fault: &LinkFault) -> Result<Vec<u8>, Memory>
    ensures { IfOk result (λ line. line.items ≡ line_with (link_text fault.now)) }
{
    let mut line = Vec::new(alloc);
    put_text("wdyl: ", &mut line)?;
    put_link(alloc, fault, &mut line)?;
    line.push(b'\n')?;
    Ok(line)
}

/// The line of an outcome that has a text, its line feed included.
fn text_line(alloc: Global, outcome: &Outcome) -> Result<Vec<u8>, Memory>
    requires { IsSome (outcome_text outcome.now) }
    ensures { IfOk result (λ line. option_map line_with (outcome_text outcome.now) ≡ Some line.items) }
{
    let mut line = Vec::new(alloc);
    put_text("wdyl: ", &mut line)?;
    put_outcome(alloc, outcome, &mut line)?;
    line.push(b'\n')?;
    Ok(line)
}

/// The line of an outcome of which something is told, its line feed included. For a board these are the lines of its programs, in order.
pub fn line(alloc: Global, outcome: &Outcome) -> Result<Vec<u8>, Memory>
    requires { IsSome (line_of outcome.now) }
    ensures { IfOk result (λ line. line_of outcome.now ≡ Some line.items) }
{
    match outcome {
        Outcome::Board(board) => board_text(alloc, board.runs.items()),
        other => text_line(alloc, other),
    }
}

/// Whether nothing is told of an outcome: the command is done, or the run, or each one of a board, returned or exited.
pub fn is_silent(outcome: &Outcome) -> bool
    ensures silent { result ≡ true → line_of outcome.now ≡ None }
    ensures told { result ≡ false → IsSome (line_of outcome.now) }
{
    match outcome {
        Outcome::Done(_) => true,
        Outcome::Ran(ran) => !is_end_told(ran.end),
        Outcome::Board(board) => !is_any_told(board.runs.items()),
        _ => false,
    }
}
