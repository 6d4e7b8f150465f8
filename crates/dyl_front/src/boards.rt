// The lines that are put to the errors for a board.
ghost use Rattle.std.specs.Prelude.{◌≡◌, ◌++◌, [], codes, decimal, unwrap_or, is_some, true, false, Some, None, IsSome, IfOk, OnOk, string_bytes};
ghost use Rattle.std.specs.List.{list_any};
ghost use Rattle.dyl_front.specs.Lines.{end_text, program_line, board_lines};

use crate::lines::put_end;
use spec_merging::wasm_form::Memory;
use spec_traces::dyl_print::put_text;
use spec_traces::spec_hosts::{Ran, RunEnd};
use std::alloc::Global;

/// Whether anything is told of an end: the run neither returned nor exited.
pub(crate) fn is_end_told(end: RunEnd) -> bool
    ensures { result ≡ is_some (end_text end) }
{
    !matches!(end, RunEnd::Return | RunEnd::Exit(_))
}

/// Whether anything is told of one of these ends.
fn is_any_end_told(runs: &[Ran]) -> bool
    ensures { result ≡ list_any (λ run. is_some (end_text run.end)) runs.now }
{
    runs.iter().any(|run| is_end_told(run.end))
}

/// Whether anything is told of a program.
#[tactic(auto, using(crate::proofs::BoardLines::lines_told, crate::proofs::BoardLines::no_lines))]
pub(crate) fn is_any_told(runs: &[Ran]) -> bool
    ensures told { result ≡ true → IsSome (board_lines 0 runs.now) }
    ensures silent { result ≡ false → board_lines 0 runs.now ≡ None }
{
    is_any_end_told(runs)
}

/// How the text of program p begins.
fn program_start(alloc: Global, p: usize) -> Result<String, Memory>
    ensures { IfOk result (λ text. string_bytes text ≡ codes "program " ++ decimal p ++ codes ": ") }
{
    let text = format!(in alloc; "program {p}: ")?;
    Ok(text)
}

/// Puts the line of program p, where anything is told of its end.
#[tactic(auto, using(crate::proofs::BoardLines::told_put))]
fn put_program(alloc: Global, p: usize, end: RunEnd, to: &mut Vec<u8>) -> Result<(), Memory>
    ensures { OnOk result (to.new.items ≡ to.old.items ++ unwrap_or (program_line p end) []) }
{
    if !is_end_told(end) {
        return Ok(());
    }
    put_text("wdyl: ", to)?;
    put_text(&program_start(alloc, p)?, to)?;
    put_end(end, to)?;
    put_text("\n", to)
}

/// Puts the lines of all programs.
fn put_programs(alloc: Global, runs: &[Ran], to: &mut Vec<u8>) -> Result<(), Memory>
    ensures { OnOk result (to.new.items ≡ to.old.items ++ unwrap_or (board_lines 0 runs.now) []) }
{
    for (p, run) in runs.iter().enumerate() {
        put_program(alloc, p, run.end, to)?;
    }
    Ok(())
}

/// The lines of a board of which something is told, their line feeds included.
pub(crate) fn board_text(alloc: Global, runs: &[Ran]) -> Result<Vec<u8>, Memory>
    requires { IsSome (board_lines 0 runs.now) }
    ensures { IfOk result (λ lines. board_lines 0 runs.now ≡ Some lines.items) }
{
    let mut lines = Vec::new(alloc);
    put_programs(alloc, runs, &mut lines)?;
    Ok(lines)
}
