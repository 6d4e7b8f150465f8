// Ends of runs.
ghost use Rattle.std.specs.Prelude.{◌≡◌, ◌++◌, codes, decimal, OnOk};
ghost use Rattle.dyl_print.specs.Printed.{trap_text, end_word};

use crate::texts::{put_number, put_text};
use spec_hosts::RunEnd;
use spec_hosts::wasm_form::{Memory, Trap};
use std::alloc::Global;

/// Why code trapped.
fn cause_text(trap: Trap) -> &'static str
    ensures { result.now ≡ trap_text trap }
{
    match trap {
        Trap::Unreachable => "unreachable",
        Trap::MemoryBounds => "memory bounds",
        Trap::TableBounds => "table bounds",
        Trap::NullEntry => "null entry",
        Trap::WrongType => "wrong type",
        Trap::DivideByZero => "divide by zero",
        Trap::Overflow => "overflow",
    }
}

/// Puts that code trapped, and why.
pub fn put_trap(trap: Trap, to: &mut Vec<u8>) -> Result<(), Memory>
    ensures { OnOk result (to.new.items ≡ to.old.items ++ (codes "trap " ++ trap_text trap)) }
{
    put_text("trap ", to)?;
    put_text(cause_text(trap), to)
}

/// Puts that a run exited, and with which code.
fn put_exit(alloc: Global, code: u32, to: &mut Vec<u8>) -> Result<(), Memory>
    ensures { OnOk result (to.new.items ≡ to.old.items ++ (codes "exit " ++ decimal code)) }
{
    put_text("exit ", to)?;
    put_number(alloc, u64::from(code), to)
}

/// Puts how a run ended: `return`, `exit` with its code, `trap` with its cause, `steplimit`, `depthlimit`, `hostcalllimit` or `turnlimit`.
pub fn put_end(alloc: Global, end: RunEnd, to: &mut Vec<u8>) -> Result<(), Memory>
    ensures { OnOk result (to.new.items ≡ to.old.items ++ end_word end) }
{
    match end {
        RunEnd::Return => put_text("return", to),
        RunEnd::Exit(code) => put_exit(alloc, code, to),
        RunEnd::Trap(trap) => put_trap(trap, to),
        RunEnd::StepLimit => put_text("steplimit", to),
        RunEnd::DepthLimit => put_text("depthlimit", to),
        RunEnd::HostCallLimit => put_text("hostcalllimit", to),
        RunEnd::TurnLimit => put_text("turnlimit", to),
    }
}
