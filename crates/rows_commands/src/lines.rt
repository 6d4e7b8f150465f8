// Outcomes that no command of a row comes to, and their lines.
use crate::facts::Facts;
use dyl_app::{Outcome, SetFault, SnapFault, status, tell};
use dyl_outside::MemSink;
use spec_binary::DecodeFault;
use spec_binary::wasm_form::Memory;
use std::alloc::Global;

/// The outcome that is named: want of memory, a snapshot with too long a section, or too many locals in a function of the largest number.
fn outcome_named(name: &str) -> Outcome {
    match name {
        "memory" => Outcome::Memory,
        "long-snapshot" => Outcome::Snap(SnapFault::SectionSize { id: 11 }),
        _ => Outcome::Set(SetFault::Decode {
            module: 0,
            fault: DecodeFault::TooManyLocals { function: u32::MAX },
        }),
    }
}

/// The status of the outcome that is named, and its line.
pub fn note_line(alloc: Global, name: &str, came: &mut Facts) -> Result<(), Memory> {
    let mut errors = MemSink::new(alloc);
    let answer = tell(alloc, outcome_named(name), &mut errors);
    let code = status(&answer);
    drop(answer);
    came.add("status", format!(in alloc; "{code}")?.into_bytes())?;
    came.add("err", errors.held().to_vec(alloc)?)
}
