//! What host functions answer: the calls of WASI preview 1 by their table, and others by their callbacks. How a run over them ends.
#![tactic(auto)]

ghost use Rattle.spec_hosts.specs.Laws.{WasiGoesFirst, OthersAreOfTheTable, WasiAnswersFit};

mod ran;

pub use dyl_outside;
pub use ran::{Ran, RunEnd};
pub use spec_runtime::{spec_binary, wasm_form};

/// Where WASI is declared before the host functions of a table, each declared type is that of its call or of its entry.
pub fn names_have_their_types()
    ensures wasi { WasiGoesFirst }
    ensures others { OthersAreOfTheTable }
{}

/// What WASI answers fits the type of the call and the memory.
pub fn wasi_answers_fit()
    ensures { WasiAnswersFit }
{}
