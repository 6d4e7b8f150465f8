//! What there is to say of merged modules: what they export, and why none is written.
#![tactic(auto)]

mod fault;

pub use fault::MergeFault;
pub use wasm_form;
