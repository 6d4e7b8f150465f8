//! What a machine is given: the units of a run, behind one trait.
#![tactic(auto)]

mod view;

pub use view::View;
