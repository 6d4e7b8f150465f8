//! Merges a linked set into one ordinary module.
#![tactic(auto)]

mod built;
mod made;
mod making;
mod sets;

pub use made::Parts;
pub use making::parts;
pub use sets::{capped_bulk, check_types, merge};
pub use spec_merging::MergeFault;
