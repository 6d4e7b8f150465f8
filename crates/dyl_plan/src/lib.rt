//! Placement of members' regions in the one memory and in the one table (DynamicLinking.md of the WebAssembly tool conventions).
#![tactic(auto)]

mod ends;
mod plan;
mod region;

pub use plan::{Plan, place};
pub use region::{Region, Sizes};
pub use spec_linking::PlanFault;
