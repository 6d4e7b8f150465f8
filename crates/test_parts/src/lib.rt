//! Parts through their public doors: what rows of text can't say of devices, of declared host functions and of records.
#![tactic(auto)]

#[cfg(test)]
mod tests;
