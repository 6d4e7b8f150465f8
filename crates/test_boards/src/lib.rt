//! A board of loaded sets through its public calls: what no row of commands asks.
#![tactic(auto)]

#[cfg(test)]
mod tests;
