//! Step systems, their runs over lists of answers, and agreement of two runs.
//!
//! A clause can't range over systems, so the general theorems stay public lemmas in proofs/: how runs grow
//! (`Runs`), that the law of one step gives agreement (`Simulation`), and that with its cost it gives agreement
//! within the cost (`Costs`).
#![tactic(auto)]
