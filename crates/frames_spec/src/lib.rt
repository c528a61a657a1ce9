// The frame protocol of the program `frames`: this crate has only definitions (specs/) and theorems
// (proofs/).
#![tactic(auto)]
