// Routes: a path mapped out over a list of legs and home again. This crate has only definitions (specs/) and
// the round-trip theorem (proofs/).
#![tactic(auto)]
