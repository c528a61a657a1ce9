// Theorems that mapping, translation, chaining and shifting leave the target in a path's brackets as it is
// (specs/, proofs/), no code.
#![tactic(auto)]
