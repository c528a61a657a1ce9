// The rest of a mapped path: definitions and theorems only (specs/, proofs/), no code.
#![tactic(auto)]
