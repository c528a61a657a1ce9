// The calls of crates/path_parts on the grammar's data types: definitions and theorems only (specs/,
// proofs/), no code.
#![tactic(auto)]
