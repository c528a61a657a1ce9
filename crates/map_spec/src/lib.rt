// Path maps, the MapFunction of the Rust pcp/mapping.rs: definitions and theorems only (specs/,
// proofs/), no code.
#![tactic(auto)]
