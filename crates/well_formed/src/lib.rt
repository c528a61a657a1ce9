// Theorems that every path made from legal texts is well-formed UTF-8 (specs/, proofs/), no code.
#![tactic(auto)]
