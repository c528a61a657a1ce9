// The table of cases, the wrong tools of the requirements, and for each call an answer that a wrong tool might
// give, with its input; theorems only. The files of specs/ have the statements, those of the same names in
// proofs/ the proofs.
#![tactic(auto)]
