// What is claimed of whole traces of calls (demand 3). There is no code here: `specs/` has the plain list of 01 and the machine that runs the
// calls' own definitions, and `proofs/` what joins them.
#![tactic(auto)]
