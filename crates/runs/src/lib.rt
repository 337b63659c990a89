// Demand 3 of the calls for C. There is no code here: `specs/` has runs of the exported calls, each joined to the next by the predicate that its contract
// cites, and `proofs/` what 01 says of every run, by the theorems of `claims`.
#![tactic(auto)]
