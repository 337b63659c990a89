// The mode of 000 (the wide block and T_star), defined over any block permutation, with its laws. There is no code here: `specs/` has the
// definitions in 000's steps and variables, with 01's edges and worked examples, and `proofs/` what every mode of this kind has by them.
#![tactic(auto)]
