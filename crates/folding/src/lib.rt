// The folded depth-first search as a machine, lists of calls, and the agreement of the two lines. Definitions and claims in
// specs/, their proofs in proofs/. No code.
#![tactic(auto)]
