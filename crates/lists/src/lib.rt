// Mathematics of lists, words and counts: definitions in specs/, laws in proofs/. Nothing of the product, and no code.
#![tactic(auto)]
