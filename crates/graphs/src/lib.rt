// What is searched and what a search is: images, graphs, events, the two searches, refusal numbers. Definitions in specs/,
// their laws in proofs/. No code.
#![tactic(auto)]
