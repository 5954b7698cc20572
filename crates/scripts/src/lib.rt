// Scripts of calls: a folded search opened, halted and resumed as a list of words says.
//
// Every public function takes any input at all: it is refused with its number of document 01 and changes nothing, or it does its work.
#![tactic(auto)]

mod order;
mod play;

pub use play::{Replayed, replay};
