// The folded depth-first search: single steps, and runs of them.
//
// Every public function takes any input at all: it is refused with its number of document 01 and changes nothing, or it does its work.
// `step` and `run` take the four areas one by one, as their callers hold them; inside, `Areas` carries them.
#![tactic(auto)]

mod areas;
mod back;
mod calls;
mod forward;
mod moves;
mod tried;

pub use calls::{run, step};
