// What the whole-run walkers have in common: the tests before a walk, its answer, and what every walk writes.
//
// Every public function takes any input at all. Document 01's element is a vertex here, its reference an edge.
#![tactic(auto)]

mod checks;
mod kinds;
mod listed;
mod write;

pub use checks::{check_array_walk, check_search, check_walk};
pub use kinds::Kind;
pub use listed::{is_listed, rises};
pub use write::{begin, clear, emit, label, mark_blanks};
