// The state of a folded search, what the calls answer, and the calls that make no step: the opening and the roll-back order.
//
// Every public function takes any input at all. Document 01's element is a vertex here, its reference an edge, its move a step, its
// winding order a roll-back order, its allowance a budget.
#![tactic(auto)]

mod judge;
mod opening;
mod order;
mod values;

pub use judge::{check_state, is_over};
pub use opening::open;
pub use order::roll_back;
pub use values::{Phase, Reason, Reply, State};
