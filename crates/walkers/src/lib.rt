// The walkers, as callers name them. Whole runs: depth-first search recursive, by parent edges and over the array form; breadth-first search
// by a queue and folded into the links. Step by step: the folded depth-first search, opened, stepped, run and rolled back, and replayed
// from a script of such calls. Each promises what it returns and leaves in the crate that has its code; what is claimed of all of them
// together stands in specs/.
#![tactic(auto)]

pub use breadth_folded::bfs_folded;
pub use breadth_queue::bfs_queue;
pub use depth_array::dfs_array;
pub use depth_parent::dfs_parent;
pub use depth_recursive::dfs_recursive;
pub use folded::{run, step};
pub use refusals::Refusal;
pub use scripts::{Replayed, replay};
pub use states::{Phase, Reason, Reply, State, check_state, open, roll_back};
