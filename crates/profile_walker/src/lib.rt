// The calls of the profile walker for controllers in C or Rust. `include/profile_walker.h` declares them.
//
// Each call works on numbers and on lent areas; an area passes as a pointer and its length in words or bytes. A call returns the number
// with which document 01 turns it back, and then changes nothing, or 0. A state is nine lent words, the panel is one lent word. Each is one
// line: it promises what the inner call of its name promises (`tally_words`, `state_words` and `text_words` hand over words), and calls it.
// Every call takes any input at all.
#![tactic(auto)]

mod cards;
mod profiles;
mod searches;
mod steps;

pub use cards::{profile_walker_accept, profile_walker_shift_start};
pub use profiles::{
    profile_walker_check_image, profile_walker_read_profile, profile_walker_refusal_line,
    profile_walker_to_array, profile_walker_walk_text,
};
pub use searches::{
    profile_walker_bfs_folded, profile_walker_bfs_queue, profile_walker_dfs_array,
    profile_walker_dfs_parent, profile_walker_dfs_recursive,
};
pub use steps::{
    profile_walker_open, profile_walker_roll_back, profile_walker_run, profile_walker_step,
};
