// The calls of the folded search and of the panel as a controller makes them: a state is nine lent words, the panel is one lent word, and an
// answer is a number. Each takes any input at all; where it is refused it changes nothing.
// Answers are numbers: `profile_walker` hands them to C as they are.
#![tactic(auto)]

mod cards;
mod steps;
mod words;

pub use cards::{accept_in_words, shift_start_in_words};
pub use steps::{open_in_words, roll_back_in_words, run_in_words, step_in_words};
