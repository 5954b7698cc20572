// From a profile's text to what `walk` prints, and the line of a refusal.
#![tactic(auto)]

mod lines;
mod text;
mod walk;

pub use lines::refusal_line;
pub use text::walk_text;
