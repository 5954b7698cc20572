// Images: vertex and edge numbers, and the checker of linked images.
//
// Every public function takes any input at all: it is refused with its number of document 01 and
// changes nothing, or it does its work. Document 01's element is a vertex here, its reference an edge.
#![tactic(auto)]

mod check;
mod image;
mod nodes;
mod sizes;

pub use check::{check_image, tail_out};
pub use image::Image;
pub use nodes::{Edge, Vertex, is_link, is_vertex};
pub use sizes::check_sizes;
