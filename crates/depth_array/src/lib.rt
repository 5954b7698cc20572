// Depth-first search over the array form.
//
// The public function takes any input at all: it is refused with its number of document 01 and
// changes nothing, or it does its work. Document 01's element is a vertex here, its reference an edge.
#![tactic(auto)]

mod array;

pub use array::dfs_array;
