// The array form: converting a linked image to it, and asking it for the edges out of one vertex.
//
// Every public function takes any input at all: it is refused with its number of document 01 and
// changes nothing, or it does its work. Document 01's element is a vertex here, its reference an edge.
#![tactic(auto)]

mod convert;
mod form;
mod query;

pub use convert::to_array;
pub use form::ArrayForm;
pub use query::{check_query, edges_out};
