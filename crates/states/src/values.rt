// The state of a folded search, by value; why a run stopped; and what a call that is taken has done.
use images::{Edge, Vertex};

// v is the vertex being scanned, e the edge next to traverse or null, f the trailer, next the next label number. All of them are untrusted
// numbers: every call tests their ranges. The phase too is a number, since a caller may hand in any.
#[derive(Clone, Copy)]
pub struct State {
    pub n: u16,
    pub m: u16,
    pub start: Vertex,
    pub v: Vertex,
    pub e: Edge,
    pub f: u16,
    pub phase: u16,
    pub next: u16,
    pub circular: u16,
}

// The six phases, with their numbers (document 01: walking, restoring, ended, winding back, withdrawn, accepted).
// A state's phase is compared as a number: to convert it, a word that is none of them would have to be refused first.
#[derive(Clone, Copy, Debug, PartialEq, Eq)]
pub enum Phase {
    Walking = 1,
    Restoring = 2,
    Finished = 3,
    RollingBack = 4,
    RolledBack = 5,
    Accepted = 6,
}

// Why a run stopped: there was no step to come; its budget was spent; the step to come was out of kind.
#[derive(Clone, Copy, Debug, PartialEq, Eq)]
pub enum Reason {
    Ended = 1,
    Spent = 2,
    Stuck = 3,
}

// What a call that is taken has done: why it stopped, of a run alone; the steps made, the number of events written, and the state.
#[derive(Clone, Copy)]
pub struct Reply {
    pub why: Option<Reason>,
    pub steps: u32,
    pub events: usize,
    pub state: State,
}
