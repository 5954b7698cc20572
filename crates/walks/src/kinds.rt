// The seven kinds of event, with their numbers. `Label`, `Scan` and `Traverse` are of an element; the others are the moves of a depth-first search
// along a reference.
#[derive(Clone, Copy, Debug, PartialEq, Eq)]
pub enum Kind {
    Label = 1,
    AdvanceTree = 2,
    AdvanceNontree = 3,
    RetreatNontree = 4,
    RetreatTree = 5,
    Scan = 6,
    Traverse = 7,
}
