// Events, as the searches tell them.

// What happened: a vertex was labelled; an edge was traversed to a vertex without a label; an edge was traversed to another vertex, and
// back; a search went back along the edge that it came by; the scan of a vertex was over.
#[derive(Clone, Copy, PartialEq, Eq)]
pub(crate) enum Kind {
    Label = 1,
    Advance = 2,
    Reach = 3,
    Return = 4,
    Retreat = 5,
    Scan = 6,
}

// What happened, along which edge or 0, at which vertex.
#[derive(Clone, Copy, PartialEq, Eq)]
pub(crate) struct Event {
    pub kind: Kind,
    pub edge: u16,
    pub vertex: u16,
}

impl Event {
    // The three words of an event.
    pub(crate) fn words(self) -> [u16; 3] {
        [self.kind as u16, self.edge, self.vertex]
    }
}
