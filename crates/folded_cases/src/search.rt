// The whole search, by a stack of vertices with the edge next to traverse of each.
use crate::areas::{Links, place_of, put_of, word_of};
use crate::events::{Event, Kind};
use crate::state::State;
use std::alloc::{AllocError, Global};

// A vertex before it is labelled, while it is on the stack, and once it was there.
#[derive(Clone, Copy, PartialEq, Eq)]
enum Colour {
    White,
    Grey,
    Black,
}

// A vertex on the stack, and the edge next to traverse of it, or 0.
#[derive(Clone, Copy)]
struct Place {
    vertex: u16,
    edge: u16,
}

// What a search finds: the marks and the events at its end, how many labels there are, and whether an edge led to a vertex on the stack.
#[derive(Drop)]
pub(crate) struct Found {
    pub marks: Vec<u16>,
    pub events: Vec<Event>,
    pub labels: u16,
    pub is_circular: bool,
}

// A search that is under way over some links.
#[derive(Drop)]
struct Search<'a> {
    links: &'a Links,
    n: u16,
    stack: Vec<Place>,
    colours: Vec<Colour>,
    found: Found,
}

impl Search<'_> {
    // Tells an event.
    fn emit(&mut self, kind: Kind, edge: u16, vertex: u16) -> Result<(), AllocError> {
        self.found.events.push(Event { kind, edge, vertex })?;
        Ok(())
    }

    // The colour of vertex x.
    fn colour(&self, x: u16) -> Option<Colour> {
        self.colours.get(place_of(x)?).copied()
    }

    // Gives vertex x a colour.
    fn paint(&mut self, x: u16, colour: Colour) {
        if let Some(place) = place_of(x)
            && let Some(c) = self.colours.get_mut(place)
        {
            *c = colour;
        }
    }

    // Labels x and begins its scan.
    fn push(&mut self, x: u16) -> Result<(), AllocError> {
        self.found.labels = self.found.labels.saturating_add(1);
        put_of(&mut self.found.marks, x, self.found.labels);
        self.paint(x, Colour::Grey);
        self.emit(Kind::Label, 0, x)?;
        let edge = word_of(&self.links.after, x);
        self.stack.push(Place { vertex: x, edge })?;
        Ok(())
    }

    // Traverses an edge that leaves u, and is the next of it.
    fn traverse(&mut self, u: u16, edge: u16) -> Result<(), AllocError> {
        let x = word_of(&self.links.tail, edge.saturating_sub(self.n));
        if word_of(&self.found.marks, x) == 0 {
            self.stack.push(Place { vertex: u, edge })?;
            self.emit(Kind::Advance, edge, u)?;
            return self.push(x);
        }
        self.emit(Kind::Reach, edge, u)?;
        self.emit(Kind::Return, edge, u)?;
        if self.colour(x) == Some(Colour::Grey) {
            self.found.is_circular = true;
        }
        let next = word_of(&self.links.after, edge);
        self.stack.push(Place {
            vertex: u,
            edge: next,
        })?;
        Ok(())
    }

    // Ends the scan of u, and goes back to the vertex below it on the stack, if there is one.
    fn go_back(&mut self, u: u16) -> Result<(), AllocError> {
        self.emit(Kind::Scan, 0, u)?;
        self.paint(u, Colour::Black);
        if let Some(Place { vertex, edge }) = self.stack.pop() {
            self.emit(Kind::Retreat, edge, vertex)?;
            let next = word_of(&self.links.after, edge);
            self.stack.push(Place { vertex, edge: next })?;
        }
        Ok(())
    }
}

// The search of a state's profile. The elements already on the blank have a mark, and no colour.
pub(crate) fn find(
    alloc: Global,
    links: &Links,
    state: &State,
    blank: &[u16],
) -> Result<Found, AllocError> {
    let n = state.n;
    let mut search = Search {
        links,
        n,
        stack: Vec::new(alloc),
        colours: vec![in alloc; Colour::White; usize::from(n)]?,
        found: Found {
            marks: blank.to_vec(alloc)?,
            events: Vec::new(alloc),
            labels: 0,
            is_circular: false,
        },
    };
    search.push(state.start)?;
    for _ in 0..state.nodes() {
        let Some(Place { vertex, edge }) = search.stack.pop() else {
            break;
        };
        if edge == 0 {
            search.go_back(vertex)?;
        } else {
            search.traverse(vertex, edge)?;
        }
    }
    let Search { found, .. } = search;
    Ok(found)
}
