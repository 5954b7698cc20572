// A second depth-first search, over the lines that were read: a stack of vertices, and with each how many lines were looked through for
// it, of which the last is the one last taken. Events are listed, and moves counted, as they are made.
use crate::areas::{of_node, put};
use crate::image::Sizes;
use crate::listing::Line;
use crate::reader::Said;
use std::alloc::{AllocError, Global};

// What an event tells, by its number in document 01.
#[derive(Clone, Copy)]
enum Kind {
    Labelled = 1,
    Taken = 2,
    Met = 3,
    Returned = 4,
    LeftBy = 5,
    Left = 6,
}

// An event: the edge that it is of, or 0, and the vertex.
#[derive(Clone, Copy)]
pub(crate) struct Event {
    kind: Kind,
    edge: u16,
    vertex: u16,
}

impl Event {
    // The words of an event.
    pub(crate) fn words(self) -> [u16; 3] {
        [self.kind as u16, self.edge, self.vertex]
    }
}

// A vertex being scanned, and how many lines were looked through for it.
#[derive(Clone, Copy)]
struct Visit {
    vertex: u16,
    seen: u16,
}

// What is counted: vertices labelled, moves, and whether an edge led to a vertex on the stack.
#[derive(Clone, Copy, PartialEq, Eq)]
pub(crate) struct Counts {
    pub(crate) labelled: u16,
    pub(crate) moves: u16,
    pub(crate) circular: bool,
}

// A search: where it is, the labels of the nodes, and what it made.
#[derive(Drop)]
pub(crate) struct Search {
    n: u16,
    stack: Vec<Visit>,
    pub(crate) labels: Vec<u16>,
    pub(crate) events: Vec<Event>,
    pub(crate) counts: Counts,
}

impl Search {
    // A search that has made nothing.
    fn new(alloc: Global, sizes: Sizes) -> Result<Search, AllocError> {
        let labels = vec![in alloc; 0u16; sizes.nodes()]?;
        Ok(Search {
            n: sizes.n,
            stack: Vec::new(alloc),
            labels,
            events: Vec::new(alloc),
            counts: Counts {
                labelled: 0,
                moves: 0,
                circular: false,
            },
        })
    }

    // Lists an event.
    fn emit(&mut self, kind: Kind, edge: u16, vertex: u16) -> Result<(), AllocError> {
        let event = Event { kind, edge, vertex };
        self.events.push(event)?;
        Ok(())
    }

    // Counts moves.
    fn move_by(&mut self, moves: u16) {
        self.counts.moves = self.counts.moves.wrapping_add(moves);
    }

    // Labels a vertex with the next number and puts it onto the stack. One move.
    fn push(&mut self, vertex: u16) -> Result<(), AllocError> {
        self.move_by(1);
        let label = self.counts.labelled.wrapping_add(1);
        self.counts.labelled = label;
        put(&mut self.labels, usize::from(vertex).wrapping_sub(1), label);
        self.stack.push(Visit { vertex, seen: 0 })?;
        self.emit(Kind::Labelled, 0, vertex)
    }

    // Takes an edge from a vertex to another. Two moves.
    fn take(&mut self, edge: u16, from: u16, to: u16) -> Result<(), AllocError> {
        self.move_by(2);
        if of_node(&self.labels, to) == 0 {
            self.emit(Kind::Taken, edge, from)?;
            return self.push(to);
        }
        self.emit(Kind::Met, edge, from)?;
        self.emit(Kind::Returned, edge, from)?;
        if self.stack.iter().any(|visit| visit.vertex == to) {
            self.counts.circular = true;
        }
        Ok(())
    }

    // Leaves a vertex for the one below it on the stack, if there is one, by the edge of the line last taken.
    fn leave(&mut self, vertex: u16) -> Result<(), AllocError> {
        self.emit(Kind::Left, 0, vertex)?;
        match self.stack.last().copied() {
            Some(below) => {
                let edge = self.n.wrapping_add(below.seen);
                self.emit(Kind::LeftBy, edge, below.vertex)
            }
            None => Ok(()),
        }
    }

    // One turn of the search, as long as there is one.
    fn turn(&mut self, lines: &[Line]) -> Result<(), AllocError> {
        let Some(Visit { vertex, seen }) = self.stack.pop() else {
            return Ok(());
        };
        let mut unseen = lines.iter().skip(usize::from(seen));
        match unseen.find(|line| line.from == vertex).copied() {
            Some(line) => {
                let seen = line.number;
                self.stack.push(Visit { vertex, seen })?;
                self.take(self.n.wrapping_add(line.number), vertex, line.to)
            }
            None => self.leave(vertex),
        }
    }
}

// The search of a text that is taken, in which each edge is taken once and each vertex left once; of one that is refused, nothing.
pub(crate) fn search_lines(alloc: Global, said: &Said) -> Result<Search, AllocError> {
    let sizes = said.sizes();
    let mut search = Search::new(alloc, sizes)?;
    if let Ok(loaded) = said.answer {
        search.push(loaded.start)?;
    }
    for _ in 0..sizes.nodes() {
        search.turn(&said.lines)?;
    }
    Ok(search)
}
