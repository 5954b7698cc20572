// The second implementation of the walks: over lists of edges sorted by the vertex that they leave. Depth-first by a stack of vertices
// with a place in the list of each; breadth-first by looking for the least label that is not yet scanned. The elements already on the
// blank are labelled beforehand: each vertex is looked for on the list.
use crate::areas::{cleared, padded, put_of, word, word_of};
use crate::case::{Case, Lengths};
use crate::profiles::{Edge, Profile};
use crate::walker::Walker;
use std::alloc::{AllocError, Global};

// The mark of a listed vertex.
pub(crate) const ON_BLANK: u16 = 65535;

// Kinds of events, by the numbers of document 01.
#[derive(Clone, Copy)]
pub(crate) enum Kind {
    Label = 1,
    AdvanceTree = 2,
    AdvanceNontree = 3,
    RetreatNontree = 4,
    RetreatTree = 5,
    Scan = 6,
    Traverse = 7,
}

// An event: a kind, an edge or 0, and a vertex.
#[derive(Clone, Copy)]
pub(crate) struct Event {
    pub(crate) kind: Kind,
    pub(crate) edge: u16,
    pub(crate) vertex: u16,
}

impl Event {
    // The event as a walk writes it.
    pub(crate) fn words(self) -> [u16; 3] {
        [self.kind as u16, self.edge, self.vertex]
    }
}

// What a walk leaves: marks, its own area, and the events that it writes, and nothing behind them.
#[derive(Drop)]
pub(crate) struct Left {
    pub(crate) marks: Vec<u16>,
    pub(crate) own: Vec<u16>,
    pub(crate) events: Vec<Event>,
}

impl Left {
    // The events by kind.
    pub(crate) fn tally(&self) -> [u32; 7] {
        let mut tally = [0u32; 7];
        for event in &self.events {
            if let Some(count) = tally.get_mut(event.kind as usize - 1) {
                *count = count.saturating_add(1);
            }
        }
        tally
    }

    // The area of events, of this length.
    pub(crate) fn event_words(&self, alloc: Global, length: usize) -> Result<Vec<u16>, AllocError> {
        let mut words = Vec::new(alloc);
        for event in &self.events {
            words.extend_from_slice(&event.words())?;
        }
        padded(words, length)
    }
}

// A vertex that is being scanned depth-first: the edge into it, its list, and the place there.
#[derive(Clone, Copy)]
struct Scan<'a> {
    vertex: u16,
    entry: u16,
    list: &'a [Edge],
    at: usize,
}

// A search under way: how many vertices it has labelled, and what it has left so far.
#[derive(Drop)]
struct Search<'a> {
    walker: Walker,
    profile: &'a Profile,
    labels: u16,
    left: Left,
}

impl<'a> Search<'a> {
    // Writes an event.
    fn emit(&mut self, kind: Kind, edge: u16, vertex: u16) -> Result<(), AllocError> {
        self.left.events.push(Event { kind, edge, vertex })?;
        Ok(())
    }

    // Labels x with the next number, and gives that.
    fn label(&mut self, x: u16) -> Result<u16, AllocError> {
        self.labels = self.labels.saturating_add(1);
        put_of(&mut self.left.marks, x, self.labels);
        self.emit(Kind::Label, 0, x)?;
        Ok(self.labels)
    }

    // The name of an edge in events: its position in an array form, else its own number.
    fn name(&self, edge: Edge) -> u16 {
        if self.walker == Walker::DfsArray {
            edge.position
        } else {
            edge.node
        }
    }

    // Whether the edge leads to a vertex that is not yet labelled.
    fn is_tree(&self, edge: Edge) -> bool {
        word_of(&self.left.marks, edge.to) == 0
    }

    // Labels x and begins its scan, where `entry` is the edge into it and `above` that into its parent.
    fn enter(&mut self, x: u16, entry: u16, above: u16) -> Result<Scan<'a>, AllocError> {
        self.label(x)?;
        match self.walker {
            Walker::DfsParent => put_of(&mut self.left.own, x, above),
            Walker::DfsArray => put_of(&mut self.left.own, x, 1),
            _ => {}
        }
        Ok(Scan {
            vertex: x,
            entry,
            list: self.profile.list(x),
            at: 0,
        })
    }

    // Goes on with a scan: along the next edge of its list, or back where there is none left.
    fn step(&mut self, stack: &mut Vec<Scan<'a>>, scan: Scan<'a>) -> Result<(), AllocError> {
        let Scan {
            vertex,
            entry,
            list,
            at,
        } = scan;
        let Some(edge) = list.get(at).copied() else {
            self.emit(Kind::Scan, 0, vertex)?;
            if let Some(below) = stack.last() {
                self.emit(Kind::RetreatTree, entry, below.vertex)?;
            }
            return Ok(());
        };
        stack.push(Scan {
            vertex,
            entry,
            list,
            at: at + 1,
        })?;
        let name = self.name(edge);
        if self.is_tree(edge) {
            self.emit(Kind::AdvanceTree, name, vertex)?;
            if self.walker == Walker::DfsArray {
                put_of(&mut self.left.own, vertex, word(at + 1));
            }
            let next = self.enter(edge.to, name, entry)?;
            stack.push(next)?;
        } else {
            self.emit(Kind::AdvanceNontree, name, vertex)?;
            self.emit(Kind::RetreatNontree, name, vertex)?;
        }
        Ok(())
    }

    // Searches depth-first, in a step for each vertex and edge at most.
    fn depth_first(&mut self, alloc: Global, start: u16, steps: usize) -> Result<(), AllocError> {
        let mut stack = Vec::new(alloc);
        let first = self.enter(start, 0, 0)?;
        stack.push(first)?;
        for _ in 0..steps {
            let Some(scan) = stack.pop() else {
                break;
            };
            self.step(&mut stack, scan)?;
        }
        Ok(())
    }

    // Labels x breadth-first.
    fn enqueue(&mut self, x: u16) -> Result<(), AllocError> {
        let label = self.label(x)?;
        if self.walker == Walker::BfsQueue {
            put_of(&mut self.left.own, label, x);
        }
        Ok(())
    }

    // Searches breadth-first: scans the vertex of each label.
    fn breadth_first(&mut self, start: u16) -> Result<(), AllocError> {
        self.enqueue(start)?;
        for label in 1..=self.profile.vertices {
            let marks = self.left.marks.as_slice();
            let Some(vertex) = (1..=self.profile.vertices).find(|x| word_of(marks, *x) == label)
            else {
                break;
            };
            for edge in self.profile.list(vertex) {
                let name = self.name(*edge);
                self.emit(Kind::Traverse, name, vertex)?;
                if self.is_tree(*edge) {
                    self.enqueue(edge.to)?;
                }
            }
            self.emit(Kind::Scan, 0, vertex)?;
        }
        Ok(())
    }
}

// What a walk that is refused leaves: every area as it was.
pub(crate) fn left_if_refused(alloc: Global, case: &Case) -> Result<Left, AllocError> {
    Ok(Left {
        marks: cleared(alloc, 0, case.marks)?,
        own: cleared(alloc, 0, case.own)?,
        events: Vec::new(alloc),
    })
}

// What a walk of the case by this walker is to leave, where it is taken.
pub(crate) fn left_if_taken(
    alloc: Global,
    case: &Case,
    walker: Walker,
) -> Result<Left, AllocError> {
    let least = Lengths::of(walker, case.vertices, case.edges, 0);
    let mut marks = cleared(alloc, least.marks, case.marks)?;
    for x in 1..=case.vertices {
        if case.listed.contains(&x) {
            put_of(&mut marks, x, ON_BLANK);
        }
    }
    let mut search = Search {
        walker,
        profile: &case.profile,
        labels: 0,
        left: Left {
            marks,
            own: cleared(alloc, least.own, case.own)?,
            events: Vec::new(alloc),
        },
    };
    if walker.is_breadth_first() {
        search.breadth_first(case.start)?;
    } else {
        search.depth_first(alloc, case.start, least.marks)?;
    }
    Ok(search.left)
}
