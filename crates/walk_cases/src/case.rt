// A case: what a walker is called with.
use crate::areas::{SPARE, cleared, word_of};
use crate::blanks::Form;
use crate::calls::to_array;
use crate::judge::size_verdict;
use crate::profiles::{Plan, Profile};
use crate::walker::Walker;
use std::alloc::{AllocError, Global};

// The areas that a walker is lent: two of links, which are after and tail words, or first positions and tails; marks, its own, events.
#[derive(Clone, Copy)]
pub(crate) enum Area {
    Links,
    Tails,
    Marks,
    Own,
    Events,
}

impl Area {
    // The areas in order, from 0 on.
    // A rest arm gives every number an area, where TryFrom would ask for an error.
    pub(crate) fn nth(k: u16) -> Area {
        match k {
            0 => Area::Links,
            1 => Area::Tails,
            2 => Area::Marks,
            3 => Area::Own,
            _ => Area::Events,
        }
    }
}

// How long each area is.
#[derive(Clone, Copy)]
pub(crate) struct Lengths {
    pub(crate) links: usize,
    pub(crate) tails: usize,
    pub(crate) marks: usize,
    pub(crate) own: usize,
    pub(crate) events: usize,
}

impl Lengths {
    // The least lengths that a walker takes for n vertices and m edges, and some words more.
    pub(crate) fn of(walker: Walker, n: u16, m: u16, more: u16) -> Lengths {
        let vertices = usize::from(n);
        let edges = usize::from(m);
        let nodes = vertices + edges;
        let spare = usize::from(more);
        let links = if walker == Walker::DfsArray {
            vertices + 1
        } else {
            nodes
        };
        Lengths {
            links: links + spare,
            tails: edges + spare,
            marks: nodes + spare,
            own: usize::from(walker.own_words(n)) + spare,
            events: nodes * 6 + spare,
        }
    }
}

// The walker, the profile that the links were made from, and all that is passed.
#[derive(Drop)]
pub(crate) struct Case {
    pub(crate) walker: Walker,
    pub(crate) profile: Profile,
    // The sizes and the start that are passed.
    pub(crate) vertices: u16,
    pub(crate) edges: u16,
    pub(crate) start: u16,
    // The list of the elements already on the blank.
    pub(crate) form: Form,
    pub(crate) listed: Vec<u16>,
    // The links that are lent, and for an array form the edge of each position.
    pub(crate) links: Vec<u16>,
    pub(crate) tails: Vec<u16>,
    pub(crate) numbers: Vec<u16>,
    // The lengths of the areas that are lent to be written.
    pub(crate) marks: usize,
    pub(crate) own: usize,
    pub(crate) events: usize,
    // Whether the converter did not take a profile that is in its limits, or took another.
    pub(crate) differs: bool,
}

impl Case {
    // A case of a plan, with a list of a form, and for a walk of the array form this in place of the linked image. Each area is lent longer
    // than stated.
    pub(crate) fn new(
        alloc: Global,
        walker: Walker,
        plan: Plan,
        form: Form,
    ) -> Result<Case, AllocError> {
        let profile = Profile::new(alloc, plan)?;
        let lent = Lengths::of(walker, plan.vertices, plan.edges, SPARE);
        let listed = form.list(alloc, plan, &profile)?;
        let links = profile.after(alloc)?;
        let tails = profile.tails(alloc)?;
        let mut case = Case {
            walker,
            profile,
            vertices: plan.vertices,
            edges: plan.edges,
            start: plan.start,
            form,
            listed,
            links,
            tails,
            numbers: Vec::new(alloc),
            marks: lent.marks,
            own: lent.own,
            events: lent.events,
            differs: false,
        };
        if walker == Walker::DfsArray {
            case.convert(alloc, lent)?;
        }
        Ok(case)
    }

    // Puts the array form in place of the linked image.
    fn convert(&mut self, alloc: Global, lent: Lengths) -> Result<(), AllocError> {
        let mut firsts = cleared(alloc, 0, lent.links)?;
        let mut tails = cleared(alloc, 0, lent.tails)?;
        let mut numbers = cleared(alloc, 0, lent.tails)?;
        let answer = to_array(self, &mut firsts, &mut tails, &mut numbers);
        self.differs = answer != size_verdict(self.vertices, self.edges);
        self.links = firsts;
        self.tails = tails;
        self.numbers = numbers;
        Ok(())
    }

    // The edge of a position of the array form. Another word stays what it is.
    pub(crate) fn edge_at(&self, position: u16) -> u16 {
        match position.checked_sub(self.vertices) {
            Some(p) if p != 0 => word_of(&self.numbers, p),
            _ => position,
        }
    }

    // Lends an area shorter by some words.
    pub(crate) fn shorten(&mut self, area: Area, by: usize) {
        match area {
            Area::Links => self.links.truncate(self.links.len().saturating_sub(by)),
            Area::Tails => self.tails.truncate(self.tails.len().saturating_sub(by)),
            Area::Marks => self.marks = self.marks.saturating_sub(by),
            Area::Own => self.own = self.own.saturating_sub(by),
            Area::Events => self.events = self.events.saturating_sub(by),
        }
    }
}
