// One walk of a case, compared with the second implementation.
use crate::areas::cleared;
use crate::calls::call;
use crate::case::Case;
use crate::judge::verdict;
use crate::notes::{met_in_list, met_in_walk};
use crate::second::{Event, Left, left_if_refused, left_if_taken};
use crate::tally::Outcome;
use crate::walker::Walker;
use std::alloc::{AllocError, Global};

// The areas that a walker is lent.
#[derive(Drop)]
pub(crate) struct Areas {
    pub(crate) links: Vec<u16>,
    pub(crate) tails: Vec<u16>,
    pub(crate) marks: Vec<u16>,
    pub(crate) own: Vec<u16>,
    pub(crate) events: Vec<u16>,
}

impl Areas {
    // The areas of the case before its call.
    fn new(alloc: Global, case: &Case) -> Result<Areas, AllocError> {
        Ok(Areas {
            links: case.links.clone()?,
            tails: case.tails.clone()?,
            marks: cleared(alloc, 0, case.marks)?,
            own: cleared(alloc, 0, case.own)?,
            events: cleared(alloc, 0, case.events)?,
        })
    }

    // Whether they are what they were in the links, and otherwise what is to be left.
    fn agree(&self, alloc: Global, case: &Case, left: &Left) -> Result<bool, AllocError> {
        let events = left.event_words(alloc, case.events)?;
        Ok(
            self.links == case.links
                && self.tails == case.tails
                && self.marks == left.marks
                && self.own == left.own
                && self.events == events,
        )
    }
}

// Whether the words of an event over the array form are those of an event, once its position is the edge that is there.
fn is_named(case: &Case, words: &[u16], event: Event) -> bool {
    match words {
        [kind, position, vertex] => [*kind, case.edge_at(*position), *vertex] == event.words(),
        _ => false,
    }
}

// Whether the events over the array form are those of the recursive walk of the linked image, once the list of edges is applied.
fn are_named(case: &Case, words: &[u16], events: &[Event]) -> bool {
    words
        .chunks_exact(3)
        .zip(events)
        .all(|(words, event)| is_named(case, words, *event))
}

// What a walk is to leave, with the events of the linked image, and the outcome of the walk of the case.
pub(crate) fn walk(alloc: Global, case: &Case) -> Result<(Outcome, Left), AllocError> {
    let verdict = verdict(case);
    let mut areas = Areas::new(alloc, case)?;
    let answer = call(case, &mut areas);
    let left = match verdict {
        Ok(()) => left_if_taken(alloc, case, case.walker)?,
        Err(_) => left_if_refused(alloc, case)?,
    };
    let expected = verdict.map(|()| left.tally());
    let mut outcome = Outcome {
        answer: answer.map(|_| ()),
        differs: case.differs || answer != expected || !areas.agree(alloc, case, &left)?,
        met: match verdict {
            Ok(()) => met_in_walk(alloc, case, &left.marks)?,
            Err(17 | 18) => met_in_list(alloc, case)?,
            Err(_) => Vec::new(alloc),
        },
    };
    if case.walker != Walker::DfsArray || answer.is_err() {
        return Ok((outcome, left));
    }
    let linked = left_if_taken(alloc, case, Walker::DfsRecursive)?;
    if !are_named(case, &areas.events, &linked.events) {
        outcome.differs = true;
    }
    Ok((outcome, linked))
}
