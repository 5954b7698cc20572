// A case, and its calls, each of which is compared with the second implementation.
use crate::areas::Links;
use crate::blanks::{ListKind, list_of};
use crate::calls::{Lent, make_call, replay, search};
use crate::chance::Chance;
use crate::profiles::Profile;
use crate::script::Line;
use crate::search::{Found, find};
use crate::second::{Answer, Call, Outcome, Reply, Second};
use crate::tally::Tally;
use std::alloc::{AllocError, Global};

// What the cases of a group have: the draws, the second implementation, the links as loaded, what the search by a stack found of them,
// the script, what was answered last, and whether something differs.
#[derive(Drop)]
pub(crate) struct Case {
    pub alloc: Global,
    pub chance: Chance,
    pub second: Second,
    pub loaded: Links,
    pub found: Option<Found>,
    pub script: Vec<Line>,
    pub answer: Answer,
    pub differs: bool,
    pub tally: Tally,
}

// Areas like those of the second implementation, for a call to write into.
#[derive(Drop)]
struct Copied {
    links: Links,
    marks: Vec<u16>,
    events: Vec<u16>,
}

// The words of an area from a place on, of which there are this many.
fn lent(area: &mut [u16], start: usize, words: usize) -> &mut [u16] {
    let start = start.min(area.len());
    let rest = &mut area[start..];
    let end = words.min(rest.len());
    &mut rest[..end]
}

impl Case {
    // A case with areas of this many words.
    pub(crate) fn new(alloc: Global, room: u16) -> Result<Case, AllocError> {
        Ok(Case {
            alloc,
            chance: Chance { seed: 0 },
            second: Second::new(alloc, room)?,
            loaded: Links::new(alloc, 0)?,
            found: None,
            script: Vec::new(alloc),
            answer: Ok(Outcome::Taken),
            differs: false,
            tally: Tally::default(),
        })
    }

    // Begins a case of a seed. The events are untouched; the links and the marks are as the case before left them.
    pub(crate) fn begin(&mut self, seed: u16) {
        self.chance = Chance { seed };
        self.second.clear();
        self.found = None;
        self.script.clear();
        self.answer = Ok(Outcome::Taken);
    }

    // Counts the case.
    pub(crate) fn finish(&mut self) {
        self.tally.count_case(self.differs);
        self.differs = false;
    }

    // Notes whether something is not as it is to be.
    pub(crate) fn note(&mut self, differs: bool) {
        self.differs = self.differs || differs;
    }

    // Loads the links, and searches them off the list.
    pub(crate) fn load(&mut self) -> Result<(), AllocError> {
        self.second.cross_all()?;
        self.loaded = self.second.links.clone()?;
        self.found = Some(find(
            self.alloc,
            &self.loaded,
            &self.second.state,
            &self.second.blank,
        )?);
        Ok(())
    }

    // Makes a profile, its linked image, its list and the search of it.
    pub(crate) fn make(&mut self, profile: Profile, kind: ListKind) -> Result<(), AllocError> {
        self.second.size(profile.n, profile.m, profile.start);
        self.second.unlink();
        for i in 0..profile.m {
            let edge = profile.in_order(i);
            self.second.link(edge, profile.from(edge), profile.to(edge));
        }
        self.second.before = list_of(self.alloc, kind, &profile)?;
        self.tally.count_list(if self.second.before.is_empty() {
            ListKind::Empty
        } else {
            kind
        });
        self.load()
    }

    // Areas like those of the second implementation.
    fn copied(&self) -> Result<Copied, AllocError> {
        Ok(Copied {
            links: self.second.links.clone()?,
            marks: self.second.marks.clone()?,
            events: self.second.event_words()?,
        })
    }

    // Whether areas are those of the second implementation.
    fn has_areas(&self, areas: &Copied) -> Result<bool, AllocError> {
        let events = self.second.event_words()?;
        Ok(
            areas.links == self.second.links
                && areas.marks == self.second.marks
                && areas.events == events,
        )
    }

    // Notes where an answer or an area is not that of the second implementation, and counts the answer.
    fn note_reply(
        &mut self,
        reply: Reply,
        expected: Reply,
        areas: &Copied,
    ) -> Result<(), AllocError> {
        let is_same = reply == expected && self.has_areas(areas)?;
        self.answer = expected.answer;
        self.tally.count_answer(reply.answer);
        self.note(!is_same);
        Ok(())
    }

    // Makes a call, and again by the second implementation.
    pub(crate) fn compare(&mut self, call: Call) -> Result<(), AllocError> {
        let mut areas = self.copied()?;
        let lengths = self.second.lengths;
        let told = self.second.told_words();
        let reply = make_call(
            call,
            self.second.state,
            &self.second.before,
            Lent {
                after: lent(&mut areas.links.after, 0, lengths.after),
                tail: lent(&mut areas.links.tail, 0, lengths.tail),
                marks: lent(&mut areas.marks, 0, lengths.marks),
                events: lent(&mut areas.events, told, lengths.events),
            },
        );
        let expected = self.second.serve(call)?;
        self.note_reply(reply, expected, &areas)
    }

    // Replays the first words of the script, and again by the second implementation.
    pub(crate) fn compare_replay(&mut self, words: u16) -> Result<(), AllocError> {
        let mut areas = self.copied()?;
        let lengths = self.second.lengths;
        let mut script = Vec::new(self.alloc);
        for line in self.script.iter() {
            script.extend_from_slice(&line.as_words())?;
        }
        script.truncate(usize::from(words));
        let reply = replay(
            self.second.state,
            &self.second.before,
            Lent {
                after: lent(&mut areas.links.after, 0, lengths.after),
                tail: lent(&mut areas.links.tail, 0, lengths.tail),
                marks: lent(&mut areas.marks, 0, lengths.marks),
                events: lent(&mut areas.events, 0, lengths.events),
            },
            &script,
        );
        self.script.truncate(usize::from(words / 3));
        let expected = self.second.replay(&self.script)?;
        self.note_reply(reply, expected, &areas)
    }

    // Whether the recursive search leaves the marks and events that the folded search has left.
    pub(crate) fn is_recursive(&self) -> Result<bool, AllocError> {
        let room = self.second.room;
        let state = self.second.state;
        let mut marks = vec![in self.alloc; 0; room]?;
        let mut events = vec![in self.alloc; 0; room]?;
        let before = &self.second.before;
        let walked = search(state, &self.loaded, before, &mut marks, &mut events);
        let told = self.second.event_words()?;
        let nodes = usize::from(state.nodes());
        let words = self.second.told_words();
        Ok(
            walked.is_ok()
                && marks.get(..nodes) == self.second.marks.get(..nodes)
                && events.get(..words) == told.get(..words),
        )
    }
}
