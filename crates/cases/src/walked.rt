// The walk of a text: its answer, every byte of the output and every word of the areas, against the second reader, the second search and
// the second writer; a refused text leaves all of them. The circular figure of a small listing is told by the closure of its lines too.
use crate::areas::{BLANK, SPAN, UNTOUCHED, holds, lent};
use crate::calls::walk_text;
use crate::chance::draw;
use crate::circles::is_circular;
use crate::drawn::other_seed;
use crate::printed::walk_lines;
use crate::profiles::{draw_damaged, draw_listed, is_image};
use crate::reader::{Said, read_text};
use crate::search::{Counts, Search, search_lines};
use crate::tally::{Group, Outcome};
use std::alloc::{AllocError, Global};

// How many words an event area has, and how many bytes an output area.
const EVENTS: usize = 54100;

const OUTPUT: usize = 180100;

// The areas that a walk is lent.
#[derive(Clone, Copy, PartialEq, Eq)]
pub(crate) enum Area {
    After,
    Tail,
    Marks,
    Events,
    Output,
}

pub(crate) const AREAS: [Area; 5] = [
    Area::After,
    Area::Tail,
    Area::Marks,
    Area::Events,
    Area::Output,
];

// How long areas are lent: one of them so much less than stated, the others more than stated.
#[derive(Clone, Copy)]
pub(crate) struct Lent {
    pub(crate) one: Option<Area>,
    pub(crate) less: usize,
}

impl Lent {
    // All areas longer than stated.
    pub(crate) const ALL: Lent = Lent { one: None, less: 0 };

    // The length that an area is lent at.
    fn length(self, area: Area) -> usize {
        let stated: usize = match area {
            Area::After => 5000,
            Area::Tail => 4000,
            Area::Marks => 5000,
            Area::Events => 54003,
            Area::Output => 180066,
        };
        if self.one == Some(area) {
            stated.saturating_sub(self.less)
        } else {
            stated + 3
        }
    }
}

// What a walk answers, and what it leaves in every area.
#[derive(PartialEq, Drop)]
pub(crate) struct Walk {
    pub(crate) answer: Result<usize, u16>,
    after: Vec<u16>,
    tail: Vec<u16>,
    marks: Vec<u16>,
    events: Vec<u16>,
    output: Vec<u8>,
}

// Walks a text.
pub(crate) fn run_walk(alloc: Global, text: &[u8], lengths: Lent) -> Result<Walk, AllocError> {
    let mut after = vec![in alloc; UNTOUCHED; SPAN]?;
    let mut tail = vec![in alloc; UNTOUCHED; SPAN]?;
    let mut marks = vec![in alloc; UNTOUCHED; SPAN]?;
    let mut events = vec![in alloc; UNTOUCHED; EVENTS]?;
    let mut output = vec![in alloc; BLANK; OUTPUT]?;
    let answer = walk_text(
        text,
        lent(&mut after, lengths.length(Area::After)),
        lent(&mut tail, lengths.length(Area::Tail)),
        lent(&mut marks, lengths.length(Area::Marks)),
        lent(&mut events, lengths.length(Area::Events)),
        lent(&mut output, lengths.length(Area::Output)),
    );
    Ok(Walk {
        answer,
        after,
        tail,
        marks,
        events,
        output,
    })
}

// Whether the circular figure of a search is not that of the closure.
fn circle_differs(said: &Said, counts: Counts) -> bool {
    match said.answer {
        Ok(loaded) => is_circular(loaded, &said.lines).is_some_and(|is| is != counts.circular),
        Err(_) => false,
    }
}

// The words of the events of a search.
fn event_words(alloc: Global, search: &Search) -> Result<Vec<u16>, AllocError> {
    let mut words = Vec::new(alloc);
    for event in &search.events {
        words.extend_from_slice(&event.words())?;
    }
    Ok(words)
}

// The outcome of a walk, and what the second search counted and is to print of it.
#[derive(Drop)]
pub(crate) struct Walked {
    pub(crate) outcome: Outcome,
    pub(crate) counts: Counts,
    pub(crate) events: usize,
    pub(crate) printed: String,
}

// The case of a text, with areas of these lengths.
pub(crate) fn compare_walk(
    alloc: Global,
    text: &[u8],
    lengths: Lent,
) -> Result<Walked, AllocError> {
    let of_after = if lengths.less == 0 { SPAN } else { 0 };
    let said = read_text(alloc, text, of_after, SPAN)?;
    let search = search_lines(alloc, &said)?;
    let first = run_walk(alloc, text, lengths)?;
    let printed = match said.answer {
        Ok(_) => walk_lines(alloc, &search)?,
        Err(_) => String::new(alloc),
    };
    let events = event_words(alloc, &search)?;
    let holds = is_image(alloc, &said, &first.after, &first.tail)?
        && holds(&first.marks, &search.labels, UNTOUCHED)
        && holds(&first.events, &events, UNTOUCHED)
        && holds(&first.output, printed.as_bytes(), BLANK);
    let second = said.answer.map(|_| printed.len());
    let differs = !holds || circle_differs(&said, search.counts);
    Ok(Walked {
        outcome: Outcome::of(first.answer, second).also(differs),
        counts: search.counts,
        events: events.len(),
        printed,
    })
}

// The case of a text by chance; at times one area is short.
fn walk_drawn(alloc: Global, text: &[u8], seed: u16) -> Result<Outcome, AllocError> {
    let lengths = Lent {
        one: AREAS.get(usize::from(draw(seed, 79, 5))).copied(),
        less: if draw(seed, 80, 8) == 0 { 1 } else { 0 },
    };
    Ok(compare_walk(alloc, text, lengths)?.outcome)
}

// Texts in form.
pub(crate) fn sound_cases(group: &mut Group) -> Result<(), AllocError> {
    let alloc = group.alloc;
    group.add_each(0..=1999u16, |i| {
        let seed = other_seed(i, 4);
        let text = draw_listed(alloc, seed)?;
        walk_drawn(alloc, text.as_bytes(), seed)
    })
}

// Damaged texts.
pub(crate) fn damaged_cases(group: &mut Group) -> Result<(), AllocError> {
    let alloc = group.alloc;
    group.add_each(0..=3999u16, |i| {
        let seed = other_seed(i, 4);
        let text = draw_damaged(alloc, seed)?;
        walk_drawn(alloc, &text, seed)
    })
}
