// Areas of words, by the numbers of nodes. A node that has no word reads as 0 and takes nothing.
use std::alloc::{AllocError, Global};

// What an area for events holds where no event is written.
pub(crate) const UNTOUCHED: u16 = 60001;

// The areas that a call is lent.
#[derive(Clone, Copy, PartialEq, Eq)]
pub(crate) enum Area {
    After,
    Tail,
    Marks,
    Events,
}

impl Area {
    // The area of a number below 4.
    // A rest arm gives every number an area, where TryFrom would ask for an error.
    pub(crate) fn numbered(k: u16) -> Area {
        match k {
            0 => Area::After,
            1 => Area::Tail,
            2 => Area::Marks,
            _ => Area::Events,
        }
    }
}

// How many words a call is lent of each area.
#[derive(Clone, Copy, Default)]
pub(crate) struct Lengths {
    pub after: usize,
    pub tail: usize,
    pub marks: usize,
    pub events: usize,
}

impl Lengths {
    // Lends an area shorter than it is by some words.
    pub(crate) fn shorten(&mut self, area: Area, by: u16) {
        let by = usize::from(by);
        match area {
            Area::After => self.after = self.after.saturating_sub(by),
            Area::Tail => self.tail = self.tail.saturating_sub(by),
            Area::Marks => self.marks = self.marks.saturating_sub(by),
            Area::Events => self.events = self.events.saturating_sub(by),
        }
    }
}

// The links of an image.
#[derive(Clone, PartialEq, Eq, Drop)]
pub(crate) struct Links {
    pub after: Vec<u16>,
    pub tail: Vec<u16>,
}

impl Links {
    // Links of this many words each, all of them 0.
    pub(crate) fn new(alloc: Global, room: usize) -> Result<Links, AllocError> {
        Ok(Links {
            after: vec![in alloc; 0; room]?,
            tail: vec![in alloc; 0; room]?,
        })
    }
}

// Writes words over the first ones of an area, as many as it has.
pub(crate) fn put_first(area: &mut [u16], words: &[u16]) {
    let top = words.len().min(area.len());
    area[..top].copy_from_slice(&words[..top]);
}

// The place of node x in an area.
pub(crate) fn place_of(x: u16) -> Option<usize> {
    Some(usize::from(x.checked_sub(1)?))
}

// The word of node x in an area.
pub(crate) fn word_of(area: &[u16], x: u16) -> u16 {
    match place_of(x) {
        Some(place) => area.get(place).copied().unwrap_or(0),
        None => 0,
    }
}

// Writes the word of node x in an area.
pub(crate) fn put_of(area: &mut [u16], x: u16, w: u16) {
    if let Some(place) = place_of(x)
        && let Some(word) = area.get_mut(place)
    {
        *word = w;
    }
}
