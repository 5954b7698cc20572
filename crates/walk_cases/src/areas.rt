// Areas of words. Node x has word x - 1.
use std::alloc::{AllocError, Global};

// What an area holds before a call, in every word.
const UNTOUCHED: u16 = 60001;

// How many words longer than stated an area is lent.
pub(crate) const SPARE: u16 = 3;

// A number as a word: none that the cases meet is too large for one.
pub(crate) fn word(x: usize) -> u16 {
    u16::try_from(x).unwrap_or(u16::MAX)
}

// The word of node x, or 0 where the area has none.
pub(crate) fn word_of(area: &[u16], x: u16) -> u16 {
    match x.checked_sub(1) {
        Some(i) => area.get(usize::from(i)).copied().unwrap_or(0),
        None => 0,
    }
}

// Puts a word at place i, where the area has one.
pub(crate) fn put(area: &mut [u16], i: usize, w: u16) {
    if let Some(place) = area.get_mut(i) {
        *place = w;
    }
}

// Puts the word of node x, where the area has one.
pub(crate) fn put_of(area: &mut [u16], x: u16, w: u16) {
    if let Some(i) = x.checked_sub(1) {
        put(area, usize::from(i), w);
    }
}

// An area of this length, its first words cleared and the others untouched.
pub(crate) fn cleared(alloc: Global, top: usize, length: usize) -> Result<Vec<u16>, AllocError> {
    padded(vec![in alloc; 0; top]?, length)
}

// These words, followed by untouched ones up to this length.
pub(crate) fn padded(mut words: Vec<u16>, length: usize) -> Result<Vec<u16>, AllocError> {
    words.resize(length, UNTOUCHED)?;
    Ok(words)
}
