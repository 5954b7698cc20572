// Areas of words and of bytes: how far they are lent, and what they hold before a call and after it.

// How many words an area has: enough for the largest image and some words past it.
pub(crate) const SPAN: usize = 5100;

// What an area holds before a call, in every word.
pub(crate) const UNTOUCHED: u16 = 60001;

// What an output area holds before a call, in every byte.
pub(crate) const BLANK: u8 = b'#';

// The first part of an area, as long as it is lent; all of it where that is more.
pub(crate) fn part<T>(area: &[T], length: usize) -> &[T] {
    area.get(..length).unwrap_or(area)
}

// The same part, to be written.
pub(crate) fn lent<T>(area: &mut [T], length: usize) -> &mut [T] {
    let end = length.min(area.len());
    &mut area[..end]
}

// Whether an area that held the same item throughout begins with these items, and else holds it still.
pub(crate) fn holds<T: PartialEq + Drop>(area: &[T], items: &[T], before: T) -> bool {
    area.starts_with(items) && area.iter().skip(items.len()).all(|item| *item == before)
}

// Writes items over an area, from a place on, as many as it has room for.
pub(crate) fn store<T: Copy>(area: &mut [T], at: usize, items: &[T]) {
    let start = at.min(area.len());
    let rest = &mut area[start..];
    let count = rest.len().min(items.len());
    rest[..count].copy_from_slice(&items[..count]);
}

// Puts a word at a place of an area, if it has that place.
pub(crate) fn put(area: &mut [u16], at: usize, word: u16) {
    if let Some(place) = area.get_mut(at) {
        *place = word;
    }
}

// The word of a node, 0 for null.
pub(crate) fn of_node(words: &[u16], node: u16) -> u16 {
    let place = usize::from(node).checked_sub(1);
    place.and_then(|i| words.get(i)).copied().unwrap_or(0)
}

// The lower 16 bits of a number.
pub(crate) fn word(x: usize) -> u16 {
    (x % 65536) as u16
}
