// The reader of profiles: what is loaded of a text, and every word of the areas, against the second reader.
use crate::areas::{SPAN, UNTOUCHED, holds, lent};
use crate::calls::{Loaded, read_profile};
use crate::chance::{draw, draw_below, draw_from_one, pick};
use crate::drawn::{draw_length, draw_sizes};
use crate::image::Sizes;
use crate::listing::{after_words, draw_listing, tails};
use crate::reader::{Said, read_text};
use crate::tally::{Group, Outcome};
use crate::writer::{Replaced, UNPADDED, Written};
use std::alloc::{AllocError, Global};

// Whether areas that were untouched hold the image of the lines that were read, of a text that is refused nothing.
pub(crate) fn is_image(
    alloc: Global,
    said: &Said,
    after: &[u16],
    tail: &[u16],
) -> Result<bool, AllocError> {
    let links = after_words(alloc, said.sizes().n, &said.lines)?;
    let ends = tails(alloc, &said.lines)?;
    Ok(holds(after, &links, UNTOUCHED) && holds(tail, &ends, UNTOUCHED))
}

// The case of a text that is read into areas of these lengths.
pub(crate) fn read_twice(
    alloc: Global,
    text: &[u8],
    of_after: usize,
    of_tail: usize,
) -> Result<Outcome, AllocError> {
    let second = read_text(alloc, text, of_after, of_tail)?;
    let mut after = vec![in alloc; UNTOUCHED; SPAN]?;
    let mut tail = vec![in alloc; UNTOUCHED; SPAN]?;
    let first = read_profile(text, lent(&mut after, of_after), lent(&mut tail, of_tail));
    let holds_image = is_image(alloc, &second, &after, &tail)?;
    Ok(Outcome::of(first, second.answer).also(!holds_image))
}

// What is done to a byte of a text: another byte for it, no byte, another byte before it, the byte twice, nothing from it on.
#[derive(Clone, Copy)]
pub(crate) enum Spoilt {
    Replaced(u8),
    Missing,
    Preceded(u8),
    Doubled,
    Cut,
}

// A text with the byte at a place spoilt, if it has that place.
pub(crate) fn spoil(
    alloc: Global,
    text: &[u8],
    place: usize,
    spoilt: Spoilt,
) -> Result<Vec<u8>, AllocError> {
    let (before, rest) = text.split_at(place.min(text.len()));
    let Some((byte, behind)) = rest.split_first() else {
        return text.to_vec(alloc);
    };
    let mut copy = before.to_vec(alloc)?;
    match spoilt {
        Spoilt::Replaced(other) => copy.push(other)?,
        Spoilt::Missing => {}
        Spoilt::Preceded(other) => copy.extend_from_slice(&[other, *byte])?,
        Spoilt::Doubled => copy.extend_from_slice(&[*byte, *byte])?,
        Spoilt::Cut => return Ok(copy),
    }
    copy.extend_from_slice(behind)?;
    Ok(copy)
}

// The text of edges between so many vertices, by chance.
pub(crate) fn draw_text(
    alloc: Global,
    seed: u16,
    vertices: u16,
    written: Written,
) -> Result<String, AllocError> {
    let listing = draw_listing(alloc, seed, vertices, written.lines, 1)?;
    written.text(alloc, &listing)
}

// The text of a listing as it was drawn, each number with one digit at least, or two, up to five.
fn as_listed(seed: u16) -> Written {
    let Sizes { n, m } = draw_sizes(seed);
    Written {
        n: u32::from(n),
        m: u32::from(m),
        start: u32::from(draw_from_one(seed, 70, n)),
        lines: m,
        replaced: None,
        width: usize::from(draw(seed, 81, 5)) + UNPADDED,
    }
}

// A value in place of another: at a limit, or just past what a number, a size or a vertex can be.
fn draw_value(seed: u16, n: u16) -> u32 {
    match draw(seed, 71, 10) {
        0 => 0,
        1 => 1000,
        2 => 1001,
        3 => 4000,
        4 => 4001,
        5 => 65535,
        6 => 65536,
        7 => 100000,
        _ => u32::from(n) + 1,
    }
}

// The text of a listing with one value in place of another, or with one line more or fewer, or with numbers of six digits, or as it was
// drawn.
pub(crate) fn not_as_listed(seed: u16) -> Written {
    let Sizes { n, m } = draw_sizes(seed);
    let mut written = as_listed(seed);
    let line = draw(seed, 72, m);
    let value = draw_value(seed, n);
    match draw(seed, 73, 16) {
        0 => written.n = value,
        1 => written.m = value,
        2 => written.start = value,
        3 => written.replaced = Some(Replaced::From(line, value)),
        4 => written.replaced = Some(Replaced::To(line, value)),
        5 => written.lines = m.wrapping_add(1),
        6 => written.lines = line,
        7 => written.width = 6,
        _ => {}
    }
    written
}

// What is done to a byte, by chance; or nothing.
fn draw_spoilt(seed: u16) -> Option<Spoilt> {
    let other = pick(seed, 76, b"00123569,,\n\n\r;+- /:x\x00");
    match draw(seed, 74, 10) {
        0 => Some(Spoilt::Replaced(other)),
        1 => Some(Spoilt::Missing),
        2 => Some(Spoilt::Preceded(other)),
        3 => Some(Spoilt::Doubled),
        4 => Some(Spoilt::Cut),
        _ => None,
    }
}

// Draws a text in form.
pub(crate) fn draw_listed(alloc: Global, seed: u16) -> Result<String, AllocError> {
    draw_text(alloc, seed, draw_sizes(seed).n, as_listed(seed))
}

// Draws a damaged text.
pub(crate) fn draw_damaged(alloc: Global, seed: u16) -> Result<Vec<u8>, AllocError> {
    let text = draw_text(alloc, seed, draw_sizes(seed).n, not_as_listed(seed))?;
    match draw_spoilt(seed) {
        Some(spoilt) => spoil(alloc, text.as_bytes(), draw_below(seed, 75, 110), spoilt),
        None => text.as_bytes().to_vec(alloc),
    }
}

// The case of a text by chance, read into areas by chance.
fn read_drawn(alloc: Global, text: &[u8], seed: u16) -> Result<Outcome, AllocError> {
    let sizes = draw_sizes(seed);
    let of_after = draw_length(seed, 77, sizes.nodes());
    let of_tail = draw_length(seed, 78, usize::from(sizes.m));
    read_twice(alloc, text, of_after, of_tail)
}

// The case of a text in form: the second reader finds the listing that was drawn.
fn sound_case(alloc: Global, seed: u16) -> Result<Outcome, AllocError> {
    let sizes = draw_sizes(seed);
    let text = draw_listed(alloc, seed)?;
    let listing = draw_listing(alloc, seed, sizes.n, sizes.m, 1)?;
    let start = draw_from_one(seed, 70, sizes.n);
    let said = read_text(alloc, text.as_bytes(), SPAN, SPAN)?;
    let differs = said.answer != Ok(Loaded { sizes, start }) || said.lines != listing;
    Ok(read_drawn(alloc, text.as_bytes(), seed)?.also(differs))
}

// Texts in form.
pub(crate) fn sound_cases(group: &mut Group) -> Result<(), AllocError> {
    let alloc = group.alloc;
    group.add_each(0..=1999u16, |seed| sound_case(alloc, seed))
}

// Damaged texts.
pub(crate) fn damaged_cases(group: &mut Group) -> Result<(), AllocError> {
    let alloc = group.alloc;
    group.add_each(0..=5999u16, |seed| {
        let text = draw_damaged(alloc, seed)?;
        read_drawn(alloc, &text, seed)
    })
}
