// Images drawn by chance, and areas damaged by chance.
use crate::areas::{SPAN, part, put, store, word};
use crate::chance::{draw, draw_below, draw_from_one};
use crate::image::{Sizes, checked, told_tails};
use crate::listing::{Line, after_words, draw_listing, tails};
use crate::tally::{Group, Outcome};
use std::alloc::{AllocError, Global};
use std::ops::RangeInclusive;

// The areas of a linked image. What is drawn is written over what was there.
#[derive(Drop)]
pub(crate) struct Image {
    pub(crate) after: Vec<u16>,
    pub(crate) tail: Vec<u16>,
}

impl Image {
    // Areas of zeros.
    pub(crate) fn new(alloc: Global) -> Result<Image, AllocError> {
        let after = vec![in alloc; 0u16; SPAN]?;
        let tail = vec![in alloc; 0u16; SPAN]?;
        Ok(Image { after, tail })
    }

    // Draws a sound image, each list in the order of ranks drawn; its listing.
    pub(crate) fn draw(
        &mut self,
        alloc: Global,
        seed: u16,
        sizes: Sizes,
    ) -> Result<Vec<Line>, AllocError> {
        let listing = draw_listing(alloc, seed, sizes.n, sizes.m, 64)?;
        let after = after_words(alloc, sizes.n, &listing)?;
        let tail = tails(alloc, &listing)?;
        store(&mut self.after, 0, &after);
        store(&mut self.tail, 0, &tail);
        Ok(listing)
    }

    // Damages the after words, in which the word `out` is out of range.
    fn damage_links(&mut self, seed: u16, top: u16, out: u16) {
        let end = last_place(&self.after, damaged_place(seed, top));
        damage(&mut self.after, seed, top, out, end);
    }

    // Damages the tails.
    fn damage_tails(&mut self, seed: u16, top: u16, out: u16) {
        let end = last_place(&self.after, damaged_place(seed, top));
        damage(&mut self.tail, seed, top, out, end);
    }

    // Draws an image and damages it, the after words twice.
    pub(crate) fn draw_damaged(&mut self, alloc: Global, seed: u16) -> Result<(), AllocError> {
        let sizes = draw_sizes(seed);
        self.draw(alloc, seed, sizes)?;
        let all = word(sizes.nodes());
        self.damage_links(other_seed(seed, 1), all, all.wrapping_add(1));
        self.damage_links(other_seed(seed, 2), all, sizes.n);
        self.damage_tails(other_seed(seed, 3), sizes.m, sizes.n.wrapping_add(1));
        Ok(())
    }
}

// How many vertices and edges a drawn image has.
pub(crate) fn draw_sizes(seed: u16) -> Sizes {
    Sizes {
        n: draw_from_one(seed, 1, 12),
        m: draw(seed, 2, 17),
    }
}

// The place of the last node of the chain of after words from a place, 40 steps on at most.
fn last_place(after: &[u16], start: usize) -> usize {
    let mut place = start;
    for _ in 0..40 {
        let link = after.get(place).copied().unwrap_or(0);
        if link == 0 {
            return place;
        }
        place = usize::from(link) - 1;
    }
    place
}

// A word in place of the word at a place: by chance, just out of range, null, the node itself.
fn other_word(seed: u16, out: u16, place: usize) -> u16 {
    match draw(seed, 3, 5) {
        0 => draw(seed, 4, out),
        1 => out,
        2 => 0,
        3 => word(place).wrapping_add(1),
        _ => draw(seed, 4, 3),
    }
}

// Exchanges the words at two places.
fn exchange(words: &mut [u16], i: usize, j: usize) {
    if i < words.len() && j < words.len() {
        words.swap(i, j);
    }
}

// Which of the first `top` words is damaged.
pub(crate) fn damaged_place(seed: u16, top: u16) -> usize {
    draw_below(seed, 6, usize::from(top))
}

// Damages one or two of the first `top` words of an area, in which the word `out` is out of range: two words exchanged, of which the
// second may be at the end of a chain, so that lists change their ends or a ring is made that nothing leads to; a word put in a second
// place too, so that lists meet; a word in place of another; or nothing.
pub(crate) fn damage(words: &mut [u16], seed: u16, top: u16, out: u16, end: usize) {
    let place = damaged_place(seed, top);
    let second = draw_below(seed, 7, usize::from(top));
    match draw(seed, 5, 12) {
        0..=1 => exchange(words, place, end),
        2..=3 => exchange(words, place, second),
        4 => {
            let copied = words.get(second).copied().unwrap_or(0);
            put(words, place, copied);
        }
        5..=6 => put(words, place, other_word(seed, out, place)),
        _ => {}
    }
}

// The seed of a further damage.
pub(crate) fn other_seed(seed: u16, k: u16) -> u16 {
    seed % 8192 + k % 8 * 8192
}

// The size that a call is given in place of one: mostly itself.
fn other_size(seed: u16, at: u16, size: u16, past: u16) -> u16 {
    match draw(seed, at, 40) {
        0 => 0,
        1 => past,
        2 => 65535,
        3 => size.wrapping_add(1),
        4 => size.wrapping_sub(1),
        _ => size,
    }
}

// The sizes that a call is given in place of those that were drawn.
pub(crate) fn other_sizes(seed: u16) -> Sizes {
    let sizes = draw_sizes(seed);
    Sizes {
        n: other_size(seed, 8, sizes.n, 1001),
        m: other_size(seed, 9, sizes.m, 4001),
    }
}

// The length that an area is lent at where `least` words are stated: mostly some more, at times too short; the whole area in place of
// one less than none.
pub(crate) fn draw_length(seed: u16, at: u16, least: usize) -> usize {
    match draw(seed, at, 24) {
        0 => draw(seed, at.wrapping_add(100), word(least)).into(),
        1 => least.checked_sub(1).unwrap_or(SPAN),
        _ => least.saturating_add(draw_below(seed, at.wrapping_add(200), 4)),
    }
}

// The checker on an image, at sizes and lengths by chance.
fn check_drawn(image: &Image, seed: u16) -> Outcome {
    let sizes = other_sizes(seed);
    let of_after = draw_length(seed, 10, sizes.nodes());
    let of_tail = draw_length(seed, 11, usize::from(sizes.m));
    checked(
        sizes,
        part(&image.after, of_after),
        part(&image.tail, of_tail),
    )
}

// The tails of an image, at sizes and a length by chance.
fn tell_drawn(image: &Image, seed: u16) -> Outcome {
    let sizes = other_sizes(seed);
    let of_tail = draw_length(seed, 11, usize::from(sizes.m));
    told_tails(sizes, part(&image.tail, of_tail))
}

// Adds the case of each seed's damaged image.
pub(crate) fn add_damaged<F: FnMut(&Image, u16) -> Result<Outcome, AllocError>>(
    group: &mut Group,
    seeds: RangeInclusive<u16>,
    mut case: F,
) -> Result<(), AllocError>
    requires { F.IsAlwaysCallable case }
{
    let alloc = group.alloc;
    let mut image = Image::new(alloc)?;
    for seed in seeds {
        image.draw_damaged(alloc, seed)?;
        group.add(case(&image, seed)?)?;
    }
    Ok(())
}

// The checker on drawn and damaged images.
pub(crate) fn check_cases(group: &mut Group) -> Result<(), AllocError> {
    add_damaged(group, 0..=3999, |image, seed| Ok(check_drawn(image, seed)))
}

// The tails of drawn and damaged images.
pub(crate) fn tail_cases(group: &mut Group) -> Result<(), AllocError> {
    add_damaged(group, 0..=3999, |image, seed| Ok(tell_drawn(image, seed)))
}
