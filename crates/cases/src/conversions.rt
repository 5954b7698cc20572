// The converter: into areas that are untouched before, against the array form of a listing.
use crate::areas::{SPAN, UNTOUCHED, holds, lent, part};
use crate::calls::to_array;
use crate::drawn::{Image, add_damaged, draw_length, draw_sizes, other_sizes};
use crate::image::{Sizes, judge_image};
use crate::listing::{Line, find_listing, first_positions, ordered_edges, ordered_tails};
use crate::tally::{Group, Outcome};
use std::alloc::{AllocError, Global};

// The sizes that a conversion is given, and the lengths that its areas are lent at.
#[derive(Clone, Copy)]
pub(crate) struct Given {
    pub(crate) sizes: Sizes,
    pub(crate) after: usize,
    pub(crate) tail: usize,
    pub(crate) firsts: usize,
    pub(crate) tails: usize,
    pub(crate) numbers: usize,
}

impl Given {
    // Sizes and lengths by chance.
    fn draw(seed: u16, sizes: Sizes) -> Given {
        let n = usize::from(sizes.n);
        let m = usize::from(sizes.m);
        Given {
            sizes,
            after: draw_length(seed, 12, n + m),
            tail: draw_length(seed, 13, m),
            firsts: draw_length(seed, 14, n + 1),
            tails: draw_length(seed, 15, m),
            numbers: draw_length(seed, 16, m),
        }
    }

    // Whether an area that is written is too short.
    fn is_short(self) -> bool {
        let m = usize::from(self.sizes.m);
        self.firsts <= usize::from(self.sizes.n) || self.tails < m || self.numbers < m
    }

    // The number of a conversion that is refused.
    fn judge(self, image: &Image) -> Result<(), u16> {
        self.sizes.judged()?;
        if self.is_short() {
            return Err(3);
        }
        judge_image(
            self.sizes,
            part(&image.after, self.after),
            part(&image.tail, self.tail),
        )
    }
}

// The areas of an array form.
#[derive(Drop)]
struct Arrays {
    firsts: Vec<u16>,
    tails: Vec<u16>,
    numbers: Vec<u16>,
}

impl Arrays {
    // What a call that is refused writes.
    fn nothing(alloc: Global) -> Arrays {
        Arrays {
            firsts: Vec::new(alloc),
            tails: Vec::new(alloc),
            numbers: Vec::new(alloc),
        }
    }

    // The array form of a listing.
    fn of(alloc: Global, n: u16, listing: &[Line]) -> Result<Arrays, AllocError> {
        let firsts = first_positions(alloc, n, listing)?;
        let tails = ordered_tails(alloc, listing)?;
        let numbers = ordered_edges(alloc, n, listing)?;
        Ok(Arrays {
            firsts,
            tails,
            numbers,
        })
    }
}

// The case of an image that has this listing. Where the call is refused nothing is to be written.
pub(crate) fn converted(
    alloc: Global,
    image: &Image,
    listing: &[Line],
    given: Given,
) -> Result<Outcome, AllocError> {
    let mut firsts = vec![in alloc; UNTOUCHED; SPAN]?;
    let mut tails = vec![in alloc; UNTOUCHED; SPAN]?;
    let mut numbers = vec![in alloc; UNTOUCHED; SPAN]?;
    let first = to_array(
        given.sizes.n,
        given.sizes.m,
        part(&image.after, given.after),
        part(&image.tail, given.tail),
        lent(&mut firsts, given.firsts),
        lent(&mut tails, given.tails),
        lent(&mut numbers, given.numbers),
    );
    let second = given.judge(image);
    let wanted = match second {
        Ok(()) => Arrays::of(alloc, given.sizes.n, listing)?,
        Err(_) => Arrays::nothing(alloc),
    };
    let holds = holds(&firsts, &wanted.firsts, UNTOUCHED)
        && holds(&tails, &wanted.tails, UNTOUCHED)
        && holds(&numbers, &wanted.numbers, UNTOUCHED);
    Ok(Outcome::of(first, second).also(!holds))
}

// The case of an image, its listing found backwards where the image is taken.
pub(crate) fn converted_as_found(
    alloc: Global,
    image: &Image,
    given: Given,
) -> Result<Outcome, AllocError> {
    let Sizes { n, m } = given.sizes;
    let lines = if given.judge(image).is_ok() { m } else { 0 };
    let listing = find_listing(alloc, n, lines, &image.after, &image.tail)?;
    converted(alloc, image, &listing, given)
}

// Sound images: the listing of each is the one that was drawn.
pub(crate) fn sound_cases(group: &mut Group) -> Result<(), AllocError> {
    let alloc = group.alloc;
    let mut image = Image::new(alloc)?;
    group.add_each(0..=1999u16, |seed| {
        let sizes = draw_sizes(seed);
        let listing = image.draw(alloc, seed, sizes)?;
        converted(alloc, &image, &listing, Given::draw(seed, sizes))
    })
}

// Damaged images.
pub(crate) fn damaged_cases(group: &mut Group) -> Result<(), AllocError> {
    let alloc = group.alloc;
    add_damaged(group, 0..=2999, |image, seed| {
        converted_as_found(alloc, image, Given::draw(seed, other_sizes(seed)))
    })
}
