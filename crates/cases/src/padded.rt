// A profile's text without padding and with five digits a number: the walks of both are to have one answer, to print the same bytes and
// to leave the same words in every area, unless one text is over 65,536 bytes.
use crate::chance::draw;
use crate::drawn::{draw_sizes, other_seed};
use crate::listing::{Line, draw_listing};
use crate::profiles::not_as_listed;
use crate::tally::{Group, Outcome};
use crate::walk_rows::{between_all, chain};
use crate::walked::{AREAS, Lent, Walk, compare_walk, run_walk};
use crate::writer::{PADDED, UNPADDED, Written};
use std::alloc::{AllocError, Global};

// Walks the text of a listing, each number with so many digits at least.
fn walk_written(
    alloc: Global,
    listing: &[Line],
    written: Written,
    width: usize,
    lengths: Lent,
) -> Result<Walk, AllocError> {
    let mut with_width = written;
    with_width.width = width;
    let text = with_width.text(alloc, listing)?;
    run_walk(alloc, text.as_bytes(), lengths)
}

// The case of a listing: the walk of its text without padding against that of its padded text.
fn walked_both(
    alloc: Global,
    listing: &[Line],
    written: Written,
    lengths: Lent,
) -> Result<Outcome, AllocError> {
    let first = walk_written(alloc, listing, written, UNPADDED, lengths)?;
    let second = walk_written(alloc, listing, written, PADDED, lengths)?;
    let differs = first != second;
    Ok(Outcome::of(first.answer, second.answer).also(differs))
}

// A text of 8,186 lines, 1,1 as far as an area has words and then 0,0, that is to have so many bytes; with its answer.
fn loops_case(
    alloc: Global,
    width: usize,
    bytes: usize,
    answer: Result<(), u16>,
) -> Result<Outcome, AllocError> {
    let listing = draw_listing(alloc, 0, 1, 8186, 1)?;
    let text = between_all(8186, width).text(alloc, &listing)?;
    let outcome = compare_walk(alloc, text.as_bytes(), Lent::ALL)?.outcome;
    Ok(outcome.expected(answer).also(text.len() != bytes))
}

// The largest profile that is taken.
fn largest_case(alloc: Global) -> Result<Outcome, AllocError> {
    let listing = chain(alloc, 4000)?;
    let outcome = walked_both(alloc, &listing, between_all(4000, UNPADDED), Lent::ALL)?;
    let padded = between_all(4000, PADDED).text(alloc, &listing)?;
    Ok(outcome.expected(Ok(())).also(padded.len() != 48052))
}

// A listing by chance, written as it was drawn or with one value in place of another.
fn drawn_case(alloc: Global, i: u16) -> Result<Outcome, AllocError> {
    let seed = other_seed(i, 5);
    let written = not_as_listed(seed);
    let listing = draw_listing(alloc, seed, draw_sizes(seed).n, written.lines, 1)?;
    let lengths = Lent {
        one: AREAS.get(usize::from(draw(seed, 79, 6))).copied(),
        less: 0,
    };
    walked_both(alloc, &listing, written, lengths)
}

// First the profile whose walks differ: of its texts the padded one alone is over 65,536 bytes. Then the largest, and listings by
// chance.
pub(crate) fn cases(group: &mut Group) -> Result<(), AllocError> {
    let alloc = group.alloc;
    group.add(loops_case(alloc, UNPADDED, 32790, Err(2))?)?;
    group.add(loops_case(alloc, PADDED, 98284, Err(13))?)?;
    group.add(largest_case(alloc)?)?;
    group.add_each(0..=599u16, |i| drawn_case(alloc, i))
}
