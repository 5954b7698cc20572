// Small images and array forms that are written down, each a row of a table with the answer that it is to be given: the
// examples of document 01 and others of their kind.
use crate::areas::SPAN;
use crate::conversions::{Given, converted_as_found};
use crate::drawn::Image;
use crate::image::{Sizes, checked};
use crate::limits;
use crate::queries::{ArrayForm, Query};
use crate::tally::{Group, Outcome};
use std::alloc::{AllocError, Global};

// A small image.
#[derive(Clone, Copy)]
struct ImageRow {
    n: u16,
    m: u16,
    after: &'static [u16],
    tail: &'static [u16],
    answer: Result<(), u16>,
}

// Taken: the printed profile, no edge, a loop, repeated edges, words past those that are stated. Then 1, 2, 3, 5 and 6; 7: on two
// lists, on none, on a list that ends in a ring, on rings that no list leads to.
#[rattlefmt::skip]
const IMAGES: [ImageRow; 20] = [
    ImageRow { n: 3, m: 4, after: &[4, 6, 7, 5, 0, 0, 0], tail: &[2, 3, 3, 1], answer: Ok(()) },
    ImageRow { n: 1, m: 0, after: &[0], tail: &[], answer: Ok(()) },
    ImageRow { n: 1, m: 1, after: &[2, 0], tail: &[1], answer: Ok(()) },
    ImageRow { n: 2, m: 2, after: &[3, 0, 4, 0], tail: &[2, 2], answer: Ok(()) },
    ImageRow { n: 1, m: 0, after: &[0, 9], tail: &[7], answer: Ok(()) },
    ImageRow { n: 0, m: 1, after: &[2, 0], tail: &[1], answer: Err(1) },
    ImageRow { n: 0, m: 4001, after: &[], tail: &[], answer: Err(1) },
    ImageRow { n: 1, m: 4001, after: &[0], tail: &[], answer: Err(2) },
    ImageRow { n: 2, m: 1, after: &[3, 0], tail: &[1], answer: Err(3) },
    ImageRow { n: 2, m: 1, after: &[3, 3, 0], tail: &[], answer: Err(3) },
    ImageRow { n: 1, m: 1, after: &[1, 0], tail: &[1], answer: Err(5) },
    ImageRow { n: 1, m: 1, after: &[3, 0], tail: &[0], answer: Err(5) },
    ImageRow { n: 1, m: 1, after: &[2, 0], tail: &[0], answer: Err(6) },
    ImageRow { n: 1, m: 1, after: &[2, 0], tail: &[2], answer: Err(6) },
    ImageRow { n: 2, m: 1, after: &[3, 3, 0], tail: &[0], answer: Err(6) },
    ImageRow { n: 2, m: 1, after: &[3, 3, 0], tail: &[1], answer: Err(7) },
    ImageRow { n: 2, m: 1, after: &[0, 0, 0], tail: &[1], answer: Err(7) },
    ImageRow { n: 1, m: 1, after: &[2, 2], tail: &[1], answer: Err(7) },
    ImageRow { n: 1, m: 1, after: &[0, 2], tail: &[1], answer: Err(7) },
    ImageRow { n: 1, m: 2, after: &[0, 3, 2], tail: &[1, 1], answer: Err(7) },
];

// The checker on the image of a row.
fn check_row(row: &ImageRow) -> Outcome {
    let sizes = Sizes { n: row.n, m: row.m };
    checked(sizes, row.after, row.tail).expected(row.answer)
}

// The converter on the image of a row, with room for all.
fn convert_row(alloc: Global, row: &ImageRow) -> Result<Outcome, AllocError> {
    let image = Image {
        after: row.after.to_vec(alloc)?,
        tail: row.tail.to_vec(alloc)?,
    };
    let given = Given {
        sizes: Sizes { n: row.n, m: row.m },
        after: SPAN,
        tail: SPAN,
        firsts: SPAN,
        tails: SPAN,
        numbers: SPAN,
    };
    Ok(converted_as_found(alloc, &image, given)?.expected(row.answer))
}

// A small array form and a query of it, with its part.
#[derive(Clone, Copy)]
struct QueryRow {
    n: u16,
    m: u16,
    firsts: &'static [u16],
    tails: &'static [u16],
    u: u16,
    answer: Result<(), u16>,
    part: &'static [u16],
}

// The printed profile, vertices without edges; 4; 5 by the first, the last, a fall at the end and in the middle; 6.
#[rattlefmt::skip]
const QUERIES: [QueryRow; 12] = [
    QueryRow { n: 3, m: 4, firsts: &[1, 3, 4, 5], tails: &[2, 3, 3, 1], u: 1, answer: Ok(()), part: &[2, 3] },
    QueryRow { n: 3, m: 4, firsts: &[1, 3, 4, 5], tails: &[2, 3, 3, 1], u: 2, answer: Ok(()), part: &[3] },
    QueryRow { n: 3, m: 4, firsts: &[1, 3, 4, 5], tails: &[2, 3, 3, 1], u: 3, answer: Ok(()), part: &[1] },
    QueryRow { n: 2, m: 1, firsts: &[1, 1, 2], tails: &[1], u: 1, answer: Ok(()), part: &[] },
    QueryRow { n: 1, m: 0, firsts: &[1, 1], tails: &[], u: 1, answer: Ok(()), part: &[] },
    QueryRow { n: 2, m: 1, firsts: &[1, 1, 2], tails: &[1], u: 3, answer: Err(4), part: &[] },
    QueryRow { n: 2, m: 1, firsts: &[1, 1, 2], tails: &[1], u: 0, answer: Err(4), part: &[] },
    QueryRow { n: 2, m: 1, firsts: &[2, 2, 2], tails: &[1], u: 1, answer: Err(5), part: &[] },
    QueryRow { n: 2, m: 1, firsts: &[1, 1, 1], tails: &[1], u: 1, answer: Err(5), part: &[] },
    QueryRow { n: 2, m: 1, firsts: &[1, 2, 1], tails: &[1], u: 1, answer: Err(5), part: &[] },
    QueryRow { n: 3, m: 1, firsts: &[1, 2, 1, 2], tails: &[1], u: 1, answer: Err(5), part: &[] },
    QueryRow { n: 2, m: 1, firsts: &[1, 1, 2], tails: &[3], u: 1, answer: Err(6), part: &[] },
];

// The query of a row, and its part as it is written down.
fn query_row(alloc: Global, row: &QueryRow) -> Result<Outcome, AllocError> {
    let form = ArrayForm {
        firsts: row.firsts.to_vec(alloc)?,
        tails: row.tails.to_vec(alloc)?,
    };
    let query = Query {
        sizes: Sizes { n: row.n, m: row.m },
        firsts: SPAN,
        tails: SPAN,
        u: row.u,
    };
    let differs = query.part_differs(&form, row.part);
    Ok(
        query
            .asked(alloc, &form)?
            .expected(row.answer)
            .also(differs),
    )
}

// The images of this file, then those at the limits.
pub(crate) fn check_cases(group: &mut Group) -> Result<(), AllocError> {
    group.add_each(IMAGES.iter(), |row| Ok(check_row(row)))?;
    limits::check_cases(group)
}

// The images of this file and those at the limits, converted.
pub(crate) fn conversion_cases(group: &mut Group) -> Result<(), AllocError> {
    let alloc = group.alloc;
    group.add_each(IMAGES.iter(), |row| convert_row(alloc, row))?;
    limits::conversion_cases(group)
}

// The array forms of this file, then those at the limits.
pub(crate) fn query_cases(group: &mut Group) -> Result<(), AllocError> {
    let alloc = group.alloc;
    group.add_each(QUERIES.iter(), |row| query_row(alloc, row))?;
    limits::query_cases(group)
}
