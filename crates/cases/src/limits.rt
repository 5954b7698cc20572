// Images and array forms at the limits: 1,000 vertices and 4,000 edges. Each case is a row of a table, with the answer that it is to
// be given.
use crate::areas::{part, put};
use crate::conversions::{Given, converted};
use crate::drawn::Image;
use crate::image::{Sizes, checked};
use crate::queries::{ArrayForm, Query};
use crate::tally::{Group, Outcome};
use std::alloc::{AllocError, Global};

const LARGEST: Sizes = Sizes { n: 1000, m: 4000 };

// A word in place of another in the largest image: of its after words or of its tails.
#[derive(Clone, Copy)]
enum OtherWord {
    After(usize, u16),
    Tail(usize, u16),
}

// The sizes and the lengths that the checker is given, and a word that is put in place of another.
#[derive(Clone, Copy)]
struct CheckRow {
    n: u16,
    m: u16,
    after: usize,
    tail: usize,
    other: Option<OtherWord>,
    answer: Result<(), u16>,
}

// Sizes and lengths of the largest image as it was drawn.
fn sized(n: u16, m: u16, after: usize, tail: usize, answer: Result<(), u16>) -> CheckRow {
    CheckRow {
        n,
        m,
        after,
        tail,
        other: None,
        answer,
    }
}

// The largest image with another word in one place.
fn with_word(other: OtherWord, answer: Result<(), u16>) -> CheckRow {
    CheckRow {
        n: 1000,
        m: 4000,
        after: 5000,
        tail: 4000,
        other: Some(other),
        answer,
    }
}

// The rows of the checker.
fn check_rows() -> [CheckRow; 12] {
    [
        sized(1000, 4000, 5000, 4000, Ok(())),
        sized(1001, 4000, 5001, 4000, Err(1)),
        sized(1001, 4001, 5002, 4001, Err(1)),
        sized(1000, 4001, 5001, 4001, Err(2)),
        sized(1000, 4000, 4999, 4000, Err(3)),
        sized(1000, 4000, 5000, 3999, Err(3)),
        with_word(OtherWord::After(4999, 5001), Err(5)),
        with_word(OtherWord::After(0, 1000), Err(5)),
        with_word(OtherWord::Tail(3999, 1001), Err(6)),
        with_word(OtherWord::Tail(3999, 0), Err(6)),
        with_word(OtherWord::Tail(3999, 1000), Ok(())),
        with_word(OtherWord::After(4999, 5000), Err(7)),
    ]
}

// The checker on the largest image, drawn and then with another word in one place.
fn check_row(alloc: Global, row: &CheckRow) -> Result<Outcome, AllocError> {
    let mut image = Image::new(alloc)?;
    image.draw(alloc, 1, LARGEST)?;
    match row.other {
        Some(OtherWord::After(place, word)) => put(&mut image.after, place, word),
        Some(OtherWord::Tail(place, word)) => put(&mut image.tail, place, word),
        None => {}
    }
    let sizes = Sizes { n: row.n, m: row.m };
    let after = part(&image.after, row.after);
    let tail = part(&image.tail, row.tail);
    Ok(checked(sizes, after, tail).expected(row.answer))
}

// The checker at the limits.
pub(crate) fn check_cases(group: &mut Group) -> Result<(), AllocError> {
    let alloc = group.alloc;
    group.add_each(check_rows().iter(), |row| check_row(alloc, row))
}

// The sizes that a conversion is given, and the lengths of its first positions and its tails.
#[derive(Clone, Copy)]
struct ConversionRow {
    n: u16,
    m: u16,
    firsts: usize,
    tails: usize,
    answer: Result<(), u16>,
}

#[rattlefmt::skip]
const CONVERSIONS: [ConversionRow; 5] = [
    ConversionRow { n: 1001, m: 4000, firsts: 1002, tails: 4000, answer: Err(1) },
    ConversionRow { n: 1000, m: 4001, firsts: 1001, tails: 4001, answer: Err(2) },
    ConversionRow { n: 1000, m: 4000, firsts: 1000, tails: 4000, answer: Err(3) },
    ConversionRow { n: 1000, m: 4000, firsts: 1001, tails: 3999, answer: Err(3) },
    ConversionRow { n: 1000, m: 4000, firsts: 1001, tails: 4000, answer: Ok(()) },
];

// The converter at the limits.
pub(crate) fn conversion_cases(group: &mut Group) -> Result<(), AllocError> {
    let alloc = group.alloc;
    let mut image = Image::new(alloc)?;
    let listing = image.draw(alloc, 1, LARGEST)?;
    group.add_each(CONVERSIONS.iter(), |row| {
        let given = Given {
            sizes: Sizes { n: row.n, m: row.m },
            after: 5000,
            tail: 4000,
            firsts: row.firsts,
            tails: row.tails,
            numbers: 4000,
        };
        Ok(converted(alloc, &image, &listing, given)?.expected(row.answer))
    })
}

// The sizes, the lengths and the vertex that a query is given.
#[derive(Clone, Copy)]
struct QueryRow {
    n: u16,
    m: u16,
    firsts: usize,
    tails: usize,
    u: u16,
    answer: Result<(), u16>,
}

#[rattlefmt::skip]
const QUERIES: [QueryRow; 8] = [
    QueryRow { n: 1000, m: 4000, firsts: 1001, tails: 4000, u: 1, answer: Ok(()) },
    QueryRow { n: 1000, m: 4000, firsts: 1001, tails: 4000, u: 500, answer: Ok(()) },
    QueryRow { n: 1000, m: 4000, firsts: 1001, tails: 4000, u: 1000, answer: Ok(()) },
    QueryRow { n: 1000, m: 4000, firsts: 1001, tails: 4000, u: 1001, answer: Err(4) },
    QueryRow { n: 1001, m: 4000, firsts: 1002, tails: 4000, u: 1, answer: Err(1) },
    QueryRow { n: 1000, m: 4001, firsts: 1001, tails: 4001, u: 1, answer: Err(2) },
    QueryRow { n: 1000, m: 4000, firsts: 1000, tails: 4000, u: 1, answer: Err(3) },
    QueryRow { n: 1000, m: 4000, firsts: 1001, tails: 3999, u: 1, answer: Err(3) },
];

// The query at the limits.
pub(crate) fn query_cases(group: &mut Group) -> Result<(), AllocError> {
    let alloc = group.alloc;
    let mut form = ArrayForm::new(alloc)?;
    form.draw(alloc, 2, LARGEST)?;
    group.add_each(QUERIES.iter(), |row| {
        let query = Query {
            sizes: Sizes { n: row.n, m: row.m },
            firsts: row.firsts,
            tails: row.tails,
            u: row.u,
        };
        Ok(query.asked(alloc, &form)?.expected(row.answer))
    })
}
