// Numbers of the text: written and read back, all of them; at places without room; and digits in form and not.
use crate::areas::{BLANK, lent, part, store, word};
use crate::calls::{read_number, write_number};
use crate::chance::{draw, draw_below, draw_word, pick};
use crate::tally::{Group, Outcome};
use std::alloc::{AllocError, Global};
use std::{array, str};

// The call is lent an area of this many bytes, or fewer.
const ROOM: usize = 16;

// What a number is written as: the whole area, and the place past the digits.
#[derive(Clone, Copy, PartialEq, Eq)]
struct Digits {
    area: [u8; ROOM],
    past: usize,
}

// Writes x into the first `length` bytes of an area.
fn write(x: u16, length: usize, at: usize) -> Digits {
    let mut area = [BLANK; ROOM];
    let past = write_number(x, lent(&mut area, length), at);
    Digits { area, past }
}

// Where there is room, what x is to be written as; else an area that is untouched.
fn write_second(alloc: Global, x: u16, length: usize, at: usize) -> Result<Digits, AllocError> {
    let mut area = [BLANK; ROOM];
    let digits = x.to_string(alloc)?;
    let past = at.saturating_add(digits.len());
    if length < past {
        return Ok(Digits { area, past: at });
    }
    store(&mut area, at, digits.as_bytes());
    Ok(Digits { area, past })
}

// The case of a write into the first `length` bytes; 3 is counted where there is no room.
fn written(alloc: Global, x: u16, length: usize, at: usize) -> Result<Outcome, AllocError> {
    let first = write(x, length, at);
    let second = write_second(alloc, x, length, at)?;
    Ok(Outcome {
        answer: if first.past == at { Err(3) } else { Ok(()) },
        differs: first != second,
    })
}

// One of the values from 0 to 65,535: written, and read back with a byte behind it and at the end of the text.
fn value_case(alloc: Global, x: u16) -> Result<Outcome, AllocError> {
    let at = usize::from(x % 7);
    let Digits { area, past } = write(x, ROOM, at);
    let said = Some((x, past));
    let differs = read_number(&area, at) != said || read_number(part(&area, past), at) != said;
    Ok(written(alloc, x, ROOM, at)?.also(differs))
}

// Every number.
pub(crate) fn value_cases(group: &mut Group) -> Result<(), AllocError> {
    let alloc = group.alloc;
    group.add_each(0..=u16::MAX, |x| value_case(alloc, x))
}

// A place: mostly near the start, at times far past every area.
fn draw_place(seed: u16) -> usize {
    match draw(seed, 60, 10) {
        0 => 18446744073709551615,
        1 => 9223372036854775807,
        _ => draw_below(seed, 61, 14),
    }
}

// A number with one digit, two, three, or any.
pub(crate) fn draw_number(seed: u16) -> u16 {
    let x = draw_word(seed, 62);
    match draw(seed, 64, 6) {
        0 => x % 10,
        1 => x % 100,
        2 => x % 1000,
        _ => x,
    }
}

// The least and the greatest number of each length, with its digits.
#[rattlefmt::skip]
const LIMITS: [(u16, &[u8]); 10] = [
    (0, b"0"),
    (9, b"9"),
    (10, b"10"),
    (99, b"99"),
    (100, b"100"),
    (999, b"999"),
    (1000, b"1000"),
    (9999, b"9999"),
    (10000, b"10000"),
    (65535, b"65535"),
];

// The case of a number whose digits are written down: with room for exactly these they are written, with less nothing is.
fn written_as(alloc: Global, x: u16, digits: &[u8]) -> Result<Outcome, AllocError> {
    let length = digits.len();
    let without = written(alloc, x, length.saturating_sub(1), 0)?;
    let with = written(alloc, x, length, 0)?;
    let Digits { area, .. } = write(x, length, 0);
    let without = without.expected(Err(3));
    Ok(
        with.expected(Ok(()))
            .also(without.differs || !area.starts_with(digits)),
    )
}

// A number written at a place with or without room.
fn placed_case(alloc: Global, seed: u16) -> Result<Outcome, AllocError> {
    let length = draw_below(seed, 65, 17);
    written(alloc, draw_number(seed), length, draw_place(seed))
}

// The numbers at the limits, then numbers and places by chance.
pub(crate) fn room_cases(group: &mut Group) -> Result<(), AllocError> {
    let alloc = group.alloc;
    group.add_each(LIMITS.iter(), |(x, digits)| written_as(alloc, *x, digits))?;
    group.add_each(0..=3999u16, |seed| placed_case(alloc, seed))
}

// The number at a place: the shortest run of bytes behind which no digit stands, if it is of five at most and begins with a digit.
fn take_number(text: &[u8], at: usize) -> Option<(u16, usize)> {
    let rest = text.get(at..)?;
    let is_digit = |k: usize| matches!(rest.get(k), Some(b'0'..=b'9'));
    if !is_digit(0) {
        return None;
    }
    let count = (1..6usize).find(|k| !is_digit(*k))?;
    let value = str::from_utf8(rest.get(..count)?).ok()?.parse().ok()?;
    Some((value, at.checked_add(count)?))
}

// The case of a read: what is found against the second; 12 is counted where the digits are not in form.
fn read(text: &[u8], at: usize) -> Outcome {
    let first = read_number(text, at).ok_or(12);
    let second = take_number(text, at).ok_or(12);
    Outcome::of(first, second)
}

// One to five digits, with zeros in front and without, up to 65,535; more, and six digits; a byte behind that is no digit. With what is
// to be found at the first digit.
#[rattlefmt::skip]
const READS: [(&[u8], Option<(u16, usize)>); 12] = [
    (b"00000", Some((0, 5))),
    (b"00012", Some((12, 5))),
    (b"00001", Some((1, 5))),
    (b"65535", Some((65535, 5))),
    (b"065535", None),
    (b"65536", None),
    (b"99999", None),
    (b"000000", None),
    (b"000012", None),
    (b"0", Some((0, 1))),
    (b"00000,", Some((0, 5))),
    (b"12a", Some((12, 2))),
];

// The case of digits that are written down.
fn read_as(digits: &[u8], said: Option<(u16, usize)>) -> Outcome {
    read(digits, 0).also(read_number(digits, 0) != said)
}

// Bytes by chance: mostly digits, many of them zeros, else what stands next to the digits, in a text or in no text.
fn draw_digits(seed: u16) -> [u8; ROOM] {
    array::from_fn(|i| {
        pick(
            seed,
            word(i).wrapping_add(100),
            b"0000000000000000123456789123456789465535/:,\n -+\x00\xff",
        )
    })
}

// A number read from digits by chance, at times from one next to the limit 65,535.
fn drawn_case(alloc: Global, seed: u16) -> Result<Outcome, AllocError> {
    let at = draw_below(seed, 68, 12);
    let mut text = draw_digits(seed);
    if draw(seed, 66, 3) == 0 {
        let near = (u32::from(draw(seed, 67, 32)) + 65520).to_string(alloc)?;
        store(&mut text, at, near.as_bytes());
    }
    Ok(read(part(&text, draw_below(seed, 69, 17)), at))
}

// The digits that are written down, then digits by chance.
pub(crate) fn digits_cases(group: &mut Group) -> Result<(), AllocError> {
    let alloc = group.alloc;
    group.add_each(READS.iter(), |(digits, said)| Ok(read_as(digits, *said)))?;
    group.add_each(0..=3999u16, |seed| drawn_case(alloc, seed))
}
