// Texts that are written down, each a row of a table with the answer that it is to be given: document 01's examples and
// others of their kind, and texts at the limits.
use crate::areas::SPAN;
use crate::calls::{Loaded, read_profile};
use crate::image::Sizes;
use crate::profiles::{Spoilt, draw_text, read_twice, spoil};
use crate::tally::{Group, Outcome};
use crate::writer::{PADDED, Replaced, UNPADDED, Written};
use std::alloc::{AllocError, Global};

// What is written of lines between so many vertices; the place of a byte that is spoilt; where the text is to end; the lengths of the
// areas.
#[derive(Clone, Copy)]
pub(crate) struct Row {
    written: Written,
    vertices: u16,
    spoilt: Option<(usize, Spoilt)>,
    ends: Option<usize>,
    after: usize,
    tail: usize,
    pub(crate) answer: Result<(), u16>,
}

// A text with these values.
pub(crate) fn values(n: u32, m: u32, start: u32, lines: u16, answer: Result<(), u16>) -> Row {
    Row {
        written: Written {
            n,
            m,
            start,
            lines,
            replaced: None,
            width: UNPADDED,
        },
        vertices: 1,
        spoilt: None,
        ends: None,
        after: SPAN,
        tail: SPAN,
        answer,
    }
}

// The text of 44 bytes of one vertex and its loop, with a byte spoilt: not in form.
pub(crate) fn with_spoilt(place: usize, spoilt: Spoilt) -> Row {
    let mut row = values(1, 1, 1, 1, Err(12));
    row.spoilt = Some((place, spoilt));
    row
}

// The same text with a value in place of its from or its to.
pub(crate) fn with_value(replaced: Replaced, answer: Result<(), u16>) -> Row {
    let mut row = values(1, 1, 1, 1, answer);
    row.written.replaced = Some(replaced);
    row
}

// A text of n vertices and m loops, with a zero in front of the number at a place.
fn with_zero(n: u32, m: u16, place: usize, answer: Result<(), u16>) -> Row {
    let mut row = values(n, u32::from(m), 1, m, answer);
    row.spoilt = Some((place, Spoilt::Preceded(b'0')));
    row
}

// A text of two vertices and an edge, read into areas of these lengths.
fn into_areas(after: usize, tail: usize, answer: Result<(), u16>) -> Row {
    let mut row = values(2, 1, 2, 1, answer);
    row.after = after;
    row.tail = tail;
    row
}

// A text at a limit, its edges between so many vertices.
pub(crate) fn at_limit(n: u32, m: u32, lines: u16, vertices: u16, answer: Result<(), u16>) -> Row {
    let mut row = values(n, m, 1, lines, answer);
    row.vertices = vertices;
    row
}

// 16,373 lines of four bytes, and the place of the last byte.
fn longest(n: u32, place: usize, answer: Result<(), u16>) -> Row {
    let mut row = values(n, 16373, 1, 16373, answer);
    row.ends = place.checked_add(1);
    row
}

// The same, with another byte for the last line feed.
fn longest_spoilt(n: u32, place: usize, answer: Result<(), u16>) -> Row {
    let mut row = longest(n, place, answer);
    row.spoilt = Some((place, Spoilt::Replaced(b';')));
    row
}

// A row whose numbers have so many digits at least, and where its text is to end.
fn filled(row: Row, width: usize, ends: usize) -> Row {
    let mut filled = row;
    filled.written.width = width;
    filled.ends = Some(ends);
    filled
}

// No edge, loops, repeated edges; 1, 3, 4, 6; numbers of lines and numbers that are not in form.
fn rows_of_values() -> [Row; 19] {
    [
        values(1, 0, 1, 0, Ok(())),
        values(1, 1, 1, 1, Ok(())),
        values(2, 3, 2, 3, Ok(())),
        values(0, 0, 0, 0, Err(1)),
        values(65535, 0, 1, 0, Err(1)),
        values(65536, 0, 1, 0, Err(12)),
        values(100000, 0, 1, 0, Err(12)),
        values(1, 65535, 1, 1, Err(12)),
        values(1, 1, 1, 0, Err(12)),
        values(1, 1, 1, 2, Err(12)),
        values(2, 0, 3, 0, Err(4)),
        values(2, 1, 0, 1, Err(4)),
        with_value(Replaced::From(0, 0), Err(6)),
        with_value(Replaced::To(0, 2), Err(6)),
        with_value(Replaced::To(0, 65535), Err(6)),
        with_value(Replaced::To(0, 65536), Err(12)),
        into_areas(3, 1, Ok(())),
        into_areas(2, 1, Err(3)),
        into_areas(3, 0, Err(3)),
    ]
}

// from;to and 1;1; other names; line feeds and commas missing, doubled or behind a carriage return; a zero in front, which makes five
// digits or six; signs and spaces; numbers without digits; texts cut off.
fn rows_of_damage() -> [Row; 20] {
    [
        with_spoilt(36, Spoilt::Replaced(b';')),
        with_spoilt(41, Spoilt::Replaced(b';')),
        with_spoilt(0, Spoilt::Replaced(b'E')),
        with_spoilt(43, Spoilt::Missing),
        with_spoilt(43, Spoilt::Doubled),
        with_spoilt(43, Spoilt::Preceded(b'\r')),
        with_spoilt(25, Spoilt::Preceded(b'\r')),
        with_spoilt(27, Spoilt::Doubled),
        with_zero(1000, 0, 26, Ok(())),
        with_zero(65535, 0, 26, Err(12)),
        with_spoilt(26, Spoilt::Preceded(b'+')),
        with_spoilt(30, Spoilt::Preceded(b'-')),
        with_spoilt(30, Spoilt::Preceded(b' ')),
        with_spoilt(28, Spoilt::Missing),
        with_spoilt(42, Spoilt::Missing),
        with_spoilt(31, Spoilt::Replaced(b',')),
        with_spoilt(0, Spoilt::Cut),
        with_spoilt(26, Spoilt::Cut),
        with_spoilt(39, Spoilt::Cut),
        with_spoilt(40, Spoilt::Cut),
    ]
}

// 1,000 vertices and 4,000 edges, one more of each, one line fewer and one line more. Then texts of 65,536 bytes, and of 65,537 where
// n has a digit more; in form, and with another byte for the last line feed.
fn limit_rows() -> [Row; 9] {
    [
        at_limit(1000, 4000, 4000, 1000, Ok(())),
        at_limit(1001, 4000, 4000, 1001, Err(1)),
        at_limit(1000, 4001, 4001, 1000, Err(2)),
        at_limit(1000, 4001, 4000, 1000, Err(12)),
        at_limit(1000, 4000, 4001, 1000, Err(12)),
        longest(9, 65535, Err(2)),
        longest(10, 65536, Err(13)),
        longest_spoilt(9, 65535, Err(12)),
        longest_spoilt(10, 65536, Err(13)),
    ]
}

// The largest number of five digits; a zero in front of one number; all numbers of five digits, of six, and of six in one place.
// Then lines of eight bytes and of twelve: texts of 65,536 bytes, of 65,537 where n has a digit more, and the largest that is taken.
fn padded_rows() -> [Row; 15] {
    let zero = Spoilt::Preceded(b'0');
    [
        values(99999, 0, 1, 0, Err(12)),
        with_zero(1, 1, 26, Ok(())),
        with_zero(1, 1, 40, Ok(())),
        filled(values(12, 0, 12, 0, Ok(())), PADDED, 52),
        filled(values(1, 1, 1, 1, Ok(())), PADDED, 64),
        filled(values(1, 1, 1, 1, Err(12)), 6, 69),
        filled(with_spoilt(26, zero), PADDED, 65),
        filled(with_spoilt(32, zero), PADDED, 65),
        filled(with_spoilt(38, zero), PADDED, 65),
        filled(with_spoilt(52, zero), PADDED, 65),
        filled(with_spoilt(58, zero), PADDED, 65),
        filled(at_limit(1000, 8186, 8186, 1, Err(2)), 3, 65536),
        filled(at_limit(10000, 8186, 8186, 1, Err(13)), 3, 65537),
        filled(at_limit(1, 5457, 5457, 1, Err(2)), PADDED, 65536),
        filled(at_limit(1000, 4000, 4000, 1000, Ok(())), PADDED, 48052),
    ]
}

// All rows.
pub(crate) fn rows(alloc: Global) -> Result<Vec<Row>, AllocError> {
    let mut rows = rows_of_values().to_vec(alloc)?;
    rows.extend_from_slice(&rows_of_damage())?;
    rows.extend_from_slice(&limit_rows())?;
    rows.extend_from_slice(&padded_rows())?;
    Ok(rows)
}

impl Row {
    // The text of a row.
    pub(crate) fn text(&self, alloc: Global) -> Result<Vec<u8>, AllocError> {
        let text = draw_text(alloc, 3, self.vertices, self.written)?;
        match self.spoilt {
            Some((place, spoilt)) => spoil(alloc, text.as_bytes(), place, spoilt),
            None => text.as_bytes().to_vec(alloc),
        }
    }

    // The case of a row: its text is read into areas of its lengths.
    fn read(&self, alloc: Global) -> Result<Outcome, AllocError> {
        let text = self.text(alloc)?;
        let outcome = read_twice(alloc, &text, self.after, self.tail)?;
        let differs = self.ends.is_some_and(|end| end != text.len());
        Ok(outcome.expected(self.answer).also(differs))
    }
}

// The printed profile, with the words that it is loaded as.
fn printed_profile() -> Outcome {
    let text = b"elements,references,start\n3,4,1\nfrom,to\n1,2\n1,3\n2,3\n3,1\n";
    let mut after = [0u16; 7];
    let mut tail = [0u16; 4];
    let said = read_profile(text, &mut after, &mut tail);
    let loaded = Loaded {
        sizes: Sizes { n: 3, m: 4 },
        start: 1,
    };
    Outcome::of(said, Ok(loaded)).also(after != [4, 6, 7, 5, 0, 0, 0] || tail != [2, 3, 3, 1])
}

// The rows, and the printed profile.
pub(crate) fn cases(group: &mut Group) -> Result<(), AllocError> {
    let alloc = group.alloc;
    group.add_each(rows(alloc)?.iter(), |row| row.read(alloc))?;
    group.add(printed_profile())
}
