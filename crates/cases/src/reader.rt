// A second reader of profile texts: an automaton that is fed one byte at a time and has no place in the text.
use crate::areas::word;
use crate::calls::Loaded;
use crate::image::Sizes;
use crate::listing::Line;
use crate::writer::{HEAD, NAMES};
use std::alloc::{AllocError, Global};

// The numbers of a text.
#[derive(Clone, Copy, PartialEq, Eq)]
enum Figure {
    Vertices,
    Edges,
    Start,
    From,
    To,
}

// What is being read: a line of names, of which so many bytes were read; a number, of which so many digits were read, that are worth so
// much; nothing more, out of form.
#[derive(Clone, Copy, PartialEq, Eq)]
enum State {
    Head(usize),
    Names(usize),
    Number(Figure, u8, u16),
    OutOfForm,
}

// The state before the first digit of a number.
fn before(figure: Figure) -> State {
    State::Number(figure, 0, 0)
}

// The state behind a byte of a line of names.
fn named(names: &str, read: usize, byte: u8, within: State, behind: State) -> State {
    if names.as_bytes().get(read) != Some(&byte) {
        State::OutOfForm
    } else if byte == b'\n' {
        behind
    } else {
        within
    }
}

// The worth of digits with one more; a sixth, or a worth of more than 65,535, is not in form.
fn grown(figure: Figure, digits: u8, worth: u16, digit: u8) -> State {
    let more = worth
        .checked_mul(10)
        .and_then(|x| x.checked_add(u16::from(digit)));
    match more {
        Some(more) if digits < 5 => State::Number(figure, digits + 1, more),
        _ => State::OutOfForm,
    }
}

// What was read of a text.
#[derive(Drop)]
pub(crate) struct Reader {
    state: State,
    sizes: Sizes,
    start: u16,
    from: u16,
    lines: Vec<Line>,
}

impl Reader {
    // A number is read, and the byte behind it.
    fn keep(&mut self, figure: Figure, worth: u16, stop: u8) -> Result<State, AllocError> {
        Ok(match (figure, stop) {
            (Figure::Vertices, b',') => {
                self.sizes.n = worth;
                before(Figure::Edges)
            }
            (Figure::Edges, b',') => {
                self.sizes.m = worth;
                before(Figure::Start)
            }
            (Figure::Start, b'\n') => {
                self.start = worth;
                State::Names(0)
            }
            (Figure::From, b',') => {
                self.from = worth;
                before(Figure::To)
            }
            (Figure::To, b'\n') => {
                let line = Line {
                    from: self.from,
                    rank: 1,
                    number: word(self.lines.len()).wrapping_add(1),
                    to: worth,
                };
                self.lines.push(line)?;
                before(Figure::From)
            }
            _ => State::OutOfForm,
        })
    }

    // The state behind one byte more.
    fn fed(&mut self, byte: u8) -> Result<State, AllocError> {
        Ok(match self.state {
            State::Head(read) => named(
                HEAD,
                read,
                byte,
                State::Head(read.wrapping_add(1)),
                before(Figure::Vertices),
            ),
            State::Names(read) => named(
                NAMES,
                read,
                byte,
                State::Names(read.wrapping_add(1)),
                before(Figure::From),
            ),
            State::Number(figure, digits, worth) => match byte {
                b'0'..=b'9' => grown(figure, digits, worth, byte - b'0'),
                _ if digits == 0 => State::OutOfForm,
                _ => self.keep(figure, worth, byte)?,
            },
            State::OutOfForm => State::OutOfForm,
        })
    }

    // Reads a text.
    fn read(alloc: Global, text: &[u8]) -> Result<Reader, AllocError> {
        let mut reader = Reader {
            state: State::Head(0),
            sizes: Sizes { n: 0, m: 0 },
            start: 0,
            from: 0,
            lines: Vec::new(alloc),
        };
        for byte in text {
            reader.state = reader.fed(*byte)?;
        }
        Ok(reader)
    }

    // Whether the text ended behind its last line.
    fn is_in_form(&self) -> bool {
        self.state == before(Figure::From) && self.lines.len() == usize::from(self.sizes.m)
    }

    // What is said of the text of `length` bytes, with areas of these lengths.
    fn judge(&self, length: usize, after: usize, tail: usize) -> Result<Loaded, u16> {
        let sizes = self.sizes;
        if 65536 < length {
            return Err(13);
        }
        if !self.is_in_form() {
            return Err(12);
        }
        sizes.judged()?;
        if after < sizes.nodes() || tail < usize::from(sizes.m) {
            return Err(3);
        }
        if !sizes.has_vertex(self.start) {
            return Err(4);
        }
        let mut lines = self.lines.iter();
        if !lines.all(|line| sizes.has_vertex(line.from) && sizes.has_vertex(line.to)) {
            return Err(6);
        }
        Ok(Loaded {
            sizes,
            start: self.start,
        })
    }
}

// What the second reader says of a text, and the lines of one that it takes.
#[derive(Drop)]
pub(crate) struct Said {
    pub(crate) answer: Result<Loaded, u16>,
    pub(crate) lines: Vec<Line>,
}

impl Said {
    // The sizes of a text that is taken; none of one that is refused.
    pub(crate) fn sizes(&self) -> Sizes {
        match self.answer {
            Ok(loaded) => loaded.sizes,
            Err(_) => Sizes { n: 0, m: 0 },
        }
    }
}

// Reads a text, with areas of these lengths.
pub(crate) fn read_text(
    alloc: Global,
    text: &[u8],
    of_after: usize,
    of_tail: usize,
) -> Result<Said, AllocError> {
    let reader = Reader::read(alloc, text)?;
    let answer = reader.judge(text.len(), of_after, of_tail);
    let lines = match answer {
        Ok(_) => reader.lines,
        Err(_) => Vec::new(alloc),
    };
    Ok(Said { answer, lines })
}
