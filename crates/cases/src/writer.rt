// A second writer of texts.
use crate::listing::Line;
use std::alloc::{AllocError, Global};

// How many digits numbers are written with at least: one, or five.
pub(crate) const UNPADDED: usize = 1;

pub(crate) const PADDED: usize = 5;

// The line of names that a profile begins with.
pub(crate) const HEAD: &str = "elements,references,start\n";

// The line of names before the value lines.
pub(crate) const NAMES: &str = "from,to\n";

// A value in place of the from or of the to of a line, counted from 0.
#[derive(Clone, Copy)]
pub(crate) enum Replaced {
    From(u16, u32),
    To(u16, u32),
}

// What is written of a listing: the sizes and the start that the text states, how many lines it has, a value that is put in place of
// another or none, and how many digits every number has at least.
#[derive(Clone, Copy)]
pub(crate) struct Written {
    pub(crate) n: u32,
    pub(crate) m: u32,
    pub(crate) start: u32,
    pub(crate) lines: u16,
    pub(crate) replaced: Option<Replaced>,
    pub(crate) width: usize,
}

impl Written {
    // The from and the to of line i: 0 and 0 past those of the listing.
    fn ends(self, i: u16, listing: &[Line]) -> (u32, u32) {
        let line = listing.get(usize::from(i));
        let from = line.map_or(0, |line| u32::from(line.from));
        let to = line.map_or(0, |line| u32::from(line.to));
        match self.replaced {
            Some(Replaced::From(at, value)) if at == i => (value, to),
            Some(Replaced::To(at, value)) if at == i => (from, value),
            _ => (from, to),
        }
    }

    // The text of a listing.
    pub(crate) fn text(self, alloc: Global, listing: &[Line]) -> Result<String, AllocError> {
        let Written {
            n,
            m,
            start,
            lines,
            width,
            ..
        } = self;
        let mut text = String::from_str(alloc, HEAD)?;
        write!(text, "{n:0width$},{m:0width$},{start:0width$}\n")?;
        text.push_str(NAMES)?;
        // By number: lines past those of the listing are written too.
        for i in 0..lines {
            let (from, to) = self.ends(i, listing);
            write!(text, "{from:0width$},{to:0width$}\n")?;
        }
        Ok(text)
    }
}
