// Circles of a small listing, by closure: which vertices have a path of one line or more to which.
use crate::calls::Loaded;
use crate::listing::Line;

// The greatest number of a vertex of a small listing.
const GREATEST: u16 = 15;

// From which vertex, as the first place, there is a path to which.
#[derive(Clone, Copy)]
struct Paths([[bool; 16]; 16]);

impl Paths {
    // Whether there is a path from u to x.
    fn has(&self, u: u16, x: u16) -> bool {
        let row = self.0.get(usize::from(u));
        row.and_then(|row| row.get(usize::from(x))) == Some(&true)
    }

    // Notes a path from u to x.
    fn note(&mut self, u: u16, x: u16) {
        if let Some(row) = self.0.get_mut(usize::from(u)) {
            if let Some(place) = row.get_mut(usize::from(x)) {
                *place = true;
            }
        }
    }

    // Joins the paths from u to k and from k on.
    fn join(&mut self, k: u16, u: u16) {
        if self.has(u, k) {
            // By number: one row is read while another is written.
            for x in 0..=GREATEST {
                if self.has(k, x) {
                    self.note(u, x);
                }
            }
        }
    }

    // Joins all paths, through each vertex in turn.
    fn close(&mut self) {
        for k in 0..=GREATEST {
            for u in 0..=GREATEST {
                self.join(k, u);
            }
        }
    }
}

// Whether a vertex that the start is, or has a path to, has a path to itself; told of no more than 15 vertices.
pub(crate) fn is_circular(loaded: Loaded, lines: &[Line]) -> Option<bool> {
    if GREATEST < loaded.sizes.n {
        return None;
    }
    let start = loaded.start;
    let mut paths = Paths([[false; 16]; 16]);
    for line in lines {
        paths.note(line.from, line.to);
    }
    paths.close();
    Some((0..=GREATEST).any(|x| paths.has(x, x) && (x == start || paths.has(start, x))))
}
