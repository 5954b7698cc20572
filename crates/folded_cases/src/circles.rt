// Circles of a small profile, by closure: which vertices have a path of one edge or more to which, over all vertices or over those that are
// not already on the blank.
use crate::areas::word_of;
use crate::profiles::Profile;

// For each vertex, to which ones it has a path. No number of a vertex is over 7.
#[derive(Clone, Copy)]
struct Paths([[bool; 8]; 8]);

impl Paths {
    // Whether there is a path from u to x.
    fn has(&self, u: u16, x: u16) -> bool {
        match self.0.get(usize::from(u)) {
            Some(row) => row.get(usize::from(x)).copied().unwrap_or(false),
            None => false,
        }
    }

    // Takes an edge from u to x for a path.
    fn put(&mut self, u: u16, x: u16) {
        if let Some(row) = self.0.get_mut(usize::from(u))
            && let Some(path) = row.get_mut(usize::from(x))
        {
            *path = true;
        }
    }

    // Joins the paths to each vertex with those from it.
    fn close(&mut self) {
        for k in 0..8 {
            let through = self.0[k];
            for row in self.0.iter_mut() {
                if row[k] {
                    add(row, &through);
                }
            }
        }
    }
}

// Adds to the paths from a vertex those from another.
fn add(row: &mut [bool; 8], through: &[bool; 8]) {
    for (path, onward) in row.iter_mut().zip(through.iter()) {
        *path = *path || *onward;
    }
}

// Whether a vertex that is reached from the start is on a circle, where no path leads over a vertex with a mark.
pub(crate) fn has_circle(profile: &Profile, marks: &[u16]) -> bool {
    let mut paths = Paths([[false; 8]; 8]);
    for i in 0..profile.m {
        let u = profile.from(i);
        let x = profile.to(i);
        if word_of(marks, u) == 0 && word_of(marks, x) == 0 {
            paths.put(u, x);
        }
    }
    paths.close();
    let start = profile.start;
    (1..8).any(|x| paths.has(x, x) && (x == start || paths.has(start, x)))
}
