// Profiles: edges made by a fixed rule.
use crate::chance::Chance;

// Families of profiles: by chance, a ring, a star out of a vertex and one into it, all edges out of a few vertices, loops, two parts, a
// path and edges by chance, edges from lesser to greater vertices, and the printed example of document 01.
#[derive(Clone, Copy, PartialEq, Eq)]
pub(crate) enum Family {
    Drawn,
    Ring,
    StarOut,
    StarIn,
    Few,
    Loops,
    Parts,
    Path,
    Rising,
    Example,
}

impl Family {
    // The family of a seed: one for each thousand.
    // A rest arm gives every seed a family, where TryFrom would ask for an error.
    pub(crate) fn of(seed: u16) -> Family {
        match seed / 1000 {
            0 => Family::Drawn,
            1 => Family::Ring,
            2 => Family::StarOut,
            3 => Family::StarIn,
            4 => Family::Few,
            6 => Family::Parts,
            7 => Family::Path,
            8 => Family::Rising,
            9 => Family::Example,
            _ => Family::Loops,
        }
    }
}

// A profile of n vertices and m edges with a start, all of whose edges follow from the family and the draws of a seed.
#[derive(Clone, Copy)]
pub(crate) struct Profile {
    pub n: u16,
    pub m: u16,
    pub start: u16,
    pub chance: Chance,
}

// The remainder, or 0.
fn rest(a: u16, b: u16) -> u16 {
    if b == 0 { 0 } else { a % b }
}

// A draw with an edge's parity: odd for every second one.
fn parted(r: u16, i: u16) -> u16 {
    (r & 0x7fff) * 2 + i % 2
}

impl Profile {
    // In the rising family, what the vertex that edge i leaves is one more than: each but the last in turn.
    fn lesser(&self, i: u16) -> u16 {
        rest(i, self.n.saturating_sub(1))
    }

    // What the vertex that it leads to is one more than, where r is a draw.
    fn greater(&self, i: u16, r: u16) -> u16 {
        let k = self.lesser(i);
        let above = rest(r, self.n.saturating_sub(1).saturating_sub(k));
        k.saturating_add(above).saturating_add(1)
    }

    // A vertex for a number from 0 on, in turn.
    fn vertex(&self, k: u16) -> u16 {
        rest(k, self.n).saturating_add(1)
    }

    // The draw for an end of edge i.
    fn draw(&self, i: u16, side: u16) -> u16 {
        let place = i.wrapping_mul(2).wrapping_add(side);
        self.chance.below(place, self.n)
    }

    // The vertex that edge i leaves.
    pub(crate) fn from(&self, i: u16) -> u16 {
        let r = self.draw(i, 0);
        self.vertex(match Family::of(self.chance.seed) {
            Family::Drawn => r,
            Family::StarOut => 0,
            Family::Few => if self.n == 0 { 0 } else { i / self.n },
            Family::Parts => parted(r, i),
            Family::Rising => self.lesser(i),
            Family::Example => i.saturating_sub(1),
            Family::Ring | Family::StarIn | Family::Loops | Family::Path => i,
        })
    }

    // The vertex that edge i leads to.
    pub(crate) fn to(&self, i: u16) -> u16 {
        let r = self.draw(i, 1);
        self.vertex(match Family::of(self.chance.seed) {
            Family::Drawn => r,
            Family::Ring => i.saturating_add(1),
            Family::StarIn => 0,
            Family::Parts => parted(r, i),
            Family::Path => if i < self.n { i.saturating_add(1) } else { r },
            Family::Rising => self.greater(i, r),
            Family::Example => if i < 2 { i + 1 } else { i },
            Family::StarOut | Family::Few | Family::Loops => i,
        })
    }

    // The edge that comes i-th onto the lists, in front of those there: backwards, in order of number, or in steps of a prime above every m.
    pub(crate) fn in_order(&self, i: u16) -> u16 {
        let seed = self.chance.seed;
        if self.m == 0 {
            return 0;
        }
        match seed % 3 {
            1 => i,
            2 => ((u32::from(i) * 7919 + u32::from(seed)) % u32::from(self.m)) as u16,
            _ => (self.m - 1).saturating_sub(i),
        }
    }
}
