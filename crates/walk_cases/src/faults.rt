// Faults and damages of a case: each is a word that is put in place of another.
use crate::areas::put;
use crate::case::{Area, Case};
use crate::chance::{DAMAGE, DAMAGED, FIRST_EDGE, LESS, LESSENED, draw};
use crate::profiles::Seed;
use crate::walker::Walker;

// Faults of the example: a size, a length, the start, a link, a tail, a link that puts an edge on a second list or on a ring, and the last
// and the first word of the list.
#[derive(Clone, Copy)]
pub(crate) enum Fault {
    Vertices,
    Edges,
    Length,
    Start,
    Link,
    Tail,
    SecondLink,
    LastListed,
    FirstListed,
}

impl Fault {
    pub(crate) const ALL: [Fault; 9] = [
        Fault::Vertices,
        Fault::Edges,
        Fault::Length,
        Fault::Start,
        Fault::Link,
        Fault::Tail,
        Fault::SecondLink,
        Fault::LastListed,
        Fault::FirstListed,
    ];

    // Puts the fault into the case, in one of five ways.
    pub(crate) fn put_into(self, case: &mut Case, way: u16) {
        let odd = way % 2 == 1;
        let side = usize::from(way % 2);
        match self {
            Fault::Vertices => case.vertices = if odd { 1001 } else { 0 },
            Fault::Edges => case.edges = if odd { 65535 } else { 4001 },
            Fault::Length => case.shorten(Area::nth(way), 4),
            Fault::Start => case.start = if odd { 4 } else { 0 },
            Fault::Link => put(&mut case.links, side, if odd { 8 } else { 2 }),
            Fault::Tail => put(
                &mut case.tails,
                usize::from(way % 4),
                if odd { 4 } else { 0 },
            ),
            Fault::SecondLink => put(&mut case.links, side * 4 + 2, if odd { 7 } else { 4 }),
            Fault::LastListed => put(&mut case.listed, 1, if odd { 4 } else { 1 }),
            Fault::FirstListed => put(&mut case.listed, 0, 1),
        }
    }
}

// Damages one of the first `top` words of an area: puts null there, a word out of range, or another one, or leaves it.
fn damage(area: &mut [u16], seed: u32, top: u16, out: u16, other: u16) {
    let w = match draw(seed, DAMAGE, 8) {
        0 => 0,
        1 => out,
        2 | 3 => other,
        _ => return,
    };
    put(area, usize::from(draw(seed, DAMAGED, top)), w);
}

// Damages a link and a tail. In place of a link comes a first edge, or for an array form null, which is never a first position.
pub(crate) fn damage_links(case: &mut Case, seed: Seed) {
    let n = case.vertices;
    let m = case.edges;
    let nodes = n.saturating_add(m);
    let out = nodes.saturating_add(1);
    let code = seed.code();
    if case.walker == Walker::DfsArray {
        damage(&mut case.links, code, n.saturating_add(1), out, 0);
    } else {
        let first = usize::from(seed.draw(FIRST_EDGE, n));
        let other = case.links.get(first).copied().unwrap_or(0);
        damage(&mut case.links, code, nodes, out, other);
    }
    damage(&mut case.tails, code + 20000, m, n.saturating_add(1), 0);
}

// Lessens the start, the length of an area, which then is as long as stated, too short, or still longer, or the length of the list.
pub(crate) fn lessen(case: &mut Case, seed: Seed) {
    let by = seed.draw(LESS, 5);
    match seed.draw(LESSENED, 7) {
        0 => case.start = case.start.saturating_sub(by),
        6 => case
            .listed
            .truncate(case.listed.len().saturating_sub(usize::from(by))),
        k => case.shorten(Area::nth(k - 1), usize::from(by)),
    }
}
