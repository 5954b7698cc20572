// Vertex numbers and edge numbers, told apart.
use crate::calls::{is_link, is_vertex};
use crate::chance::{draw, draw_word};
use crate::image::Sizes;
use crate::tally::{Group, Outcome};
use std::alloc::AllocError;

// A size: small, or any word.
fn draw_size(seed: u16, at: u16) -> u16 {
    match draw(seed, at, 3) {
        0 => draw_word(seed, at.wrapping_add(100)),
        _ => draw(seed, at.wrapping_add(200), 6),
    }
}

// A word from two below a border to two above it: 0, the last vertex, the last edge.
fn draw_node(seed: u16, sizes: Sizes) -> u16 {
    let near = draw(seed, 90, 5).wrapping_sub(2);
    match draw(seed, 91, 3) {
        0 => near,
        1 => near.wrapping_add(sizes.n),
        _ => near.wrapping_add(sizes.n).wrapping_add(sizes.m),
    }
}

// What was told: counted as taken where it is so, as this refusal where it is not.
fn told(is: bool, second: bool, otherwise: u16) -> Outcome {
    Outcome {
        answer: if is { Ok(()) } else { Err(otherwise) },
        differs: is != second,
    }
}

// Whether a vertex is told: 4 is counted where it is none.
fn vertex_case(seed: u16) -> Outcome {
    let n = draw_size(seed, 92);
    let sizes = Sizes { n, m: 0 };
    let x = draw_node(seed, sizes);
    told(is_vertex(n, x), sizes.has_vertex(x), 4)
}

// Whether a link is told: 5 is counted where it is none.
fn link_case(seed: u16) -> Outcome {
    let n = draw_size(seed, 92);
    let m = draw_size(seed, 93);
    let sizes = Sizes { n, m };
    let x = draw_node(seed, sizes);
    told(is_link(n, m, x), x == 0 || sizes.has_edge(x), 5)
}

// Vertices by chance.
pub(crate) fn vertex_cases(group: &mut Group) -> Result<(), AllocError> {
    group.add_each(0..=3999u16, |seed| Ok(vertex_case(seed)))
}

// Links by chance.
pub(crate) fn link_cases(group: &mut Group) -> Result<(), AllocError> {
    group.add_each(0..=3999u16, |seed| Ok(link_case(seed)))
}
