// The calls that the cases are of. No other file names the crates that they are in.
use crate::image::Sizes;
use arrays::ArrayForm;
use images::{Edge, Image, Vertex};
use refusals::Refusal;

// An answer, with the number of its refusal.
// The second implementation says document 01's numbers, so that a wrong number of the library shows.
fn numbered<T>(answer: Result<T, Refusal>) -> Result<T, u16> {
    answer.map_err(|refusal| refusal.number())
}

// Whether an image is taken.
pub(crate) fn check_image(n: u16, m: u16, after: &[u16], tail: &[u16]) -> Result<(), u16> {
    numbered(images::check_image(&Image { n, m, after, tail }))
}

// Whether a tail is no vertex.
pub(crate) fn tail_out(n: u16, m: u16, tail: &[u16]) -> bool {
    images::tail_out(n, m, tail)
}

// The conversion of an image to array form, into the last three areas.
pub(crate) fn to_array(
    n: u16,
    m: u16,
    after: &[u16],
    tail: &[u16],
    firsts: &mut [u16],
    tails: &mut [u16],
    numbers: &mut [u16],
) -> Result<(), u16> {
    let g = Image { n, m, after, tail };
    numbered(arrays::to_array(&g, firsts, tails, numbers))
}

// Whether a query of an array form is taken.
pub(crate) fn check_query(
    n: u16,
    m: u16,
    firsts: &[u16],
    tails: &[u16],
    u: u16,
) -> Result<(), u16> {
    let a = ArrayForm {
        n,
        m,
        firsts,
        tails,
    };
    numbered(arrays::check_query(&a, Vertex(u)))
}

// The tails of the edges that leave a vertex; none where the query is refused.
pub(crate) fn edges_out<'a>(n: u16, m: u16, firsts: &[u16], tails: &'a [u16], u: u16) -> &'a [u16] {
    let a = ArrayForm {
        n,
        m,
        firsts,
        tails,
    };
    arrays::edges_out(&a, Vertex(u))
}

// Whether a word is a vertex.
pub(crate) fn is_vertex(n: u16, x: u16) -> bool {
    images::is_vertex(n, Vertex(x))
}

// Whether a word is a link: 0 or an edge.
pub(crate) fn is_link(n: u16, m: u16, x: u16) -> bool {
    images::is_link(n, m, Edge(x))
}

// The number at a place of a text, and the place past it.
pub(crate) fn read_number(text: &[u8], at: usize) -> Option<(u16, usize)> {
    let number = numbers::read_number(text, at)?;
    Some((number.value, number.next))
}

// The place past a number that is written at a place, or that place where there is no room.
pub(crate) fn write_number(x: u16, area: &mut [u8], at: usize) -> usize {
    numbers::write_number(x, area, at)
}

// What is loaded of a text: its sizes and its start.
#[derive(Clone, Copy, PartialEq, Eq)]
pub(crate) struct Loaded {
    pub(crate) sizes: Sizes,
    pub(crate) start: u16,
}

// What is loaded of a text into the areas.
pub(crate) fn read_profile(
    text: &[u8],
    after: &mut [u16],
    tail: &mut [u16],
) -> Result<Loaded, u16> {
    let profile = numbered(texts::read_profile(text, after, tail))?;
    Ok(Loaded {
        sizes: Sizes {
            n: profile.n,
            m: profile.m,
        },
        start: profile.start.0,
    })
}

// How many bytes are printed of the walk of a text.
pub(crate) fn walk_text(
    text: &[u8],
    after: &mut [u16],
    tail: &mut [u16],
    marks: &mut [u16],
    events: &mut [u16],
    output: &mut [u8],
) -> Result<usize, u16> {
    numbered(report::walk_text(text, after, tail, marks, events, output))
}

// How many bytes the line of a refusal has.
pub(crate) fn refusal_line(number: u16, output: &mut [u8]) -> Result<usize, u16> {
    numbered(report::refusal_line(number, output))
}
