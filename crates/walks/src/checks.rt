// The tests before a walk: 1, 2, 3 for all areas, and 4 come before what the words of the image show, and these before 17 and 18, what the
// list of elements already on the blank shows.
ghost use Rattle.std.specs.Prelude.{◌≡◌, not, ◌&&◌, List, ◌*◌, ◌≤◌, leb};
ghost use Rattle.graphs.specs.Refusals.{Lent, short, first_of, blank_refusals, search_number};
ghost use Rattle.refusals.specs.Numbers.{number_in};
ghost use Rattle.images.specs.Checking.{image_of};
ghost use Rattle.arrays.specs.Arrays.{form_of};
ghost use Rattle.walks.specs.Promises.{walk_number, array_walk_number};

use crate::listed::{is_listed, rises};
use arrays::{ArrayForm, check_query};
use images::{Image, Vertex, check_image, check_sizes, is_vertex};
use refusals::Refusal;

// Refused by 17 and 18: a list out of order is 17 even where it holds the start.
fn check_list(n: u16, before: &[u16], start: Vertex) -> Result<(), Refusal>
    ensures { number_in result ≡ first_of (blank_refusals n before.now start.0) }
{
    if !rises(n, before) {
        return Err(Refusal::Blanks);
    }
    if is_listed(start.0, before) {
        return Err(Refusal::BlankStart);
    }
    Ok(())
}

// The tests before a search of a linked image; `long` where every area that it is lent besides the image is as long as stated.
pub fn check_search(g: &Image, before: &[u16], start: Vertex, long: bool) -> Result<(), Refusal>
    ensures { (areas : List Lent) → long ≡ not (short areas) → number_in result ≡ search_number (image_of g.now) before.now start.0 areas }
{
    check_sizes(g.n, g.m)?;
    if !g.is_long() {
        return Err(Refusal::Area);
    }
    if !long {
        return Err(Refusal::Area);
    }
    if !is_vertex(g.n, start) {
        return Err(Refusal::Vertex);
    }
    check_image(g)?;
    check_list(g.n, before, start)
}

// Whether marks and event words are as many as a walk needs, and its own areas too.
fn are_long(nodes: usize, marks: usize, events: usize, long: bool) -> bool
    requires { nodes ≤ 131070 }
    ensures { result ≡ (leb nodes marks && (leb (6 * nodes) events && long)) }
{
    nodes <= marks && 6 * nodes <= events && long
}

// The tests before a walk of a linked image; `long` where the areas of the walk's own are as long as stated.
pub fn check_walk(
    g: &Image,
    before: &[u16],
    start: Vertex,
    marks: &[u16],
    events: &[u16],
    long: bool,
) -> Result<(), Refusal>
    ensures { (own : List Lent) → long ≡ not (short own) → number_in result ≡ walk_number (image_of g.now) before.now start.0 marks.now events.now own }
{
    let all = are_long(g.nodes(), marks.len(), events.len(), long);
    check_search(g, before, start, all)
}

// The tests before a walk of an array form: besides, n increments.
pub fn check_array_walk(
    a: &ArrayForm,
    before: &[u16],
    start: Vertex,
    marks: &[u16],
    increments: &[u16],
    events: &[u16],
) -> Result<(), Refusal>
    ensures { number_in result ≡ array_walk_number (form_of a.now) before.now start.0 marks.now increments.now events.now }
{
    check_sizes(a.n, a.m)?;
    if !a.is_long() {
        return Err(Refusal::Area);
    }
    let nodes = a.n as usize + a.m as usize;
    let own = a.n as usize <= increments.len();
    if !are_long(nodes, marks.len(), events.len(), own) {
        return Err(Refusal::Area);
    }
    check_query(a, start)?;
    check_list(a.n, before, start)
}
