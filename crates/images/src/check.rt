// The checker of linked images.
ghost use Rattle.std.specs.Prelude.{◌≡◌, List, [], ℕ};
ghost use Rattle.graphs.specs.Refusals.{after_out, tail_out, list_out, image_number, first_of, image_refusals};
ghost use Rattle.refusals.specs.Numbers.{number_in};
ghost use Rattle.images.specs.Checking.{image, image_of, list_from, Sized, Chained, flag_all, flagged, Follows};

use crate::image::Image;
use crate::nodes::{Edge, Vertex, is_link, is_vertex};
use crate::sizes::check_sizes;
use refusals::Refusal;

// Whether an after word is neither 0 nor an edge (5). Every word is tested, also behind one that is out: a loop without a way out is
// compiled to take several words at a time.
fn after_out(g: &Image) -> bool
    requires { Sized g.now.n g.now.m g.now.after.now }
    ensures { (tail : List ℕ) → result ≡ after_out (image g.now.n g.now.m g.now.after.now tail) }
{
    let mut out = false;
    for word in &g.after[..g.nodes()] {
        let link = is_link(g.n, g.m, Edge(*word));
        out |= !link;
    }
    out
}

// Whether a tail is not a vertex (6). A tail that the area has no word for is none. Every tail is tested, as above.
pub fn tail_out(n: u16, m: u16, tail: &[u16]) -> bool
    ensures { result ≡ tail_out n m tail.now }
{
    let top = m as usize;
    if tail.len() < top {
        return true;
    }
    let mut out = false;
    for word in &tail[..top] {
        let vertex = is_vertex(n, Vertex(*word));
        out |= !vertex;
    }
    out
}

// Follows the list that begins with first, and flags each edge; how many edges are flagged then, or none where one had its flag already.
// A list that comes back to itself ends there. The next edge is read before the flag is set, since the next turn waits for it.
fn flag_list(g: &Image, first: u16, flags: &mut [u8], count: u16) -> Option<u16>
    requires { Follows g.now.n g.now.m first g.now.after.now flags.old count }
    ensures count { result ≡ flagged (flag_all g.now.n flags.old count (list_from g.now.m g.now.after.now first)) }
    ensures flags { flags.new ≡ (flag_all g.now.n flags.old count (list_from g.now.m g.now.after.now first)).flags }
{
    let mut r = first;
    let mut c = count;
    while r != 0 {
        let next = g.after[r as usize - 1];
        let k = r as usize - g.n as usize - 1;
        if flags[k] != 0 {
            return None;
        }
        flags[k] = 1;
        c += 1;
        r = next;
    }
    Some(c)
}

// Whether an edge is not on exactly one list, once (7).
fn list_out(g: &Image) -> bool
    requires { Chained g.now.n g.now.m g.now.after.now }
    ensures { (tail : List ℕ) → result ≡ list_out (image g.now.n g.now.m g.now.after.now tail) }
{
    // A flag is 0 or 1, as `flag_all` states it.
    let mut flags = [0u8; 4000];
    let mut count: u16 = 0;
    for first in &g.after[..g.n as usize] {
        let Some(all) = flag_list(g, *first, &mut flags, count) else {
            return true;
        };
        count = all;
    }
    // No edge was met twice; where all m were met, each stands on one list, once.
    count != g.m
}

// Refused by the first of 5, 6 and 7 that is true of the words of an image.
fn check_words(g: &Image) -> Result<(), Refusal>
    requires { Sized g.now.n g.now.m g.now.after.now }
    ensures { number_in result ≡ first_of (image_refusals (image_of g.now)) }
{
    if after_out(g) {
        return Err(Refusal::Link);
    }
    if tail_out(g.n, g.m, g.tail) {
        return Err(Refusal::Tail);
    }
    if list_out(g) {
        return Err(Refusal::List);
    }
    Ok(())
}

// Refused by the first of 1, 2, 3, 5, 6 and 7 that is true of an image. It ends on any words, in time linear in n + m.
pub fn check_image(g: &Image) -> Result<(), Refusal>
    ensures { number_in result ≡ image_number (image_of g.now) [] }
{
    check_sizes(g.n, g.m)?;
    if !g.is_long() {
        return Err(Refusal::Area);
    }
    check_words(g)
}
