// The converter of linked images to array form.
// `to_array` promises each written area by its name, so they stay three.
ghost use Rattle.std.specs.Prelude.{◌≡◌, ◌++◌, map, ◌+◌, ◌-◌, not, length};
ghost use Rattle.lists.specs.Words.{overlay, pasted};
ghost use Rattle.graphs.specs.Image.{to, edges_of};
ghost use Rattle.graphs.specs.ArrayForm.{array_of, numbers_of};
ghost use Rattle.graphs.specs.Refusals.{short, image_areas, unless_refused};
ghost use Rattle.refusals.specs.Numbers.{number_in};
ghost use Rattle.images.specs.Checking.{image_of};
ghost use Rattle.arrays.specs.Arrays.{converted_areas, convert_number};
ghost use Rattle.arrays.specs.Grouping.{CanList, CanGroup};

use images::{Image, Vertex, check_image, check_sizes};
use refusals::Refusal;

// Writes the edges of the list of u from position p on, each with the vertex that it leads to, and gives the position past them.
fn list_edges(g: &Image, u: Vertex, tails: &mut [u16], numbers: &mut [u16], p: u16) -> u16
    requires { CanList (image_of g.now) u.0 tails.old numbers.old p }
    ensures next { result ≡ p + length (edges_of (image_of g.now) u.0) }
    ensures tails { tails.new ≡ pasted (p - 1) (map (to (image_of g.now)) (edges_of (image_of g.now) u.0)) tails.old }
    ensures numbers { numbers.new ≡ pasted (p - 1) (edges_of (image_of g.now) u.0) numbers.old }
{
    let mut q = p;
    let mut r = g.after[u.0 as usize - 1];
    // Each edge is known only from the one before it, and the position past them is given.
    while r != 0 {
        let i = q as usize - 1;
        let k = r as usize - g.n as usize - 1;
        tails[i] = g.tail[k];
        numbers[i] = r;
        q += 1;
        r = g.after[r as usize - 1];
    }
    q
}

// Writes the lists of all vertices one after the other, and the first position of each.
fn group(g: &Image, firsts: &mut [u16], tails: &mut [u16], numbers: &mut [u16])
    requires { CanGroup (image_of g.now) firsts.old tails.old numbers.old }
    ensures firsts { firsts.new ≡ overlay (array_of (image_of g.now)).firsts firsts.old }
    ensures tails { tails.new ≡ overlay (array_of (image_of g.now)).tails tails.old }
    ensures numbers { numbers.new ≡ overlay (numbers_of (image_of g.now)) numbers.old }
{
    let mut p: u16 = 1;
    // By number: of words written through an iterator a proof would know nothing afterwards.
    for u in 0..g.n {
        firsts[u as usize] = p;
        p = list_edges(g, Vertex(u + 1), tails, numbers, p);
    }
    firsts[g.n as usize] = p;
}

// Whether all five areas of a conversion are as long as stated.
fn has_room(g: &Image, firsts: &[u16], tails: &[u16], numbers: &[u16]) -> bool
    ensures { result ≡ not (short (image_areas (image_of g.now) ++ converted_areas (image_of g.now) firsts.now tails.now numbers.now)) }
{
    let edges = g.m as usize;
    g.is_long() && firsts.len() > g.n as usize && tails.len() >= edges && numbers.len() >= edges
}

// Refused by 1, 2, 3 (all five areas), 5, 6, 7.
fn check_conversion(
    g: &Image,
    firsts: &[u16],
    tails: &[u16],
    numbers: &[u16],
) -> Result<(), Refusal>
    ensures { number_in result ≡ convert_number (image_of g.now) firsts.now tails.now numbers.now }
{
    check_sizes(g.n, g.m)?;
    if !has_room(g, firsts, tails, numbers) {
        return Err(Refusal::Area);
    }
    check_image(g)
}

// Converts a linked image to array form: n + 1 first positions, m tails, and the edge number of each position. Refused by 1, 2, 3 (all
// five areas), 5, 6, 7; the linked image stays as it is.
pub fn to_array(
    g: &Image,
    firsts: &mut [u16],
    tails: &mut [u16],
    numbers: &mut [u16],
) -> Result<(), Refusal>
    ensures number { number_in result ≡ convert_number (image_of g.now) firsts.old tails.old numbers.old }
    ensures firsts { firsts.new ≡ unless_refused (number_in result) (overlay (array_of (image_of g.now)).firsts firsts.old) firsts.old }
    ensures tails { tails.new ≡ unless_refused (number_in result) (overlay (array_of (image_of g.now)).tails tails.old) tails.old }
    ensures numbers { numbers.new ≡ unless_refused (number_in result) (overlay (numbers_of (image_of g.now)) numbers.old) numbers.old }
{
    check_conversion(g, firsts, tails, numbers)?;
    group(g, firsts, tails, numbers);
    Ok(())
}
