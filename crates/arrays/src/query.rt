// Asking an array form for the edges out of one vertex.
ghost use Rattle.std.specs.Prelude.{◌≡◌, [], ◌∷◌};
ghost use Rattle.graphs.specs.ArrayForm.{is_ordered};
ghost use Rattle.graphs.specs.Refusals.{first_of, refuse, vertex_out, array_refusals, array_number};
ghost use Rattle.refusals.specs.Numbers.{number_in};
ghost use Rattle.arrays.specs.Arrays.{form_of, part_of, queried};
ghost use Rattle.arrays.specs.Querying.{Bounded, Asked};

use crate::form::ArrayForm;
use images::{Vertex, check_sizes, is_vertex, tail_out};
use refusals::Refusal;

// Whether the first positions keep their rule: the first 1, the last m + 1, never falling.
fn is_ordered(a: &ArrayForm) -> bool
    requires { Bounded (form_of a.now) }
    ensures { result ≡ is_ordered (form_of a.now) }
{
    let top = a.n as usize;
    let firsts = &a.firsts[..top + 1];
    firsts[0] == 1 && firsts[top] == a.m + 1 && firsts.is_sorted()
}

// Refused by the first of 4, 5 and 6 that is true of u and of the words of an array form.
fn check_words(a: &ArrayForm, u: Vertex) -> Result<(), Refusal>
    requires { Bounded (form_of a.now) }
    ensures { number_in result ≡ first_of (refuse 4 (vertex_out a.now.n u.0) ∷ array_refusals (form_of a.now)) }
{
    if !is_vertex(a.n, u) {
        return Err(Refusal::Vertex);
    }
    if !is_ordered(a) {
        return Err(Refusal::Link);
    }
    if tail_out(a.n, a.m, a.tails) {
        return Err(Refusal::Tail);
    }
    Ok(())
}

// Refused by 1, 2, 3, 4, 5 and 6, of the whole array form: a query for the edges out of u.
// Three tests as in `check_image`, of another form.
pub fn check_query(a: &ArrayForm, u: Vertex) -> Result<(), Refusal>
    ensures { number_in result ≡ array_number (form_of a.now) u.0 [] }
{
    check_sizes(a.n, a.m)?;
    if !a.is_long() {
        return Err(Refusal::Area);
    }
    check_words(a, u)
}

// The part of the tails from the first position of u up to the next vertex's.
fn part<'t>(a: &ArrayForm<'_, 't>, u: Vertex) -> &'t [u16]
    requires { Asked (form_of a.now) u.0 }
    ensures { result.now ≡ part_of (form_of a.now) u.0 }
{
    let x = u.0 as usize;
    let from = a.firsts[x - 1] as usize - 1;
    let end = a.firsts[x] as usize - 1;
    &a.tails[from..end]
}

// The part of the tails that holds the vertices which the edges out of u lead to; the empty part where there are none or the query is refused,
// as `queried` says: why it is refused, `check_query` tells.
pub fn edges_out<'t>(a: &ArrayForm<'_, 't>, u: Vertex) -> &'t [u16]
    ensures { result.now ≡ queried (form_of a.now) u.0 }
{
    match check_query(a, u) {
        Ok(()) => part(a, u),
        Err(_) => &[],
    }
}
