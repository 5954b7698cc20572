// The steps forward: a tree edge, and an edge to a vertex that is labelled.
ghost use Rattle.std.specs.Prelude.{◌≡◌, true, cond, ◌≤◌, ◌<◌};
ghost use Rattle.lists.specs.Words.{at};
ghost use Rattle.graphs.specs.Nodes.{is_vertex};
ghost use Rattle.folding.specs.Machine.{tree, nontree, unscanned};
ghost use Rattle.folded.specs.Steps.{Lent, Room, Same, Tries, held, onward};

use crate::areas::Areas;
use crate::tried::{Tried, read_after, write};
use images::{Edge, Vertex, is_link, is_vertex};
use states::State;
use walks::Kind;

// Goes on along e to x, which is not labelled: a(v) becomes e; v, f, t(e) become x, v, f; x is marked 32,768 plus the next label number.
#[inline(always)]
fn tree(s: State, x: u16, areas: &mut Areas, made: usize) -> Option<Tried>
    requires { Lent s areas.old × (s.n < s.e.0) × (x ≡ at s.n areas.old.tail.now s.e.0) × (0 < x) × (x ≤ s.n) × Room made areas.old }
    ensures left { Tries s tree made areas.old areas.new result }
    ensures same { Same areas.old areas.new }
{
    let n = s.n;
    let v = s.v.0;
    let e = s.e.0;
    let label = s.next;
    if label > n {
        return None;
    }
    let w = Edge(read_after(areas, x, v, e));
    if !is_link(n, s.m, w) {
        return None;
    }
    let i = v as usize - 1;
    areas.after[i] = e;
    let j = e as usize - n as usize - 1;
    areas.tail[j] = s.f;
    let k = x as usize - 1;
    areas.marks[k] = label + 32768; // not yet scanned
    write(
        areas.events,
        made,
        &[Kind::AdvanceTree as u16, e, v, Kind::Label as u16, 0, x],
    );
    let state = State {
        v: Vertex(x),
        e: w,
        f: v,
        next: label + 1,
        ..s
    };
    Some(Tried {
        made: made + 2,
        state,
    })
}

// Circular, once an edge was met that leads to a vertex with this mark: 1 where that is labelled and not yet scanned, and is not one on
// the blank, whose mark is the largest.
#[inline(always)]
fn circled(mark: u16, circular: u16) -> u16
    ensures { result ≡ cond (unscanned mark) 1 circular }
{
    if mark >= 32768 && mark != 65535 {
        1
    } else {
        circular
    }
}

// Passes e, which leads to a labelled vertex with this mark: e, f, a(e) become a(e), e, f.
#[inline(always)]
fn nontree(s: State, mark: u16, areas: &mut Areas, made: usize) -> Option<Tried>
    requires { Lent s areas.old × (s.n < s.e.0) × (is_vertex s.n (at s.n areas.old.tail.now s.e.0) ≡ true) × (mark ≡ at 0 areas.old.marks.now (at s.n areas.old.tail.now s.e.0)) × Room made areas.old }
    ensures left { Tries s nontree made areas.old areas.new result }
    ensures same { Same areas.old areas.new }
{
    let v = s.v.0;
    let e = s.e.0;
    let i = e as usize - 1;
    let w = Edge(areas.after[i]);
    if !is_link(s.n, s.m, w) {
        return None;
    }
    let circular = circled(mark, s.circular);
    areas.after[i] = s.f;
    write(
        areas.events,
        made,
        &[
            Kind::AdvanceNontree as u16,
            e,
            v,
            Kind::RetreatNontree as u16,
            e,
            v,
        ],
    );
    let state = State {
        e: w,
        f: e,
        circular,
        ..s
    };
    Some(Tried {
        made: made + 2,
        state,
    })
}

// Traverses e.
#[inline(always)]
pub(crate) fn advance(s: State, areas: &mut Areas, made: usize) -> Option<Tried>
    requires { Lent s areas.old × (s.n < s.e.0) × Room made areas.old }
    ensures left { Tries s (onward (held s areas.old)) made areas.old areas.new result }
    ensures same { Same areas.old areas.new }
{
    let n = s.n;
    let j = s.e.0 as usize - n as usize - 1;
    let x = areas.tail[j];
    if !is_vertex(n, Vertex(x)) {
        return None;
    }
    let k = x as usize - 1;
    let mark = areas.marks[k];
    if mark == 0 {
        return tree(s, x, areas, made);
    }
    nontree(s, mark, areas, made)
}
