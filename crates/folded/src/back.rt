// The steps back: an edge of the list that was passed is put back; the scan of v ends; v is left while rolling back.
// Each step is a function of its own: document 01's moves, with Close split by whether f is 0 and by rolling back.
ghost use Rattle.std.specs.Prelude.{◌≡◌, IfSome, ◌+◌, ◌≤◌, ◌<◌, eqb, length};
ghost use Rattle.lists.specs.Words.{at, put};
ghost use Rattle.graphs.specs.Results.{rest_mark, marks_rest};
ghost use Rattle.folding.specs.Machine.{scan_mark, rolling_back, relinked, relink, retreat, finish, undo_tree, undo_open};
ghost use Rattle.folded.specs.Steps.{Lent, Room, Same, Tries, held, upward_in};

use crate::areas::Areas;
use crate::tried::{Tried, is_edge, read_after, write};
use images::{Edge, Vertex, is_link};
use states::{Phase, State};
use walks::Kind;

// The phase once an edge is put back: rolling back goes on, and else the search is restoring.
#[inline(always)]
fn relinked(phase: u16) -> u16
    ensures { result ≡ relinked (eqb phase rolling_back) }
{
    if phase == Phase::RollingBack as u16 {
        phase
    } else {
        Phase::Restoring as u16
    }
}

// Puts back f, an edge (document 01: Turn): e, f, a(f) become f, a(f), e.
#[inline(always)]
pub(crate) fn relink(s: State, areas: &mut Areas, made: usize) -> Option<Tried>
    requires { Lent s areas.old × (s.n < s.f) }
    ensures left { Tries s relink made areas.old areas.new result }
    ensures same { Same areas.old areas.new }
{
    let f = s.f;
    let i = f as usize - 1;
    let w = areas.after[i];
    if w as usize > s.n as usize + s.m as usize {
        return None;
    }
    areas.after[i] = s.e.0;
    let phase = relinked(s.phase);
    let state = State {
        e: Edge(f),
        f: w,
        phase,
        ..s
    };
    Some(Tried { made, state })
}

// The tree edge into v, which is a(f) once a(v) is e; none where that is no edge, or where its tail word cannot be a trailer.
#[inline(always)]
fn tree_edge(s: State, areas: &Areas) -> Option<u16>
    requires { Lent s areas.now × (0 < s.f) × (s.f ≤ s.n) }
    ensures read { result ≡ upward_in (held s areas.now) }
    ensures edge { IfSome result (λ r. (s.n < r) × (r ≤ s.n + s.m)) }
{
    let n = s.n;
    let m = s.m;
    let r = read_after(areas, s.f, s.v.0, s.e.0);
    if !is_edge(n, m, r) {
        return None;
    }
    let j = r as usize - n as usize - 1;
    if areas.tail[j] as usize > n as usize + m as usize {
        return None;
    }
    Some(r)
}

// What the scan of v leaves in its mark: the remainder by 32,768 (document 02, item 5).
#[inline(always)]
fn unmark(marks: &mut [u16], v: u16)
    requires { (0 < v) × (v ≤ length marks.old) }
    ensures { marks.new ≡ put 0 marks.old v (scan_mark (at 0 marks.old v)) }
{
    let i = v as usize - 1;
    marks[i] %= 32768;
}

// Ends the scan of v, and goes back along the tree edge into it (document 01: Close).
#[inline(always)]
pub(crate) fn retreat(s: State, areas: &mut Areas, made: usize) -> Option<Tried>
    requires { Lent s areas.old × (0 < s.f) × (s.f ≤ s.n) × Room made areas.old }
    ensures left { Tries s retreat made areas.old areas.new result }
    ensures same { Same areas.old areas.new }
{
    let n = s.n;
    let v = s.v.0;
    let f = s.f;
    let r = tree_edge(s, areas)?;
    let i = r as usize - 1;
    let y = Edge(areas.after[i]);
    if !is_link(n, s.m, y) {
        return None;
    }
    let k = v as usize - 1;
    areas.after[k] = s.e.0; // a(v) becomes e at the end of a scan
    let j = r as usize - n as usize - 1;
    let w = areas.tail[j];
    areas.tail[j] = v;
    areas.after[i] = w;
    unmark(areas.marks, v);
    write(
        areas.events,
        made,
        &[Kind::Scan as u16, 0, v, Kind::RetreatTree as u16, r, f],
    );
    let state = State {
        v: Vertex(f),
        e: y,
        f: r,
        phase: Phase::Walking as u16,
        ..s
    };
    Some(Tried {
        made: made + 2,
        state,
    })
}

// Ends the scan of the start.
#[inline(always)]
pub(crate) fn finish(s: State, areas: &mut Areas, made: usize) -> Option<Tried>
    requires { Lent s areas.old × Room made areas.old }
    ensures left { Tries s finish made areas.old areas.new result }
    ensures same { Same areas.old areas.new }
{
    let v = s.v.0;
    if v != s.start.0 {
        return None;
    }
    let i = v as usize - 1;
    areas.after[i] = s.e.0;
    unmark(areas.marks, v);
    write(areas.events, made, &[Kind::Scan as u16, 0, v]);
    let state = State {
        phase: Phase::Finished as u16,
        ..s
    };
    Some(Tried {
        made: made + 1,
        state,
    })
}

// Leaves v along the tree edge into it, rolling back.
#[inline(always)]
pub(crate) fn undo_tree(s: State, areas: &mut Areas, made: usize) -> Option<Tried>
    requires { Lent s areas.old × (0 < s.f) × (s.f ≤ s.n) }
    ensures left { Tries s undo_tree made areas.old areas.new result }
    ensures same { Same areas.old areas.new }
{
    let n = s.n;
    let v = s.v.0;
    let r = tree_edge(s, areas)?;
    let k = v as usize - 1;
    areas.after[k] = s.e.0; // a(v) becomes e in a roll-back
    let j = r as usize - n as usize - 1;
    let w = areas.tail[j];
    areas.tail[j] = v;
    let state = State {
        v: Vertex(s.f),
        e: Edge(r),
        f: w,
        ..s
    };
    Some(Tried { made, state })
}

// What the end of a roll-back leaves in a mark: 65,535 stays, that of an element already on the blank, and any other becomes 0.
fn rested(mark: u16) -> u16
    ensures { result ≡ rest_mark mark }
{
    if mark == 65535 { mark } else { 0 }
}

// The marks of the n vertices at the end of a roll-back.
fn rest_marks(marks: &mut [u16], n: usize)
    requires { n ≤ length marks.old }
    ensures { marks.new ≡ marks_rest n marks.old }
{
    let first = &mut marks[..n];
    for mark in first.iter_mut() {
        *mark = rested(*mark);
    }
}

// Leaves the start, rolling back: the marks of the n vertices become 0, but 65,535 stays.
#[inline(always)]
pub(crate) fn undo_open(s: State, areas: &mut Areas, made: usize) -> Option<Tried>
    requires { Lent s areas.old }
    ensures left { Tries s undo_open made areas.old areas.new result }
    ensures same { Same areas.old areas.new }
{
    let v = s.v.0;
    if v != s.start.0 {
        return None;
    }
    let i = v as usize - 1;
    areas.after[i] = s.e.0;
    rest_marks(areas.marks, s.n as usize);
    let state = State {
        phase: Phase::RolledBack as u16,
        ..s
    };
    Some(Tried { made, state })
}
