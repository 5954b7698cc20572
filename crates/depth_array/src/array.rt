// Depth-first search over the array form (the paper's last version): an increment for each vertex says which of its edges was the last
// tree edge; the tail of a tree edge under way holds the parent of the vertex that the edge leaves, and gets its vertex back. Position p is named n + p.
// Tails are written while n, m and the first positions are read, so all four are lent one by one; what only reads them is lent an `ArrayForm`.
// The written areas are passed one by one: each contract says of every one of them what was lent and what is left.
ghost use Rattle.std.specs.Prelude.{◌≡◌, ◌≢◌, suc, ◌+◌, ◌<◌, ◌≤◌, length, get_or};
ghost use Rattle.lists.specs.Words.{at};
ghost use Rattle.graphs.specs.ArrayForm.{array_graph};
ghost use Rattle.graphs.specs.Results.{increment_left};
ghost use Rattle.graphs.specs.Refusals.{unless_refused};
ghost use Rattle.arrays.specs.Arrays.{array_in, form_of};
ghost use Rattle.refusals.specs.Numbers.{number_in};
ghost use Rattle.walks.specs.Promises.{array_walk, walked_of, ArrayPromise};
ghost use Rattle.walks.specs.Writing.{total};
ghost use Rattle.depth_array.specs.Increments.{is_new, ArrayAt, SomeArrayAt, Onward, CanSearch, Ended};

use arrays::ArrayForm;
use images::{Edge, Vertex};
use refusals::Refusal;
use walks::{Kind, begin, check_array_walk, clear, emit, label};

// A position in the tails.
#[derive(Clone, Copy)]
pub(crate) struct Position(pub u16);

// The place that the search has come to: the vertex being scanned, the position next to traverse, the parent of that vertex, 0 for the
// start, as the tails hold it, and the tally.
#[derive(Clone, Copy)]
pub(crate) struct Place {
    pub v: Vertex,
    pub p: Position,
    pub f: Vertex,
    pub tally: [u32; 7],
}

// Whether the vertex of these words is not labelled: its increment is 0, and it is not on the blank.
#[inline(always)]
fn is_new(increments: &[u16], marks: &[u16], i: usize) -> bool
    requires { (i < length increments.now) × (i < length marks.now) }
    ensures { result ≡ is_new (get_or increments.now i 0) (get_or marks.now i 0) }
{
    increments[i] == 0 && marks[i] != 65535
}

// Traverses position p, the trailer being the parent of v: on to the vertex that it leads to where that is not labelled, else to the next
// position.
#[inline(always)]
fn advance(
    n: u16,
    m: u16,
    firsts: &[u16],
    tails: &mut [u16],
    marks: &mut [u16],
    increments: &mut [u16],
    events: &mut [u16],
    place: Place,
) -> Place
    requires { SomeArrayAt n m firsts.now tails.old marks.old increments.old events.old place × (place.p.0 < at 0 firsts.now (suc place.v.0)) }
    ensures at { Onward n m firsts.now tails.old marks.old increments.old events.old place
        tails.new marks.new increments.new events.new result }
    ensures words { total result.tally ≡ 2 + total place.tally }
{
    let e = Edge(n + place.p.0);
    let j = place.p.0 as usize - 1;
    let x = tails[j];
    let i = x as usize - 1;
    if is_new(increments, marks, i) {
        let a = emit(events, Kind::AdvanceTree as u16, e, place.v, place.tally);
        let here = place.v.0 as usize - 1;
        increments[here] = place.p.0 - firsts[here] + 1;
        tails[j] = place.f.0;
        let tally = label(marks, events, Vertex(x), a);
        increments[i] = 1;
        Place {
            v: Vertex(x),
            p: Position(firsts[i]),
            f: place.v,
            tally,
        }
    } else {
        let a = emit(events, Kind::AdvanceNontree as u16, e, place.v, place.tally);
        let tally = emit(events, Kind::RetreatNontree as u16, e, place.v, a);
        Place {
            p: Position(place.p.0 + 1),
            tally,
            ..place
        }
    }
}

// Ends the scan of v, and goes back along the tree edge into it, whose tail gets v back.
#[inline(always)]
fn retreat(
    n: u16,
    m: u16,
    firsts: &[u16],
    tails: &mut [u16],
    marks: &[u16],
    increments: &[u16],
    events: &mut [u16],
    place: Place,
) -> Place
    requires { SomeArrayAt n m firsts.now tails.old marks.now increments.now events.old place × (place.p.0 ≡ at 0 firsts.now (suc place.v.0)) × (place.f.0 ≢ 0) }
    ensures at { Onward n m firsts.now tails.old marks.now increments.now events.old place
        tails.new marks.now increments.now events.new result }
    ensures words { total result.tally ≡ 2 + total place.tally }
{
    let a = emit(events, Kind::Scan as u16, Edge(0), place.v, place.tally);
    let i = place.f.0 as usize - 1;
    let p = firsts[i] + increments[i] - 1;
    let j = p as usize - 1;
    let f = tails[j];
    tails[j] = place.v.0;
    let tally = emit(events, Kind::RetreatTree as u16, Edge(n + p), place.f, a);
    Place {
        v: place.f,
        p: Position(p + 1),
        f: Vertex(f),
        tally,
    }
}

// Goes on until the vertex being scanned has no edge left.
#[inline(always)]
fn descend(
    n: u16,
    m: u16,
    firsts: &[u16],
    tails: &mut [u16],
    marks: &mut [u16],
    increments: &mut [u16],
    events: &mut [u16],
    place: Place,
) -> Place
    requires { SomeArrayAt n m firsts.now tails.old marks.old increments.old events.old place }
    ensures at { Onward n m firsts.now tails.old marks.old increments.old events.old place
        tails.new marks.new increments.new events.new result }
    ensures done { result.p.0 ≡ at 0 firsts.now (suc result.v.0) }
    ensures words { total place.tally ≤ total result.tally }
{
    let mut q = place;
    while q.p.0 < firsts[q.v.0 as usize] {
        q = advance(n, m, firsts, tails, marks, increments, events, q);
    }
    q
}

// Goes on until every vertex on the path to v is scanned but the start, and that has no edge left.
// The loop is that of `depth_parent`, over other areas and places: one for both would take a trait over them.
fn finish(
    n: u16,
    m: u16,
    firsts: &[u16],
    tails: &mut [u16],
    marks: &mut [u16],
    increments: &mut [u16],
    events: &mut [u16],
    place: Place,
) -> Place
    requires { SomeArrayAt n m firsts.now tails.old marks.old increments.old events.old place }
    ensures at { Onward n m firsts.now tails.old marks.old increments.old events.old place
        tails.new marks.new increments.new events.new result }
    ensures done { (result.p.0 ≡ at 0 firsts.now (suc result.v.0)) × (result.f.0 ≡ 0) }
{
    let mut q = place;
    loop {
        let d = descend(n, m, firsts, tails, marks, increments, events, q);
        if d.f.0 == 0 {
            return d;
        }
        q = retreat(n, m, firsts, tails, marks, increments, events, d);
    }
}

// Clears marks, but for the elements already on the blank, and increments, and labels the start, whose increment becomes 1.
fn open(
    a: &ArrayForm,
    before: &[u16],
    start: Vertex,
    marks: &mut [u16],
    increments: &mut [u16],
    events: &mut [u16],
) -> Place
    requires { CanSearch (form_of a.now) before.now start.0 marks.old increments.old events.old }
    ensures { ArrayAt (form_of a.now) before.now start.0 marks.old increments.old events.old
        a.now.tails.now marks.new increments.new events.new result }
{
    clear(increments, a.n as usize);
    let tally = begin(marks, events, a.n as usize + a.m as usize, before, start);
    let first = start.0 as usize - 1;
    increments[first] = 1;
    Place {
        v: start,
        p: Position(a.firsts[first]),
        f: Vertex(0),
        tally,
    }
}

// The whole search.
fn search(
    n: u16,
    m: u16,
    firsts: &[u16],
    tails: &mut [u16],
    before: &[u16],
    start: Vertex,
    marks: &mut [u16],
    increments: &mut [u16],
    events: &mut [u16],
) -> [u32; 7]
    requires { CanSearch (array_in n m firsts.now tails.old) before.now start.0 marks.old increments.old events.old }
    ensures { Ended (array_in n m firsts.now tails.old) before.now start.0 marks.old increments.old events.old
        tails.new marks.new increments.new events.new result }
{
    let a = ArrayForm {
        n,
        m,
        firsts,
        tails,
    };
    let p = open(&a, before, start, marks, increments, events);
    let q = finish(n, m, firsts, tails, marks, increments, events, p);
    emit(events, Kind::Scan as u16, Edge(0), start, q.tally)
}

// Depth-first search of an array form from start, with the elements already on the blank and n increments. Refused by 1, 2, 3 (all areas),
// 4, 5, 6, 17, 18.
pub fn dfs_array(
    n: u16,
    m: u16,
    firsts: &[u16],
    tails: &mut [u16],
    before: &[u16],
    start: Vertex,
    marks: &mut [u16],
    increments: &mut [u16],
    events: &mut [u16],
) -> Result<[u32; 7], Refusal>
    ensures walk { ArrayPromise (array_in n m firsts.now tails.old) before.now start.0 increments.old
        marks.old events.old (walked_of result) marks.new events.new }
    ensures tails { tails.new ≡ tails.old }
    ensures increments { increments.new ≡ unless_refused (number_in result) (increment_left (array_graph (array_in n m firsts.now tails.old))
        (array_walk (array_in n m firsts.now tails.old) before.now start.0) increments.old) increments.old }
{
    let a = ArrayForm {
        n,
        m,
        firsts,
        tails,
    };
    check_array_walk(&a, before, start, marks, increments, events)?;
    Ok(search(
        n, m, firsts, tails, before, start, marks, increments, events,
    ))
}
