// Depth-first search of a linked image by parent edges (the paper's field b): for each vertex the tree edge into its parent is stored. No
// link is changed.
//
// The public function takes any input at all: it is refused with its number of document 01 and
// changes nothing, or it does its work. Document 01's element is a vertex here, its reference an edge.
// The written areas are passed one by one: each contract says of every one of them what was lent and what is left.
#![tactic(auto)]

ghost use Rattle.std.specs.Prelude.{◌≡◌, ◌≢◌, [], ◌∷◌, ◌+◌, ◌≤◌};
ghost use Rattle.graphs.specs.Image.{graph_of};
ghost use Rattle.graphs.specs.Refusals.{lent, unless_refused};
ghost use Rattle.graphs.specs.Results.{parent_left};
ghost use Rattle.refusals.specs.Numbers.{number_in};
ghost use Rattle.images.specs.Checking.{image_of};
ghost use Rattle.walks.specs.Promises.{depth_walk, DepthPromise, walked_of};
ghost use Rattle.walks.specs.Writing.{total};
ghost use Rattle.depth_parent.specs.Parents.{ParentAt, SomeParentAt, Goes, CanSearch, Ended};

use images::{Edge, Image, Vertex};
use refusals::Refusal;
use walks::{Kind, begin, check_walk, clear, emit, label};

// The place that the search has come to: the vertex being scanned, the edge next to traverse, null where none is left, the tree edge into
// that vertex, null for the start, and the tally. Both edges are words as the areas hold them, where 0 is null.
#[derive(Clone, Copy)]
pub(crate) struct Place {
    pub v: Vertex,
    pub e: Edge,
    pub f: Edge,
    pub tally: [u32; 7],
}

// Traverses e, the trailer being the tree edge into v: on to the vertex that it leads to where that is not labelled, else to the next edge.
fn advance(
    g: &Image,
    start: Vertex,
    marks: &mut [u16],
    parents: &mut [u16],
    events: &mut [u16],
    p: Place,
) -> Place
    requires { SomeParentAt (image_of g.now) start.0 marks.old parents.old events.old p × (p.e.0 ≢ 0) }
    ensures at { Goes (image_of g.now) start.0 marks.old parents.old events.old p
        marks.new parents.new events.new result }
    ensures words { total result.tally ≡ 2 + total p.tally }
{
    let x = g.tail[p.e.0 as usize - g.n as usize - 1];
    let i = x as usize - 1;
    if marks[i] == 0 {
        let a = emit(events, Kind::AdvanceTree as u16, p.e, p.v, p.tally);
        let tally = label(marks, events, Vertex(x), a);
        parents[i] = p.f.0;
        Place {
            v: Vertex(x),
            e: Edge(g.after[i]),
            f: p.e,
            tally,
        }
    } else {
        let a = emit(events, Kind::AdvanceNontree as u16, p.e, p.v, p.tally);
        let tally = emit(events, Kind::RetreatNontree as u16, p.e, p.v, a);
        Place {
            e: Edge(g.after[p.e.0 as usize - 1]),
            tally,
            ..p
        }
    }
}

// Ends the scan of v, and goes back along the tree edge into it.
fn retreat(
    g: &Image,
    start: Vertex,
    marks: &[u16],
    parents: &[u16],
    events: &mut [u16],
    p: Place,
) -> Place
    requires { SomeParentAt (image_of g.now) start.0 marks.now parents.now events.old p × (p.e.0 ≡ 0) × (p.f.0 ≢ 0) }
    ensures at { Goes (image_of g.now) start.0 marks.now parents.now events.old p
        marks.now parents.now events.new result }
    ensures words { total result.tally ≡ 2 + total p.tally }
{
    let a = emit(events, Kind::Scan as u16, Edge(0), p.v, p.tally);
    let f = parents[p.v.0 as usize - 1];
    let u = if f == 0 {
        start
    } else {
        Vertex(g.tail[f as usize - g.n as usize - 1])
    };
    let tally = emit(events, Kind::RetreatTree as u16, p.f, u, a);
    Place {
        v: u,
        e: Edge(g.after[p.f.0 as usize - 1]),
        f: Edge(f),
        tally,
    }
}

// Goes on until the vertex being scanned has no edge left.
fn descend(
    g: &Image,
    start: Vertex,
    marks: &mut [u16],
    parents: &mut [u16],
    events: &mut [u16],
    p: Place,
) -> Place
    requires { SomeParentAt (image_of g.now) start.0 marks.old parents.old events.old p }
    ensures at { Goes (image_of g.now) start.0 marks.old parents.old events.old p
        marks.new parents.new events.new result }
    ensures done { result.e.0 ≡ 0 }
    ensures words { total p.tally ≤ total result.tally }
{
    let mut q = p;
    while q.e.0 != 0 {
        q = advance(g, start, marks, parents, events, q);
    }
    q
}

// Goes on until every vertex on the path to v is scanned but the start, and that has no edge left.
fn finish(
    g: &Image,
    start: Vertex,
    marks: &mut [u16],
    parents: &mut [u16],
    events: &mut [u16],
    p: Place,
) -> Place
    requires { SomeParentAt (image_of g.now) start.0 marks.old parents.old events.old p }
    ensures at { Goes (image_of g.now) start.0 marks.old parents.old events.old p
        marks.new parents.new events.new result }
    ensures done { (result.e.0 ≡ 0) × (result.f.0 ≡ 0) }
{
    let mut q = p;
    loop {
        let d = descend(g, start, marks, parents, events, q);
        if d.f.0 == 0 {
            return d;
        }
        q = retreat(g, start, marks, parents, events, d);
    }
}

// Clears marks, but for the elements already on the blank, and parents, and labels the start.
fn open(
    g: &Image,
    before: &[u16],
    start: Vertex,
    marks: &mut [u16],
    parents: &mut [u16],
    events: &mut [u16],
) -> Place
    requires { CanSearch (image_of g.now) before.now start.0 marks.old parents.old events.old }
    ensures { ParentAt (image_of g.now) before.now start.0
        marks.old parents.old events.old marks.new parents.new events.new result }
{
    clear(parents, g.n as usize);
    let tally = begin(marks, events, g.nodes(), before, start);
    Place {
        v: start,
        e: Edge(g.after[start.0 as usize - 1]),
        f: Edge(0),
        tally,
    }
}

// The whole search.
fn search(
    g: &Image,
    before: &[u16],
    start: Vertex,
    marks: &mut [u16],
    parents: &mut [u16],
    events: &mut [u16],
) -> [u32; 7]
    requires { CanSearch (image_of g.now) before.now start.0 marks.old parents.old events.old }
    ensures { Ended (image_of g.now) before.now start.0
        marks.old parents.old events.old marks.new parents.new events.new result }
{
    let p = open(g, before, start, marks, parents, events);
    let q = finish(g, start, marks, parents, events, p);
    emit(events, Kind::Scan as u16, Edge(0), start, q.tally)
}

// Depth-first search of a linked image from start, with the elements already on the blank and n parent words; the events by kind. Refused
// by 1, 2, 3 (all areas), 4, 5, 6, 7, 17, 18.
pub fn dfs_parent(
    g: &Image,
    before: &[u16],
    start: Vertex,
    marks: &mut [u16],
    parents: &mut [u16],
    events: &mut [u16],
) -> Result<[u32; 7], Refusal>
    ensures walk { DepthPromise (image_of g.now) before.now start.0 (lent g.now.n parents.old ∷ [])
        marks.old events.old (walked_of result) marks.new events.new }
    ensures parents { parents.new ≡ unless_refused (number_in result) (parent_left (graph_of (image_of g.now))
        (depth_walk (image_of g.now) before.now start.0) parents.old) parents.old }
{
    let long = g.n as usize <= parents.len();
    check_walk(g, before, start, marks, events, long)?;
    Ok(search(g, before, start, marks, parents, events))
}
