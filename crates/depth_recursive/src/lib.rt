// Depth-first search of a linked image in the paper's form: searching a vertex traverses its edges, and traversing one may search another
// vertex.
//
// The public function takes any input at all: it is refused with its number of document 01 and
// changes nothing, or it does its work. Document 01's element is a vertex here, its reference an edge.
// The written areas are passed one by one: each contract says of every one of them what was lent and what is left.
#![tactic(auto)]

ghost use Rattle.std.specs.Prelude.{[]};
ghost use Rattle.images.specs.Checking.{image_of};
ghost use Rattle.walks.specs.Promises.{DepthPromise, walked_of};
ghost use Rattle.depth_recursive.specs.Recursive.{CanSearch, Searches, CanTraverse, Traverses};

use images::{Edge, Image, Vertex};
use refusals::Refusal;
use walks::{Kind, check_walk, emit, label, mark_blanks};

// Labels u, traverses each edge on its list, and ends the scan of u.
#[cycle(search_vertex_traverse_edge)]
fn search_vertex(
    g: &Image,
    u: Vertex,
    marks: &mut [u16],
    events: &mut [u16],
    tally: [u32; 7],
) -> [u32; 7]
    requires { CanSearch (image_of g.now) u.0 marks.old events.old tally }
    ensures { Searches (image_of g.now) u.0 marks.old events.old tally marks.new events.new result }
{
    let mut t = label(marks, events, u, tally);
    let mut r = g.after[u.0 as usize - 1];
    while r != 0 {
        // A local of its own: the proof does not close where the result of a call in a cycle goes straight into an array that is kept.
        let s = traverse_edge(g, Edge(r), u, marks, events, t);
        t = s;
        r = g.after[r as usize - 1];
    }
    emit(events, Kind::Scan as u16, Edge(0), u, t)
}

// Traverses r, which leaves u: searches the vertex that it leads to where that is not labelled.
#[cycle(search_vertex_traverse_edge)]
fn traverse_edge(
    g: &Image,
    r: Edge,
    u: Vertex,
    marks: &mut [u16],
    events: &mut [u16],
    tally: [u32; 7],
) -> [u32; 7]
    requires { CanTraverse (image_of g.now) r.0 u.0 marks.old events.old tally }
    ensures { Traverses (image_of g.now) r.0 u.0 marks.old events.old tally marks.new events.new result }
{
    let x = g.tail[r.0 as usize - g.n as usize - 1];
    if marks[x as usize - 1] == 0 {
        let a = emit(events, Kind::AdvanceTree as u16, r, u, tally);
        let b = search_vertex(g, Vertex(x), marks, events, a);
        emit(events, Kind::RetreatTree as u16, r, u, b)
    } else {
        let a = emit(events, Kind::AdvanceNontree as u16, r, u, tally);
        emit(events, Kind::RetreatNontree as u16, r, u, a)
    }
}

// Depth-first search of a linked image from start, with the elements already on the blank; the events by kind. Refused by 1, 2, 3 (all
// areas), 4, 5, 6, 7, 17, 18.
pub fn dfs_recursive(
    g: &Image,
    before: &[u16],
    start: Vertex,
    marks: &mut [u16],
    events: &mut [u16],
) -> Result<[u32; 7], Refusal>
    ensures { DepthPromise (image_of g.now) before.now start.0 []
        marks.old events.old (walked_of result) marks.new events.new }
{
    check_walk(g, before, start, marks, events, true)?;
    mark_blanks(marks, g.nodes(), before);
    Ok(search_vertex(g, start, marks, events, [0; 7]))
}
