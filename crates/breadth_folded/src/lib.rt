// Breadth-first search of a linked image, folded into the links (the paper's list version): the after word of the last node of a list,
// null at rest, leads on to the vertex that waits next. Every link is handed back as found.
// Links are written, so n, m and the two areas are lent one by one; what only reads them is lent an `Image`.
//
// The public function takes any input at all: it is refused with its number of document 01 and
// changes nothing, or it does its work. Document 01's element is a vertex here, its reference an edge.
// The written areas are passed one by one: each contract says of every one of them what was lent and what is left.
#![tactic(auto)]

ghost use Rattle.std.specs.Prelude.{◌≡◌, []};
ghost use Rattle.images.specs.Checking.{image};
ghost use Rattle.walks.specs.Promises.{walked_of, BreadthPromise};
ghost use Rattle.breadth_folded.specs.Threads.{Ends, last_from, SomeFoldedAt, Scans, CanSearch, Ended};

use images::{Edge, Image, Vertex};
use refusals::Refusal;
use walks::{Kind, begin, check_walk, emit, label};

// The last node of the list of x: its last edge, or x itself.
fn last_node(g: &Image, x: u16) -> u16
    requires { Ends g.now.n g.now.m x g.now.after.now }
    ensures { result ≡ last_from g.now.m g.now.after.now x }
{
    let mut f = x;
    let mut a = g.after[f as usize - 1];
    while a != 0 {
        f = a;
        a = g.after[f as usize - 1];
    }
    f
}

// What a scan gives: the last node examined, the last node of the queue, the vertex that waits next, 0 where none does, and the tally. The
// nodes are words as the links hold them.
#[derive(Clone, Copy)]
pub(crate) struct Scanned {
    pub e: u16,
    pub f: u16,
    pub next: u16,
    pub tally: [u32; 7],
}

// Scans v, f being the last node of the queue: traverses each edge on its list, and labels and queues the vertex that it leads to where
// that is not labelled.
fn scan_vertex(
    n: u16,
    m: u16,
    after: &mut [u16],
    tail: &[u16],
    v: Vertex,
    f: u16,
    marks: &mut [u16],
    events: &mut [u16],
    tally: [u32; 7],
) -> Scanned
    requires { SomeFoldedAt n m v.0 f after.old tail.now marks.old events.old tally }
    ensures { Scans n m v.0 f tail.now after.old marks.old events.old tally
        after.new marks.new events.new result }
{
    let mut t = tally;
    let mut last = f;
    let mut e = v.0;
    let mut a = after[e as usize - 1];
    while n < a {
        e = a;
        // Named first: the check does not cover a call whose result goes straight into this array.
        let crossed = emit(events, Kind::Traverse as u16, Edge(e), v, t);
        t = crossed;
        let x = tail[e as usize - n as usize - 1];
        let l = x as usize - 1;
        if marks[l] == 0 {
            let joined = label(marks, events, Vertex(x), t);
            t = joined;
            let k = last as usize - 1;
            after[k] = x;
            last = last_node(&Image { n, m, after, tail }, x);
        }
        a = after[e as usize - 1];
    }
    let all = emit(events, Kind::Scan as u16, Edge(0), v, t);
    Scanned {
        e,
        f: last,
        next: a,
        tally: all,
    }
}

// The whole search.
fn search(
    n: u16,
    m: u16,
    after: &mut [u16],
    tail: &[u16],
    before: &[u16],
    start: Vertex,
    marks: &mut [u16],
    events: &mut [u16],
) -> [u32; 7]
    requires { CanSearch (image n m after.old tail.now) before.now start.0 marks.old events.old }
    ensures { Ended (image n m after.old tail.now) before.now start.0
        marks.old events.old after.new marks.new events.new result }
{
    let mut tally = begin(marks, events, n as usize + m as usize, before, start);
    let mut v = start.0;
    let mut f = last_node(&Image { n, m, after, tail }, v);
    while v != 0 {
        let s = scan_vertex(n, m, after, tail, Vertex(v), f, marks, events, tally);
        tally = s.tally;
        f = s.f;
        v = s.next;
        after[s.e as usize - 1] = 0;
    }
    tally
}

// Breadth-first search of a linked image from start, with the elements already on the blank and no area of its own. Refused by 1, 2, 3
// (all areas), 4, 5, 6, 7, 17, 18.
pub fn bfs_folded(
    n: u16,
    m: u16,
    after: &mut [u16],
    tail: &[u16],
    before: &[u16],
    start: Vertex,
    marks: &mut [u16],
    events: &mut [u16],
) -> Result<[u32; 7], Refusal>
    ensures walk { BreadthPromise (image n m after.old tail.now) before.now start.0 []
        marks.old events.old (walked_of result) marks.new events.new }
    ensures after { after.new ≡ after.old }
{
    let g = Image { n, m, after, tail };
    check_walk(&g, before, start, marks, events, true)?;
    Ok(search(n, m, after, tail, before, start, marks, events))
}
