// Breadth-first search of a linked image by a queue, in an area of n words. No link is changed.
//
// The public function takes any input at all: it is refused with its number of document 01 and
// changes nothing, or it does its work. Document 01's element is a vertex here, its reference an edge.
// The written areas are passed one by one: each contract says of every one of them what was lent and what is left.
#![tactic(auto)]

ghost use Rattle.std.specs.Prelude.{◌≡◌, [], ◌∷◌};
ghost use Rattle.graphs.specs.Refusals.{lent, unless_refused};
ghost use Rattle.graphs.specs.Results.{queue_left};
ghost use Rattle.refusals.specs.Numbers.{number_in};
ghost use Rattle.images.specs.Checking.{image_of};
ghost use Rattle.walks.specs.Promises.{breadth_walk, walked_of, BreadthPromise};
ghost use Rattle.breadth_queue.specs.Queues.{SomeQueueAt, Scans, CanSearch, Ended};

use images::{Edge, Image, Vertex};
use refusals::Refusal;
use walks::{Kind, begin, check_walk, clear, emit, label};

// Scans v: traverses each edge on its list, and labels and queues the vertex that it leads to where that is not labelled.
#[tactic(auto, using(crate::proofs::Queueing::kept_turn))]
fn scan_vertex(
    g: &Image,
    v: Vertex,
    marks: &mut [u16],
    queue: &mut [u16],
    events: &mut [u16],
    tally: [u32; 7],
) -> [u32; 7]
    requires { SomeQueueAt (image_of g.now) v.0 marks.old queue.old events.old tally }
    ensures { Scans (image_of g.now) marks.old queue.old events.old tally
        marks.new queue.new events.new result }
{
    let mut t = tally;
    let mut e = g.after[v.0 as usize - 1];
    while e != 0 {
        t = emit(events, Kind::Traverse as u16, Edge(e), v, t);
        let x = g.tail[e as usize - g.n as usize - 1];
        let l = x as usize - 1;
        if marks[l] == 0 {
            let last = t[0] as usize;
            queue[last] = x;
            t = label(marks, events, Vertex(x), t);
        }
        e = g.after[e as usize - 1];
    }
    emit(events, Kind::Scan as u16, Edge(0), v, t)
}

// The whole search.
fn search(
    g: &Image,
    before: &[u16],
    start: Vertex,
    marks: &mut [u16],
    queue: &mut [u16],
    events: &mut [u16],
) -> [u32; 7]
    requires { CanSearch (image_of g.now) before.now start.0 marks.old queue.old events.old }
    ensures { Ended (image_of g.now) before.now start.0
        marks.old queue.old events.old marks.new queue.new events.new result }
{
    clear(queue, g.n as usize);
    let mut tally = begin(marks, events, g.nodes(), before, start);
    queue[0] = start.0;
    let mut i: usize = 0;
    // A range is fixed when it begins, and this bound grows while vertices are queued.
    while i < tally[0] as usize {
        let x = queue[i];
        tally = scan_vertex(g, Vertex(x), marks, queue, events, tally);
        i += 1;
    }
    tally
}

// Breadth-first search of a linked image from start, with the elements already on the blank and n queue words. Refused by 1, 2, 3 (all
// areas), 4, 5, 6, 7, 17, 18.
pub fn bfs_queue(
    g: &Image,
    before: &[u16],
    start: Vertex,
    marks: &mut [u16],
    queue: &mut [u16],
    events: &mut [u16],
) -> Result<[u32; 7], Refusal>
    ensures walk { BreadthPromise (image_of g.now) before.now start.0 (lent g.now.n queue.old ∷ [])
        marks.old events.old (walked_of result) marks.new events.new }
    ensures queue { queue.new ≡ unless_refused (number_in result)
        (queue_left g.now.n (breadth_walk (image_of g.now) before.now start.0) queue.old) queue.old }
{
    let long = g.n as usize <= queue.len();
    check_walk(g, before, start, marks, events, long)?;
    Ok(search(g, before, start, marks, queue, events))
}
