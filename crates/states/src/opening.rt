// The opening: the image is checked and the list of elements already on the blank, the marks are cleared but for these, the start is
// labelled.
ghost use Rattle.std.specs.Prelude.{◌≡◌, ◌&&◌, leb};
ghost use Rattle.images.specs.Checking.{image_of};
ghost use Rattle.folding.specs.Calls.{unopened};
ghost use Rattle.states.specs.Answers.{told, OpenPromise};

use crate::values::{Phase, Reply, State};
use images::{Edge, Image, Vertex};
use refusals::Refusal;
use walks::{begin, check_search};

// Whether the marks are as many as the nodes, and the event words 3.
fn is_long(nodes: usize, marks: usize, events: usize) -> bool
    ensures { result ≡ (leb nodes marks && leb 3 events) }
{
    nodes <= marks && 3 <= events
}

// Opens a folded search of a linked image from start, with the elements already on the blank, n + m marks and 3 event words. Refused by
// 1, 2, 3 (all areas), 4, 5, 6, 7, 17, 18.
pub fn open(
    g: &Image,
    before: &[u16],
    start: Vertex,
    marks: &mut [u16],
    events: &mut [u16],
) -> Result<Reply, Refusal>
    ensures { OpenPromise (image_of g.now) before.now start.0 marks.old events.old (told result (unopened (image_of g.now) start.0 marks.new) events.new) }
{
    let nodes = g.nodes();
    let long = is_long(nodes, marks.len(), events.len());
    check_search(g, before, start, long)?;
    begin(marks, events, nodes, before, start);
    let i = start.0 as usize - 1;
    marks[i] = 32769; // 32,768 more than its number, since it is not yet scanned
    let e = Edge(g.after[i]);
    let state = State {
        n: g.n,
        m: g.m,
        start,
        v: start,
        e,
        f: 0,
        phase: Phase::Walking as u16,
        next: 2,
        circular: 0,
    };
    Ok(Reply {
        why: None,
        steps: 0,
        events: 1,
        state,
    })
}
