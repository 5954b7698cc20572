// What every walk writes: marks and events. The tally of the events by kind, seven counts, is passed and returned. What has no room is not
// written, and then nothing changes.
ghost use Rattle.std.specs.Prelude.{◌≡◌, ◌/◌, min, length};
ghost use Rattle.lists.specs.Words.{cleared};
ghost use Rattle.walks.specs.Writing.{total, has_room, tally_after, events_after, label_tally, label_marks, label_events, blank_marked, blanks_marked, no_events};

use crate::kinds::Kind;
use images::{Edge, Vertex};

// The events tallied.
fn count(tally: [u32; 7]) -> usize
    ensures { result ≡ total tally }
{
    let depth = tally[0] as usize + tally[1] as usize + tally[2] as usize + tally[3] as usize;
    depth + tally[4] as usize + tally[5] as usize + tally[6] as usize
}

// How many events an area of a words can hold; no more are asked for than the longest walk has, and one.
fn most_events(a: usize) -> usize
    ensures { result ≡ min (a / 3) 10001 }
{
    let most = a / 3;
    most.min(10001)
}

// Whether one event more can be written behind those tallied, in an area of a words.
fn has_room(kind: u16, tally: [u32; 7], a: usize) -> bool
    ensures { result ≡ has_room kind tally a }
{
    if kind == 0 || kind > 7 {
        return false;
    }
    count(tally) < most_events(a)
}

// Writes one event behind those tallied, and counts it. The kind is a number, since what is promised holds of any: of one that is no kind,
// nothing is written.
pub fn emit(events: &mut [u16], kind: u16, r: Edge, u: Vertex, tally: [u32; 7]) -> [u32; 7]
    ensures tally { result ≡ tally_after kind tally (length events.old) }
    ensures events { events.new ≡ events_after kind r.0 u.0 tally events.old }
{
    if !has_room(kind, tally, events.len()) {
        return tally;
    }
    let at = 3 * count(tally);
    events[at] = kind;
    events[at + 1] = r.0;
    events[at + 2] = u.0;
    let k = kind as usize - 1;
    let mut t = tally;
    t[k] += 1;
    t
}

// Labels u with the next number, and writes that event.
pub fn label(marks: &mut [u16], events: &mut [u16], u: Vertex, tally: [u32; 7]) -> [u32; 7]
    ensures tally { result ≡ label_tally u.0 tally (length marks.old) (length events.old) }
    ensures marks { marks.new ≡ label_marks u.0 tally marks.old (length events.old) }
    ensures events { events.new ≡ label_events u.0 tally (length marks.old) events.old }
{
    let x = u.0;
    if x == 0 {
        return tally;
    }
    if x as usize > marks.len() {
        return tally;
    }
    if !has_room(Kind::Label as u16, tally, events.len()) {
        return tally;
    }
    let i = x as usize - 1;
    marks[i] = (tally[0] + 1) as u16;
    emit(events, Kind::Label as u16, Edge(0), u, tally)
}

// Clears the first k words, all where there are fewer.
pub fn clear(area: &mut [u16], k: usize)
    ensures { area.new ≡ cleared (min k (length area.old)) area.old }
{
    let top = k.min(area.len());
    area[..top].fill(0);
}

// Marks x with 65,535, where it is one of so many nodes and has a mark.
fn mark_blank(marks: &mut [u16], nodes: usize, x: u16)
    ensures { marks.new ≡ blank_marked (min nodes (length marks.old)) x marks.old }
{
    let node = x as usize;
    if node == 0 || node > nodes || node > marks.len() {
        return;
    }
    let i = node - 1;
    marks[i] = 65535;
}

// Clears the marks of all nodes, and marks the elements already on the blank with 65,535.
pub fn mark_blanks(marks: &mut [u16], nodes: usize, before: &[u16])
    ensures { marks.new ≡ blanks_marked nodes before.now marks.old }
{
    clear(marks, nodes);
    for x in before {
        mark_blank(marks, nodes, *x);
    }
}

// Clears the marks of all nodes but those of the elements already on the blank, and labels the start.
pub fn begin(
    marks: &mut [u16],
    events: &mut [u16],
    nodes: usize,
    before: &[u16],
    start: Vertex,
) -> [u32; 7]
    ensures tally { result ≡ label_tally start.0 no_events (length marks.old) (length events.old) }
    ensures marks { marks.new ≡ label_marks start.0 no_events (blanks_marked nodes before.now marks.old) (length events.old) }
    ensures events { events.new ≡ label_events start.0 no_events (length marks.old) events.old }
{
    mark_blanks(marks, nodes, before);
    label(marks, events, start, [0; 7])
}
