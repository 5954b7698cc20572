// A step that is tried: what all steps have in common.
ghost use Rattle.std.specs.Prelude.{◌≡◌, ◌+◌, ◌*◌, ◌≤◌, ◌<◌, length};
ghost use Rattle.lists.specs.Words.{at, put, pasted};
ghost use Rattle.graphs.specs.Nodes.{is_edge};

use crate::areas::Areas;
use states::State;

// A step made: the events in the area so far, and the state.
#[derive(Clone, Copy)]
pub struct Tried {
    pub made: usize,
    pub state: State,
}

// Whether r is one of the edges n + 1 to n + m.
#[inline(always)]
pub(crate) fn is_edge(n: u16, m: u16, r: u16) -> bool
    ensures { result ≡ is_edge n m r }
{
    r > n && r as usize <= n as usize + m as usize
}

// The after word of node x, as it is read once that of v is e.
#[inline(always)]
pub(crate) fn read_after(areas: &Areas, x: u16, v: u16, e: u16) -> u16
    requires { (0 < x) × (x ≤ length areas.now.after.now) × (0 < v) × (v ≤ length areas.now.after.now) }
    ensures { result ≡ at 0 (put 0 areas.now.after.now v e) x }
{
    if x == v {
        return e;
    }
    let i = x as usize - 1;
    areas.after[i]
}

// Writes the words of events behind the first `made`: three for each, its kind, edge and vertex.
#[inline(always)]
pub(crate) fn write(events: &mut [u16], made: usize, words: &[u16])
    requires { 3 * made + length words.now ≤ length events.old }
    ensures { events.new ≡ pasted (3 * made) words.now events.old }
{
    let from = 3 * made;
    events[from..from + words.len()].copy_from_slice(words);
}
