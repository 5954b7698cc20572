// The folded walk of a whole profile: an opening, with no element on the blank, and one run.
ghost use Rattle.std.specs.Prelude.{◌≡◌, [], ◌+◌};
ghost use Rattle.images.specs.Checking.{image};
ghost use Rattle.graphs.specs.Results.{marks_left, events_left};
ghost use Rattle.walks.specs.Promises.{depth_walk};
ghost use Rattle.report.specs.Inside.{totals_in, CanWalk};

use images::Image;
use texts::Profile;
use walkers::{open, run};

// The number of events, the elements reached, the moves made, and circular.
// Circular stays the number that the state holds: it is printed so.
#[derive(Clone, Copy)]
pub struct Totals {
    pub events: usize,
    pub elements: u16,
    pub moves: u16,
    pub circular: u16,
}

// Walks a profile that can be walked; 9,000 steps are enough for the largest.
pub(crate) fn walk_whole(
    profile: Profile,
    after: &mut [u16],
    tail: &mut [u16],
    marks: &mut [u16],
    events: &mut [u16],
) -> Totals
    requires { CanWalk (image profile.n profile.m after.old tail.old) profile.start.0 marks.old events.old }
    ensures totals { result ≡ totals_in (image profile.n profile.m after.old tail.old) profile.start.0 }
    ensures links { after.new ≡ after.old }
    ensures tails { tail.new ≡ tail.old }
    ensures marks { marks.new ≡ marks_left (profile.n + profile.m) [] (depth_walk (image profile.n profile.m after.old tail.old) [] profile.start.0) marks.old }
    ensures events { events.new ≡ events_left (depth_walk (image profile.n profile.m after.old tail.old) [] profile.start.0) events.old }
{
    let g = Image {
        n: profile.n,
        m: profile.m,
        after,
        tail,
    };
    let s = open(&g, &[], profile.start, marks, events).unwrap().state;
    let r = run(s, 9000, after, tail, marks, &mut events[3..54003]).unwrap();
    Totals {
        events: r.events + 1,
        elements: r.state.next - 1,
        moves: r.steps as u16,
        circular: r.state.circular,
    }
}
