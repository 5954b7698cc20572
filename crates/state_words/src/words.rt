// A state as nine words: n, m, start, v, e, f, phase, next, circular.
// By hand, in the order of the nine words that C hands over.
ghost use Rattle.std.specs.Prelude.{◌≡◌, ◌≤◌, length};
ghost use Rattle.lists.specs.Words.{overlay};
ghost use Rattle.states.specs.Answers.{answer_of};
ghost use Rattle.state_words.specs.Handed.{state_in, state_words, reason_in};

use images::{Edge, Vertex};
use walkers::{Reason, State};

// The state in nine words.
pub(crate) fn read_state(words: &[u16]) -> State
    requires { 9 ≤ length words.now }
    ensures { result ≡ state_in words.now }
{
    State {
        n: words[0],
        m: words[1],
        start: Vertex(words[2]),
        v: Vertex(words[3]),
        e: Edge(words[4]),
        f: words[5],
        phase: words[6],
        next: words[7],
        circular: words[8],
    }
}

// Stores a state in nine words.
pub(crate) fn write_state(s: State, words: &mut [u16])
    requires { 9 ≤ length words.old }
    ensures { words.new ≡ overlay (state_words s) words.old }
{
    words[..9].copy_from_slice(&[
        s.n, s.m, s.start.0, s.v.0, s.e.0, s.f, s.phase, s.next, s.circular,
    ]);
}

// The number of a run's reason: 1 ended, 2 spent, 3 stuck; 0 of any other call.
pub(crate) fn reason_in(why: Option<Reason>) -> u16
    ensures { result ≡ reason_in (answer_of why) }
{
    match why {
        Some(reason) => reason as u16,
        None => 0,
    }
}
