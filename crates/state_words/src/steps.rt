// The folded depth-first search: opened, stepped, run and rolled back, its state in nine lent words.
ghost use Rattle.std.specs.Prelude.{◌≡◌, List, ℕ, ◌≤◌, length};
ghost use Rattle.lists.specs.Words.{overlay};
ghost use Rattle.graphs.specs.Refusals.{unless_refused};
ghost use Rattle.folding.specs.Machine.{Config};
ghost use Rattle.folding.specs.Calls as calls;
ghost use Rattle.folding.specs.Calls.{run_for, single, roll_back, opened_at, open_reply};
ghost use Rattle.images.specs.Checking.{image};
ghost use Rattle.states.specs.Answers.{told, seen_of};
ghost use Rattle.state_words.specs.Handed.{config_words, open_number_in, served_in, handing, handed};

use crate::words::{read_state, reason_in, write_state};
use images::{Image, Vertex};
use refusals::{Refusal, number};
use walkers::{Reply, open, roll_back, run, step};
use walks::check_search;

// `walkers::open`: the state is stored in nine lent words.
pub fn open_in_words(
    n: u16,
    m: u16,
    start: u16,
    after: &[u16],
    tail: &[u16],
    before: &[u16],
    marks: &mut [u16],
    events: &mut [u16],
    state: &mut [u16],
) -> u16
    ensures number { result ≡ open_number_in (image n m after.now tail.now) before.now start marks.old events.old state.old }
    ensures state { state.new ≡ unless_refused result (overlay (config_words (opened_at (image n m after.now tail.now) before.now start marks.old)) state.old) state.old }
    ensures marks { marks.new ≡ unless_refused result (opened_at (image n m after.now tail.now) before.now start marks.old).marks marks.old }
    ensures events { events.new ≡ unless_refused result (open_reply (image n m after.now tail.now) before.now start marks.old events.old).area events.old }
{
    let g = Image { n, m, after, tail };
    if state.len() < 9 {
        return number(check_search(&g, before, Vertex(start), false));
    }
    let r = open(&g, before, Vertex(start), marks, events);
    match r {
        Ok(reply) => {
            write_state(reply.state, state);
            0
        }
        Err(refusal) => refusal.number(),
    }
}

// Hands a reply back: of a call that is taken, the steps made, the events written, the reason and the state; of a refused one its number.
fn hand_back(
    reply: Result<Reply, Refusal>,
    state: &mut [u16],
    steps: &mut u32,
    made: &mut usize,
    reason: &mut u16,
) -> u16
    requires { 9 ≤ length state.old }
    ensures { (q : calls.Reply) (kept : Config) (area : List ℕ) → told reply kept area ≡ seen_of q → handing result steps.new made.new reason.new state.new kept.after kept.tail kept.marks area ≡ handed q steps.old made.old reason.old state.old }
{
    match reply {
        Err(refusal) => refusal.number(),
        Ok(r) => {
            *steps = r.steps;
            *made = r.events;
            *reason = reason_in(r.why);
            write_state(r.state, state);
            0
        }
    }
}

// `walkers::step`: one step, and no reason.
// Step and run differ in their promises; what they share is `hand_back`.
pub fn step_in_words(
    state: &mut [u16],
    after: &mut [u16],
    tail: &mut [u16],
    marks: &mut [u16],
    events: &mut [u16],
    steps: &mut u32,
    made: &mut usize,
    reason: &mut u16,
) -> u16
    ensures { handing result steps.new made.new reason.new state.new after.new tail.new marks.new events.new ≡ handed (served_in state.old after.old tail.old marks.old (single events.old)) steps.old made.old reason.old state.old }
{
    if state.len() < 9 {
        return Refusal::Area as u16;
    }
    let s = read_state(state);
    let r = step(s, after, tail, marks, events);
    hand_back(r, state, steps, made, reason)
}

// `walkers::run`.
pub fn run_in_words(
    state: &mut [u16],
    budget: u32,
    after: &mut [u16],
    tail: &mut [u16],
    marks: &mut [u16],
    events: &mut [u16],
    steps: &mut u32,
    made: &mut usize,
    reason: &mut u16,
) -> u16
    ensures { handing result steps.new made.new reason.new state.new after.new tail.new marks.new events.new ≡ handed (served_in state.old after.old tail.old marks.old (run_for budget events.old)) steps.old made.old reason.old state.old }
{
    if state.len() < 9 {
        return Refusal::Area as u16;
    }
    let s = read_state(state);
    let r = run(s, budget, after, tail, marks, events);
    hand_back(r, state, steps, made, reason)
}

// `walkers::roll_back`, whatever links and marks there are.
pub fn roll_back_in_words(state: &mut [u16]) -> u16
    ensures number { (after tail marks : List ℕ) → result ≡ (handed (served_in state.old after tail marks roll_back) 0 0 0 state.old).number }
    ensures state { (after tail marks : List ℕ) → state.new ≡ (handed (served_in state.old after tail marks roll_back) 0 0 0 state.old).state }
{
    if state.len() < 9 {
        return Refusal::Area as u16;
    }
    let s = read_state(state);
    let r = roll_back(s);
    let mut steps: u32 = 0;
    let mut made: usize = 0;
    let mut reason: u16 = 0;
    hand_back(r, state, &mut steps, &mut made, &mut reason)
}
