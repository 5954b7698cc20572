// One search under a script of calls, each of which goes on from what the one before it left.
ghost use Rattle.std.specs.Prelude.{◌≡◌, List, ℕ, ◌+◌, ◌*◌, ◌≤◌, length};
ghost use Rattle.refusals.specs.Numbers.{number_in};
ghost use Rattle.images.specs.Checking.{image};
ghost use Rattle.folding.specs.Calls.{open_number, unopened};
ghost use Rattle.folding.specs.Lines.{Line, calls, folded};
ghost use Rattle.scripts.specs.Script.{seen_line, lent_to, called, replayed, told_line, told_script, steps_in, events_in, after_call, Playing};

use crate::order::{Order, order_of};
use folded::{run, step};
use images::{Image, Vertex};
use refusals::Refusal;
use states::{Reason, Reply, State, open, roll_back};

// What a script has done: the last call's answer, the steps and the events of all, and the state.
#[derive(Clone, Copy)]
pub struct Replayed {
    pub last: Result<Option<Reason>, Refusal>,
    pub steps: u32,
    pub events: usize,
    pub state: State,
}

// The same after one call more: its answer, and its steps and events added.
fn noted(p: Replayed, answer: Result<Reply, Refusal>) -> Replayed
    requires { (p.steps + steps_in answer ≤ 4294967295) × (p.events + events_in answer ≤ 4294967295) }
    ensures { result ≡ after_call p answer }
{
    match answer {
        Ok(r) => Replayed {
            last: Ok(r.why),
            steps: p.steps + r.steps,
            events: p.events + r.events,
            state: r.state,
        },
        Err(k) => Replayed { last: Err(k), ..p },
    }
}

// One call of a script, or none.
fn perform(
    order: Option<Order>,
    budget: u32,
    room: u32,
    p: Replayed,
    after: &mut [u16],
    tail: &mut [u16],
    marks: &mut [u16],
    events: &mut [u16],
) -> Replayed
    requires playing { Playing p after.old tail.old marks.old events.old }
    requires written { 3 * p.events ≤ length events.old }
    ensures { (area : List ℕ) (l : Line) → told_line p after.old tail.old marks.old events.old ≡ seen_line area l → told_line result after.new tail.new marks.new events.new ≡ seen_line area (calls folded l (called order budget (lent_to area l room))) }
{
    let s = p.state;
    let from = 3 * p.events;
    let lent = (room as usize).min(events.len() - from);
    match order {
        Some(Order::Run) => {
            let answer = run(
                s,
                budget,
                after,
                tail,
                marks,
                &mut events[from..from + lent],
            );
            noted(p, answer)
        }
        Some(Order::Step) => {
            let answer = step(s, after, tail, marks, &mut events[from..from + lent]);
            noted(p, answer)
        }
        Some(Order::RollBack) => noted(p, roll_back(s)),
        None => p,
    }
}

// Opens a search with the elements already on the blank, and performs a script of calls: three words for each, which call, its budget, and
// how many event words it is lent, which stand behind the events so far. The opening is refused by 1, 2, 3, 4, 5, 6, 7, 17, 18, and then no
// call is made; a call of the script that is refused changes nothing, and the next one follows. The image's links are written: its areas are
// lent one by one, as `run` and `step` take them.
pub fn replay(
    n: u16,
    m: u16,
    after: &mut [u16],
    tail: &mut [u16],
    before: &[u16],
    start: Vertex,
    marks: &mut [u16],
    events: &mut [u16],
    script: &[u32],
) -> Result<Replayed, Refusal>
    ensures number { number_in result ≡ open_number (image n m after.old tail.old) before.now start.0 marks.old events.old }
    ensures told { told_script result (unopened (image n m after.new tail.new) start.0 marks.new) events.new ≡ seen_line events.old (replayed (image n m after.old tail.old) before.now start.0 marks.old events.old script.now) }
{
    let g = Image { n, m, after, tail };
    let opened = open(&g, before, start, marks, events)?;
    let mut p = Replayed {
        last: Ok(opened.why),
        steps: opened.steps,
        events: opened.events,
        state: opened.state,
    };
    let mut left = script;
    // A pattern names the three words.
    while let [word, budget, room, rest @ ..] = left {
        let order = order_of(*word);
        p = perform(order, *budget, *room, p, after, tail, marks, events);
        left = rest;
    }
    Ok(p)
}
