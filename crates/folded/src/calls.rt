// A single step, and a run of steps.
ghost use Rattle.std.specs.Prelude.{◌≡◌, ◌&&◌, ◌+◌, ◌*◌, ◌≤◌, leb, length};
ghost use Rattle.folding.specs.Calls.{run_for, single, perform};
ghost use Rattle.folding.proofs.Fields.{Fields};
ghost use Rattle.states.specs.Answers.{config_of, seen_of, told, told_taken, CallPromise};
ghost use Rattle.folded.specs.Steps.{Lent, Same, held};

use crate::areas::Areas;
use crate::moves::make;
use refusals::Refusal;
use states::{Reason, Reply, State, check_state, is_over};

// Whether a after words, t tail words and k marks are as many as stated, and so are the event words.
fn are_long(s: State, a: usize, t: usize, k: usize, long: bool) -> bool
    ensures { result ≡ (leb (s.n + s.m) a && (leb s.m t && (leb (s.n + s.m) k && long))) }
{
    let m = s.m as usize;
    let nodes = s.n as usize + m;
    a >= nodes && t >= m && k >= nodes && long
}

// The steps of a run that is not refused: before each of them, ended, spent and stuck are tested in this order.
fn drive(s: State, budget: u32, areas: &mut Areas) -> Reply
    requires { Lent s areas.old × Fields (held s areas.old) × (6 * budget ≤ length areas.old.events.now) }
    ensures done { told_taken result areas.new.after.now areas.new.tail.now areas.new.marks.now areas.new.events.now ≡ seen_of (perform (held s areas.old) (run_for budget areas.old.events.now)) }
    ensures same { Same areas.old areas.new }
{
    let mut state = s;
    let mut steps: u32 = 0;
    let mut made: usize = 0;
    // A `for` over the budget would test ended once more behind it.
    let why = loop {
        if is_over(state) {
            break Reason::Ended;
        }
        if steps == budget {
            break Reason::Spent;
        }
        let Some(next) = make(state, areas, made) else {
            break Reason::Stuck;
        };
        state = next.state;
        made = next.made;
        steps += 1;
    };
    Reply {
        why: Some(why),
        steps,
        events: made,
        state,
    }
}

// Makes the step to come, with 6 event words. Refused by 1, 2, 3, 4, 8, 9.
pub fn step(
    s: State,
    after: &mut [u16],
    tail: &mut [u16],
    marks: &mut [u16],
    events: &mut [u16],
) -> Result<Reply, Refusal>
    ensures { CallPromise (config_of s after.old tail.old marks.old) (single events.old) (told result (config_of s after.new tail.new marks.new) events.new) }
{
    let long = 6 <= events.len();
    let all = are_long(s, after.len(), tail.len(), marks.len(), long);
    check_state(s, all)?;
    if is_over(s) {
        return Err(Refusal::Over);
    }
    let areas = &mut Areas {
        after,
        tail,
        marks,
        events,
    };
    let Some(next) = make(s, areas, 0) else {
        return Err(Refusal::State);
    };
    Ok(Reply {
        why: None,
        steps: 1,
        events: next.made,
        state: next.state,
    })
}

// Makes steps up to a budget, with 6 event words for each. Refused by 1, 2, 3, 4, 8.
pub fn run(
    s: State,
    budget: u32,
    after: &mut [u16],
    tail: &mut [u16],
    marks: &mut [u16],
    events: &mut [u16],
) -> Result<Reply, Refusal>
    ensures { CallPromise (config_of s after.old tail.old marks.old) (run_for budget events.old) (told result (config_of s after.new tail.new marks.new) events.new) }
{
    let long = 6 * (budget as usize) <= events.len();
    let all = are_long(s, after.len(), tail.len(), marks.len(), long);
    check_state(s, all)?;
    let areas = &mut Areas {
        after,
        tail,
        marks,
        events,
    };
    Ok(drive(s, budget, areas))
}
