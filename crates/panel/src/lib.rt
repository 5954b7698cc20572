// The panel: its figure lives in one record. By value first; then over the lent record, which every line updates in place; and one call
// with plain parameters above them.
//
// Every public function takes any input at all.
#![tactic(auto)]

ghost use Rattle.std.specs.Prelude.{◌≡◌, []};
ghost use Rattle.folding.specs.Calls.{accept_number};
ghost use Rattle.refusals.specs.Numbers.{number_in};
ghost use Rattle.states.specs.Answers.{config_of};
ghost use Rattle.panel.specs.Panel.{new_panel, accepted_as, counted_as, ended_as, accepted_of, shifted_of, AcceptPromise, ShiftPromise, shift_ended, shift_closed};

use refusals::Refusal;
use walkers::{Phase, State, check_state};

// How many cards were accepted since the last shift start.
#[derive(Clone, Copy)]
pub struct Panel {
    pub figure: u32,
}

// The record and the state that accepting leaves, by value.
#[derive(Clone, Copy)]
pub struct Counted {
    pub panel: Panel,
    pub state: State,
}

// The answer to the last card of a shift, the figure of the shift that ends, and the figure of the next one.
#[derive(Clone, Copy)]
pub struct ShiftEnded {
    pub answer: Result<State, Refusal>,
    pub figure: u32,
    pub fresh: u32,
}

// A new record.
pub fn new_panel() -> Panel
    ensures { result ≡ new_panel }
{
    Panel { figure: 0 }
}

// The tests before a state is accepted: 1, 2, 4, 8, then 9 in phase 5 or 6, 10 in phase 1, 2 or 4, then 11.
fn check_card(s: State, figure: u32) -> Result<(), Refusal>
    ensures { number_in result ≡ accept_number (config_of s [] [] []) figure }
{
    check_state(s, true)?;
    let p = s.phase;
    if p == Phase::RolledBack as u16 {
        return Err(Refusal::Over);
    }
    if p == Phase::Accepted as u16 {
        return Err(Refusal::Over);
    }
    if p != Phase::Finished as u16 {
        return Err(Refusal::Unfinished);
    }
    if figure >= 999999 {
        return Err(Refusal::Figure);
    }
    Ok(())
}

// Accepts a state, by value: where it is taken, the figure is one more and the phase is 6; else nothing changes.
pub fn count_card(p: Panel, s: State) -> Result<Counted, Refusal>
    ensures { counted_as p s result ≡ accepted_of p s }
{
    let figure = p.figure;
    check_card(s, figure)?;
    Ok(Counted {
        panel: Panel { figure: figure + 1 },
        state: State {
            phase: Phase::Accepted as u16,
            ..s
        },
    })
}

// A shift start, by value.
pub fn shifted(p: Panel) -> Panel
    ensures { result ≡ shifted_of p }
{
    let mut t = p;
    t.figure = 0;
    t
}

// Accepts a state: refused by 1, 2, 4, 8, 9, 10, 11, and then neither state nor figure changes. It is lent no links, marks or events.
pub fn accept(p: &mut Panel, s: State) -> Result<State, Refusal>
    ensures { AcceptPromise p.old s (accepted_as s result) p.new }
{
    let t = count_card(*p, s)?;
    *p = t.panel;
    Ok(t.state)
}

// Starts a shift; it is never refused.
pub fn shift_start(p: &mut Panel)
    ensures { ShiftPromise p.old p.new }
{
    *p = shifted(*p);
}

// Accepts a state on a record with this figure, reads the figure off and starts the next shift, whatever was answered.
fn close_shift(figure: u32, s: State) -> ShiftEnded
    ensures { ended_as s result ≡ shift_closed figure s }
{
    let mut p = Panel { figure };
    let answer = accept(&mut p, s);
    let total = p.figure;
    shift_start(&mut p);
    ShiftEnded {
        answer,
        figure: total,
        fresh: p.figure,
    }
}

// The last card of a shift: accepts a state on a record with this figure, reads the figure off and starts the next shift. Refused by 1, 2, 4,
// 8, 9, 10, 11: then no shift ends, and the figure is given back as it was.
pub fn end_shift(figure: u32, s: State) -> ShiftEnded
    ensures { ended_as s result ≡ shift_ended figure s }
{
    let t = close_shift(figure, s);
    match t.answer {
        Ok(_) => t,
        Err(refusal) => ShiftEnded {
            answer: Err(refusal),
            figure: figure,
            fresh: figure,
        },
    }
}
