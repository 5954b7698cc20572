// The calls of the libraries that the cases are of. No other file names the crates that they are in.
use crate::areas::Links;
use crate::second::{Answer, Call, Outcome, Reply};
use crate::state::State;
use images::{Edge, Image, Vertex};
use panel::Panel;
use refusals::Refusal;

// What a call of the folded search is lent.
#[derive(Drop)]
pub(crate) struct Lent<'a> {
    pub after: &'a mut [u16],
    pub tail: &'a mut [u16],
    pub marks: &'a mut [u16],
    pub events: &'a mut [u16],
}

// What accepting a state answers, and the state.
#[derive(Clone, Copy, PartialEq, Eq)]
pub(crate) struct Accepted {
    pub answer: Answer,
    pub state: State,
}

// What the last card of a shift answers, the figure of the shift that ends, and the figure of the next one.
#[derive(Clone, Copy)]
pub(crate) struct ShiftEnded {
    pub accepted: Accepted,
    pub figure: u32,
    pub fresh: u32,
}

impl From<State> for states::State {
    fn from(s: State) -> states::State {
        states::State {
            n: s.n,
            m: s.m,
            start: Vertex(s.start),
            v: Vertex(s.v),
            e: Edge(s.e),
            f: s.f,
            phase: s.phase,
            next: s.next,
            circular: s.circular,
        }
    }
}

impl From<states::State> for State {
    fn from(s: states::State) -> State {
        State {
            n: s.n,
            m: s.m,
            start: s.start.0,
            v: s.v.0,
            e: s.e.0,
            f: s.f,
            phase: s.phase,
            next: s.next,
            circular: s.circular,
        }
    }
}

// What a call that is taken has done, as the second implementation says it.
fn outcome_of(why: Option<states::Reason>) -> Outcome {
    match why {
        Some(states::Reason::Ended) => Outcome::Ended,
        Some(states::Reason::Spent) => Outcome::Spent,
        Some(states::Reason::Stuck) => Outcome::Stuck,
        None => Outcome::Taken,
    }
}

// A reply of the folded search; of a call that is refused, with the state kept.
fn reply_of(answer: Result<states::Reply, Refusal>, kept: State) -> Reply {
    match answer {
        Ok(reply) => Reply {
            answer: Ok(outcome_of(reply.why)),
            steps: reply.steps,
            events: reply.events,
            state: reply.state.into(),
        },
        Err(refusal) => Reply {
            answer: Err(refusal.number()),
            steps: 0,
            events: 0,
            state: kept,
        },
    }
}

// The state of an opening that is refused: the profile and the start alone.
fn unopened(s: State) -> State {
    State {
        v: 0,
        e: 0,
        f: 0,
        phase: 0,
        next: 0,
        circular: 0,
        ..s
    }
}

// Makes a call of the folded search.
pub(crate) fn make_call(call: Call, state: State, before: &[u16], lent: Lent<'_>) -> Reply {
    let Lent {
        after,
        tail,
        marks,
        events,
    } = lent;
    let s: states::State = state.into();
    match call {
        Call::Open => {
            let g = Image {
                n: s.n,
                m: s.m,
                after: &*after,
                tail: &*tail,
            };
            reply_of(
                walkers::open(&g, before, s.start, marks, events),
                unopened(state),
            )
        }
        Call::Run(budget) => reply_of(walkers::run(s, budget, after, tail, marks, events), state),
        Call::Step => reply_of(walkers::step(s, after, tail, marks, events), state),
        Call::RollBack => reply_of(walkers::roll_back(s), state),
    }
}

// Replays the words of a script.
pub(crate) fn replay(state: State, before: &[u16], lent: Lent<'_>, script: &[u32]) -> Reply {
    let Lent {
        after,
        tail,
        marks,
        events,
    } = lent;
    let replayed = walkers::replay(
        state.n,
        state.m,
        after,
        tail,
        before,
        Vertex(state.start),
        marks,
        events,
        script,
    );
    match replayed {
        Ok(r) => Reply {
            answer: number_of(r.last).map(outcome_of),
            steps: r.steps,
            events: r.events,
            state: r.state.into(),
        },
        Err(refusal) => reply_of(Err(refusal), unopened(state)),
    }
}

// The recursive search of a profile.
pub(crate) fn search(
    state: State,
    links: &Links,
    before: &[u16],
    marks: &mut [u16],
    events: &mut [u16],
) -> Result<(), u16> {
    let g = image_of(state.n, state.m, links);
    number_of(walkers::dfs_recursive(&g, before, Vertex(state.start), marks, events))?;
    Ok(())
}

fn image_of<'a>(n: u16, m: u16, links: &'a Links) -> Image<'a> {
    Image {
        n,
        m,
        after: &links.after,
        tail: &links.tail,
    }
}

// The number that an image is refused with.
pub(crate) fn check_image(n: u16, m: u16, links: &Links) -> Result<(), u16> {
    number_of(images::check_image(&image_of(n, m, links)))
}

// An answer, with the number of its refusal.
// The second implementation says document 01's numbers, so that a wrong number of the library shows.
fn number_of<T>(answer: Result<T, Refusal>) -> Result<T, u16> {
    answer.map_err(|refusal| refusal.number())
}

// What accepting a state answers; one that is refused is kept.
fn accepted_of(answer: Result<states::State, Refusal>, kept: State) -> Accepted {
    match answer {
        Ok(state) => Accepted {
            answer: Ok(Outcome::Taken),
            state: state.into(),
        },
        Err(refusal) => Accepted {
            answer: Err(refusal.number()),
            state: kept,
        },
    }
}

// Accepts a state as a card, on a record with a figure: what is answered, and the figure after.
pub(crate) fn count_card(figure: u32, state: State) -> (Accepted, u32) {
    match panel::count_card(Panel { figure }, state.into()) {
        Ok(counted) => (accepted_of(Ok(counted.state), state), counted.panel.figure),
        Err(refusal) => (accepted_of(Err(refusal), state), figure),
    }
}

// Accepts a state as the last card of a shift, on a record with a figure.
pub(crate) fn end_shift(figure: u32, state: State) -> ShiftEnded {
    let ended = panel::end_shift(figure, state.into());
    ShiftEnded {
        accepted: accepted_of(ended.answer, state),
        figure: ended.figure,
        fresh: ended.fresh,
    }
}

// The figure once a shift is started, on a record with a figure.
pub(crate) fn start_shift(figure: u32) -> u32 {
    panel::shifted(Panel { figure }).figure
}

// The figure of a new record.
pub(crate) fn new_figure() -> u32 {
    panel::new_panel().figure
}
