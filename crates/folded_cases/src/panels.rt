// The calls of the panel, on rows with what is expected, on states and figures by chance, and in lists of orders; compared with accepting
// in the second implementation, and with a count of what happened.
use crate::calls::{Accepted, count_card, end_shift, new_figure, start_shift};
use crate::chance::Chance;
use crate::compare::Case;
use crate::drawn::draw_state;
use crate::second::Outcome;
use crate::state::{ACCEPTED, ENDED, State, WITHDRAWN};
use std::alloc::AllocError;

// The words of a state: n, m, the start, v, e, f, phase, next and circular.
type Words = [u16; 9];

// A row: a state; the figure; and the figure after, or the number expected, with which the figure stays.
const TABLE: [(Words, u32, Result<u32, u16>); 54] = [
    // Figures.
    ([2, 3, 1, 1, 0, 0, 3, 3, 0], 0, Ok(1)),
    ([2, 3, 1, 1, 0, 0, 3, 3, 0], 1, Ok(2)),
    ([2, 3, 1, 1, 0, 0, 3, 3, 0], 65535, Ok(65536)),
    ([2, 3, 1, 1, 0, 0, 3, 3, 0], 999998, Ok(999999)),
    ([2, 3, 1, 1, 0, 0, 3, 3, 0], 999999, Err(11)),
    ([2, 3, 1, 1, 0, 0, 3, 3, 0], 1000000, Err(11)),
    ([2, 3, 1, 1, 0, 0, 3, 3, 0], 4294967295, Err(11)),
    // Phases.
    ([2, 3, 1, 1, 0, 0, 0, 3, 0], 0, Err(8)),
    ([2, 3, 1, 1, 0, 0, 1, 3, 0], 0, Err(10)),
    ([2, 3, 1, 1, 0, 0, 2, 3, 0], 0, Err(10)),
    ([2, 3, 1, 1, 0, 0, 4, 3, 0], 0, Err(10)),
    ([2, 3, 1, 1, 0, 0, 5, 3, 0], 0, Err(9)),
    ([2, 3, 1, 1, 0, 0, 6, 3, 0], 0, Err(9)),
    ([2, 3, 1, 1, 0, 0, 7, 3, 0], 0, Err(8)),
    // Sizes.
    ([0, 3, 1, 1, 0, 0, 3, 3, 0], 0, Err(1)),
    ([1001, 3, 1, 1, 0, 0, 3, 3, 0], 0, Err(1)),
    ([1000, 3, 1, 1, 0, 0, 3, 3, 0], 0, Ok(1)),
    ([1, 0, 1, 1, 0, 0, 3, 2, 0], 0, Ok(1)),
    ([2, 4001, 1, 1, 0, 0, 3, 3, 0], 0, Err(2)),
    ([2, 65535, 1, 1, 0, 0, 3, 3, 0], 0, Err(2)),
    ([2, 4000, 1, 1, 0, 0, 3, 3, 0], 0, Ok(1)),
    // The start.
    ([2, 3, 0, 1, 0, 0, 3, 3, 0], 0, Err(4)),
    ([2, 3, 2, 1, 0, 0, 3, 3, 0], 0, Ok(1)),
    ([2, 3, 3, 1, 0, 0, 3, 3, 0], 0, Err(4)),
    // v, e and f.
    ([2, 3, 1, 0, 0, 0, 3, 3, 0], 0, Err(8)),
    ([2, 3, 1, 2, 0, 0, 3, 3, 0], 0, Ok(1)),
    ([2, 3, 1, 3, 0, 0, 3, 3, 0], 0, Err(8)),
    ([2, 3, 1, 1, 1, 0, 3, 3, 0], 0, Err(8)),
    ([2, 3, 1, 1, 2, 0, 3, 3, 0], 0, Err(8)),
    ([2, 3, 1, 1, 3, 0, 3, 3, 0], 0, Ok(1)),
    ([2, 3, 1, 1, 5, 0, 3, 3, 0], 0, Ok(1)),
    ([2, 3, 1, 1, 6, 0, 3, 3, 0], 0, Err(8)),
    ([2, 0, 1, 1, 3, 0, 3, 3, 0], 0, Err(8)),
    ([2, 3, 1, 1, 0, 5, 3, 3, 0], 0, Ok(1)),
    ([2, 3, 1, 1, 0, 6, 3, 3, 0], 0, Err(8)),
    // The next label and the circular figure.
    ([2, 3, 1, 1, 0, 0, 3, 1, 0], 0, Err(8)),
    ([2, 3, 1, 1, 0, 0, 3, 2, 0], 0, Ok(1)),
    ([2, 3, 1, 1, 0, 0, 3, 4, 0], 0, Err(8)),
    ([2, 3, 1, 1, 0, 0, 3, 3, 1], 0, Ok(1)),
    ([2, 3, 1, 1, 0, 0, 3, 3, 2], 0, Err(8)),
    // Several faults at once.
    ([0, 4001, 0, 0, 0, 0, 0, 3, 0], 999999, Err(1)),
    ([1001, 4001, 1, 1, 0, 0, 3, 3, 0], 0, Err(1)),
    ([2, 4001, 3, 3, 0, 0, 5, 3, 0], 999999, Err(2)),
    ([2, 3, 0, 3, 0, 0, 1, 3, 0], 999999, Err(4)),
    ([2, 3, 3, 1, 0, 0, 3, 3, 2], 0, Err(4)),
    ([2, 3, 1, 3, 0, 0, 5, 3, 0], 999999, Err(8)),
    ([2, 3, 1, 1, 6, 0, 1, 3, 0], 999999, Err(8)),
    ([2, 3, 1, 1, 0, 0, 6, 4, 0], 999999, Err(8)),
    ([2, 3, 1, 1, 0, 0, 3, 3, 2], 999999, Err(8)),
    ([2, 3, 1, 1, 0, 0, 1, 3, 0], 999999, Err(10)),
    ([2, 3, 1, 1, 0, 0, 2, 3, 0], 1000000, Err(10)),
    ([2, 3, 1, 1, 0, 0, 4, 3, 0], 4294967295, Err(10)),
    ([2, 3, 1, 1, 0, 0, 5, 3, 0], 999999, Err(9)),
    ([2, 3, 1, 1, 0, 0, 6, 3, 0], 4294967295, Err(9)),
];

// Ways to accept a state: as a card, or as the last card of a shift.
#[derive(Clone, Copy, PartialEq, Eq)]
enum Way {
    Card,
    Last,
}

// What comes of an order.
#[derive(Clone, Copy, PartialEq, Eq)]
enum Happened {
    Card,
    Shift,
}

// The figure as its high and its low word.
#[derive(Clone, Copy)]
struct Figure {
    high: u16,
    low: u16,
}

impl Figure {
    fn of(figure: u32) -> Figure {
        Figure {
            high: (figure >> 16) as u16,
            low: (figure & 65535) as u16,
        }
    }

    // 999,999 is 15 times 65,536 and 16,959.
    fn is_full(self) -> bool {
        self.high > 15 || self.high == 15 && self.low >= 16959
    }

    // One more card: the low word goes round, and then the high one is one more.
    fn raised(self) -> Figure {
        let low = self.low.wrapping_add(1);
        let high = if low == 0 {
            self.high.wrapping_add(1)
        } else {
            self.high
        };
        Figure { high, low }
    }

    fn whole(self) -> u32 {
        u32::from(self.high) << 16 | u32::from(self.low)
    }
}

// Accepts a state on a figure: the state and the figure after, or the number that is shown.
fn accept(state: State, figure: u32) -> Result<(State, u32), u16> {
    state.check_all(false)?;
    match state.phase {
        ENDED => {
            let figure = Figure::of(figure);
            if figure.is_full() {
                return Err(11);
            }
            let phase = ACCEPTED;
            Ok((State { phase, ..state }, figure.raised().whole()))
        }
        WITHDRAWN | ACCEPTED => Err(9),
        _ => Err(10),
    }
}

// Accepts a state on a record with a figure, and notes where an answer differs from accepting on the figure expected: the record's figure
// after, and the figure expected after, or the number expected.
fn compare(
    case: &mut Case,
    way: Way,
    state: State,
    figure: u32,
    expected: u32,
) -> (u32, Result<u32, u16>) {
    let (told, after) = match accept(state, expected) {
        Ok((state, after)) => (
            Accepted {
                answer: Ok(Outcome::Taken),
                state,
            },
            Ok(after),
        ),
        Err(number) => (
            Accepted {
                answer: Err(number),
                state,
            },
            Err(number),
        ),
    };
    let (accepted, left, fresh) = match way {
        Way::Card => {
            let (accepted, left) = count_card(figure, state);
            (accepted, left, left)
        }
        Way::Last => {
            let ended = end_shift(figure, state);
            (ended.accepted, ended.figure, ended.fresh)
        }
    };
    let stays = after.unwrap_or(expected);
    let begins = if way == Way::Last && after.is_ok() {
        0
    } else {
        stays
    };
    case.tally.count_answer(accepted.answer);
    case.note(accepted != told || left != stays || fresh != begins);
    (fresh, after)
}

// The way of a case: cards are accepted in two ways.
fn way_of(i: u16) -> Way {
    if i % 2 == 0 { Way::Last } else { Way::Card }
}

// The state of its words.
fn state_of(words: &Words) -> State {
    let [n, m, start, v, e, f, phase, next, circular] = *words;
    State {
        n,
        m,
        start,
        v,
        e,
        f,
        phase,
        next,
        circular,
    }
}

// Each row in two ways.
pub(crate) fn row_case(case: &mut Case, i: u16) -> Result<(), AllocError> {
    if let Some(row) = TABLE.get(usize::from(i / 2)) {
        let state = state_of(&row.0);
        let figure = row.1;
        let (_, after) = compare(case, way_of(i), state, figure, figure);
        case.note(after != row.2);
    }
    Ok(())
}

// A state by chance: in half of the draws in phase 3.
fn drawn_state(chance: Chance) -> State {
    let mut state = State::unopened(chance.up_to(9001, 1000), chance.below(9002, 4001), 0);
    draw_state(&mut state, chance);
    if chance.below(9020, 2) == 0 {
        state.phase = ENDED;
    }
    state
}

// A figure: small, near the greatest of a word, near its limit, or any.
fn drawn_figure(chance: Chance) -> u32 {
    let k = u32::from(chance.below(9021, 5));
    match chance.below(9022, 5) {
        0 => k,
        1 => k + 65533,
        2..=3 => k + 999996,
        _ => k + u32::from(chance.below(9023, 32768)) * 131070,
    }
}

// Each state by chance in two ways.
pub(crate) fn state_case(case: &mut Case, i: u16) -> Result<(), AllocError> {
    let chance = Chance { seed: i / 2 };
    let figure = drawn_figure(chance);
    let _ = compare(case, way_of(i), drawn_state(chance), figure, figure);
    Ok(())
}

// How many cards stand behind the last shift start.
fn cards_since(orders: &[Happened]) -> u32 {
    let cards = orders
        .iter()
        .rev()
        .take_while(|order| **order == Happened::Card)
        .count();
    u32::try_from(cards).unwrap_or(u32::MAX)
}

// Obeys an order by chance on a record with a figure, and adds what comes of it to the orders: the figure after.
fn obey(
    case: &mut Case,
    chance: Chance,
    figure: u32,
    orders: &mut Vec<Happened>,
) -> Result<u32, AllocError> {
    let way = match chance.below(9024, 16) {
        0 => {
            orders.push(Happened::Shift)?;
            return Ok(start_shift(figure));
        }
        1 => Way::Last,
        _ => Way::Card,
    };
    let (left, after) = compare(case, way, drawn_state(chance), figure, cards_since(orders));
    if after.is_ok() {
        orders.push(match way {
            Way::Last => Happened::Shift,
            Way::Card => Happened::Card,
        })?;
    }
    Ok(left)
}

// The figure of a new record, or of one with any figure once a shift is started.
fn fresh_figure(chance: Chance, i: u16) -> u32 {
    if i % 2 == 0 {
        new_figure()
    } else {
        start_shift(drawn_figure(chance))
    }
}

// A list of 40 orders by chance. What happened is counted anew before each order and after it.
pub(crate) fn list_case(case: &mut Case, i: u16) -> Result<(), AllocError> {
    let seed = (i % 1000).wrapping_mul(41).wrapping_add(20000);
    let mut figure = fresh_figure(Chance { seed }, i);
    case.note(figure != 0);
    let mut orders = Vec::new(case.alloc);
    for k in 1..=40 {
        let chance = Chance {
            seed: seed.wrapping_add(k),
        };
        figure = obey(case, chance, figure, &mut orders)?;
        case.note(figure != cards_since(&orders));
    }
    Ok(())
}
