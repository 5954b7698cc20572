// Marks and the circular figure: as they follow from the events so far, and examples of what one step leaves of them.
use crate::areas::{put_first, word_of};
use crate::compare::Case;
use crate::events::{Event, Kind};
use crate::moves::UNSCANNED;
use crate::second::{Call, Outcome, Second};
use crate::state::{ROLLING_BACK, SCANNING, State, TURNING, WITHDRAWN};
use std::alloc::AllocError;

// The place of u among the vertices that the events of a kind name.
fn rank(events: &[Event], kind: Kind, u: u16) -> Option<usize> {
    events
        .iter()
        .filter(|event| event.kind == kind)
        .position(|event| event.vertex == u)
}

// The mark of u by the events so far: its rank from 1 on among the labels, and 32,768 more as long as its scan is not among them; without
// a label as before the start had one.
fn mark_so_far(second: &Second, u: u16) -> usize {
    match rank(&second.events, Kind::Label, u) {
        None => usize::from(word_of(&second.blank, u)),
        Some(k) => {
            let number = k.saturating_add(1);
            if rank(&second.events, Kind::Scan, u).is_none() {
                number.saturating_add(usize::from(UNSCANNED))
            } else {
                number
            }
        }
    }
}

// Whether the mark of u is as the events so far say, or in phase 5 as before the start was labelled.
fn follows(second: &Second, u: u16) -> bool {
    let mark = word_of(&second.marks, u);
    if second.state.phase == WITHDRAWN {
        return mark == word_of(&second.blank, u);
    }
    usize::from(mark) == mark_so_far(second, u)
}

// Whether some event is an advance along a nontree edge to a vertex whose scan is not among the events before, and which is not already on
// the blank.
fn meets_circle(second: &Second, tail: &[u16]) -> bool {
    for (i, event) in second.events.iter().enumerate() {
        let x = word_of(tail, event.edge.saturating_sub(second.state.n));
        let mut before = second.events.iter().take(i);
        if event.kind == Kind::Reach
            && word_of(&second.blank, x) == 0
            && !before.any(|scan| scan.kind == Kind::Scan && scan.vertex == x)
        {
            return true;
        }
    }
    false
}

// Notes where a mark, or the circular figure, does not follow from the events so far, of a small profile that was searched, and is opened.
pub(crate) fn note_marks(case: &mut Case) {
    let second = &case.second;
    if case.found.is_none() || second.state.phase == 0 || 8 <= second.state.n {
        return;
    }
    let follows = (1..=second.state.n).all(|u| follows(second, u));
    let circular = u16::from(meets_circle(second, &case.loaded.tail));
    let differs = !follows || circular != second.state.circular;
    case.note(differs);
}

// A mark of vertex 2; the figure, where it was 0, and the mark that a step to it leaves; the marks that the end of its scan leaves, and the
// last step of a roll-back.
#[derive(Clone, Copy)]
struct MarkRow {
    mark: u16,
    figure: u16,
    reached: u16,
    closed: u16,
    withdrawn: u16,
}

const MARK_ROWS: [MarkRow; 9] = [
    MarkRow {
        mark: 0,
        figure: 0,
        reached: 32770,
        closed: 0,
        withdrawn: 0,
    },
    MarkRow {
        mark: 1,
        figure: 0,
        reached: 1,
        closed: 1,
        withdrawn: 0,
    },
    MarkRow {
        mark: 7,
        figure: 0,
        reached: 7,
        closed: 7,
        withdrawn: 0,
    },
    MarkRow {
        mark: 32767,
        figure: 0,
        reached: 32767,
        closed: 32767,
        withdrawn: 0,
    },
    MarkRow {
        mark: 32768,
        figure: 1,
        reached: 32768,
        closed: 0,
        withdrawn: 0,
    },
    MarkRow {
        mark: 32769,
        figure: 1,
        reached: 32769,
        closed: 1,
        withdrawn: 0,
    },
    MarkRow {
        mark: 32775,
        figure: 1,
        reached: 32775,
        closed: 7,
        withdrawn: 0,
    },
    MarkRow {
        mark: 65534,
        figure: 1,
        reached: 65534,
        closed: 32766,
        withdrawn: 0,
    },
    MarkRow {
        mark: 65535,
        figure: 0,
        reached: 65535,
        closed: 32767,
        withdrawn: 65535,
    },
];

// A step to vertex 2, at the end of its scan, of a roll-back from it, and the last one of a roll-back.
#[derive(Clone, Copy, PartialEq, Eq)]
enum Move {
    Reach,
    Close,
    RollBack,
    Withdraw,
}

// A move, the start, v, e, f and phase before it, and the tail of edge 4. The end of a scan comes with a parent and without, in phases 1
// and 2.
#[derive(Clone, Copy)]
struct StepRow {
    kind: Move,
    start: u16,
    v: u16,
    e: u16,
    f: u16,
    phase: u16,
    tail: u16,
}

const STEP_ROWS: [StepRow; 7] = [
    StepRow {
        kind: Move::Reach,
        start: 1,
        v: 1,
        e: 4,
        f: 0,
        phase: SCANNING,
        tail: 2,
    },
    StepRow {
        kind: Move::Close,
        start: 1,
        v: 2,
        e: 0,
        f: 1,
        phase: SCANNING,
        tail: 0,
    },
    StepRow {
        kind: Move::Close,
        start: 1,
        v: 2,
        e: 5,
        f: 1,
        phase: TURNING,
        tail: 0,
    },
    StepRow {
        kind: Move::Close,
        start: 2,
        v: 2,
        e: 0,
        f: 0,
        phase: SCANNING,
        tail: 0,
    },
    StepRow {
        kind: Move::Close,
        start: 2,
        v: 2,
        e: 5,
        f: 0,
        phase: TURNING,
        tail: 0,
    },
    StepRow {
        kind: Move::RollBack,
        start: 1,
        v: 2,
        e: 0,
        f: 1,
        phase: ROLLING_BACK,
        tail: 0,
    },
    StepRow {
        kind: Move::Withdraw,
        start: 2,
        v: 2,
        e: 5,
        f: 0,
        phase: ROLLING_BACK,
        tail: 0,
    },
];

// The after words of the five nodes, and four words behind them.
const LINKS: [u16; 9] = [4, 0, 0, 5, 0, 4, 0, 0, 5];

// The marks of nodes 1 and 3 to 5, and what the last step of a roll-back leaves of them.
const FIRST_MARK: u16 = 33333;

const LAST_MARKS: [u16; 3] = [65535, 40004, 65535];

// One step with a mark of vertex 2 and a figure before.
fn run_example(
    case: &mut Case,
    step: &StepRow,
    circular: u16,
    marks: &MarkRow,
) -> Result<(), AllocError> {
    let [third, fourth, fifth] = LAST_MARKS;
    let second = &mut case.second;
    second.size(3, 2, step.start);
    second.lengths.events = 9;
    second.state = State {
        v: step.v,
        e: step.e,
        f: step.f,
        phase: step.phase,
        next: 2,
        circular,
        ..second.state
    };
    put_first(&mut second.links.after, &LINKS);
    put_first(&mut second.links.tail, &[step.tail, 3]);
    put_first(
        &mut second.marks,
        &[
            FIRST_MARK, marks.mark, third, fourth, fifth, FIRST_MARK, 0, third, fourth,
        ],
    );
    case.compare(Call::Step)?;
    let (first, left) = match step.kind {
        Move::Reach => (FIRST_MARK, marks.reached),
        Move::Close => (FIRST_MARK, marks.closed),
        Move::RollBack => (FIRST_MARK, marks.mark),
        Move::Withdraw => (0, marks.withdrawn),
    };
    let met = if step.kind == Move::Reach {
        marks.figure.max(circular)
    } else {
        circular
    };
    let second = &case.second;
    let differs = !second
        .marks
        .starts_with(&[first, left, third, fourth, fifth])
        || case.answer != Ok(Outcome::Taken)
        || second.state.circular != met;
    case.note(differs);
    Ok(())
}

// One step of each kind, with each mark of vertex 2 and each figure before.
pub(crate) fn example_case(case: &mut Case, i: u16) -> Result<(), AllocError> {
    case.begin(i);
    let marks = MARK_ROWS.get(usize::from(i % 9));
    let step = STEP_ROWS.get(usize::from(i / 18));
    match (marks, step) {
        (Some(marks), Some(step)) => run_example(case, step, i / 9 % 2, marks),
        _ => Ok(()),
    }
}
