// Small profiles, each with a list of elements already on the blank, and what is expected of them.
use crate::cases::finish;
use crate::compare::Case;
use crate::events::Kind;
use crate::moves::ON_BLANK;
use crate::script::Line;
use crate::second::{Call, Second};
use crate::state::ENDED;
use std::alloc::AllocError;

// A profile, its list, and what is expected: the end of its search, or the number that its opening is refused with.
struct Row {
    n: u16,
    start: u16,
    edges: &'static [(u16, u16)],
    before: &'static [u16],
    expected: Result<End, u16>,
}

// The circular figure, the marks of the vertices and all events at the end of a search.
struct End {
    circular: u16,
    marks: &'static [u16],
    events: &'static [(Kind, u16, u16)],
}

const ROWS: [Row; 43] = [
    // The printed example: from vertex 1, 2 and 3.
    Row {
        n: 3,
        start: 1,
        edges: &[(1, 2), (1, 3), (2, 3), (3, 1)],
        before: &[2],
        expected: Ok(End {
            circular: 1,
            marks: &[1, ON_BLANK, 2],
            events: &[
                (Kind::Label, 0, 1),
                (Kind::Reach, 4, 1),
                (Kind::Return, 4, 1),
                (Kind::Advance, 5, 1),
                (Kind::Label, 0, 3),
                (Kind::Reach, 7, 3),
                (Kind::Return, 7, 3),
                (Kind::Scan, 0, 3),
                (Kind::Retreat, 5, 1),
                (Kind::Scan, 0, 1),
            ],
        }),
    },
    Row {
        n: 3,
        start: 1,
        edges: &[(1, 2), (1, 3), (2, 3), (3, 1)],
        before: &[3],
        expected: Ok(End {
            circular: 0,
            marks: &[1, 2, ON_BLANK],
            events: &[
                (Kind::Label, 0, 1),
                (Kind::Advance, 4, 1),
                (Kind::Label, 0, 2),
                (Kind::Reach, 6, 2),
                (Kind::Return, 6, 2),
                (Kind::Scan, 0, 2),
                (Kind::Retreat, 4, 1),
                (Kind::Reach, 5, 1),
                (Kind::Return, 5, 1),
                (Kind::Scan, 0, 1),
            ],
        }),
    },
    Row {
        n: 3,
        start: 1,
        edges: &[(1, 2), (1, 3), (2, 3), (3, 1)],
        before: &[2, 3],
        expected: Ok(End {
            circular: 0,
            marks: &[1, ON_BLANK, ON_BLANK],
            events: &[
                (Kind::Label, 0, 1),
                (Kind::Reach, 4, 1),
                (Kind::Return, 4, 1),
                (Kind::Reach, 5, 1),
                (Kind::Return, 5, 1),
                (Kind::Scan, 0, 1),
            ],
        }),
    },
    Row {
        n: 3,
        start: 2,
        edges: &[(1, 2), (1, 3), (2, 3), (3, 1)],
        before: &[1],
        expected: Ok(End {
            circular: 0,
            marks: &[ON_BLANK, 1, 2],
            events: &[
                (Kind::Label, 0, 2),
                (Kind::Advance, 6, 2),
                (Kind::Label, 0, 3),
                (Kind::Reach, 7, 3),
                (Kind::Return, 7, 3),
                (Kind::Scan, 0, 3),
                (Kind::Retreat, 6, 2),
                (Kind::Scan, 0, 2),
            ],
        }),
    },
    Row {
        n: 3,
        start: 2,
        edges: &[(1, 2), (1, 3), (2, 3), (3, 1)],
        before: &[3],
        expected: Ok(End {
            circular: 0,
            marks: &[0, 1, ON_BLANK],
            events: &[
                (Kind::Label, 0, 2),
                (Kind::Reach, 6, 2),
                (Kind::Return, 6, 2),
                (Kind::Scan, 0, 2),
            ],
        }),
    },
    Row {
        n: 3,
        start: 2,
        edges: &[(1, 2), (1, 3), (2, 3), (3, 1)],
        before: &[1, 3],
        expected: Ok(End {
            circular: 0,
            marks: &[ON_BLANK, 1, ON_BLANK],
            events: &[
                (Kind::Label, 0, 2),
                (Kind::Reach, 6, 2),
                (Kind::Return, 6, 2),
                (Kind::Scan, 0, 2),
            ],
        }),
    },
    Row {
        n: 3,
        start: 3,
        edges: &[(1, 2), (1, 3), (2, 3), (3, 1)],
        before: &[1],
        expected: Ok(End {
            circular: 0,
            marks: &[ON_BLANK, 0, 1],
            events: &[
                (Kind::Label, 0, 3),
                (Kind::Reach, 7, 3),
                (Kind::Return, 7, 3),
                (Kind::Scan, 0, 3),
            ],
        }),
    },
    Row {
        n: 3,
        start: 3,
        edges: &[(1, 2), (1, 3), (2, 3), (3, 1)],
        before: &[2],
        expected: Ok(End {
            circular: 1,
            marks: &[2, ON_BLANK, 1],
            events: &[
                (Kind::Label, 0, 3),
                (Kind::Advance, 7, 3),
                (Kind::Label, 0, 1),
                (Kind::Reach, 4, 1),
                (Kind::Return, 4, 1),
                (Kind::Reach, 5, 1),
                (Kind::Return, 5, 1),
                (Kind::Scan, 0, 1),
                (Kind::Retreat, 7, 3),
                (Kind::Scan, 0, 3),
            ],
        }),
    },
    Row {
        n: 3,
        start: 3,
        edges: &[(1, 2), (1, 3), (2, 3), (3, 1)],
        before: &[1, 2],
        expected: Ok(End {
            circular: 0,
            marks: &[ON_BLANK, ON_BLANK, 1],
            events: &[
                (Kind::Label, 0, 3),
                (Kind::Reach, 7, 3),
                (Kind::Return, 7, 3),
                (Kind::Scan, 0, 3),
            ],
        }),
    },
    // Circles through a listed vertex, and beside one.
    Row {
        n: 3,
        start: 1,
        edges: &[(1, 2), (2, 1)],
        before: &[2],
        expected: Ok(End {
            circular: 0,
            marks: &[1, ON_BLANK, 0],
            events: &[
                (Kind::Label, 0, 1),
                (Kind::Reach, 4, 1),
                (Kind::Return, 4, 1),
                (Kind::Scan, 0, 1),
            ],
        }),
    },
    Row {
        n: 3,
        start: 1,
        edges: &[(1, 2), (2, 1)],
        before: &[3],
        expected: Ok(End {
            circular: 1,
            marks: &[1, 2, ON_BLANK],
            events: &[
                (Kind::Label, 0, 1),
                (Kind::Advance, 4, 1),
                (Kind::Label, 0, 2),
                (Kind::Reach, 5, 2),
                (Kind::Return, 5, 2),
                (Kind::Scan, 0, 2),
                (Kind::Retreat, 4, 1),
                (Kind::Scan, 0, 1),
            ],
        }),
    },
    Row {
        n: 3,
        start: 1,
        edges: &[(1, 2), (1, 3), (3, 1), (2, 1)],
        before: &[2],
        expected: Ok(End {
            circular: 1,
            marks: &[1, ON_BLANK, 2],
            events: &[
                (Kind::Label, 0, 1),
                (Kind::Reach, 4, 1),
                (Kind::Return, 4, 1),
                (Kind::Advance, 5, 1),
                (Kind::Label, 0, 3),
                (Kind::Reach, 6, 3),
                (Kind::Return, 6, 3),
                (Kind::Scan, 0, 3),
                (Kind::Retreat, 5, 1),
                (Kind::Scan, 0, 1),
            ],
        }),
    },
    Row {
        n: 3,
        start: 1,
        edges: &[(1, 2), (1, 3), (3, 1), (2, 1)],
        before: &[2, 3],
        expected: Ok(End {
            circular: 0,
            marks: &[1, ON_BLANK, ON_BLANK],
            events: &[
                (Kind::Label, 0, 1),
                (Kind::Reach, 4, 1),
                (Kind::Return, 4, 1),
                (Kind::Reach, 5, 1),
                (Kind::Return, 5, 1),
                (Kind::Scan, 0, 1),
            ],
        }),
    },
    Row {
        n: 2,
        start: 1,
        edges: &[(1, 1), (1, 2)],
        before: &[2],
        expected: Ok(End {
            circular: 1,
            marks: &[1, ON_BLANK],
            events: &[
                (Kind::Label, 0, 1),
                (Kind::Reach, 3, 1),
                (Kind::Return, 3, 1),
                (Kind::Reach, 4, 1),
                (Kind::Return, 4, 1),
                (Kind::Scan, 0, 1),
            ],
        }),
    },
    Row {
        n: 2,
        start: 1,
        edges: &[(1, 2), (2, 2)],
        before: &[2],
        expected: Ok(End {
            circular: 0,
            marks: &[1, ON_BLANK],
            events: &[
                (Kind::Label, 0, 1),
                (Kind::Reach, 3, 1),
                (Kind::Return, 3, 1),
                (Kind::Scan, 0, 1),
            ],
        }),
    },
    Row {
        n: 2,
        start: 1,
        edges: &[(1, 2), (2, 2)],
        before: &[],
        expected: Ok(End {
            circular: 1,
            marks: &[1, 2],
            events: &[
                (Kind::Label, 0, 1),
                (Kind::Advance, 3, 1),
                (Kind::Label, 0, 2),
                (Kind::Reach, 4, 2),
                (Kind::Return, 4, 2),
                (Kind::Scan, 0, 2),
                (Kind::Retreat, 3, 1),
                (Kind::Scan, 0, 1),
            ],
        }),
    },
    Row {
        n: 3,
        start: 1,
        edges: &[(1, 2), (2, 3), (3, 2)],
        before: &[3],
        expected: Ok(End {
            circular: 0,
            marks: &[1, 2, ON_BLANK],
            events: &[
                (Kind::Label, 0, 1),
                (Kind::Advance, 4, 1),
                (Kind::Label, 0, 2),
                (Kind::Reach, 5, 2),
                (Kind::Return, 5, 2),
                (Kind::Scan, 0, 2),
                (Kind::Retreat, 4, 1),
                (Kind::Scan, 0, 1),
            ],
        }),
    },
    Row {
        n: 3,
        start: 1,
        edges: &[(1, 2), (2, 3), (3, 3)],
        before: &[2],
        expected: Ok(End {
            circular: 0,
            marks: &[1, ON_BLANK, 0],
            events: &[
                (Kind::Label, 0, 1),
                (Kind::Reach, 4, 1),
                (Kind::Return, 4, 1),
                (Kind::Scan, 0, 1),
            ],
        }),
    },
    // Edges side by side; listed vertices that no edge leads to; one vertex.
    Row {
        n: 2,
        start: 1,
        edges: &[(1, 2), (1, 2)],
        before: &[2],
        expected: Ok(End {
            circular: 0,
            marks: &[1, ON_BLANK],
            events: &[
                (Kind::Label, 0, 1),
                (Kind::Reach, 3, 1),
                (Kind::Return, 3, 1),
                (Kind::Reach, 4, 1),
                (Kind::Return, 4, 1),
                (Kind::Scan, 0, 1),
            ],
        }),
    },
    Row {
        n: 3,
        start: 1,
        edges: &[(1, 2)],
        before: &[3],
        expected: Ok(End {
            circular: 0,
            marks: &[1, 2, ON_BLANK],
            events: &[
                (Kind::Label, 0, 1),
                (Kind::Advance, 4, 1),
                (Kind::Label, 0, 2),
                (Kind::Scan, 0, 2),
                (Kind::Retreat, 4, 1),
                (Kind::Scan, 0, 1),
            ],
        }),
    },
    Row {
        n: 3,
        start: 3,
        edges: &[],
        before: &[1, 2],
        expected: Ok(End {
            circular: 0,
            marks: &[ON_BLANK, ON_BLANK, 1],
            events: &[(Kind::Label, 0, 3), (Kind::Scan, 0, 3)],
        }),
    },
    Row {
        n: 1,
        start: 1,
        edges: &[],
        before: &[],
        expected: Ok(End {
            circular: 0,
            marks: &[1],
            events: &[(Kind::Label, 0, 1), (Kind::Scan, 0, 1)],
        }),
    },
    Row {
        n: 1,
        start: 1,
        edges: &[(1, 1)],
        before: &[],
        expected: Ok(End {
            circular: 1,
            marks: &[1],
            events: &[
                (Kind::Label, 0, 1),
                (Kind::Reach, 2, 1),
                (Kind::Return, 2, 1),
                (Kind::Scan, 0, 1),
            ],
        }),
    },
    // Lists that are not strictly rising, or leave 1 to n.
    Row {
        n: 3,
        start: 1,
        edges: &[(1, 2), (1, 3), (2, 3), (3, 1)],
        before: &[0],
        expected: Err(17),
    },
    Row {
        n: 3,
        start: 1,
        edges: &[(1, 2), (1, 3), (2, 3), (3, 1)],
        before: &[4],
        expected: Err(17),
    },
    Row {
        n: 3,
        start: 1,
        edges: &[(1, 2), (1, 3), (2, 3), (3, 1)],
        before: &[2, 2],
        expected: Err(17),
    },
    Row {
        n: 3,
        start: 1,
        edges: &[(1, 2), (1, 3), (2, 3), (3, 1)],
        before: &[3, 2],
        expected: Err(17),
    },
    Row {
        n: 3,
        start: 1,
        edges: &[(1, 2), (1, 3), (2, 3), (3, 1)],
        before: &[2, 4],
        expected: Err(17),
    },
    Row {
        n: 3,
        start: 1,
        edges: &[(1, 2), (1, 3), (2, 3), (3, 1)],
        before: &[2, 0],
        expected: Err(17),
    },
    Row {
        n: 3,
        start: 2,
        edges: &[(1, 2), (1, 3), (2, 3), (3, 1)],
        before: &[1, 3, 3],
        expected: Err(17),
    },
    Row {
        n: 1,
        start: 1,
        edges: &[],
        before: &[2],
        expected: Err(17),
    },
    // The start on the list.
    Row {
        n: 3,
        start: 1,
        edges: &[(1, 2), (1, 3), (2, 3), (3, 1)],
        before: &[1],
        expected: Err(18),
    },
    Row {
        n: 3,
        start: 1,
        edges: &[(1, 2), (1, 3), (2, 3), (3, 1)],
        before: &[1, 3],
        expected: Err(18),
    },
    Row {
        n: 3,
        start: 2,
        edges: &[(1, 2), (1, 3), (2, 3), (3, 1)],
        before: &[1, 2],
        expected: Err(18),
    },
    Row {
        n: 3,
        start: 1,
        edges: &[(1, 2), (1, 3), (2, 3), (3, 1)],
        before: &[1, 2, 3],
        expected: Err(18),
    },
    Row {
        n: 1,
        start: 1,
        edges: &[],
        before: &[1],
        expected: Err(18),
    },
    // Both, also by more words than vertices.
    Row {
        n: 3,
        start: 1,
        edges: &[(1, 2), (1, 3), (2, 3), (3, 1)],
        before: &[2, 1],
        expected: Err(17),
    },
    Row {
        n: 3,
        start: 1,
        edges: &[(1, 2), (1, 3), (2, 3), (3, 1)],
        before: &[1, 1],
        expected: Err(17),
    },
    Row {
        n: 3,
        start: 1,
        edges: &[(1, 2), (1, 3), (2, 3), (3, 1)],
        before: &[1, 2, 3, 4],
        expected: Err(17),
    },
    Row {
        n: 1,
        start: 1,
        edges: &[],
        before: &[1, 2],
        expected: Err(17),
    },
    // What comes before both.
    Row {
        n: 3,
        start: 4,
        edges: &[(1, 2), (1, 3), (2, 3), (3, 1)],
        before: &[4],
        expected: Err(4),
    },
    Row {
        n: 3,
        start: 1,
        edges: &[(1, 2), (1, 3), (2, 3), (0, 1)],
        before: &[0],
        expected: Err(7),
    },
    Row {
        n: 3,
        start: 1,
        edges: &[(1, 2), (1, 3), (2, 3), (3, 0)],
        before: &[1],
        expected: Err(6),
    },
];

// Makes the profile of a row, and its list. An edge that leaves 0 is on no list.
fn make_row(case: &mut Case, row: &Row) -> Result<(), AllocError> {
    let m = u16::try_from(row.edges.len()).unwrap_or(0);
    case.second.size(row.n, m, row.start);
    case.second.unlink();
    for (i, (u, x)) in (0..m).zip(row.edges.iter()).rev() {
        case.second.link(i, *u, *x);
    }
    case.second.before.extend_from_slice(row.before)?;
    case.load()
}

// Whether the search has ended as written down.
fn is_at(second: &Second, end: &End) -> bool {
    let told = second
        .events
        .iter()
        .map(|event| (event.kind, event.edge, event.vertex));
    second.state.circular == end.circular
        && second.marks.starts_with(end.marks)
        && told.eq(end.events.iter().copied())
}

// Whether all marks are withdrawn but those of elements already on the blank.
fn is_withdrawn(second: &Second, end: &End) -> bool {
    second.marks.iter().zip(end.marks.iter()).all(|(mark, written)| *mark
        == if *written == ON_BLANK { ON_BLANK } else { 0 })
}

// To the end, or rolled back after a step.
fn run_row(case: &mut Case, end: &End, is_whole: bool) -> Result<(), AllocError> {
    let run = Line::of(Call::Run(30));
    if is_whole {
        finish(case, 30, &[run])?;
    } else {
        finish(
            case,
            1,
            &[Line::of(Call::Run(1)), Line::of(Call::RollBack), run],
        )?;
    }
    let second = &case.second;
    let is_as_written = if second.state.phase == ENDED {
        is_at(second, end)
    } else {
        is_withdrawn(second, end)
    };
    case.note(!is_as_written);
    Ok(())
}

// Each row in two ways.
pub(crate) fn row_case(case: &mut Case, i: u16) -> Result<(), AllocError> {
    let Some(row) = ROWS.get(usize::from(i / 2)) else {
        return Ok(());
    };
    case.begin(i / 2);
    make_row(case, row)?;
    case.compare(Call::Open)?;
    let answer = case.answer;
    match &row.expected {
        Ok(end) if answer.is_ok() => run_row(case, end, i % 2 == 0)?,
        Err(number) => case.note(answer != Err(*number)),
        Ok(_) => case.note(true),
    }
    Ok(())
}
