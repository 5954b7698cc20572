// Walks with lists, written down: the number, the marks and the events.
use crate::areas::put;
use crate::blanks::Form;
use crate::case::Case;
use crate::compare::walk;
use crate::profiles::{EXAMPLE, Family, Plan, Seed};
use crate::second::Event;
use crate::tally::Outcome;
use crate::walker::Walker;
use std::alloc::{AllocError, Global};

// A walk that is taken: its list, and what it leaves, three marks and the words of its events.
struct Taken {
    plan: Plan,
    listed: &'static [u16],
    marks: [u16; 3],
    depth_first: &'static [[u16; 3]],
    breadth_first: &'static [[u16; 3]],
}

const TAKEN: [Taken; 8] = [
    // The printed example.
    Taken {
        plan: EXAMPLE,
        listed: &[2],
        marks: [1, 65535, 2],
        depth_first: &[
            [1, 0, 1],
            [3, 4, 1],
            [4, 4, 1],
            [2, 5, 1],
            [1, 0, 3],
            [3, 7, 3],
            [4, 7, 3],
            [6, 0, 3],
            [5, 5, 1],
            [6, 0, 1],
        ],
        breadth_first: &[
            [1, 0, 1],
            [7, 4, 1],
            [7, 5, 1],
            [1, 0, 3],
            [6, 0, 1],
            [7, 7, 3],
            [6, 0, 3],
        ],
    },
    Taken {
        plan: EXAMPLE,
        listed: &[3],
        marks: [1, 2, 65535],
        depth_first: &[
            [1, 0, 1],
            [2, 4, 1],
            [1, 0, 2],
            [3, 6, 2],
            [4, 6, 2],
            [6, 0, 2],
            [5, 4, 1],
            [3, 5, 1],
            [4, 5, 1],
            [6, 0, 1],
        ],
        breadth_first: &[
            [1, 0, 1],
            [7, 4, 1],
            [1, 0, 2],
            [7, 5, 1],
            [6, 0, 1],
            [7, 6, 2],
            [6, 0, 2],
        ],
    },
    Taken {
        plan: EXAMPLE,
        listed: &[2, 3],
        marks: [1, 65535, 65535],
        depth_first: &[
            [1, 0, 1],
            [3, 4, 1],
            [4, 4, 1],
            [3, 5, 1],
            [4, 5, 1],
            [6, 0, 1],
        ],
        breadth_first: &[[1, 0, 1], [7, 4, 1], [7, 5, 1], [6, 0, 1]],
    },
    // A chain whose last vertex has a loop: the start's only child, the last vertex, all but the start.
    Taken {
        plan: Plan {
            seed: Seed {
                family: Family::Chain,
                number: 0,
            },
            vertices: 3,
            edges: 3,
            start: 1,
        },
        listed: &[2],
        marks: [1, 65535, 0],
        depth_first: &[[1, 0, 1], [3, 4, 1], [4, 4, 1], [6, 0, 1]],
        breadth_first: &[[1, 0, 1], [7, 4, 1], [6, 0, 1]],
    },
    Taken {
        plan: Plan {
            seed: Seed {
                family: Family::Chain,
                number: 0,
            },
            vertices: 3,
            edges: 3,
            start: 1,
        },
        listed: &[3],
        marks: [1, 2, 65535],
        depth_first: &[
            [1, 0, 1],
            [2, 4, 1],
            [1, 0, 2],
            [3, 5, 2],
            [4, 5, 2],
            [6, 0, 2],
            [5, 4, 1],
            [6, 0, 1],
        ],
        breadth_first: &[
            [1, 0, 1],
            [7, 4, 1],
            [1, 0, 2],
            [6, 0, 1],
            [7, 5, 2],
            [6, 0, 2],
        ],
    },
    Taken {
        plan: Plan {
            seed: Seed {
                family: Family::Chain,
                number: 0,
            },
            vertices: 3,
            edges: 3,
            start: 3,
        },
        listed: &[1, 2],
        marks: [65535, 65535, 1],
        depth_first: &[[1, 0, 3], [3, 6, 3], [4, 6, 3], [6, 0, 3]],
        breadth_first: &[[1, 0, 3], [7, 6, 3], [6, 0, 3]],
    },
    // Two edges from the start to one listed vertex, with a loop and a tree edge between them.
    Taken {
        plan: Plan {
            seed: Seed {
                family: Family::StarOut,
                number: 4,
            },
            vertices: 3,
            edges: 4,
            start: 2,
        },
        listed: &[1],
        marks: [65535, 1, 2],
        depth_first: &[
            [1, 0, 2],
            [3, 4, 2],
            [4, 4, 2],
            [3, 5, 2],
            [4, 5, 2],
            [2, 6, 2],
            [1, 0, 3],
            [6, 0, 3],
            [5, 6, 2],
            [3, 7, 2],
            [4, 7, 2],
            [6, 0, 2],
        ],
        breadth_first: &[
            [1, 0, 2],
            [7, 4, 2],
            [7, 5, 2],
            [7, 6, 2],
            [1, 0, 3],
            [7, 7, 2],
            [6, 0, 2],
            [6, 0, 3],
        ],
    },
    // A vertex with two loops, and no other that could be listed.
    Taken {
        plan: Plan {
            seed: Seed {
                family: Family::Loops,
                number: 2,
            },
            vertices: 1,
            edges: 2,
            start: 1,
        },
        listed: &[],
        marks: [1, 0, 0],
        depth_first: &[
            [1, 0, 1],
            [3, 2, 1],
            [4, 2, 1],
            [3, 3, 1],
            [4, 3, 1],
            [6, 0, 1],
        ],
        breadth_first: &[[1, 0, 1], [7, 2, 1], [7, 3, 1], [6, 0, 1]],
    },
];

// A walk that is refused: the link of vertex 3 where it is another, its list, the number, and that over the array form, where the link is a
// first position and is what it was.
struct Refused {
    plan: Plan,
    link: Option<u16>,
    listed: &'static [u16],
    number: u16,
    array_number: u16,
}

const REFUSED: [Refused; 20] = [
    // Lists that do not rise, or leave 1 to n; with the start on them too.
    Refused {
        plan: EXAMPLE,
        link: None,
        listed: &[0],
        number: 17,
        array_number: 17,
    },
    Refused {
        plan: EXAMPLE,
        link: None,
        listed: &[2, 2],
        number: 17,
        array_number: 17,
    },
    Refused {
        plan: EXAMPLE,
        link: None,
        listed: &[4],
        number: 17,
        array_number: 17,
    },
    Refused {
        plan: EXAMPLE,
        link: None,
        listed: &[3, 2],
        number: 17,
        array_number: 17,
    },
    Refused {
        plan: EXAMPLE,
        link: None,
        listed: &[0, 2],
        number: 17,
        array_number: 17,
    },
    Refused {
        plan: EXAMPLE,
        link: None,
        listed: &[2, 65535],
        number: 17,
        array_number: 17,
    },
    Refused {
        plan: EXAMPLE,
        link: None,
        listed: &[1, 2, 3, 4],
        number: 17,
        array_number: 17,
    },
    Refused {
        plan: EXAMPLE,
        link: None,
        listed: &[2, 3, 3, 3],
        number: 17,
        array_number: 17,
    },
    Refused {
        plan: EXAMPLE,
        link: None,
        listed: &[2, 1],
        number: 17,
        array_number: 17,
    },
    Refused {
        plan: EXAMPLE,
        link: None,
        listed: &[1, 1],
        number: 17,
        array_number: 17,
    },
    Refused {
        plan: EXAMPLE,
        link: None,
        listed: &[1, 3, 2],
        number: 17,
        array_number: 17,
    },
    // The start is on the list.
    Refused {
        plan: EXAMPLE,
        link: None,
        listed: &[1],
        number: 18,
        array_number: 18,
    },
    Refused {
        plan: Plan {
            seed: Seed {
                family: Family::Example,
                number: 0,
            },
            vertices: 3,
            edges: 4,
            start: 3,
        },
        link: None,
        listed: &[3],
        number: 18,
        array_number: 18,
    },
    Refused {
        plan: Plan {
            seed: Seed {
                family: Family::Example,
                number: 0,
            },
            vertices: 3,
            edges: 4,
            start: 2,
        },
        link: None,
        listed: &[1, 2, 3],
        number: 18,
        array_number: 18,
    },
    Refused {
        plan: Plan {
            seed: Seed {
                family: Family::Loops,
                number: 2,
            },
            vertices: 1,
            edges: 0,
            start: 1,
        },
        link: None,
        listed: &[1],
        number: 18,
        array_number: 18,
    },
    // An earlier number.
    Refused {
        plan: Plan {
            seed: Seed {
                family: Family::Example,
                number: 0,
            },
            vertices: 3,
            edges: 4,
            start: 4,
        },
        link: None,
        listed: &[4],
        number: 4,
        array_number: 4,
    },
    Refused {
        plan: Plan {
            seed: Seed {
                family: Family::Example,
                number: 0,
            },
            vertices: 3,
            edges: 4,
            start: 0,
        },
        link: None,
        listed: &[0],
        number: 4,
        array_number: 4,
    },
    Refused {
        plan: EXAMPLE,
        link: Some(4),
        listed: &[0],
        number: 7,
        array_number: 17,
    },
    Refused {
        plan: EXAMPLE,
        link: Some(4),
        listed: &[1],
        number: 7,
        array_number: 18,
    },
    Refused {
        plan: Plan {
            seed: Seed {
                family: Family::Example,
                number: 0,
            },
            vertices: 1001,
            edges: 4,
            start: 1,
        },
        link: None,
        listed: &[1],
        number: 1,
        array_number: 1,
    },
];

// Whether these are the events of a row.
fn are_written(events: &[Event], row: &[[u16; 3]]) -> bool {
    events.len() == row.len()
        && events
            .iter()
            .zip(row)
            .all(|(event, words)| event.words() == *words)
}

// The case of a row, with its list.
fn row_case(alloc: Global, walker: Walker, plan: Plan, listed: &[u16]) -> Result<Case, AllocError> {
    let mut case = Case::new(alloc, walker, plan, Form::Given)?;
    case.listed.extend_from_slice(listed)?;
    Ok(case)
}

// The outcome of a row that is taken.
fn taken_case(alloc: Global, walker: Walker, row: &Taken) -> Result<Outcome, AllocError> {
    let case = row_case(alloc, walker, row.plan, row.listed)?;
    let (mut outcome, left) = walk(alloc, &case)?;
    let events = if walker.is_breadth_first() {
        row.breadth_first
    } else {
        row.depth_first
    };
    let is_written = outcome.answer.is_ok()
        && left.marks.starts_with(&row.marks)
        && are_written(&left.events, events);
    outcome.differs = outcome.differs || !is_written;
    Ok(outcome)
}

// The outcome of a row that is refused.
fn refused_case(alloc: Global, walker: Walker, row: &Refused) -> Result<Outcome, AllocError> {
    let mut case = row_case(alloc, walker, row.plan, row.listed)?;
    if let Some(link) = row.link {
        put(&mut case.links, 2, link);
    }
    let number = if walker == Walker::DfsArray {
        row.array_number
    } else {
        row.number
    };
    let (mut outcome, _) = walk(alloc, &case)?;
    outcome.differs = outcome.differs || outcome.answer != Err(number);
    Ok(outcome)
}

// The outcomes of all rows.
pub(crate) fn row_outcomes(alloc: Global, walker: Walker) -> Result<Vec<Outcome>, AllocError> {
    let mut outcomes = Vec::new(alloc);
    for row in &TAKEN {
        outcomes.push(taken_case(alloc, walker, row)?)?;
    }
    for row in &REFUSED {
        outcomes.push(refused_case(alloc, walker, row)?)?;
    }
    Ok(outcomes)
}
