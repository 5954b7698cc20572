// Texts whose walk is written down, or whose answer: document 01's example, as it stands and padded, the rows of the table of texts, a
// chain of 1,000 vertices, a ring of them and the longest walk, profiles with a circle and without, areas that are too short and outputs
// as short as the line of a refusal.
use crate::listing::Line;
use crate::profiles::Spoilt;
use crate::search::Counts;
use crate::tally::{Group, Outcome};
use crate::text_rows::{Row, at_limit, rows, values, with_spoilt, with_value};
use crate::walked::{AREAS, Area, Lent, compare_walk};
use crate::writer::{HEAD, Replaced, UNPADDED, Written};
use std::alloc::{AllocError, Global};

// The printed profile, and the same with five digits a number.
const PROFILES: [&[u8]; 2] = [
    b"elements,references,start\n3,4,1\nfrom,to\n1,2\n1,3\n2,3\n3,1\n",
    b"elements,references,start\n00003,00004,00001\nfrom,to\n00001,00002\n00001,00003\n00002,00003\n00003,00001\n",
];

// What is printed of the printed profile.
const PRINTED: &str =
    "event,reference,element\n1,0,1\n2,4,1\n1,0,2\n2,6,2\n1,0,3\n3,7,3\n4,7,3\n6,0,3\n5,6,2\n6,0,2\n5,4,1\n3,5,1\n4,5,1\n6,0,1\nelements,moves,circular\n3,11,1\n";

// A text of the printed profile, with the bytes that are printed of it.
fn printed_case(alloc: Global, profile: &[u8]) -> Result<Outcome, AllocError> {
    let walked = compare_walk(alloc, profile, Lent::ALL)?;
    let differs = walked.printed.as_str() != PRINTED;
    Ok(walked.outcome.expected(Ok(())).also(differs))
}

// The lines of a chain: 1 to 2, 2 to 3 and on, and from 1,000 to 1 again.
pub(crate) fn chain(alloc: Global, lines: u16) -> Result<Vec<Line>, AllocError> {
    (1..=lines)
        .map(|number| Line {
            from: (number.wrapping_sub(1)) % 1000 + 1,
            rank: 1,
            number,
            to: number % 1000 + 1,
        })
        .collect(alloc)
}

// The text of m edges between 1,000 vertices, each number with so many digits at least.
pub(crate) fn between_all(m: u16, width: usize) -> Written {
    Written {
        n: 1000,
        m: u32::from(m),
        start: 1,
        lines: m,
        replaced: None,
        width,
    }
}

// What a walk counts.
fn counted(labelled: u16, moves: u16, circular: bool) -> Counts {
    Counts {
        labelled,
        moves,
        circular,
    }
}

// The first m edges of the chain between 1,000 vertices, with its event words and what is counted.
fn chain_case(alloc: Global, m: u16, events: usize, counts: Counts) -> Result<Outcome, AllocError> {
    let listing = chain(alloc, m)?;
    let text = between_all(m, UNPADDED).text(alloc, &listing)?;
    let walked = compare_walk(alloc, text.as_bytes(), Lent::ALL)?;
    let differs = walked.events != events || walked.counts != counts;
    Ok(walked.outcome.expected(Ok(())).also(differs))
}

// A profile, from its first values on, with what is counted.
struct Told {
    values: &'static str,
    labelled: u16,
    moves: u16,
    circular: bool,
}

// Profiles without a circle that is reached: two edges to a vertex, that leave two vertices or one; a circle that is not reached. Then
// with one: a loop; two vertices; two vertices that the start is none of.
#[rattlefmt::skip]
const TOLD: [Told; 6] = [
    Told { values: "3,3,1\nfrom,to\n1,2\n1,3\n2,3\n", labelled: 3, moves: 9, circular: false },
    Told { values: "2,2,1\nfrom,to\n1,2\n1,2\n", labelled: 2, moves: 6, circular: false },
    Told { values: "3,2,1\nfrom,to\n2,3\n3,2\n", labelled: 1, moves: 1, circular: false },
    Told { values: "1,1,1\nfrom,to\n1,1\n", labelled: 1, moves: 3, circular: true },
    Told { values: "2,2,1\nfrom,to\n1,2\n2,1\n", labelled: 2, moves: 6, circular: true },
    Told { values: "3,3,1\nfrom,to\n1,2\n2,3\n3,2\n", labelled: 3, moves: 9, circular: true },
];

// The case of a profile with what is counted.
fn told_case(alloc: Global, told: &Told) -> Result<Outcome, AllocError> {
    let mut text = String::from_str(alloc, HEAD)?;
    text.push_str(told.values)?;
    let walked = compare_walk(alloc, text.as_bytes(), Lent::ALL)?;
    let counts = counted(told.labelled, told.moves, told.circular);
    Ok(
        walked
            .outcome
            .expected(Ok(()))
            .also(walked.counts != counts),
    )
}

// The text of a row of the table of texts, with the answer that it is to be given.
fn row_case(
    alloc: Global,
    row: &Row,
    lengths: Lent,
    answer: Result<(), u16>,
) -> Result<Outcome, AllocError> {
    let text = row.text(alloc)?;
    Ok(
        compare_walk(alloc, &text, lengths)?
            .outcome
            .expected(answer),
    )
}

// The rows of the table of texts, as they are answered there. An area is as long as stated, or one word shorter where the refusal is 3.
fn text_cases(group: &mut Group) -> Result<(), AllocError> {
    let alloc = group.alloc;
    let rows = rows(alloc)?;
    for (row, area) in rows.iter().zip(AREAS.iter().cycle()) {
        let lengths = Lent {
            one: Some(*area),
            less: if row.answer == Err(3) { 1 } else { 0 },
        };
        group.add(row_case(alloc, row, lengths, row.answer)?)?;
    }
    Ok(())
}

// One area so many words short, in turn.
fn short_cases(
    group: &mut Group,
    row: &Row,
    less: usize,
    answer: Result<(), u16>,
) -> Result<(), AllocError> {
    let alloc = group.alloc;
    for area in AREAS {
        let lengths = Lent {
            one: Some(area),
            less,
        };
        group.add(row_case(alloc, row, lengths, answer)?)?;
    }
    Ok(())
}

// Outputs of 12 to 8 bytes, some with room for the line of the refusal: it is not printed.
fn output_cases(group: &mut Group, row: &Row, answer: Result<(), u16>) -> Result<(), AllocError> {
    let alloc = group.alloc;
    for less in 180054..180059usize {
        let lengths = Lent {
            one: Some(Area::Output),
            less,
        };
        group.add(row_case(alloc, row, lengths, answer)?)?;
    }
    Ok(())
}

// One area one word short: 3, but behind 12 and 1 and before 4 and 6; at the limits, with the area as long as stated too. Then
// short outputs.
fn all_short_cases(group: &mut Group) -> Result<(), AllocError> {
    let spoilt = with_spoilt(36, Spoilt::Replaced(b';'));
    let stray = with_value(Replaced::From(0, 0), Err(6));
    let largest = at_limit(1000, 4000, 4000, 1000, Ok(()));
    short_cases(group, &values(1, 1, 1, 1, Ok(())), 1, Err(3))?;
    short_cases(group, &spoilt, 1, Err(12))?;
    short_cases(group, &values(0, 0, 0, 0, Err(1)), 1, Err(1))?;
    short_cases(group, &values(2, 0, 3, 0, Err(4)), 1, Err(3))?;
    short_cases(group, &stray, 1, Err(3))?;
    short_cases(group, &largest, 1, Err(3))?;
    short_cases(group, &largest, 0, Ok(()))?;
    output_cases(group, &stray, Err(3))?;
    output_cases(group, &spoilt, Err(12))
}

// All of these.
pub(crate) fn cases(group: &mut Group) -> Result<(), AllocError> {
    let alloc = group.alloc;
    group.add_each(PROFILES.iter(), |profile| printed_case(alloc, profile))?;
    group.add(chain_case(alloc, 999, 11994, counted(1000, 2998, false))?)?;
    // All 4,000 edges, four times round: no walk has more moves.
    group.add(chain_case(alloc, 4000, 30000, counted(1000, 9000, true))?)?;
    all_short_cases(group)?;
    group.add(chain_case(alloc, 1000, 12000, counted(1000, 3000, true))?)?;
    group.add_each(TOLD.iter(), |told| told_case(alloc, told))?;
    text_cases(group)
}
