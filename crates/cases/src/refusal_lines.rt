// The line of a refusal, of every number into exactly the bytes that it needs, and into none, fewer and more: its answer and every byte of
// the area, lent or not, against the second writer.
use crate::areas::{BLANK, holds, lent};
use crate::calls::refusal_line;
use crate::chance::draw_below;
use crate::digits::draw_number;
use crate::tally::{Group, Outcome};
use std::alloc::{AllocError, Global};

// The line of a refusal.
fn line(alloc: Global, number: u16) -> Result<String, AllocError> {
    format!(in alloc; "refused,{number}\n")
}

// The case of a number and the first `room` bytes of an area.
fn printed(alloc: Global, number: u16, room: usize) -> Result<Outcome, AllocError> {
    let mut output = [BLANK; 20];
    let first = refusal_line(number, lent(&mut output, room));
    let line = line(alloc, number)?;
    let second = if room < line.len() {
        Err(3)
    } else {
        Ok(line.len())
    };
    let wanted = if second.is_ok() { line.as_str() } else { "" };
    let holds = holds(&output, wanted.as_bytes(), BLANK);
    Ok(Outcome::of(first, second).also(!holds))
}

// Each number from 0 to 65,535.
pub(crate) fn number_cases(group: &mut Group) -> Result<(), AllocError> {
    let alloc = group.alloc;
    group.add_each(0..=u16::MAX, |number| {
        let room = line(alloc, number)?.len();
        Ok(printed(alloc, number, room)?.expected(Ok(())))
    })
}

// Document 01's example.
fn example_case(alloc: Global) -> Result<Outcome, AllocError> {
    let differs = line(alloc, 6)?.as_str() != "refused,6\n";
    Ok(printed(alloc, 6, 10)?.expected(Ok(())).also(differs))
}

// The least and the greatest number of each length.
const LIMITS: [u16; 10] = [0, 9, 10, 99, 100, 999, 1000, 9999, 10000, 65535];

// The case of a limit, with no byte, with one less than the line has, with one more, and with the whole area.
fn limit_cases(group: &mut Group, number: u16) -> Result<(), AllocError> {
    let alloc = group.alloc;
    let length = line(alloc, number)?.len();
    group.add(printed(alloc, number, 0)?.expected(Err(3)))?;
    group.add(printed(alloc, number, length.saturating_sub(1))?.expected(Err(3)))?;
    group.add(printed(alloc, number, length.saturating_add(1))?.expected(Ok(())))?;
    group.add(printed(alloc, number, 20)?.expected(Ok(())))
}

// The example and the limits, then numbers and rooms by chance.
pub(crate) fn room_cases(group: &mut Group) -> Result<(), AllocError> {
    let alloc = group.alloc;
    group.add(example_case(alloc)?)?;
    for number in LIMITS {
        limit_cases(group, number)?;
    }
    group.add_each(0..=3999u16, |seed| {
        printed(alloc, draw_number(seed), draw_below(seed, 70, 20))
    })
}
