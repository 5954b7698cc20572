// What the cases gave, counted and printed.
use crate::notes::Thing;
use crate::walker::Walker;
use std::io;

// The outcome of a case: what the call answered, whether that, or a lent word, is not what the second implementation says, and what was met.
#[derive(Drop)]
pub(crate) struct Outcome {
    pub(crate) answer: Result<(), u16>,
    pub(crate) differs: bool,
    pub(crate) met: Vec<Thing>,
}

// The numbers of refusals that a walk can answer.
const NUMBERS: [u16; 9] = [1, 2, 3, 4, 5, 6, 7, 17, 18];

// Prints one line: the walker, the name of a group, and what its cases gave.
pub(crate) fn print_counts(
    rt: &impl Print,
    walker: Walker,
    name: &str,
    outcomes: &[Outcome],
) -> io::Result<()> {
    let differing = outcomes.iter().filter(|o| o.differs).count();
    let taken = outcomes.iter().filter(|o| o.answer.is_ok()).count();
    print!(rt; "{walker}: {name},{},{differing},{taken}", outcomes.len())?;
    for number in NUMBERS {
        let refused = outcomes.iter().filter(|o| o.answer == Err(number)).count();
        print!(rt; ",{refused}")?;
    }
    for thing in Thing::ALL {
        let met = outcomes.iter().filter(|o| o.met.contains(&thing)).count();
        print!(rt; ",{met}")?;
    }
    println!(rt; "")
}
