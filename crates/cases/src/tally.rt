// What the cases gave, counted and printed.
ghost use Rattle.std.specs.Iterator.{IsFinite};

use std::alloc::{AllocError, Global};
use std::io;

// The outcome of a case: what the call answered, a refusal as its number in document 01, and whether that, or a lent word, is not what
// the second implementation says.
#[derive(Clone, Copy, PartialEq, Eq)]
pub(crate) struct Outcome {
    pub(crate) answer: Result<(), u16>,
    pub(crate) differs: bool,
}

impl Outcome {
    // The outcome of a call's answer, set beside what the second implementation says.
    pub(crate) fn of<T: PartialEq + Drop>(
        first: Result<T, u16>,
        second: Result<T, u16>,
    ) -> Outcome {
        let differs = first != second;
        Outcome {
            answer: first.map(|_| ()),
            differs,
        }
    }

    // The outcome in which something else may differ.
    pub(crate) fn also(self, differs: bool) -> Outcome {
        Outcome {
            answer: self.answer,
            differs: self.differs || differs,
        }
    }

    // The outcome that is to have this answer too.
    pub(crate) fn expected(self, answer: Result<(), u16>) -> Outcome {
        self.also(self.answer != answer)
    }
}

// A group of cases: its name, and what its cases gave.
#[derive(Drop)]
pub(crate) struct Group {
    pub(crate) alloc: Global,
    outcomes: Vec<Outcome>,
}

impl Group {
    // Adds what a case gave.
    pub(crate) fn add(&mut self, outcome: Outcome) -> Result<(), AllocError> {
        self.outcomes.push(outcome)?;
        Ok(())
    }

    // Adds the case of each item, as a row of a table or a seed.
    pub(crate) fn add_each<I: Iterator, F: FnMut(I::Item) -> Result<Outcome, AllocError>>(
        &mut self,
        items: I,
        mut case: F,
    ) -> Result<(), AllocError>
        requires can { I.can_next items }
        requires ends { IsFinite (I.remaining items) }
        requires callable { F.IsAlwaysCallable case }
    {
        for item in items {
            self.add(case(item)?)?;
        }
        Ok(())
    }
}

// Prints one line of a group's outcomes: the name, the cases, those that differ, those taken, and those refused with each number.
fn print_outcomes(rt: &impl Print, name: &str, outcomes: &[Outcome]) -> io::Result<()> {
    let cases = outcomes.len();
    let differing = outcomes.iter().filter(|o| o.differs).count();
    let taken = outcomes.iter().filter(|o| o.answer.is_ok()).count();
    print!(rt; "{name},{cases},{differing},{taken}")?;
    for number in 1..14u16 {
        let refused = outcomes.iter().filter(|o| o.answer == Err(number)).count();
        print!(rt; ",{refused}")?;
    }
    print!(rt; "\n")
}

// Runs the cases of a group, and prints what they gave.
pub(crate) fn print_group<F: FnOnce(&mut Group) -> Result<(), AllocError>>(
    rt: &(impl Print + AllocGlobal),
    name: &str,
    cases: F,
) -> io::Result<()>
    requires { F.IsAlwaysCallable cases }
{
    let alloc = rt.alloc();
    let mut group = Group {
        alloc,
        outcomes: Vec::new(alloc),
    };
    cases(&mut group)?;
    print_outcomes(rt, name, &group.outcomes)
}
