// What the cases gave, counted and printed.
use crate::blanks::ListKind;
use crate::second::{Answer, Met, Outcome};
use std::io;

// How many cases there are, how many differ, how many calls gave each answer (those refused by the number), how many profiles have each
// kind of list, and how often a list cut every circle.
#[derive(Clone, Copy, Default)]
pub(crate) struct Tally {
    cases: u32,
    differing: u32,
    taken: u32,
    refused: [u32; 19],
    ended: u32,
    spent: u32,
    stuck: u32,
    empty: u32,
    one: u32,
    several: u32,
    all: u32,
    near: u32,
    last: u32,
    cut: u32,
}

// Counts one more.
pub(crate) fn count(k: &mut u32) {
    *k = k.saturating_add(1);
}

// Prints counts, each behind a comma.
fn print_each(rt: &impl Print, counts: &[u32]) -> io::Result<()> {
    for k in counts {
        print!(rt; ",{k}")?;
    }
    Ok(())
}

// Prints what the columns are.
pub(crate) fn print_head(rt: &impl Print) -> io::Result<()> {
    println!(rt;
        "group,cases,differing,taken,1,2,3,4,5,6,7,8,9,10,11,17,18,ended,spent,stuck,empty,one,some,all,near,last,touched,spared,scanned,cut"
    )
}

impl Tally {
    // Counts a case.
    pub(crate) fn count_case(&mut self, differs: bool) {
        count(&mut self.cases);
        if differs {
            count(&mut self.differing);
        }
    }

    // Counts a list that cuts every circle.
    pub(crate) fn count_cut(&mut self) {
        count(&mut self.cut);
    }

    // Counts an answer.
    pub(crate) fn count_answer(&mut self, answer: Answer) {
        match answer {
            Ok(Outcome::Taken) => count(&mut self.taken),
            Ok(Outcome::Ended) => count(&mut self.ended),
            Ok(Outcome::Spent) => count(&mut self.spent),
            Ok(Outcome::Stuck) => count(&mut self.stuck),
            Err(number) => {
                if let Some(k) = self.refused.get_mut(usize::from(number)) {
                    count(k);
                }
            }
        }
    }

    // Counts a list.
    pub(crate) fn count_list(&mut self, kind: ListKind) {
        match kind {
            ListKind::Empty => count(&mut self.empty),
            ListKind::One => count(&mut self.one),
            ListKind::Several => count(&mut self.several),
            ListKind::All => count(&mut self.all),
            ListKind::Near => count(&mut self.near),
            ListKind::Last => count(&mut self.last),
        }
    }

    // Prints one line: the name and the counts. No call is refused with 12 to 16.
    pub(crate) fn print(&self, rt: &impl Print, name: &str, met: Met) -> io::Result<()> {
        print!(rt; "{name}")?;
        print_each(rt, &[self.cases, self.differing, self.taken])?;
        print_each(rt, &self.refused[1..12])?;
        print_each(rt, &self.refused[17..19])?;
        print_each(rt, &[self.ended, self.spent, self.stuck])?;
        print_each(rt, &[self.empty, self.one, self.several])?;
        print_each(rt, &[self.all, self.near, self.last])?;
        print_each(rt, &[met.touched, met.spared, met.scanned, self.cut])?;
        println!(rt; "")
    }
}
