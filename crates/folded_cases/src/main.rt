// Runs the calls of the folded search and of the panel on cases, and compares every answer, every lent word and the panel's figure with a
// second implementation; marks and the circular figure of small profiles also with what follows from the events so far, and whole searches
// with the recursive one. Profiles have lists of elements already on the blank, half of them empty. One line is printed for each group of
// cases: how many there are, how many differ, and how many calls were taken, refused with each number of document 01, or stopped for each
// reason; how many profiles have each kind of list; how often an edge was met to a vertex marked 65,535, the end of a roll-back left such a
// mark, a scan took one, and a list cut every circle. A shift start answers nothing and is not among the calls counted.
#![tactic(auto)]

mod areas;
mod blanks;
mod calls;
mod cases;
mod chance;
mod circles;
mod compare;
mod drawn;
mod events;
mod marks;
mod moves;
mod panels;
mod profiles;
mod rows;
mod script;
mod search;
mod second;
mod state;
mod tally;

use crate::compare::Case;
use crate::tally::print_head;
use std::alloc::AllocError;
use std::io;

// Words enough for a small profile, and for the largest image.
const SMALL: u16 = 32;

const LARGE: u16 = 5410;

// Runs the cases of a group, in areas of this many words, and prints what they gave.
fn run_group<R: Print + AllocGlobal, F: FnMut(&mut Case, u16) -> Result<(), AllocError>>(
    rt: &R,
    name: &str,
    room: u16,
    cases: u16,
    mut run: F,
) -> io::Result<()>
    requires { (run : _) (case : _) (i : _) → F.pre run case i }
{
    let mut case = Case::new(rt.alloc(), room)?;
    for i in 0..cases {
        run(&mut case, i)?;
        case.finish();
    }
    case.tally.print(rt, name, case.second.met)
}

fn main(rt: HostRuntime) -> io::Result<()> {
    print_head(&rt)?;
    run_group(
        &rt,
        "openings: every set of faults",
        SMALL,
        2048,
        cases::faulty_case,
    )?;
    run_group(
        &rt,
        "openings: damaged links",
        SMALL,
        4000,
        cases::damaged_case,
    )?;
    run_group(
        &rt,
        "openings: damaged lists",
        SMALL,
        8000,
        cases::blanked_case,
    )?;
    run_group(&rt, "lists: examples", SMALL, 86, rows::row_case)?;
    run_group(
        &rt,
        "halted after every step and resumed",
        SMALL,
        34560,
        cases::resumed_case,
    )?;
    run_group(
        &rt,
        "halted after every step and rolled back",
        SMALL,
        17280,
        cases::rolled_case,
    )?;
    run_group(&rt, "lists of calls", SMALL, 10000, cases::listed_case)?;
    run_group(
        &rt,
        "states and links by chance",
        SMALL,
        20000,
        cases::hostile_case,
    )?;
    run_group(&rt, "limits", LARGE, 108, cases::long_case)?;
    run_group(&rt, "scripts", SMALL, 10000, cases::script_case)?;
    run_group(&rt, "marks: examples", SMALL, 126, marks::example_case)?;
    run_group(&rt, "accepting: examples", 0, 108, panels::row_case)?;
    run_group(
        &rt,
        "accepting: states by chance",
        0,
        20000,
        panels::state_case,
    )?;
    run_group(&rt, "panel: lists of orders", 0, 500, panels::list_case)
}
