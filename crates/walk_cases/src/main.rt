// Runs the walkers on cases, and compares every answer and every lent word with a second implementation. One line is printed for each
// group of cases: how many there are, how many differ, how many were answered with each number of document 01, in how many a list of the
// elements already on the blank had each form, and in how many each thing was met that such a list can bring.
#![tactic(auto)]

mod areas;
mod blanks;
mod calls;
mod case;
mod cases;
mod chance;
mod compare;
mod faults;
mod judge;
mod notes;
mod profiles;
mod rows;
mod second;
mod tally;
mod walker;

use crate::cases::{damaged_case, list_case, long_case, refused_case, small_case};
use crate::rows::row_outcomes;
use crate::tally::{Outcome, print_counts};
use crate::walker::Walker;
use std::alloc::{AllocError, Global};
use std::io;

// Runs the first `top` cases of a group, and prints what they gave.
fn print<F: FnMut(u16) -> Result<Outcome, AllocError>>(
    rt: &impl Print,
    alloc: Global,
    walker: Walker,
    name: &str,
    top: u16,
    mut case: F,
) -> io::Result<()>
    requires { F.IsAlwaysCallable case }
{
    let mut outcomes = Vec::new(alloc);
    for i in 0..top {
        outcomes.push(case(i)?)?;
    }
    print_counts(rt, walker, name, &outcomes)
}

// Prints the groups of a walker.
fn print_walker(rt: &impl Print, alloc: Global, walker: Walker) -> io::Result<()> {
    print(
        rt,
        alloc,
        walker,
        "small profiles",
        1000,
        |i| small_case(alloc, walker, i),
    )?;
    print(
        rt,
        alloc,
        walker,
        "long profiles",
        64,
        |i| long_case(alloc, walker, i),
    )?;
    print(
        rt,
        alloc,
        walker,
        "every set of faults",
        2560,
        |i| refused_case(alloc, walker, i),
    )?;
    print(
        rt,
        alloc,
        walker,
        "damaged links",
        1000,
        |i| damaged_case(alloc, walker, i),
    )?;
    print(
        rt,
        alloc,
        walker,
        "lists of words by chance",
        1000,
        |i| list_case(alloc, walker, i),
    )?;
    let rows = row_outcomes(alloc, walker)?;
    print_counts(rt, walker, "written down", &rows)
}

fn main(rt: HostRuntime) -> io::Result<()> {
    print!(rt; "group,cases,differing,0,1,2,3,4,5,6,7,17,18")?;
    print!(rt; ",given,one,few,others,neighbours,last,half,reference,twice,loop")?;
    println!(rt; ",null,past,equal,falling,start,longer")?;
    for walker in Walker::ALL {
        print_walker(&rt, rt.alloc(), walker)?;
    }
    Ok(())
}
