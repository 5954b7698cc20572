// The cases of each group.
use crate::blanks::{Form, list_by_chance};
use crate::case::Case;
use crate::chance::{EDGES, FORM, SIZE, START};
use crate::compare::walk;
use crate::faults::{Fault, damage_links, lessen};
use crate::profiles::{EXAMPLE, Family, Plan, Seed};
use crate::tally::Outcome;
use crate::walker::Walker;
use std::alloc::{AllocError, Global};

// A small profile, its start by chance: the first of a family has one vertex and no edge.
fn small(seed: Seed) -> Plan {
    let (vertices, edges) = match seed {
        Seed { number: 0, .. } => (1, 0),
        Seed {
            family: Family::Complete,
            ..
        } => (seed.draw_from_one(SIZE, 7), 49),
        _ => (seed.draw_from_one(SIZE, 12), seed.draw(EDGES, 17)),
    };
    Plan {
        seed,
        vertices,
        edges,
        start: seed.draw_from_one(START, vertices),
    }
}

// The form of a list, by chance: an empty one in two of eight.
fn form(seed: Seed) -> Form {
    Form::nth(seed.draw(FORM, 8))
}

// A hundred seeds of each family.
fn family_seed(i: u16) -> Seed {
    Seed {
        family: Family::nth(i / 100),
        number: i % 100,
    }
}

// The outcome of a case.
fn outcome(alloc: Global, case: &Case) -> Result<Outcome, AllocError> {
    let (outcome, _) = walk(alloc, case)?;
    Ok(outcome)
}

// Small profiles, a hundred of each family, and a list of a form by chance.
pub(crate) fn small_case(alloc: Global, walker: Walker, i: u16) -> Result<Outcome, AllocError> {
    let seed = family_seed(i);
    let case = Case::new(alloc, walker, small(seed), form(seed))?;
    outcome(alloc, &case)
}

// The same profiles, with words by chance on a list up to three longer than n.
pub(crate) fn list_case(alloc: Global, walker: Walker, i: u16) -> Result<Outcome, AllocError> {
    let plan = small(family_seed(i));
    let mut case = Case::new(alloc, walker, plan, Form::Given)?;
    case.listed = list_by_chance(alloc, plan)?;
    outcome(alloc, &case)
}

// Long profiles of each family but the last two, with lists of each form: at the limits, from vertex 1 and from another; then with a vertex
// or an edge too many.
pub(crate) fn long_case(alloc: Global, walker: Walker, i: u16) -> Result<Outcome, AllocError> {
    let family = i % 8;
    let number = i / 8;
    let seed = Seed {
        family: Family::nth(family),
        number,
    };
    let plan = Plan {
        seed,
        vertices: if number == 6 { 1001 } else { 1000 },
        edges: if number == 7 { 4001 } else { 4000 },
        start: seed.draw_from_one(START, if number % 2 == 1 { 1000 } else { 1 }),
    };
    let form = Form::nth((family + number % 8) % 8);
    let case = Case::new(alloc, walker, plan, form)?;
    outcome(alloc, &case)
}

// Damaged images and array forms: a link and a tail. Those that are taken are as they were.
pub(crate) fn damaged_case(alloc: Global, walker: Walker, i: u16) -> Result<Outcome, AllocError> {
    let seed = Seed {
        family: Family::Chance,
        number: i,
    };
    let mut case = Case::new(alloc, walker, small(seed), form(seed))?;
    damage_links(&mut case, seed);
    lessen(&mut case, seed);
    outcome(alloc, &case)
}

// The example with all but the start listed, and every set of faults, in five ways: the nine lower bits say the faults, the others the way.
pub(crate) fn refused_case(alloc: Global, walker: Walker, i: u16) -> Result<Outcome, AllocError> {
    let mut case = Case::new(alloc, walker, EXAMPLE, Form::Others)?;
    let mut bits = i;
    for fault in Fault::ALL {
        if bits % 2 == 1 {
            fault.put_into(&mut case, i / 512);
        }
        bits /= 2;
    }
    outcome(alloc, &case)
}
