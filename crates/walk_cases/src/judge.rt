// The number with which a walk of a case is to be refused.
use crate::calls::check_links;
use crate::case::{Case, Lengths};

// Refuses a size that is out of range: 1 or 2.
pub(crate) fn size_verdict(n: u16, m: u16) -> Result<(), u16> {
    if n == 0 || 1000 < n {
        return Err(1);
    }
    if 4000 < m {
        return Err(2);
    }
    Ok(())
}

// Whether an area is lent shorter than stated.
fn is_any_short(case: &Case) -> bool {
    let least = Lengths::of(case.walker, case.vertices, case.edges, 0);
    case.links.len() < least.links
        || case.tails.len() < least.tails
        || case.marks < least.marks
        || case.own < least.own
        || case.events < least.events
}

// Refuses a list that the vertices from 1 to n, one after the other, do not use up, 17, or that the start is on, 18.
fn list_verdict(case: &Case) -> Result<(), u16> {
    let mut left = case.listed.as_slice();
    for x in 1..=case.vertices {
        if let Some((first, rest)) = left.split_first()
            && *first == x
        {
            left = rest;
        }
    }
    if !left.is_empty() {
        return Err(17);
    }
    if case.listed.contains(&case.start) {
        return Err(18);
    }
    Ok(())
}

// The number with which a walk of the case is to be refused, if it is.
pub(crate) fn verdict(case: &Case) -> Result<(), u16> {
    size_verdict(case.vertices, case.edges)?;
    if is_any_short(case) {
        return Err(3);
    }
    if case.start == 0 || case.vertices < case.start {
        return Err(4);
    }
    check_links(case)?;
    list_verdict(case)
}
