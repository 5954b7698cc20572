// What is met in a case that a list of the elements already on the blank can bring.
use crate::areas::word_of;
use crate::blanks::Form;
use crate::case::Case;
use crate::profiles::Edge;
use crate::second::ON_BLANK;
use std::alloc::{AllocError, Global};

// A thing that is met.
#[derive(Clone, Copy, PartialEq, Eq)]
pub(crate) enum Thing {
    // In a walk with a list of some form, that form.
    Form(Form),
    // A reference to a listed vertex, a second one from the same vertex right behind it, and a loop on a listed vertex.
    Reference,
    Twice,
    Loop,
    // In a refused list: 0, a word past n, a word that is the one before it, one that is less, the start, and more words than n.
    Null,
    Past,
    Equal,
    Falling,
    Start,
    Longer,
}

impl Thing {
    // The things in the order in which they are printed.
    pub(crate) const ALL: [Thing; 16] = [
        Thing::Form(Form::Given),
        Thing::Form(Form::One),
        Thing::Form(Form::Few),
        Thing::Form(Form::Others),
        Thing::Form(Form::Neighbours),
        Thing::Form(Form::Last),
        Thing::Form(Form::Half),
        Thing::Reference,
        Thing::Twice,
        Thing::Loop,
        Thing::Null,
        Thing::Past,
        Thing::Equal,
        Thing::Falling,
        Thing::Start,
        Thing::Longer,
    ];
}

// Whether vertex x is on the list, by the marks that a walk leaves.
fn is_listed(marks: &[u16], x: u16) -> bool {
    word_of(marks, x) == ON_BLANK
}

// Whether the edge is met in the walk, and leads to a listed vertex.
fn is_reference(marks: &[u16], edge: &Edge) -> bool {
    let mark = word_of(marks, edge.from);
    mark != 0 && mark != ON_BLANK && is_listed(marks, edge.to)
}

// What is met in a walk that leaves these marks.
pub(crate) fn met_in_walk(
    alloc: Global,
    case: &Case,
    marks: &[u16],
) -> Result<Vec<Thing>, AllocError> {
    let mut met = Vec::new(alloc);
    if case.listed.is_empty() {
        return Ok(met);
    }
    met.push(Thing::Form(case.form))?;
    let edges = case.profile.sorted.as_slice();
    if edges.iter().any(|edge| is_reference(marks, edge)) {
        met.push(Thing::Reference)?;
    }
    let mut pairs = edges.iter().zip(edges.iter().skip(1));
    if pairs.any(|(a, b)| a.from == b.from && a.to == b.to && is_reference(marks, b)) {
        met.push(Thing::Twice)?;
    }
    if edges
        .iter()
        .any(|edge| edge.from == edge.to && is_listed(marks, edge.to))
    {
        met.push(Thing::Loop)?;
    }
    Ok(met)
}

// What is wrong with the word x of a list behind another, for n vertices.
fn wrong(n: u16, last: u16, x: u16) -> Option<Thing> {
    if x == 0 {
        Some(Thing::Null)
    } else if n < x {
        Some(Thing::Past)
    } else if x == last {
        Some(Thing::Equal)
    } else if x < last {
        Some(Thing::Falling)
    } else {
        None
    }
}

// What is wrong with a list that is refused.
pub(crate) fn met_in_list(alloc: Global, case: &Case) -> Result<Vec<Thing>, AllocError> {
    let mut met = Vec::new(alloc);
    let mut last = 0;
    for x in &case.listed {
        if let Some(thing) = wrong(case.vertices, last, *x) {
            met.push(thing)?;
        }
        last = *x;
    }
    if case.listed.contains(&case.start) {
        met.push(Thing::Start)?;
    }
    if usize::from(case.vertices) < case.listed.len() {
        met.push(Thing::Longer)?;
    }
    Ok(met)
}
