// Lists of the elements already on the blank, made by a fixed rule: some that are taken, and words by chance.
use crate::areas::word;
use crate::chance::{BIT, LENGTH, LISTED, ONE, WORD};
use crate::profiles::{Plan, Profile};
use std::alloc::{AllocError, Global};

// Forms of lists: words that are given, one vertex, few, all, the start's neighbours, the last vertex, about half. The start is on none
// but the first.
#[derive(Clone, Copy, PartialEq, Eq)]
pub(crate) enum Form {
    Given,
    One,
    Few,
    Others,
    Neighbours,
    Last,
    Half,
}

impl Form {
    // The forms by eight numbers, of which two give an empty list.
    // A rest arm gives every number a form, where TryFrom would ask for an error.
    pub(crate) fn nth(k: u16) -> Form {
        match k {
            1 => Form::One,
            2 => Form::Few,
            3 => Form::Others,
            4 => Form::Neighbours,
            5 => Form::Last,
            6 => Form::Half,
            _ => Form::Given,
        }
    }

    // Whether a list of this form has vertex x on it, where that is not the start; `near` tells of each vertex whether it is a neighbour
    // of the start.
    fn has(self, plan: Plan, near: &[bool], x: u16) -> bool {
        let place = LISTED + u32::from(x);
        match self {
            Form::Given => false,
            Form::One => x == plan.seed.draw_from_one(ONE, plan.vertices),
            Form::Few => plan.seed.draw(place, 4) == 0,
            Form::Others => true,
            Form::Neighbours => near.get(usize::from(x)).copied().unwrap_or(false),
            Form::Last => x == plan.vertices,
            Form::Half => plan.seed.draw(place, 2) == 0,
        }
    }

    // The list of this form.
    pub(crate) fn list(
        self,
        alloc: Global,
        plan: Plan,
        profile: &Profile,
    ) -> Result<Vec<u16>, AllocError> {
        let near = profile.neighbours(alloc, plan.start)?;
        (1..=plan.vertices)
            .filter(|x| *x != plan.start && self.has(plan, &near, *x))
            .collect(alloc)
    }
}

// Word i of a list by chance: small words, any words, the vertices in order and backwards, the start over and over, words that rise or
// stay, from 0 and from 1, and words that rise.
fn word_by_chance(plan: Plan, i: u16) -> u16 {
    let seed = plan.seed;
    let at = u32::from(i);
    let bit = u32::from(seed.draw(BIT + at, 2) == 1);
    let any = match seed.code() % 8 {
        0 => u32::from(seed.draw(WORD + at, plan.vertices.saturating_add(2))),
        1 => u32::from(seed.draw(WORD + at, 32768)) * 2 + bit,
        2 => at + 1,
        3 => u32::from(plan.vertices.saturating_sub(i)),
        4 => u32::from(plan.start),
        5 => at + bit,
        6 => at + 1 + bit,
        _ => at * 2 + 1 + bit,
    };
    word(any as usize)
}

// A list of words by chance, up to three longer than there are vertices.
pub(crate) fn list_by_chance(alloc: Global, plan: Plan) -> Result<Vec<u16>, AllocError> {
    let top = plan.seed.draw(LENGTH, plan.vertices.saturating_add(4));
    (0..top).map(|i| word_by_chance(plan, i)).collect(alloc)
}
