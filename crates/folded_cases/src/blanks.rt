// Lists of elements already on the blank: of several kinds, by chance, and damaged.
use crate::chance::Chance;
use crate::profiles::Profile;
use std::alloc::{AllocError, Global};
use std::collections::BTreeSet;

// Kinds of lists: empty; of one vertex; of about a third of them; of all; of those that an edge leads to from the start; of the last. None
// has the start.
#[derive(Clone, Copy, PartialEq, Eq)]
pub(crate) enum ListKind {
    Empty,
    One,
    Several,
    All,
    Near,
    Last,
}

impl ListKind {
    // A kind, of eight draws.
    // A rest arm gives every draw a kind, where TryFrom would ask for an error.
    pub(crate) fn drawn(chance: Chance) -> ListKind {
        match chance.below(9030, 8) {
            0 => ListKind::One,
            1 => ListKind::Several,
            2 => ListKind::All,
            3 => ListKind::Near,
            4 => ListKind::Last,
            _ => ListKind::Empty,
        }
    }
}

// Adds the vertices of a kind to a set.
fn pick(picked: &mut BTreeSet<u16>, kind: ListKind, profile: &Profile) -> Result<(), AllocError> {
    let Profile {
        n,
        m,
        start,
        chance,
    } = *profile;
    match kind {
        ListKind::Empty => {}
        ListKind::One => {
            picked.insert(chance.up_to(9031, n))?;
        }
        ListKind::Several => {
            for i in 0..n {
                if chance.below(i.wrapping_add(20000), 3) == 0 {
                    picked.insert(i.saturating_add(1))?;
                }
            }
        }
        ListKind::All => {
            for x in 1..=n {
                picked.insert(x)?;
            }
        }
        ListKind::Near => {
            for i in 0..m {
                if profile.from(i) == start {
                    picked.insert(profile.to(i))?;
                }
            }
        }
        ListKind::Last => {
            picked.insert(n)?;
        }
    }
    Ok(())
}

// The list of a kind.
pub(crate) fn list_of(
    alloc: Global,
    kind: ListKind,
    profile: &Profile,
) -> Result<Vec<u16>, AllocError> {
    let mut picked = BTreeSet::new(alloc);
    pick(&mut picked, kind, profile)?;
    let mut list = Vec::new(alloc);
    for x in picked.iter() {
        if *x != profile.start {
            list.push(*x)?;
        }
    }
    Ok(list)
}

// A word for a list of a profile: up to one more than there are vertices; now and then the start, or the greatest.
fn drawn_word(profile: &Profile, place: u16) -> u16 {
    let chance = profile.chance;
    match chance.below(place, 8) {
        0 => 65535,
        1 => profile.start,
        _ => chance.below(place.wrapping_add(100), profile.n.saturating_add(2)),
    }
}

// Adds words by chance to a list.
fn append_drawn(list: &mut Vec<u16>, profile: &Profile, words: u16) -> Result<(), AllocError> {
    for i in 0..words {
        list.push(drawn_word(profile, i.wrapping_add(9100)))?;
    }
    Ok(())
}

// Damages a list by the draws of a profile: another word, the start, a word or two more, or more than there are vertices. One in six stays
// as it is.
pub(crate) fn damage_list(list: &mut Vec<u16>, profile: &Profile) -> Result<(), AllocError> {
    match profile.chance.below(9040, 6) {
        0 => {
            let words = u16::try_from(list.len()).unwrap_or(0);
            let place = usize::from(profile.chance.below(9041, words));
            if let Some(word) = list.get_mut(place) {
                *word = drawn_word(profile, 9042);
            }
        }
        1 => {
            list.push(profile.start)?;
            list.sort_unstable();
        }
        2 => append_drawn(list, profile, 1)?,
        3 => append_drawn(list, profile, 2)?,
        4 => append_drawn(list, profile, profile.n.saturating_add(1))?,
        _ => {}
    }
    Ok(())
}

// Adds to a list, in one of four ways, a word or two, of which the last is out of order or leaves 1 to 3.
// A way is a number: each fault has its own few.
pub(crate) fn fault_list(list: &mut Vec<u16>, way: u16) -> Result<(), AllocError> {
    match way {
        0 => list.push(0)?,
        1 => list.push(4)?,
        2 => list.extend_from_slice(&[2, 2])?,
        _ => list.extend_from_slice(&[3, 2])?,
    }
    Ok(())
}
