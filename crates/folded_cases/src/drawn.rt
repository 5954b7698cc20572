// What is wrong with a case, and what is drawn by chance: faults of the example; links, marks and states.
use crate::areas::{Area, put_of};
use crate::blanks::fault_list;
use crate::chance::Chance;
use crate::moves::ON_BLANK;
use crate::second::Second;
use crate::state::{Field, State};
use std::alloc::AllocError;

// Faults of the example: a size, a length, the start, a link, a tail, a link that puts an edge on a second list or on a ring, the start on
// the list of elements already on the blank, and this list out of order.
#[derive(Clone, Copy)]
enum Fault {
    Vertices,
    Edges,
    Length,
    Start,
    Link,
    Tail,
    SecondLink,
    StartListed,
    LastListed,
}

impl Fault {
    const ALL: [Fault; 9] = [
        Fault::Vertices,
        Fault::Edges,
        Fault::Length,
        Fault::Start,
        Fault::Link,
        Fault::Tail,
        Fault::SecondLink,
        Fault::StartListed,
        Fault::LastListed,
    ];

    // Puts the fault into a case, in one of four ways. A way is a number: each fault has its own few.
    fn put_into(self, second: &mut Second, way: u16) -> Result<(), AllocError> {
        let is_odd = way % 2 == 1;
        match self {
            Fault::Vertices => second.state.n = if is_odd { 1001 } else { 0 },
            Fault::Edges => second.state.m = if is_odd { 65535 } else { 4001 },
            Fault::Length => second.lengths.shorten(Area::numbered(way), 4),
            Fault::Start => second.state.start = if is_odd { 4 } else { 0 },
            Fault::Link if is_odd => put_of(&mut second.links.after, 2, 8),
            Fault::Link => put_of(&mut second.links.after, 1, 2),
            Fault::Tail => put_of(
                &mut second.links.tail,
                way.saturating_add(1),
                if is_odd { 4 } else { 0 },
            ),
            Fault::SecondLink if is_odd => put_of(&mut second.links.after, 7, 7),
            Fault::SecondLink => put_of(&mut second.links.after, 3, 4),
            Fault::StartListed => second.before.push(1)?,
            Fault::LastListed => fault_list(&mut second.before, way)?,
        }
        Ok(())
    }
}

// Puts each of the nine faults whose bit is set, from the lowest on; the bits above the ninth say the way.
pub(crate) fn put_faults(second: &mut Second, bits: u16) -> Result<(), AllocError> {
    for fault in Fault::ALL {
        if bits >> fault as u16 & 1 == 1 {
            fault.put_into(second, bits / 512)?;
        }
    }
    Ok(())
}

// A word up to two more than there are nodes.
fn drawn_node(state: &State, chance: Chance, place: u16) -> u16 {
    chance.below(place, state.nodes().saturating_add(3))
}

// Damages an after or a tail word.
pub(crate) fn damage(second: &mut Second, chance: Chance) {
    let word = drawn_node(&second.state, chance, 9011);
    if chance.below(9009, 2) == 0 {
        let place = chance.up_to(9010, second.state.nodes());
        put_of(&mut second.links.after, place, word);
    } else {
        let place = chance.up_to(9010, second.state.m);
        put_of(&mut second.links.tail, place, word);
    }
}

// Lends an area by up to four words shorter: it is longer than stated, or as long, or in one of five cases too short.
pub(crate) fn shorten_one(second: &mut Second, chance: Chance) {
    let area = Area::numbered(chance.below(9012, 4));
    second.lengths.shorten(area, chance.below(9013, 5));
}

// A mark: half of them are 0; in one of eight cases all are those of elements already on the blank.
fn drawn_mark(chance: Chance, place: u16) -> u16 {
    if chance.below(9014, 8) == 0 {
        return ON_BLANK;
    }
    match chance.below(place, 16) {
        0..=7 => 0,
        8..=9 => 1,
        10 => 7,
        11 => 32767,
        12 => 32768,
        13 => 32769,
        14 => 65534,
        _ => 65535,
    }
}

// Draws an after, a tail and a mark word for each node.
pub(crate) fn draw_words(second: &mut Second, chance: Chance) {
    let state = second.state;
    for x in 1..=state.nodes() {
        let place = x.wrapping_sub(1).wrapping_mul(3);
        put_of(
            &mut second.links.after,
            x,
            drawn_node(&state, chance, place),
        );
        put_of(
            &mut second.links.tail,
            x,
            drawn_node(&state, chance, place.wrapping_add(1)),
        );
        put_of(
            &mut second.marks,
            x,
            drawn_mark(chance, place.wrapping_add(2)),
        );
    }
}

// The fields, each drawn at the places of its number.
const FIELDS: [Field; 9] = [
    Field::V,
    Field::E,
    Field::F,
    Field::Phase,
    Field::Next,
    Field::Circular,
    Field::N,
    Field::M,
    Field::Start,
];

// A field in its bounds. The sizes are as they are, and e is now and then 0.
fn fitting(state: &State, chance: Chance, field: Field) -> u16 {
    let low = state.least(field);
    let bound = state.greatest(field).saturating_sub(low).saturating_add(1);
    let place = (field as u16).wrapping_add(9300);
    let w = chance.below(place, bound).saturating_add(low);
    match field {
        Field::N | Field::M => state.get(field),
        Field::E if chance.below(9310, 3) == 0 => 0,
        _ => w,
    }
}

// Draws each field of a state, now and then next to its bounds.
pub(crate) fn draw_state(state: &mut State, chance: Chance) {
    for field in FIELDS {
        let place = (field as u16).wrapping_add(9400);
        let w = match chance.below(place, 48) {
            0 => state.greatest(field).saturating_add(1),
            1 => state.least(field).saturating_sub(1),
            _ => fitting(state, chance, field),
        };
        state.set(field, w);
    }
}
