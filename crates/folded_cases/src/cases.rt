// The cases of each group.
use crate::blanks::{ListKind, damage_list};
use crate::chance::Chance;
use crate::circles::has_circle;
use crate::compare::Case;
use crate::drawn::{damage, draw_state, draw_words, put_faults, shorten_one};
use crate::marks::note_marks;
use crate::profiles::{Family, Profile};
use crate::script::{Line, drawn_script, stepped_script};
use crate::second::Call;
use crate::state::{ENDED, WITHDRAWN};
use std::alloc::AllocError;

// A small profile of a seed: the example, one vertex and no edge, or by chance; of the rising family with edges enough to share vertices.
fn small_profile(chance: Chance) -> Profile {
    let (n, m, start) = match Family::of(chance.seed) {
        Family::Example => (3, 4, 1),
        _ if chance.seed % 1000 == 0 => (1, 0, 1),
        Family::Rising => (chance.below(9001, 4) + 3, chance.below(9002, 5) + 4, 1),
        _ => {
            let n = chance.up_to(9001, 6);
            (n, chance.below(9002, 9), chance.up_to(9003, n))
        }
    };
    Profile {
        n,
        m,
        start,
        chance,
    }
}

// Notes whether the search by a stack says something else of circles than the paths do, and counts where the elements already on the
// blank cut all of them.
fn note_circle(case: &mut Case, profile: &Profile) {
    let is_circular = has_circle(profile, &case.second.blank);
    let is_found = case.found.as_ref().is_some_and(|found| found.is_circular);
    case.note(is_circular != is_found);
    if is_circular != has_circle(profile, &[]) {
        case.tally.count_cut();
    }
}

// Begins a case with a small profile of each family in turn, whose circles are told twice: the profile.
fn begin_small(case: &mut Case, i: u16, seed: u16) -> Result<Profile, AllocError> {
    let chance = Chance {
        seed: i % 10 * 1000 + i / 10 % 1000,
    };
    let profile = small_profile(chance);
    case.begin(seed);
    case.make(profile, ListKind::drawn(chance))?;
    note_circle(case, &profile);
    Ok(profile)
}

// Makes a call, after which marks and the circular figure are to follow from the events so far.
fn make_call(case: &mut Case, call: Call) -> Result<(), AllocError> {
    case.compare(call)?;
    note_marks(case);
    Ok(())
}

// Makes the calls of a script, up to one that is refused since all is over. What names no call is a single step.
fn perform(case: &mut Case, script: &[Line]) -> Result<(), AllocError> {
    let whole = case.second.room;
    for line in script {
        if case.answer == Err(9) {
            break;
        }
        case.second.lend_events(whole, line.words);
        make_call(case, line.call().unwrap_or(Call::Step))?;
    }
    Ok(())
}

// Whether the links are as loaded, and the events so far the first of the whole list.
fn is_back(case: &Case) -> bool {
    case.second.links == case.loaded && is_listed(case)
}

// Whether the events so far are the first of the whole list.
fn is_listed(case: &Case) -> bool {
    match &case.found {
        Some(found) => found.events.starts_with(&case.second.events),
        None => false,
    }
}

// Whether all is as at the end of a search: all marks and events, and as many steps as events less one for each vertex.
fn is_ended(case: &Case) -> bool {
    match &case.found {
        Some(found) => {
            let steps = case.second.total as usize;
            case.second.marks.starts_with(&found.marks)
                && case.second.events == found.events
                && case.second.state.circular == u16::from(found.is_circular)
                && steps.saturating_add(usize::from(found.labels)) == found.events.len()
        }
        None => false,
    }
}

// Whether all is as at the end of a roll-back after a run with this budget: the marks of elements already on the blank, and at most half as
// many steps as there are events.
fn is_withdrawn(case: &Case, budget: u32) -> bool {
    let steps = case.second.total.saturating_sub(budget);
    let events = case.found.as_ref().map_or(0, |found| found.events.len());
    case.second.marks.starts_with(&case.second.blank) && steps as usize <= events / 2
}

// Makes the calls of a script whose first one is a run with this budget, after which the search has ended, and leaves what the recursive
// search does, or is withdrawn.
pub(crate) fn finish(case: &mut Case, budget: u32, script: &[Line]) -> Result<(), AllocError> {
    perform(case, script)?;
    let is_done = match case.second.state.phase {
        ENDED => is_ended(case) && case.is_recursive()?,
        WITHDRAWN => is_withdrawn(case, budget),
        _ => false,
    };
    let is_as_expected = is_done && is_back(case);
    case.note(!is_as_expected);
    Ok(())
}

// The example with every set of faults, in four ways.
pub(crate) fn faulty_case(case: &mut Case, i: u16) -> Result<(), AllocError> {
    let profile = Profile {
        n: 3,
        m: 4,
        start: 1,
        chance: Chance { seed: 9000 },
    };
    case.begin(i);
    case.make(profile, ListKind::Empty)?;
    put_faults(&mut case.second, i)?;
    case.compare(Call::Open)
}

// Damaged images.
pub(crate) fn damaged_case(case: &mut Case, i: u16) -> Result<(), AllocError> {
    begin_small(case, i, i)?;
    damage(&mut case.second, case.chance);
    shorten_one(&mut case.second, case.chance);
    case.compare(Call::Open)
}

// Damaged lists of elements already on the blank, now and then of a damaged image.
pub(crate) fn blanked_case(case: &mut Case, i: u16) -> Result<(), AllocError> {
    let chance = Chance { seed: i };
    let profile = begin_small(case, i, i)?;
    damage_list(&mut case.second.before, &Profile { chance, ..profile })?;
    if chance.below(9015, 8) == 0 {
        damage(&mut case.second, chance);
    }
    case.compare(Call::Open)
}

// Halted after some steps, and then to the end.
pub(crate) fn resumed_case(case: &mut Case, i: u16) -> Result<(), AllocError> {
    begin_small(case, i / 24, i)?;
    case.compare(Call::Open)?;
    let budget = u32::from(i % 24);
    let script = [Line::of(Call::Run(budget)), Line::of(Call::Run(23))];
    finish(case, budget, &script)
}

// Halted after some steps, and rolled back by single steps.
pub(crate) fn rolled_case(case: &mut Case, i: u16) -> Result<(), AllocError> {
    begin_small(case, i / 24, i)?;
    case.compare(Call::Open)?;
    let budget = u32::from(i % 24);
    let script = stepped_script(case.alloc, budget, 34)?;
    finish(case, budget, &script)
}

// A list of twelve calls by chance.
pub(crate) fn listed_case(case: &mut Case, i: u16) -> Result<(), AllocError> {
    begin_small(case, i, i)?;
    case.compare(Call::Open)?;
    shorten_one(&mut case.second, case.chance);
    let script = drawn_script(case.alloc, case.chance, 12)?;
    perform(case, &script)?;
    case.note(!is_listed(case));
    Ok(())
}

// Links, a state and three calls by chance.
pub(crate) fn hostile_case(case: &mut Case, i: u16) -> Result<(), AllocError> {
    case.begin(i);
    let chance = case.chance;
    case.second
        .size(chance.up_to(9001, 4), chance.below(9002, 5), 1);
    shorten_one(&mut case.second, chance);
    draw_words(&mut case.second, chance);
    draw_state(&mut case.second.state, chance);
    let script = drawn_script(case.alloc, chance, 3)?;
    perform(case, &script)
}

// Long cases: at the limits, from vertex 1 and from another in one run; with a vertex or an edge too many; in runs of 1,000 steps; rolled
// back after half of the steps.
#[derive(Clone, Copy, PartialEq, Eq)]
enum Long {
    Whole,
    FromAnother,
    VertexTooMany,
    EdgeTooMany,
    InParts,
    RolledBack,
}

impl Long {
    // The case of a number from 0 on, in turn.
    // A rest arm gives every number a case, where TryFrom would ask for an error.
    fn numbered(k: u16) -> Long {
        match k % 6 {
            0 => Long::Whole,
            1 => Long::FromAnother,
            2 => Long::VertexTooMany,
            3 => Long::EdgeTooMany,
            4 => Long::InParts,
            _ => Long::RolledBack,
        }
    }

    // The budget of its first run.
    fn budget(self) -> u32 {
        match self {
            Long::InParts => 1000,
            Long::RolledBack => 4500,
            Long::Whole | Long::FromAnother | Long::VertexTooMany | Long::EdgeTooMany => 9000,
        }
    }
}

// The profile of a long case.
fn long_profile(chance: Chance, long: Long) -> Profile {
    let (n, m, start) = match long {
        Long::FromAnother => (1000, 4000, chance.up_to(9003, 1000)),
        Long::VertexTooMany => (1001, 4000, 1),
        Long::EdgeTooMany => (1000, 4001, 1),
        Long::Whole | Long::InParts | Long::RolledBack => (1000, 4000, 1),
    };
    Profile {
        n,
        m,
        start,
        chance,
    }
}

// Long profiles of each family but the last, without a list of elements already on the blank, and with one.
pub(crate) fn long_case(case: &mut Case, i: u16) -> Result<(), AllocError> {
    let long = Long::numbered(i / 9);
    let chance = Chance {
        seed: i % 9 * 1000 + i / 9,
    };
    let kind = if i < 54 {
        ListKind::Empty
    } else {
        ListKind::drawn(chance)
    };
    case.begin(chance.seed);
    case.make(long_profile(chance, long), kind)?;
    case.compare(Call::Open)?;
    if case.answer.is_err() {
        return Ok(());
    }
    let mut script = [Line::of(Call::Run(1000)); 9];
    let budget = long.budget();
    script[0] = Line::of(Call::Run(budget));
    if long == Long::RolledBack {
        script[1] = Line::of(Call::RollBack);
    }
    finish(case, budget, &script)
}

// A script of up to 20 calls, and one or two words more.
pub(crate) fn script_case(case: &mut Case, i: u16) -> Result<(), AllocError> {
    begin_small(case, i, i)?;
    case.script = drawn_script(case.alloc, case.chance, 21)?;
    let words = case.chance.below(9004, 63);
    case.second.lengths.events = usize::from(case.chance.below(9005, 300));
    case.compare_replay(words)?;
    note_marks(case);
    Ok(())
}
