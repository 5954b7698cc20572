// Scripts of calls, by chance and by rule.
use crate::chance::Chance;
use crate::second::Call;
use std::alloc::{AllocError, Global};

// The words of a call in a script: which, its budget, and how many event words it is lent. The first is a number since a script may have
// words that name no call.
#[derive(Clone, Copy)]
pub(crate) struct Line {
    code: u32,
    pub budget: u32,
    pub words: u32,
}

impl Line {
    // A call that is lent all event words that are left.
    pub(crate) fn of(call: Call) -> Line {
        let (code, budget) = match call {
            Call::Open => (0, 0),
            Call::Run(budget) => (1, budget),
            Call::Step => (2, 0),
            Call::RollBack => (3, 0),
        };
        Line {
            code,
            budget,
            words: u32::MAX,
        }
    }

    // The call that the words name.
    pub(crate) fn call(&self) -> Option<Call> {
        match self.code {
            1 => Some(Call::Run(self.budget)),
            2 => Some(Call::Step),
            3 => Some(Call::RollBack),
            _ => None,
        }
    }

    // The words as a script has them.
    pub(crate) fn as_words(&self) -> [u32; 3] {
        [self.code, self.budget, self.words]
    }

    // A call by chance, at three places: which, of twelve draws; its budget, of twenty draws, up to 7 or the greatest; and how many event
    // words it is lent, of eight draws.
    fn drawn(chance: Chance, place: u16) -> Line {
        let code = match chance.below(place, 12) {
            0 => 0,
            1..=6 => 1,
            7..=9 => 2,
            10 => 3,
            _ => 4,
        };
        let drawn = u32::from(chance.below(place.wrapping_add(1), 20));
        let need = drawn % 8 * 6;
        let words = match chance.below(place.wrapping_add(2), 8) {
            0 => need.saturating_sub(1),
            1 => need,
            2 => need + 5,
            3 => 6,
            _ => u32::MAX,
        };
        Line {
            code,
            budget: if drawn < 19 { drawn % 8 } else { u32::MAX },
            words,
        }
    }
}

// A script of calls by chance.
pub(crate) fn drawn_script(
    alloc: Global,
    chance: Chance,
    calls: u16,
) -> Result<Vec<Line>, AllocError> {
    let mut script = Vec::new(alloc);
    for i in 0..calls {
        script.push(Line::drawn(chance, i.wrapping_mul(3).wrapping_add(9500)))?;
    }
    Ok(script)
}

// A run and single steps after it, with a roll-back order at every third place, from place 1 on.
pub(crate) fn stepped_script(
    alloc: Global,
    budget: u32,
    calls: u16,
) -> Result<Vec<Line>, AllocError> {
    let mut script = Vec::new(alloc);
    script.push(Line::of(Call::Run(budget)))?;
    for i in 1..calls {
        let call = if i % 3 == 1 {
            Call::RollBack
        } else {
            Call::Step
        };
        script.push(Line::of(call))?;
    }
    Ok(script)
}
