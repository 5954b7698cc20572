// Numbers by chance, by the seed of a case.
ghost use Rattle.std.specs.Prelude.{◌<◌};

// The draws of a seed.
#[derive(Clone, Copy)]
pub(crate) struct Chance {
    pub seed: u16,
}

impl Chance {
    // The draw at a place: a number below the bound, and 0 where that is 0.
    pub(crate) fn below(self, place: u16, bound: u16) -> u16
        ensures { result < 32768 }
    {
        draws::draw(self.seed.into(), place.into(), bound)
    }

    // One more than the draw at a place: from 1 to the bound.
    pub(crate) fn up_to(self, place: u16, bound: u16) -> u16 {
        self.below(place, bound) + 1
    }
}
