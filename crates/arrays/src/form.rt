// An array form in the areas that it is lent in.
ghost use Rattle.std.specs.Prelude.{◌≡◌, not};
ghost use Rattle.graphs.specs.Refusals.{short, array_areas};
ghost use Rattle.arrays.specs.Arrays.{form_of};

// n vertices and m edges, grouped by the vertex that they leave: the first position of each vertex and, past them, the last position
// and one; the vertex that the edge at each position leads to. Positions count from 1. All of them are untrusted.
#[derive(Clone, Copy)]
pub struct ArrayForm<'f, 't> {
    pub n: u16,
    pub m: u16,
    pub firsts: &'f [u16],
    pub tails: &'t [u16],
}

impl ArrayForm<'_, '_> {
    // Whether both areas are as long as stated.
    pub fn is_long(&self) -> bool
        ensures { result ≡ not (short (array_areas (form_of self.now))) }
    {
        self.firsts.len() > self.n as usize && self.tails.len() >= self.m as usize
    }
}
