// A linked image in the areas that it is lent in.
ghost use Rattle.std.specs.Prelude.{◌≡◌, ◌+◌, ◌≤◌, not};
ghost use Rattle.graphs.specs.Refusals.{short, image_areas};
ghost use Rattle.images.specs.Checking.{image_of};

// n vertices and m edges; the after word of each node, and the tail of each edge. All of them are untrusted.
// Lists are words of lent areas, as C lends them.
#[derive(Clone, Copy)]
pub struct Image<'a> {
    pub n: u16,
    pub m: u16,
    pub after: &'a [u16],
    pub tail: &'a [u16],
}

impl Image<'_> {
    // How many nodes it has: vertices and edges.
    pub fn nodes(&self) -> usize
        ensures count { result ≡ self.now.n + self.now.m }
        ensures few { result ≤ 131070 }
    {
        self.n as usize + self.m as usize
    }

    // Whether both areas are as long as stated.
    pub fn is_long(&self) -> bool
        ensures { result ≡ not (short (image_areas (image_of self.now))) }
    {
        self.after.len() >= self.nodes() && self.tail.len() >= self.m as usize
    }
}
