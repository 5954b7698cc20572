// The array form judged and asked a second way: each position is asked whether it is of the vertex.
use crate::areas::{SPAN, of_node, part, store};
use crate::calls::{check_query, edges_out};
use crate::chance::draw;
use crate::drawn::{damage, damaged_place, draw_length, draw_sizes, other_seed, other_sizes};
use crate::image::{Sizes, are_vertices};
use crate::listing::{draw_listing, first_positions, ordered_tails};
use crate::tally::{Group, Outcome};
use std::alloc::{AllocError, Global};

// The areas of an array form. What is drawn is written over what was there.
#[derive(Drop)]
pub(crate) struct ArrayForm {
    pub(crate) firsts: Vec<u16>,
    pub(crate) tails: Vec<u16>,
}

impl ArrayForm {
    // Areas of zeros.
    pub(crate) fn new(alloc: Global) -> Result<ArrayForm, AllocError> {
        let firsts = vec![in alloc; 0u16; SPAN]?;
        let tails = vec![in alloc; 0u16; SPAN]?;
        Ok(ArrayForm { firsts, tails })
    }

    // Draws a sound array form.
    pub(crate) fn draw(
        &mut self,
        alloc: Global,
        seed: u16,
        sizes: Sizes,
    ) -> Result<(), AllocError> {
        let listing = draw_listing(alloc, seed, sizes.n, sizes.m, 64)?;
        let firsts = first_positions(alloc, sizes.n, &listing)?;
        let tails = ordered_tails(alloc, &listing)?;
        store(&mut self.firsts, 0, &firsts);
        store(&mut self.tails, 0, &tails);
        Ok(())
    }

    // Draws an array form and damages it, the first positions and the tails once.
    fn draw_damaged(&mut self, alloc: Global, seed: u16) -> Result<(), AllocError> {
        let sizes = draw_sizes(seed);
        self.draw(alloc, seed, sizes)?;
        let past = sizes.n.wrapping_add(1);
        let one = other_seed(seed, 1);
        let end = damaged_place(one, past);
        damage(&mut self.firsts, one, past, sizes.m.wrapping_add(2), end);
        let other = other_seed(seed, 2);
        let end = damaged_place(other, sizes.m);
        damage(&mut self.tails, other, sizes.m, past, end);
        Ok(())
    }
}

// A query of an array form: the sizes, the lengths that the areas are lent at, and the vertex.
#[derive(Clone, Copy)]
pub(crate) struct Query {
    pub(crate) sizes: Sizes,
    pub(crate) firsts: usize,
    pub(crate) tails: usize,
    pub(crate) u: u16,
}

// Whether the first positions keep their rule: 1 is the first, one past the edges the last, and none is less than one before it.
fn are_in_rule(sizes: Sizes, firsts: &[u16]) -> bool {
    let n = usize::from(sizes.n);
    let last = firsts.get(n).copied().unwrap_or(0);
    if firsts.first() != Some(&1) || u32::from(last) != u32::from(sizes.m) + 1 {
        return false;
    }
    let mut pairs = firsts.iter().zip(firsts.iter().skip(1)).take(n);
    pairs.all(|(position, next)| position <= next)
}

impl Query {
    // A query by chance: mostly of one of the n vertices, at times of the one past them or of 0.
    fn draw(seed: u16, sizes: Sizes) -> Query {
        let n = usize::from(sizes.n);
        Query {
            sizes,
            firsts: draw_length(seed, 17, n + 1),
            tails: draw_length(seed, 18, usize::from(sizes.m)),
            u: draw_u(seed, sizes.n),
        }
    }

    // The number of a query that is refused.
    fn judge(self, firsts: &[u16], tails: &[u16]) -> Result<(), u16> {
        self.sizes.judged()?;
        if firsts.len() <= usize::from(self.sizes.n) || tails.len() < usize::from(self.sizes.m) {
            return Err(3);
        }
        if !self.sizes.has_vertex(self.u) {
            return Err(4);
        }
        if !are_in_rule(self.sizes, firsts) {
            return Err(5);
        }
        if !are_vertices(self.sizes, tails) {
            return Err(6);
        }
        Ok(())
    }

    // The tails of the positions of the vertex.
    fn tails_out(
        self,
        alloc: Global,
        firsts: &[u16],
        tails: &[u16],
    ) -> Result<Vec<u16>, AllocError> {
        let first = of_node(firsts, self.u);
        let past = firsts.get(usize::from(self.u)).copied().unwrap_or(0);
        (1..=self.sizes.m)
            .zip(tails)
            .filter(|(position, _)| first <= *position && *position < past)
            .map(|(_, tail)| *tail)
            .collect(alloc)
    }

    // Whether the part that is given is not the one that is wanted.
    pub(crate) fn part_differs(self, form: &ArrayForm, wanted: &[u16]) -> bool {
        let given = edges_out(
            self.sizes.n,
            self.sizes.m,
            part(&form.firsts, self.firsts),
            part(&form.tails, self.tails),
            self.u,
        );
        given != wanted
    }

    // The case of a query: its number and its part against the second. One that is refused has no position.
    pub(crate) fn asked(self, alloc: Global, form: &ArrayForm) -> Result<Outcome, AllocError> {
        let firsts = part(&form.firsts, self.firsts);
        let tails = part(&form.tails, self.tails);
        let first = check_query(self.sizes.n, self.sizes.m, firsts, tails, self.u);
        let second = self.judge(firsts, tails);
        let wanted = match second {
            Ok(()) => self.tails_out(alloc, firsts, tails)?,
            Err(_) => Vec::new(alloc),
        };
        Ok(Outcome::of(first, second).also(self.part_differs(form, &wanted)))
    }
}

// A vertex by chance: 0, one of the n vertices, or the one past them.
fn draw_u(seed: u16, n: u16) -> u16 {
    draw(seed, 19, n.wrapping_add(2))
}

// Sound array forms.
pub(crate) fn sound_cases(group: &mut Group) -> Result<(), AllocError> {
    let alloc = group.alloc;
    let mut form = ArrayForm::new(alloc)?;
    group.add_each(0..=1999u16, |seed| {
        let sizes = draw_sizes(seed);
        form.draw(alloc, seed, sizes)?;
        Query::draw(seed, sizes).asked(alloc, &form)
    })
}

// Damaged array forms.
pub(crate) fn damaged_cases(group: &mut Group) -> Result<(), AllocError> {
    let alloc = group.alloc;
    let mut form = ArrayForm::new(alloc)?;
    group.add_each(0..=3999u16, |seed| {
        form.draw_damaged(alloc, seed)?;
        Query::draw(seed, other_sizes(seed)).asked(alloc, &form)
    })
}
