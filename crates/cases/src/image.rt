// Linked images judged a second way: no flags are kept.
use crate::areas::of_node;
use crate::calls::{check_image, tail_out};
use crate::tally::Outcome;

// The sizes of an image: how many vertices, and how many edges.
#[derive(Clone, Copy, PartialEq, Eq)]
pub(crate) struct Sizes {
    pub(crate) n: u16,
    pub(crate) m: u16,
}

impl Sizes {
    // How many nodes there are.
    pub(crate) fn nodes(self) -> usize {
        usize::from(self.n) + usize::from(self.m)
    }

    // Whether a word is a vertex.
    pub(crate) fn has_vertex(self, x: u16) -> bool {
        1 <= x && x <= self.n
    }

    // Whether a word is an edge.
    pub(crate) fn has_edge(self, x: u16) -> bool {
        self.n < x && usize::from(x) <= self.nodes()
    }

    // 1 or 2 where a size is out of range.
    pub(crate) fn judged(self) -> Result<(), u16> {
        if self.n == 0 || 1000 < self.n {
            return Err(1);
        }
        if 4000 < self.m {
            return Err(2);
        }
        Ok(())
    }
}

// Whether the chain of after words from an edge comes to 0 within `top` steps.
fn chain_ends(after: &[u16], top: u16, edge: u16) -> bool {
    let mut node = edge;
    for _ in 0..top {
        node = of_node(after, node);
        if node == 0 {
            return true;
        }
    }
    false
}

// Whether an edge is named by just one after word and is on no ring.
fn is_on_list(sizes: Sizes, after: &[u16], edge: u16) -> bool {
    let named = after
        .iter()
        .take(sizes.nodes())
        .filter(|word| **word == edge);
    named.count() == 1 && chain_ends(after, sizes.m, edge)
}

// Whether each edge is on a list.
fn are_on_lists(sizes: Sizes, after: &[u16]) -> bool {
    (1..=sizes.m).all(|k| is_on_list(sizes, after, sizes.n.wrapping_add(k)))
}

// Whether each after word is 0 or an edge.
fn are_links(sizes: Sizes, after: &[u16]) -> bool {
    let mut words = after.iter().take(sizes.nodes());
    words.all(|word| *word == 0 || sizes.has_edge(*word))
}

// Whether there are as many tails as edges, and each is a vertex.
pub(crate) fn are_vertices(sizes: Sizes, tail: &[u16]) -> bool {
    tail.get(..usize::from(sizes.m))
        .is_some_and(|words| words.iter().all(|word| sizes.has_vertex(*word)))
}

// The number of an image that is refused.
pub(crate) fn judge_image(sizes: Sizes, after: &[u16], tail: &[u16]) -> Result<(), u16> {
    sizes.judged()?;
    if after.len() < sizes.nodes() || tail.len() < usize::from(sizes.m) {
        return Err(3);
    }
    if !are_links(sizes, after) {
        return Err(5);
    }
    if !are_vertices(sizes, tail) {
        return Err(6);
    }
    if !are_on_lists(sizes, after) {
        return Err(7);
    }
    Ok(())
}

// The case of an image: the checker's answer against the second.
pub(crate) fn checked(sizes: Sizes, after: &[u16], tail: &[u16]) -> Outcome {
    Outcome::of(
        check_image(sizes.n, sizes.m, after, tail),
        judge_image(sizes, after, tail),
    )
}

// The case of tails: 6 is counted where one is told that is no vertex.
pub(crate) fn told_tails(sizes: Sizes, tail: &[u16]) -> Outcome {
    let out = tail_out(sizes.n, sizes.m, tail);
    Outcome {
        answer: if out { Err(6) } else { Ok(()) },
        differs: out == are_vertices(sizes, tail),
    }
}
