// The five whole-run walkers as a controller calls them: the start is a word, the answer a number, and the tally of a walk is stored in seven
// lent words. Each takes any input at all: fewer than seven words are one short area more.
// Answers are numbers: `profile_walker` hands them to C as they are.
// Five calls and not one: each promise names its own areas; what they share is `hand_over`.
#![tactic(auto)]

ghost use Rattle.std.specs.Prelude.{◌≡◌, [], ◌∷◌, ◌≤◌, length};
ghost use Rattle.lists.specs.Words.{overlay};
ghost use Rattle.graphs.specs.ArrayForm.{array_graph};
ghost use Rattle.graphs.specs.Image.{graph_of};
ghost use Rattle.graphs.specs.Refusals.{lent, unless_refused};
ghost use Rattle.graphs.specs.Results.{parent_left, queue_left, increment_left};
ghost use Rattle.refusals.specs.Numbers.{number_in};
ghost use Rattle.images.specs.Checking.{image};
ghost use Rattle.arrays.specs.Arrays.{array_in};
ghost use Rattle.walks.specs.Promises.{walked_of, depth_walk, breadth_walk, array_walk};
ghost use Rattle.tally_words.specs.Tallied.{DepthTallied, BreadthTallied, ArrayTallied};

use arrays::ArrayForm;
use images::{Image, Vertex};
use refusals::{Refusal, number};
use walkers::{bfs_folded, bfs_queue, dfs_array, dfs_parent, dfs_recursive};
use walks::{check_array_walk, check_walk};

// Hands a tally over in seven words; of a walk that is refused its number.
fn hand_over(walk: Result<[u32; 7], Refusal>, words: &mut [u32]) -> u16
    requires { 7 ≤ length words.old }
    ensures number { result ≡ number_in walk }
    ensures words { words.new ≡ unless_refused result (overlay (walked_of walk).tally words.old) words.old }
{
    match walk {
        Ok(tally) => {
            words[..7].copy_from_slice(&tally);
            0
        }
        Err(refusal) => refusal.number(),
    }
}

// `walkers::dfs_recursive`.
pub fn dfs_recursive_in_words(
    n: u16,
    m: u16,
    start: u16,
    after: &[u16],
    tail: &[u16],
    before: &[u16],
    marks: &mut [u16],
    events: &mut [u16],
    counts: &mut [u32],
) -> u16
    ensures walk { DepthTallied (image n m after.now tail.now) before.now start []
        marks.old events.old counts.old result counts.new marks.new events.new }
{
    let g = Image { n, m, after, tail };
    if counts.len() < 7 {
        return number(check_walk(&g, before, Vertex(start), marks, events, false));
    }
    let w = dfs_recursive(&g, before, Vertex(start), marks, events);
    hand_over(w, counts)
}

// `walkers::dfs_parent`.
pub fn dfs_parent_in_words(
    n: u16,
    m: u16,
    start: u16,
    after: &[u16],
    tail: &[u16],
    before: &[u16],
    marks: &mut [u16],
    parents: &mut [u16],
    events: &mut [u16],
    counts: &mut [u32],
) -> u16
    ensures walk { DepthTallied (image n m after.now tail.now) before.now start (lent n parents.old ∷ [])
        marks.old events.old counts.old result counts.new marks.new events.new }
    ensures parents { parents.new ≡ unless_refused result
        (parent_left (graph_of (image n m after.now tail.now)) (depth_walk (image n m after.now tail.now) before.now start) parents.old) parents.old }
{
    let g = Image { n, m, after, tail };
    if counts.len() < 7 {
        return number(check_walk(&g, before, Vertex(start), marks, events, false));
    }
    let w = dfs_parent(&g, before, Vertex(start), marks, parents, events);
    hand_over(w, counts)
}

// `walkers::dfs_array`.
pub fn dfs_array_in_words(
    n: u16,
    m: u16,
    start: u16,
    firsts: &[u16],
    tails: &mut [u16],
    before: &[u16],
    marks: &mut [u16],
    increments: &mut [u16],
    events: &mut [u16],
    counts: &mut [u32],
) -> u16
    ensures walk { ArrayTallied (array_in n m firsts.now tails.old) before.now start
        marks.old increments.old events.old counts.old result counts.new marks.new events.new }
    ensures tails { tails.new ≡ tails.old }
    ensures increments { increments.new ≡ unless_refused result
        (increment_left (array_graph (array_in n m firsts.now tails.old)) (array_walk (array_in n m firsts.now tails.old) before.now start) increments.old) increments.old }
{
    if counts.len() < 7 {
        let a = ArrayForm {
            n,
            m,
            firsts: &firsts[..0],
            tails: &*tails,
        };
        return number(check_array_walk(&a, before, Vertex(start), marks, increments, events));
    }
    let w = dfs_array(
        n,
        m,
        firsts,
        tails,
        before,
        Vertex(start),
        marks,
        increments,
        events,
    );
    hand_over(w, counts)
}

// `walkers::bfs_queue`.
pub fn bfs_queue_in_words(
    n: u16,
    m: u16,
    start: u16,
    after: &[u16],
    tail: &[u16],
    before: &[u16],
    marks: &mut [u16],
    queue: &mut [u16],
    events: &mut [u16],
    counts: &mut [u32],
) -> u16
    ensures walk { BreadthTallied (image n m after.now tail.now) before.now start (lent n queue.old ∷ [])
        marks.old events.old counts.old result counts.new marks.new events.new }
    ensures queue { queue.new ≡ unless_refused result
        (queue_left n (breadth_walk (image n m after.now tail.now) before.now start) queue.old) queue.old }
{
    let g = Image { n, m, after, tail };
    if counts.len() < 7 {
        return number(check_walk(&g, before, Vertex(start), marks, events, false));
    }
    let w = bfs_queue(&g, before, Vertex(start), marks, queue, events);
    hand_over(w, counts)
}

// `walkers::bfs_folded`.
pub fn bfs_folded_in_words(
    n: u16,
    m: u16,
    start: u16,
    after: &mut [u16],
    tail: &[u16],
    before: &[u16],
    marks: &mut [u16],
    events: &mut [u16],
    counts: &mut [u32],
) -> u16
    ensures walk { BreadthTallied (image n m after.old tail.now) before.now start []
        marks.old events.old counts.old result counts.new marks.new events.new }
    ensures after { after.new ≡ after.old }
{
    if counts.len() < 7 {
        let g = Image {
            n,
            m,
            after: &*after,
            tail,
        };
        return number(check_walk(&g, before, Vertex(start), marks, events, false));
    }
    let w = bfs_folded(n, m, after, tail, before, Vertex(start), marks, events);
    hand_over(w, counts)
}
