// The five whole-run walkers: the tally of a walk is stored in seven lent words.
ghost use Rattle.std.specs.Prelude.{◌≡◌, [], ◌∷◌};
ghost use Rattle.graphs.specs.ArrayForm.{array_graph};
ghost use Rattle.graphs.specs.Image.{graph_of};
ghost use Rattle.graphs.specs.Refusals.{lent, unless_refused};
ghost use Rattle.graphs.specs.Results.{parent_left, queue_left, increment_left};
ghost use Rattle.images.specs.Checking.{image};
ghost use Rattle.arrays.specs.Arrays.{array_in};
ghost use Rattle.walks.specs.Promises.{depth_walk, breadth_walk, array_walk};
ghost use Rattle.tally_words.specs.Tallied.{DepthTallied, BreadthTallied, ArrayTallied};

// `tally_words::dfs_recursive_in_words`.
#[unsafe(no_mangle)]
pub extern "C" fn profile_walker_dfs_recursive(
    n: u16,
    m: u16,
    start: u16,
    after: &[u16],
    tail: &[u16],
    before: &[u16],
    marks: &mut [u16],
    events: &mut [u16],
    counts: &mut [u32],
) -> u16
    ensures walk { DepthTallied (image n m after.now tail.now) before.now start []
        marks.old events.old counts.old result counts.new marks.new events.new }
{
    tally_words::dfs_recursive_in_words(n, m, start, after, tail, before, marks, events, counts)
}

// `tally_words::dfs_parent_in_words`.
#[unsafe(no_mangle)]
pub extern "C" fn profile_walker_dfs_parent(
    n: u16,
    m: u16,
    start: u16,
    after: &[u16],
    tail: &[u16],
    before: &[u16],
    marks: &mut [u16],
    parents: &mut [u16],
    events: &mut [u16],
    counts: &mut [u32],
) -> u16
    ensures walk { DepthTallied (image n m after.now tail.now) before.now start (lent n parents.old ∷ [])
        marks.old events.old counts.old result counts.new marks.new events.new }
    ensures parents { parents.new ≡ unless_refused result
        (parent_left (graph_of (image n m after.now tail.now)) (depth_walk (image n m after.now tail.now) before.now start) parents.old) parents.old }
{
    tally_words::dfs_parent_in_words(
        n, m, start, after, tail, before, marks, parents, events, counts,
    )
}

// `tally_words::dfs_array_in_words`.
#[unsafe(no_mangle)]
pub extern "C" fn profile_walker_dfs_array(
    n: u16,
    m: u16,
    start: u16,
    firsts: &[u16],
    tails: &mut [u16],
    before: &[u16],
    marks: &mut [u16],
    increments: &mut [u16],
    events: &mut [u16],
    counts: &mut [u32],
) -> u16
    ensures walk { ArrayTallied (array_in n m firsts.now tails.old) before.now start
        marks.old increments.old events.old counts.old result counts.new marks.new events.new }
    ensures tails { tails.new ≡ tails.old }
    ensures increments { increments.new ≡ unless_refused result
        (increment_left (array_graph (array_in n m firsts.now tails.old)) (array_walk (array_in n m firsts.now tails.old) before.now start) increments.old) increments.old }
{
    tally_words::dfs_array_in_words(
        n, m, start, firsts, tails, before, marks, increments, events, counts,
    )
}

// `tally_words::bfs_queue_in_words`.
#[unsafe(no_mangle)]
pub extern "C" fn profile_walker_bfs_queue(
    n: u16,
    m: u16,
    start: u16,
    after: &[u16],
    tail: &[u16],
    before: &[u16],
    marks: &mut [u16],
    queue: &mut [u16],
    events: &mut [u16],
    counts: &mut [u32],
) -> u16
    ensures walk { BreadthTallied (image n m after.now tail.now) before.now start (lent n queue.old ∷ [])
        marks.old events.old counts.old result counts.new marks.new events.new }
    ensures queue { queue.new ≡ unless_refused result
        (queue_left n (breadth_walk (image n m after.now tail.now) before.now start) queue.old) queue.old }
{
    tally_words::bfs_queue_in_words(
        n, m, start, after, tail, before, marks, queue, events, counts,
    )
}

// `tally_words::bfs_folded_in_words`.
#[unsafe(no_mangle)]
pub extern "C" fn profile_walker_bfs_folded(
    n: u16,
    m: u16,
    start: u16,
    after: &mut [u16],
    tail: &[u16],
    before: &[u16],
    marks: &mut [u16],
    events: &mut [u16],
    counts: &mut [u32],
) -> u16
    ensures walk { BreadthTallied (image n m after.old tail.now) before.now start []
        marks.old events.old counts.old result counts.new marks.new events.new }
    ensures after { after.new ≡ after.old }
{
    tally_words::bfs_folded_in_words(n, m, start, after, tail, before, marks, events, counts)
}
