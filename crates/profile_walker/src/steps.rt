// The folded depth-first search: opened, stepped, run and rolled back, its state in nine lent words.
ghost use Rattle.std.specs.Prelude.{◌≡◌, List, ℕ};
ghost use Rattle.lists.specs.Words.{overlay};
ghost use Rattle.graphs.specs.Refusals.{unless_refused};
ghost use Rattle.folding.specs.Calls.{run_for, single, roll_back, opened_at, open_reply};
ghost use Rattle.images.specs.Checking.{image};
ghost use Rattle.state_words.specs.Handed.{config_words, open_number_in, served_in, handing, handed};

// `state_words::open_in_words`.
#[unsafe(no_mangle)]
pub extern "C" fn profile_walker_open(
    n: u16,
    m: u16,
    start: u16,
    after: &[u16],
    tail: &[u16],
    before: &[u16],
    marks: &mut [u16],
    events: &mut [u16],
    state: &mut [u16],
) -> u16
    ensures number { result ≡ open_number_in (image n m after.now tail.now) before.now start marks.old events.old state.old }
    ensures state { state.new ≡ unless_refused result (overlay (config_words (opened_at (image n m after.now tail.now) before.now start marks.old)) state.old) state.old }
    ensures marks { marks.new ≡ unless_refused result (opened_at (image n m after.now tail.now) before.now start marks.old).marks marks.old }
    ensures events { events.new ≡ unless_refused result (open_reply (image n m after.now tail.now) before.now start marks.old events.old).area events.old }
{
    state_words::open_in_words(n, m, start, after, tail, before, marks, events, state)
}

// `state_words::step_in_words`.
#[unsafe(no_mangle)]
pub extern "C" fn profile_walker_step(
    state: &mut [u16],
    after: &mut [u16],
    tail: &mut [u16],
    marks: &mut [u16],
    events: &mut [u16],
    steps: &mut u32,
    made: &mut usize,
    reason: &mut u16,
) -> u16
    ensures { handing result steps.new made.new reason.new state.new after.new tail.new marks.new events.new ≡ handed (served_in state.old after.old tail.old marks.old (single events.old)) steps.old made.old reason.old state.old }
{
    state_words::step_in_words(state, after, tail, marks, events, steps, made, reason)
}

// `state_words::run_in_words`.
#[unsafe(no_mangle)]
pub extern "C" fn profile_walker_run(
    state: &mut [u16],
    budget: u32,
    after: &mut [u16],
    tail: &mut [u16],
    marks: &mut [u16],
    events: &mut [u16],
    steps: &mut u32,
    made: &mut usize,
    reason: &mut u16,
) -> u16
    ensures { handing result steps.new made.new reason.new state.new after.new tail.new marks.new events.new ≡ handed (served_in state.old after.old tail.old marks.old (run_for budget events.old)) steps.old made.old reason.old state.old }
{
    state_words::run_in_words(
        state, budget, after, tail, marks, events, steps, made, reason,
    )
}

// `state_words::roll_back_in_words`.
#[unsafe(no_mangle)]
pub extern "C" fn profile_walker_roll_back(state: &mut [u16]) -> u16
    ensures number { (after tail marks : List ℕ) → result ≡ (handed (served_in state.old after tail marks roll_back) 0 0 0 state.old).number }
    ensures state { (after tail marks : List ℕ) → state.new ≡ (handed (served_in state.old after tail marks roll_back) 0 0 0 state.old).state }
{
    state_words::roll_back_in_words(state)
}
