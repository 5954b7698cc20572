// Why a call with a state is refused: 1, 2, 3 for all areas, 4, then 8 for the state's own fields.
ghost use Rattle.std.specs.Prelude.{◌≡◌, not, List, [], ℕ};
ghost use Rattle.graphs.specs.Refusals.{Lent, short};
ghost use Rattle.refusals.specs.Numbers.{number_in};
ghost use Rattle.folding.specs.Calls.{over, fields_in, state_number};
ghost use Rattle.states.specs.Answers.{config_of, counts_in};

use crate::values::{Phase, State};
use images::{check_sizes, is_link, is_vertex};
use refusals::Refusal;

// Whether there is no step to come: the search is finished, rolled back or accepted.
pub fn is_over(s: State) -> bool
    ensures { (after tail marks : List ℕ) → result ≡ over (config_of s after tail marks) }
{
    let p = s.phase;
    p == Phase::Finished as u16 || p == Phase::RolledBack as u16 || p == Phase::Accepted as u16
}

// Whether phase, next label and circular figure are in kind.
fn counts_in(s: State) -> bool
    ensures { result ≡ counts_in s }
{
    let p = s.phase;
    let k = s.next;
    let phased = p >= Phase::Walking as u16 && p <= Phase::Accepted as u16;
    phased && k >= 2 && k as usize <= s.n as usize + 1 && s.circular <= 1
}

// Whether every field is in kind.
#[tactic(auto, unfolding(folding::specs::Calls::fields_in))]
fn fields_in(s: State) -> bool
    ensures { (after tail marks : List ℕ) → result ≡ fields_in (config_of s after tail marks) }
{
    let trailer = s.f as usize <= s.n as usize + s.m as usize;
    is_vertex(s.n, s.v) && is_link(s.n, s.m, s.e) && trailer && counts_in(s)
}

// The tests before a call with a state; `long` where every area that it is lent is as long as stated.
pub fn check_state(s: State, long: bool) -> Result<(), Refusal>
    ensures { (after tail marks : List ℕ) (areas : List Lent) → long ≡ not (short areas) → number_in result ≡ state_number (config_of s after tail marks) areas [] }
{
    check_sizes(s.n, s.m)?;
    if !long {
        return Err(Refusal::Area);
    }
    if !is_vertex(s.n, s.start) {
        return Err(Refusal::Vertex);
    }
    if !fields_in(s) {
        return Err(Refusal::State);
    }
    Ok(())
}
