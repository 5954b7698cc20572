// The roll-back order (document 01: winding order).
ghost use Rattle.std.specs.Prelude.{List, [], ℕ};
ghost use Rattle.folding.specs.Calls.{roll_back};
ghost use Rattle.states.specs.Answers.{config_of, told, CallPromise};

use crate::judge::{check_state, is_over};
use crate::values::{Phase, Reply, State};
use refusals::Refusal;

// Orders a search to be rolled back. It is lent no areas. Refused by 1, 2, 4, 8, 9.
pub fn roll_back(s: State) -> Result<Reply, Refusal>
    ensures { (after tail marks : List ℕ) → CallPromise (config_of s after tail marks) roll_back (told result (config_of s after tail marks) []) }
{
    check_state(s, true)?;
    if is_over(s) {
        return Err(Refusal::Over);
    }
    let state = State {
        phase: Phase::RollingBack as u16,
        ..s
    };
    Ok(Reply {
        why: None,
        steps: 0,
        events: 0,
        state,
    })
}
