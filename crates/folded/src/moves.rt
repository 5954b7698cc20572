// The step to come.
ghost use Rattle.std.specs.Prelude.{◌≡◌, false};
ghost use Rattle.folding.specs.Machine.{step_of, forward};
ghost use Rattle.folded.specs.Steps.{Lent, Room, Same, Tries, held};

use crate::areas::Areas;
use crate::back::{finish, relink, retreat, undo_open, undo_tree};
use crate::forward::advance;
use crate::tried::Tried;
use states::{Phase, State};

// The step to come where it does not go forward.
// It is one of document 01's moves Turn, Close while winding and Close, tested in this order.
#[inline(always)]
fn go_back(s: State, areas: &mut Areas, made: usize) -> Option<Tried>
    requires { Lent s areas.old × (forward (held s areas.old) ≡ false) × Room made areas.old }
    ensures left { Tries s (step_of (held s areas.old)) made areas.old areas.new result }
    ensures same { Same areas.old areas.new }
{
    let f = s.f;
    if f > s.n {
        return relink(s, areas, made);
    }
    if s.phase == Phase::RollingBack as u16 {
        if f == 0 {
            return undo_open(s, areas, made);
        }
        return undo_tree(s, areas, made);
    }
    if f == 0 {
        return finish(s, areas, made);
    }
    retreat(s, areas, made)
}

// Makes the step to come, where the words that it reads are in kind.
#[inline(always)]
pub(crate) fn make(s: State, areas: &mut Areas, made: usize) -> Option<Tried>
    requires { Lent s areas.old × Room made areas.old }
    ensures left { Tries s (step_of (held s areas.old)) made areas.old areas.new result }
    ensures same { Same areas.old areas.new }
{
    if s.phase == Phase::Walking as u16 && s.e.0 != 0 {
        return advance(s, areas, made);
    }
    go_back(s, areas, made)
}
