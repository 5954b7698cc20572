// The calls that a script names.
ghost use Rattle.std.specs.Prelude.{◌≡◌, List, ℕ};
ghost use Rattle.scripts.specs.Script.{called_by, called};

// With the words that name them.
#[derive(Clone, Copy, Debug, PartialEq, Eq)]
pub enum Order {
    Run = 1,
    Step = 2,
    RollBack = 3,
}

// The call that a word names; any other word names none.
// An Option: any other word is no fault.
pub(crate) fn order_of(word: u32) -> Option<Order>
    ensures { (budget : ℕ) (area : List ℕ) → called_by word budget area ≡ called result budget area }
{
    match word {
        1 => Some(Order::Run),
        2 => Some(Order::Step),
        3 => Some(Order::RollBack),
        _ => None,
    }
}
