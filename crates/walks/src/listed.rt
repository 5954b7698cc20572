// A list of elements, as a caller lends one: whether it is in order, and whether an element is on it.
ghost use Rattle.std.specs.Prelude.{◌≡◌};
ghost use Rattle.lists.specs.Members.{memb};
ghost use Rattle.graphs.specs.Refusals.{rises};

// Whether the list is strictly rising, within 1 to n.
// In one pass, as `rises` goes.
pub fn rises(n: u16, list: &[u16]) -> bool
    ensures { result ≡ rises n 0 list.now }
{
    let mut last: u16 = 0;
    for x in list {
        if *x <= last {
            return false;
        }
        if *x > n {
            return false;
        }
        last = *x;
    }
    true
}

// Whether x is on the list.
pub fn is_listed(x: u16, list: &[u16]) -> bool
    ensures { result ≡ memb x list.now }
{
    list.contains(&x)
}
