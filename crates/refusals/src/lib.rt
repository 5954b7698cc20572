// Why a call is refused: one name for each number of the table of refusals.
#![tactic(auto)]

ghost use Rattle.std.specs.Prelude.{◌≡◌};
ghost use Rattle.refusals.specs.Numbers.{number_of, number_in};

// The numbers 14 to 16 are not given.
#[derive(Clone, Copy, Debug, PartialEq, Eq)]
pub enum Refusal {
    // n is 0 or over 1,000.
    Vertices = 1,
    // m is over 4,000.
    Edges = 2,
    // A lent area is shorter than stated.
    Area = 3,
    // The start, or a queried vertex, is none.
    Vertex = 4,
    // An after word is neither null nor an edge; of an array form, a first position breaks its rule.
    Link = 5,
    // A tail is no vertex.
    Tail = 6,
    // An edge is not on exactly one list, once.
    List = 7,
    // A field of the state, or a word that the step reads, is out of kind.
    State = 8,
    // There is no step to come.
    Over = 9,
    // The search is not finished.
    Unfinished = 10,
    // The figure is at its limit.
    Figure = 11,
    // The text is not in form.
    Form = 12,
    // The text is over 65,536 bytes.
    Length = 13,
    // The list of elements already on the blank is not strictly rising, or leaves 1 to n.
    Blanks = 17,
    // The start is on that list.
    BlankStart = 18,
}

impl Refusal {
    // Its number in the table.
    pub fn number(self) -> u16
        ensures { result ≡ number_of self }
    {
        self as u16
    }
}

// The number of an answer: 0 where the call is taken.
pub fn number<T: Drop>(answer: Result<T, Refusal>) -> u16
    ensures { result ≡ number_in answer }
{
    match answer {
        Ok(_) => 0,
        Err(refusal) => refusal.number(),
    }
}
