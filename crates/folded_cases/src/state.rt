// The state of a folded search in the second implementation, the bounds of its fields, and the numbers that they show where they are out
// of their bounds.

// What the words of a search's phase say. They are numbers, since states of any words are drawn: those from 7 on, and 0, are out of bounds.
pub(crate) const SCANNING: u16 = 1;

pub(crate) const TURNING: u16 = 2;

pub(crate) const ENDED: u16 = 3;

pub(crate) const ROLLING_BACK: u16 = 4;

pub(crate) const WITHDRAWN: u16 = 5;

pub(crate) const ACCEPTED: u16 = 6;

// A state of any words.
#[derive(Clone, Copy, PartialEq, Eq)]
pub(crate) struct State {
    pub n: u16,
    pub m: u16,
    pub start: u16,
    pub v: u16,
    pub e: u16,
    pub f: u16,
    pub phase: u16,
    pub next: u16,
    pub circular: u16,
}

#[derive(Clone, Copy, PartialEq, Eq)]
pub(crate) enum Field {
    V,
    E,
    F,
    Phase,
    Next,
    Circular,
    N,
    M,
    Start,
}

impl State {
    // The state of a profile before it is opened.
    pub(crate) fn unopened(n: u16, m: u16, start: u16) -> State {
        State {
            n,
            m,
            start,
            v: 0,
            e: 0,
            f: 0,
            phase: 0,
            next: 0,
            circular: 0,
        }
    }

    // How many nodes there are.
    pub(crate) fn nodes(&self) -> u16 {
        self.n.saturating_add(self.m)
    }

    // The word of a field.
    pub(crate) fn get(&self, field: Field) -> u16 {
        match field {
            Field::V => self.v,
            Field::E => self.e,
            Field::F => self.f,
            Field::Phase => self.phase,
            Field::Next => self.next,
            Field::Circular => self.circular,
            Field::N => self.n,
            Field::M => self.m,
            Field::Start => self.start,
        }
    }

    // Gives a field a word.
    pub(crate) fn set(&mut self, field: Field, w: u16) {
        match field {
            Field::V => self.v = w,
            Field::E => self.e = w,
            Field::F => self.f = w,
            Field::Phase => self.phase = w,
            Field::Next => self.next = w,
            Field::Circular => self.circular = w,
            Field::N => self.n = w,
            Field::M => self.m = w,
            Field::Start => self.start = w,
        }
    }

    // The least word of a field; of e, where it is not 0.
    pub(crate) fn least(&self, field: Field) -> u16 {
        match field {
            Field::M | Field::F | Field::Circular => 0,
            Field::E => self.n.saturating_add(1),
            Field::Next => 2,
            Field::N | Field::Start | Field::V | Field::Phase => 1,
        }
    }

    // The greatest word of a field.
    pub(crate) fn greatest(&self, field: Field) -> u16 {
        match field {
            Field::N => 1000,
            Field::M => 4000,
            Field::E | Field::F => self.nodes(),
            Field::Phase => 6,
            Field::Next => self.n.saturating_add(1),
            Field::Circular => 1,
            Field::Start | Field::V => self.n,
        }
    }

    // Whether a field is in its bounds.
    fn is_within(&self, field: Field) -> bool {
        let w = self.get(field);
        if field == Field::E && w == 0 {
            return true;
        }
        self.least(field) <= w && w <= self.greatest(field)
    }

    // The number where a field is out of its bounds.
    fn check(&self, field: Field, number: u16) -> Result<(), u16> {
        if self.is_within(field) {
            Ok(())
        } else {
            Err(number)
        }
    }

    // The number that the sizes, the lengths or the start show.
    pub(crate) fn check_sizes(&self, is_short: bool) -> Result<(), u16> {
        self.check(Field::N, 1)?;
        self.check(Field::M, 2)?;
        if is_short {
            return Err(3);
        }
        self.check(Field::Start, 4)
    }

    // The number that any field or the lengths show: the sizes and the start come before the others.
    pub(crate) fn check_all(&self, is_short: bool) -> Result<(), u16> {
        self.check_sizes(is_short)?;
        self.check(Field::V, 8)?;
        self.check(Field::E, 8)?;
        self.check(Field::F, 8)?;
        self.check(Field::Phase, 8)?;
        self.check(Field::Next, 8)?;
        self.check(Field::Circular, 8)
    }

    // Whether the search has ended, or is withdrawn or accepted.
    pub(crate) fn is_over(&self) -> bool {
        matches!(self.phase, ENDED | WITHDRAWN | ACCEPTED)
    }

    // Whether x is the number of an edge.
    pub(crate) fn is_edge(&self, x: u16) -> bool {
        self.n < x && x <= self.nodes()
    }
}
