// The second implementation of the calls: the number of a call as the first field that is out of its bounds, and what the call does.
use crate::areas::{Lengths, Links, UNTOUCHED, put_first, put_of, word_of};
use crate::calls::check_image;
use crate::events::{Event, Kind};
use crate::moves::{ON_BLANK, Stored, UNSCANNED};
use crate::script::Line;
use crate::state::{ROLLING_BACK, SCANNING, State};
use std::alloc::{AllocError, AllocFailed, Global};

// The calls of the folded search; a run has a budget.
#[derive(Clone, Copy, PartialEq, Eq)]
pub(crate) enum Call {
    Open,
    Run(u32),
    Step,
    RollBack,
}

// What a call answers that is taken: for a run, why it stopped.
#[derive(Clone, Copy, PartialEq, Eq)]
pub(crate) enum Outcome {
    Taken,
    Ended,
    Spent,
    Stuck,
}

// What a call answers, or the number that it is refused with.
pub(crate) type Answer = Result<Outcome, u16>;

// The answer, the steps made, the number of events told, and the state.
#[derive(Clone, Copy, PartialEq, Eq)]
pub(crate) struct Reply {
    pub answer: Answer,
    pub steps: u32,
    pub events: usize,
    pub state: State,
}

// Why a call is not done: it is refused with a number, or no memory is left.
#[derive(Drop)]
pub(crate) enum Fault {
    Refused(u16),
    OutOfMemory(AllocError),
}

impl From<u16> for Fault {
    fn from(number: u16) -> Fault {
        Fault::Refused(number)
    }
}

impl From<AllocError> for Fault {
    fn from(e: AllocError) -> Fault {
        Fault::OutOfMemory(e)
    }
}

// How often an edge was met to a vertex marked 65,535; the end of a roll-back left such a mark; a scan took one.
#[derive(Clone, Copy, Default)]
pub(crate) struct Met {
    pub touched: u32,
    pub spared: u32,
    pub scanned: u32,
}

// The areas and the state of the second implementation, and what it keeps of its calls so far.
#[derive(Drop)]
pub(crate) struct Second {
    alloc: Global,
    // What the calls are lent, and of each area how much; of the area for events, how many words it has.
    pub links: Links,
    pub marks: Vec<u16>,
    pub lengths: Lengths,
    pub room: usize,
    // The list of the elements already on the blank, as lent; and the marks from before the start is labelled: 65,535 for these, else 0.
    pub before: Vec<u16>,
    pub blank: Vec<u16>,
    // The state, the events so far, the steps of the last call and of all.
    pub state: State,
    pub events: Vec<Event>,
    steps: u32,
    pub total: u32,
    pub stored: Vec<Stored>,
    pub met: Met,
}

impl Second {
    // Areas of this many words, those for events ten times as many.
    pub(crate) fn new(alloc: Global, room: u16) -> Result<Second, AllocError> {
        let words = usize::from(room);
        Ok(Second {
            alloc,
            links: Links::new(alloc, words)?,
            marks: vec![in alloc; 0; words]?,
            lengths: Lengths::default(),
            room: words * 10,
            before: Vec::new(alloc),
            blank: Vec::new(alloc),
            state: State::unopened(0, 0, 0),
            events: Vec::new(alloc),
            steps: 0,
            total: 0,
            stored: Vec::new(alloc),
            met: Met::default(),
        })
    }

    // Forgets the calls and the list of a case; the links and the marks stay.
    pub(crate) fn clear(&mut self) {
        self.before.clear();
        self.state = State::unopened(0, 0, 0);
        self.events.clear();
        self.total = 0;
    }

    // Sets the sizes and the start, and lends each area longer than an opening needs by three words.
    pub(crate) fn size(&mut self, n: u16, m: u16, start: u16) {
        self.state = State::unopened(n, m, start);
        let nodes = usize::from(self.state.nodes());
        self.lengths = Lengths {
            after: nodes + 3,
            tail: usize::from(m) + 3,
            marks: nodes + 3,
            events: 6,
        };
    }

    // Takes every edge off the lists.
    pub(crate) fn unlink(&mut self) {
        let top = usize::from(self.state.nodes()).min(self.links.after.len());
        self.links.after[..top].fill(0);
    }

    // Puts edge i, which leads to x, in front of the list of u.
    pub(crate) fn link(&mut self, i: u16, u: u16, x: u16) {
        let place = i.saturating_add(1);
        let e = place.saturating_add(self.state.n);
        let next = word_of(&self.links.after, u);
        put_of(&mut self.links.after, e, next);
        put_of(&mut self.links.after, u, e);
        put_of(&mut self.links.tail, place, x);
    }

    // Lends as many event words as are asked for, of those that are left of a whole.
    pub(crate) fn lend_events(&mut self, whole: usize, asked: u32) {
        let left = whole.saturating_sub(self.told_words());
        self.lengths.events = left.min(asked as usize);
    }

    // How many words the events so far are.
    pub(crate) fn told_words(&self) -> usize {
        self.events.len().saturating_mul(3)
    }

    // The area for events.
    pub(crate) fn event_words(&self) -> Result<Vec<u16>, AllocError> {
        let mut words = Vec::with_capacity(self.alloc, self.room)?;
        for event in self.events.iter() {
            words.extend_from_slice(&event.words())?;
        }
        words.resize(self.room, UNTOUCHED)?;
        Ok(words)
    }

    // Whether an area is lent shorter than the call states. A roll-back order is lent none.
    fn is_short(&self, call: Call) -> bool {
        let events = match call {
            Call::Open => 3,
            Call::Run(budget) => budget as usize * 6,
            Call::Step => 6,
            Call::RollBack => return false,
        };
        let nodes = usize::from(self.state.nodes());
        let lent = self.lengths;
        lent.after < nodes
            || lent.tail < usize::from(self.state.m)
            || lent.marks < nodes
            || lent.events < events
    }

    // The number that the fields and the lengths show; of an opening, the sizes and the start alone.
    fn check(&self, call: Call) -> Result<(), u16> {
        let is_short = self.is_short(call);
        if call == Call::Open {
            self.state.check_sizes(is_short)
        } else {
            self.state.check_all(is_short)
        }
    }

    // Crosses the vertices, from 1 to n, off the list of elements already on the blank, and marks them: whether all of the list is crossed
    // off. One that is not strictly rising, or leaves 1 to n, is not.
    pub(crate) fn cross_all(&mut self) -> Result<bool, AllocError> {
        self.blank.clear();
        self.blank.resize(usize::from(self.state.nodes()), 0)?;
        let mut rest = self.before.iter().copied().peekable();
        for (x, mark) in (1..=self.state.n).zip(self.blank.iter_mut()) {
            if rest.next_if_eq(&x).is_some() {
                *mark = ON_BLANK;
            }
        }
        Ok(rest.peek().is_none())
    }

    // The opening.
    fn open(&mut self) -> Result<Outcome, Fault> {
        let State { n, m, start, .. } = self.state;
        self.state = State::unopened(n, m, start);
        self.check(Call::Open)?;
        check_image(n, m, &self.links)?;
        if !self.cross_all()? {
            return Err(Fault::Refused(17));
        }
        if word_of(&self.blank, start) != 0 {
            return Err(Fault::Refused(18));
        }
        put_first(&mut self.marks, &self.blank);
        put_of(&mut self.marks, start, UNSCANNED + 1);
        self.emit(Kind::Label, 0, start)?;
        self.state.v = start;
        self.state.e = word_of(&self.links.after, start);
        self.state.phase = SCANNING;
        self.state.next = 2;
        Ok(Outcome::Taken)
    }

    // Steps until all is over, the budget is spent, or a word is out of kind.
    fn run(&mut self, budget: u32) -> Result<Outcome, Fault> {
        self.check(Call::Run(budget))?;
        for steps in 0..budget {
            self.steps = steps;
            if self.state.is_over() {
                return Ok(Outcome::Ended);
            }
            match self.step() {
                Ok(()) => {}
                Err(Fault::Refused(_)) => return Ok(Outcome::Stuck),
                Err(e) => return Err(e),
            }
        }
        self.steps = budget;
        Ok(if self.state.is_over() {
            Outcome::Ended
        } else {
            Outcome::Spent
        })
    }

    // Refuses a call where all is over.
    fn check_going(&self, call: Call) -> Result<(), Fault> {
        self.check(call)?;
        if self.state.is_over() {
            Err(Fault::Refused(9))
        } else {
            Ok(())
        }
    }

    // A single step.
    fn single(&mut self) -> Result<Outcome, Fault> {
        self.check_going(Call::Step)?;
        self.step()?;
        self.steps = 1;
        Ok(Outcome::Taken)
    }

    // The order to roll back.
    fn roll_back(&mut self) -> Result<Outcome, Fault> {
        self.check_going(Call::RollBack)?;
        self.state.phase = ROLLING_BACK;
        Ok(Outcome::Taken)
    }

    // What a call does, and answers.
    fn act(&mut self, call: Call) -> Result<Outcome, Fault> {
        match call {
            Call::Open => self.open(),
            Call::Run(budget) => self.run(budget),
            Call::Step => self.single(),
            Call::RollBack => self.roll_back(),
        }
    }

    // Serves a call.
    pub(crate) fn serve(&mut self, call: Call) -> Result<Reply, AllocError> {
        let told = self.events.len();
        self.steps = 0;
        let answer = match self.act(call) {
            Ok(outcome) => Ok(outcome),
            Err(Fault::Refused(number)) => Err(number),
            Err(Fault::OutOfMemory(e)) => return Err(e),
        };
        self.total = self.total.saturating_add(self.steps);
        Ok(Reply {
            answer,
            steps: self.steps,
            events: self.events.len().saturating_sub(told),
            state: self.state,
        })
    }

    // Opens, and serves the calls of a script: the last answer, and the steps and events of all calls.
    pub(crate) fn replay(&mut self, script: &[Line]) -> Result<Reply, AllocError> {
        let whole = self.lengths.events;
        let mut answer = self.serve(Call::Open)?.answer;
        if answer.is_ok() {
            for line in script {
                if let Some(call) = line.call() {
                    self.lend_events(whole, line.words);
                    answer = self.serve(call)?.answer;
                }
            }
        }
        Ok(Reply {
            answer,
            steps: self.total,
            events: self.events.len(),
            state: self.state,
        })
    }
}
