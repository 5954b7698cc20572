// The second implementation of a step: document 01's moves word for word, with their stores in its order. A word is tested as it is taken,
// and all that a move has stored is put back where one is out of kind.
use crate::areas::{Area, put_of, word_of};
use crate::events::{Event, Kind};
use crate::second::{Fault, Second};
use crate::state::{ENDED, ROLLING_BACK, SCANNING, TURNING, WITHDRAWN};
use crate::tally::count;
use std::alloc::AllocError;
use std::mem;

// What the mark of a vertex is more than its number from its label up to its scan.
pub(crate) const UNSCANNED: u16 = 32768;

// The mark of an element already on the blank.
pub(crate) const ON_BLANK: u16 = 65535;

// A word is out of kind.
const OUT_OF_KIND: Fault = Fault::Refused(8);

// What was there before a store.
#[derive(Clone, Copy)]
pub(crate) struct Stored {
    area: Area,
    place: u16,
    word: u16,
}

impl Second {
    // The part of an area that steps store into.
    fn area_mut(&mut self, area: Area) -> &mut Vec<u16> {
        match area {
            Area::After => &mut self.links.after,
            Area::Tail => &mut self.links.tail,
            _ => &mut self.marks,
        }
    }

    // Stores the word at a place, counted from 1, and notes what was there.
    fn keep(&mut self, area: Area, place: u16, w: u16) -> Result<(), AllocError> {
        let words = self.area_mut(area);
        let word = word_of(words, place);
        put_of(words, place, w);
        self.stored.push(Stored { area, place, word })?;
        Ok(())
    }

    // Stores the word after node x.
    fn set_after(&mut self, x: u16, w: u16) -> Result<(), AllocError> {
        self.keep(Area::After, x, w)
    }

    // Stores the tail word of edge e.
    fn set_tail(&mut self, e: u16, w: u16) -> Result<(), AllocError> {
        self.keep(Area::Tail, e.saturating_sub(self.state.n), w)
    }

    // Stores the mark of vertex x.
    fn set_mark(&mut self, x: u16, w: u16) -> Result<(), AllocError> {
        self.keep(Area::Marks, x, w)
    }

    // The word after node x.
    fn after(&self, x: u16) -> u16 {
        word_of(&self.links.after, x)
    }

    // The tail word of edge e.
    fn tail(&self, e: u16) -> u16 {
        word_of(&self.links.tail, e.saturating_sub(self.state.n))
    }

    // Tells an event.
    pub(crate) fn emit(&mut self, kind: Kind, edge: u16, vertex: u16) -> Result<(), AllocError> {
        self.events.push(Event { kind, edge, vertex })?;
        Ok(())
    }

    // e becomes a(x): whether it may.
    fn take_e(&mut self, x: u16) -> Result<(), Fault> {
        let w = self.after(x);
        self.state.e = w;
        if w == 0 || self.state.is_edge(w) {
            Ok(())
        } else {
            Err(OUT_OF_KIND)
        }
    }

    // f becomes this word: whether it may.
    fn take_f(&mut self, w: u16) -> Result<(), Fault> {
        self.state.f = w;
        if w <= self.state.nodes() {
            Ok(())
        } else {
            Err(OUT_OF_KIND)
        }
    }

    // e, f, a(e) become a(e), e, f.
    fn pass(&mut self, e: u16) -> Result<(), Fault> {
        let f = self.state.f;
        let taken = self.take_e(e);
        self.state.f = e;
        self.set_after(e, f)?;
        taken
    }

    // a(v) becomes e; v, f, t(e) become x, v, f.
    fn enter(&mut self, v: u16, e: u16, x: u16) -> Result<(), AllocError> {
        self.set_after(v, e)?;
        self.set_tail(e, self.state.f)?;
        self.state.v = x;
        self.state.f = v;
        Ok(())
    }

    // Along e to x, which has no mark.
    fn advance(&mut self, v: u16, e: u16, x: u16) -> Result<(), Fault> {
        let k = self.state.next;
        if self.state.n < k {
            return Err(OUT_OF_KIND);
        }
        self.enter(v, e, x)?;
        self.set_mark(x, UNSCANNED.saturating_add(k))?;
        self.state.next = k.saturating_add(1);
        self.emit(Kind::Advance, e, v)?;
        self.emit(Kind::Label, 0, x)?;
        self.take_e(x)
    }

    // A step in phase 1 along e.
    fn walk(&mut self, v: u16, e: u16) -> Result<(), Fault> {
        let x = self.tail(e);
        if x == 0 || self.state.n < x {
            return Err(OUT_OF_KIND);
        }
        match word_of(&self.marks, x) {
            0 => return self.advance(v, e, x),
            ON_BLANK => count(&mut self.met.touched),
            UNSCANNED..=65534 => self.state.circular = 1,
            _ => {}
        }
        self.emit(Kind::Reach, e, v)?;
        self.emit(Kind::Return, e, v)?;
        self.pass(e)
    }

    // e, f, a(f) become f, a(f), e.
    fn turn(&mut self, f: u16) -> Result<(), Fault> {
        if self.state.phase == SCANNING {
            self.state.phase = TURNING;
        }
        let e = self.state.e;
        self.state.e = f;
        let taken = self.take_f(self.after(f));
        self.set_after(f, e)?;
        taken
    }

    // Leaves of the marks those of elements already on the blank.
    fn spare_marks(&mut self) {
        for mark in self.marks.iter_mut().take(usize::from(self.state.n)) {
            if *mark == ON_BLANK {
                count(&mut self.met.spared);
            } else {
                *mark = 0;
            }
        }
    }

    // A close with f 0.
    fn close_start(&mut self, v: u16) -> Result<(), Fault> {
        if v != self.state.start {
            return Err(OUT_OF_KIND);
        }
        if self.state.phase == ROLLING_BACK {
            self.state.phase = WITHDRAWN;
            self.spare_marks();
        } else {
            self.state.phase = ENDED;
        }
        Ok(())
    }

    // e becomes a(f); v, f, t(e) become f, t(e), v.
    fn climb(&mut self, v: u16, f: u16) -> Result<(), Fault> {
        let e = self.after(f);
        if !self.state.is_edge(e) {
            return Err(OUT_OF_KIND);
        }
        self.state.e = e;
        self.state.v = f;
        let taken = self.take_f(self.tail(e));
        self.set_tail(e, v)?;
        taken
    }

    // What of a close follows: the event of the retreat, and that e is passed.
    fn reopen(&mut self) -> Result<(), Fault> {
        let e = self.state.e;
        self.emit(Kind::Retreat, e, self.state.v)?;
        self.state.phase = SCANNING;
        self.pass(e)
    }

    // The scan of v is over.
    fn scan(&mut self, v: u16) -> Result<(), AllocError> {
        let mark = word_of(&self.marks, v);
        if mark == ON_BLANK {
            count(&mut self.met.scanned);
        }
        self.set_mark(v, mark % UNSCANNED)?;
        self.emit(Kind::Scan, 0, v)
    }

    // The way back from v, all of whose edges are traversed or withdrawn.
    fn close(&mut self, v: u16, f: u16) -> Result<(), Fault> {
        let is_rolling_back = self.state.phase == ROLLING_BACK;
        self.set_after(v, self.state.e)?;
        if !is_rolling_back {
            self.scan(v)?;
        }
        if f == 0 {
            return self.close_start(v);
        }
        self.climb(v, f)?;
        if is_rolling_back {
            return Ok(());
        }
        self.reopen()
    }

    // The move to come, where its words are in kind.
    fn move_on(&mut self) -> Result<(), Fault> {
        let v = self.state.v;
        let e = self.state.e;
        if self.state.phase == SCANNING && e != 0 {
            return self.walk(v, e);
        }
        let f = self.state.f;
        if self.state.is_edge(f) {
            return self.turn(f);
        }
        self.close(v, f)
    }

    // Puts back what was there before the stores of the last move.
    fn undo(&mut self) -> Result<(), AllocError> {
        let stored = mem::try_take(&mut self.stored)?;
        for s in stored.iter().rev() {
            put_of(self.area_mut(s.area), s.place, s.word);
        }
        Ok(())
    }

    // Makes the step to come, or nothing where a word is out of kind.
    pub(crate) fn step(&mut self) -> Result<(), Fault> {
        let state = self.state;
        let told = self.events.len();
        self.stored.clear();
        let made = self.move_on();
        if made.is_err() {
            self.undo()?;
            self.events.truncate(told);
            self.state = state;
        }
        made
    }
}
