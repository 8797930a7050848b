//! The places of the last open rows, so that the next base is known without a search.
ghost use Rattle.std.specs.Prelude.{◌≡◌, ◌-◌, ◌<◌, ◌≤◌, true, [], ◌∷◌, length, MatchOption};

use rows::places::last_open;
use rows::{Lists, Row};

/// The places of the open rows below the base, innermost last, in a ring before `top`. What does not fit is forgotten, outermost first.
/// The ring is of fixed size, since reading may not run out of memory.
#[derive(Drop)]
pub struct Opens {
    pub cells: [usize; 4096],
    pub top: usize,
    pub count: usize,
    /// Nothing was forgotten.
    pub complete: bool,
    ghost size: { length cells ≡ 4096 },
    ghost below: { top < 4096 },
    ghost few: { count ≤ 4096 },
}

impl Opens {
    ghost use Rattle.rows.specs.Places.{Based};
    ghost use Rattle.reading.specs.Opens.{back, forth, items, Pushed, Chain, ChainAt};

    pub fn new() -> Opens
        ensures none { items result ≡ [] }
        ensures complete { result.complete ≡ true }
    {
        Opens {
            cells: [0; 4096],
            top: 0,
            count: 0,
            complete: true,
        }
    }

    /// The place in the ring before `top`.
    fn before(&self) -> usize
        ensures { result ≡ back self.now.top }
    {
        if self.top == 0 { 4095 } else { self.top - 1 }
    }

    /// The place in the ring after `top`.
    fn after(&self) -> usize
        ensures { result ≡ forth self.now.top }
    {
        if self.top == 4095 { 0 } else { self.top + 1 }
    }

    /// Empties it: no row is open.
    pub fn clear(&mut self)
        ensures none { items self.new ≡ [] }
        ensures complete { self.new.complete ≡ true }
        ensures start { (self.new.top ≡ 0) × (self.new.count ≡ 0) }
    {
        self.top = 0;
        self.count = 0;
        self.complete = true;
    }

    pub fn push(&mut self, i: usize)
        ensures { Pushed self.old self.new i }
    {
        self.cells[self.top] = i;
        self.top = self.after();
        if self.count < 4096 {
            self.count += 1;
        } else {
            self.complete = false;
        }
    }

    fn pop(&mut self) -> Option<usize>
        ensures complete { self.new.complete ≡ self.old.complete }
        ensures popped { MatchOption result ((self.old.count ≡ 0) × (self.new.count ≡ 0)) (λ i. items self.old ≡ i ∷ items self.new) }
    {
        if self.count == 0 {
            return None;
        }
        self.top = self.before();
        self.count -= 1;
        Some(self.cells[self.top])
    }

    /// Looks back over the first `end` rows for the open ones, as many as fit.
    fn refill(&mut self, rows: &[Row], end: usize)
        requires { end ≤ length rows.now }
        ensures chain { Chain rows.now end (items self.new) self.new.complete }
        ensures all { self.new.count ≡ 0 → self.new.complete ≡ true }
    {
        self.clear();
        let mut low = end;
        while self.count < 4096 {
            let Some(i) = last_open(rows, low) else {
                return;
            };
            self.cells[4095 - self.count] = i;
            self.count += 1;
            low = i;
        }
        self.complete = low == 0;
    }

    /// The base once the one at `i` is closed.
    pub fn next_base(&mut self, rows: &[Row], i: usize) -> Option<usize>
        requires within { i ≤ length rows.now }
        requires chain { Chain rows.now i (items self.old) self.old.complete }
        ensures based { Based rows.now i result }
        ensures chain { ChainAt rows.now result self.new }
    {
        if let Some(p) = self.pop() {
            return Some(p);
        }
        if self.complete {
            return None;
        }
        self.refill(rows, i);
        self.pop()
    }
}
