//! The calls of the count leaf: each is one touch.
ghost use Rattle.std.specs.Prelude.{◌≡◌};
ghost use Rattle.cursor.specs.Rows.{window, numbers};
ghost use Rattle.cursor.specs.Calls.{Touched};
ghost use Rattle.cursor.specs.Closing.{closed_first, closed_after, closed_numbers};
ghost use Rattle.cursor.specs.Leaves.{count_row, count_home};

use super::CountLeaf;
use crate::shortfall::Shortfall;
use crate::span::{Span, touched};
use crate::{Cursor, Homing, TwoEnded};

impl CountLeaf {
    /// The numbers from lo up to hi - 1.
    // Clauses and no invariants say how a fresh leaf is, here and in the slice leaf: its first call changes that.
    pub fn new(lo: u64, hi: u64) -> Self
        ensures row { count_row result ≡ window lo hi numbers }
        ensures home { count_home result ≡ window lo hi numbers }
        ensures tally { result.tally ≡ 0 }
    {
        let bounds = Span { lo, hi };
        CountLeaf {
            bounds,
            home: bounds,
            tally: 0,
        }
    }
}

#[tactic(auto, using(crate::proofs::Spans::calls), unfolding(crate::specs::Rows::numbers))]
impl Cursor for CountLeaf {
    type Item = u64;

    ghost row = { count_row };

    ghost home = { count_home };

    ghost tally = { λ c. c.tally };

    ghost weight = { 1 };

    ghost touch = { Touched };

    ghost closed = { λ c. closed_first _ _ (closed_after _ _ closed_numbers) };

    ghost enclosed = { λ c. closed_first _ _ (closed_after _ _ closed_numbers) };

    fn next(&mut self) -> Option<u64> {
        self.nth(0)
    }

    fn nth(&mut self, n: u64) -> Option<u64> {
        self.tally = touched(self.tally);
        self.bounds.nth(n)
    }

    fn advance(&mut self, n: u64) -> Result<(), Shortfall> {
        self.tally = touched(self.tally);
        self.bounds.advance(n)
    }

    fn tally(&self) -> u64 {
        self.tally
    }

    fn weight(&self) -> u64 {
        1
    }
}

#[tactic(auto, using(crate::proofs::Spans::calls), unfolding(crate::specs::Rows::numbers))]
impl TwoEnded for CountLeaf {
    fn len(&self) -> u64 {
        self.bounds.len()
    }

    fn next_back(&mut self) -> Option<u64> {
        self.nth_back(0)
    }

    fn nth_back(&mut self, n: u64) -> Option<u64> {
        self.tally = touched(self.tally);
        self.bounds.nth_back(n)
    }

    fn advance_back(&mut self, n: u64) -> Result<(), Shortfall> {
        self.tally = touched(self.tally);
        self.bounds.advance_back(n)
    }
}

impl Homing for CountLeaf {
    fn mark(&mut self) {
        self.tally = touched(self.tally);
        self.home = self.bounds;
    }

    fn restart(&mut self) {
        self.tally = touched(self.tally);
        self.bounds = self.home;
    }
}
