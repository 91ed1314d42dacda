//! The calls of the slice leaf: each is one touch.
ghost use Rattle.std.specs.Prelude.{◌≡◌};
ghost use Rattle.std.specs.List.{slice_get};
ghost use Rattle.cursor.specs.Rows.{window};
ghost use Rattle.cursor.specs.Calls.{Touched};
ghost use Rattle.cursor.specs.Closing.{closed_first, closed_after, closed_nth};
ghost use Rattle.cursor.specs.Leaves.{slice_row, slice_home};

use super::SliceLeaf;
use crate::shortfall::Shortfall;
use crate::span::{Span, touched};
use crate::{Cursor, Homing, TwoEnded};

#[tactic(auto, using(crate::proofs::Spans::calls))]
impl<'a, T: Copy> SliceLeaf<'a, T> {
    /// The whole slice.
    pub fn new(items: &'a [T]) -> Self
        ensures row { slice_row result ≡ slice_get items.now }
        ensures home { slice_home result ≡ slice_get items.now }
        ensures tally { result.tally ≡ 0 }
    {
        Self::part(items, 0, items.len() as u64)
    }

    /// Its items at the places from lo up to hi - 1, as far as it has them.
    pub fn part(items: &'a [T], lo: u64, hi: u64) -> Self
        ensures row { slice_row result ≡ window lo hi (slice_get items.now) }
        ensures home { slice_home result ≡ window lo hi (slice_get items.now) }
        ensures tally { result.tally ≡ 0 }
    {
        let bounds = Span {
            lo,
            hi: hi.min(items.len() as u64),
        };
        SliceLeaf {
            items,
            bounds,
            home: bounds,
            tally: 0,
        }
    }
}

#[tactic(auto, using(crate::proofs::Spans::calls))]
impl<'a, T: Copy> Cursor for SliceLeaf<'a, T> {
    type Item = T;

    ghost row = { slice_row };

    ghost home = { slice_home };

    ghost tally = { λ c. c.tally };

    ghost weight = { 1 };

    ghost touch = { Touched };

    ghost closed = { λ c. closed_first _ _ (closed_after _ _ (closed_nth c.items.now)) };

    ghost enclosed = { λ c. closed_first _ _ (closed_after _ _ (closed_nth c.items.now)) };

    fn next(&mut self) -> Option<T> {
        self.nth(0)
    }

    fn nth(&mut self, n: u64) -> Option<T> {
        self.tally = touched(self.tally);
        let place = self.bounds.nth(n)?;
        Some(self.items[place as usize])
    }

    fn advance(&mut self, n: u64) -> Result<(), Shortfall> {
        self.tally = touched(self.tally);
        self.bounds.advance(n)
    }

    fn tally(&self) -> u64 {
        self.tally
    }

    fn weight(&self) -> u64 {
        1
    }
}

#[tactic(auto, using(crate::proofs::Spans::calls))]
impl<'a, T: Copy> TwoEnded for SliceLeaf<'a, T> {
    fn len(&self) -> u64 {
        self.bounds.len()
    }

    fn next_back(&mut self) -> Option<T> {
        self.nth_back(0)
    }

    fn nth_back(&mut self, n: u64) -> Option<T> {
        self.tally = touched(self.tally);
        let place = self.bounds.nth_back(n)?;
        Some(self.items[place as usize])
    }

    fn advance_back(&mut self, n: u64) -> Result<(), Shortfall> {
        self.tally = touched(self.tally);
        self.bounds.advance_back(n)
    }
}

impl<'a, T: Copy> Homing for SliceLeaf<'a, T> {
    fn mark(&mut self) {
        self.tally = touched(self.tally);
        self.home = self.bounds;
    }

    fn restart(&mut self) {
        self.tally = touched(self.tally);
        self.bounds = self.home;
    }
}
