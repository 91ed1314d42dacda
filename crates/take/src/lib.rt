//! Take: the first n items of the cursor below it. Carried over from core::iter's take.rs.

#![tactic(auto, using(crate::proofs::Takes::takes, cursor::proofs::Costs::costs, cursor::proofs::Laws::places, cursor::proofs::Laws::cuts))]

ghost use Rattle.std.specs.Prelude.{◌≡◌, ◌-◌};
ghost use Rattle.cursor.specs.Rows.{Length, first, size};
ghost use Rattle.cursor.specs.Closing.{closed_first};
ghost use Rattle.take.specs.Takes.{take_row, take_home};

use cursor::shortfall::Shortfall;
use cursor::shortfall::making::{lacking, short_by};
use cursor::{Cursor, Homing, TwoEnded};

/// The first n items of `iter`.
#[derive(Drop)]
pub struct Take<C> {
    iter: C,
    /// how many items are still to be shown, as far as there are so many
    n: u64,
    /// the same for the home
    home: u64,
}

impl<C: Cursor> Take<C> {
    /// The first n items of `iter`.
    pub fn new(iter: C, n: u64) -> Take<C>
        ensures row { take_row C.Cursor.row result ≡ first n (C.Cursor.row iter) }
        ensures home { take_home C.Cursor.home result ≡ first n (C.Cursor.home iter) }
        ensures tally { C.Cursor.tally result.iter ≡ C.Cursor.tally iter }
    {
        Take { iter, n, home: n }
    }
}

impl<C: Cursor> Cursor for Take<C> {
    type Item = C::Item;

    ghost row = { take_row C.Cursor.row };

    ghost home = { take_home C.Cursor.home };

    ghost tally = { λ s. C.Cursor.tally s.iter };

    ghost weight = { C.Cursor.weight };

    ghost closed = { λ s. closed_first s.n (C.Cursor.row s.iter) (C.Cursor.closed s.iter) };

    ghost enclosed = { λ s. closed_first s.home (C.Cursor.home s.iter) (C.Cursor.enclosed s.iter) };

    fn next(&mut self) -> Option<C::Item> {
        if self.n != 0 {
            self.n -= 1;
            self.iter.next()
        } else {
            None
        }
    }

    fn nth(&mut self, n: u64) -> Option<C::Item> {
        if self.n > n {
            self.n -= n + 1;
            self.iter.nth(n)
        } else if self.n > 0 {
            let _ = self.iter.advance(self.n);
            self.n = 0;
            None
        } else {
            None
        }
    }

    fn advance(&mut self, n: u64) -> Result<(), Shortfall> {
        let most = self.n.min(n);
        let advanced = most - lacking(self.iter.advance(most));
        self.n -= advanced;
        short_by(n - advanced)
    }

    fn tally(&self) -> u64 {
        self.iter.tally()
    }

    fn weight(&self) -> u64 {
        self.iter.weight()
    }
}

impl<C: TwoEnded> Take<C> {
    /// How many items below lie behind the last that is shown.
    fn over(&self) -> u64
        ensures value { result ≡ size (C.Cursor.row self.now.iter) - self.now.n }
        ensures whole { Length (C.Cursor.row self.now.iter) (size (C.Cursor.row self.now.iter)) }
    {
        self.iter.len().saturating_sub(self.n)
    }
}

impl<C: TwoEnded> TwoEnded for Take<C> {
    fn len(&self) -> u64 {
        self.iter.len().min(self.n)
    }

    fn next_back(&mut self) -> Option<C::Item> {
        if self.n == 0 {
            None
        } else {
            let over = self.over();
            self.n -= 1;
            self.iter.nth_back(over)
        }
    }

    fn nth_back(&mut self, n: u64) -> Option<C::Item> {
        if self.n > n {
            let over = self.over();
            self.n -= n + 1;
            return self.iter.nth_back(over + n);
        }
        let len = self.iter.len();
        if len > 0 {
            let _ = self.iter.advance_back(len);
        }
        None
    }

    fn advance_back(&mut self, n: u64) -> Result<(), Shortfall> {
        let over = self.over();
        let most = over.saturating_add(n);
        let advanced = most - lacking(self.iter.advance_back(most)) - over;
        self.n -= advanced;
        short_by(n - advanced)
    }
}

impl<C: Homing> Homing for Take<C> {
    fn mark(&mut self) {
        self.home = self.n;
        self.iter.mark();
    }

    fn restart(&mut self) {
        self.n = self.home;
        self.iter.restart();
    }
}
