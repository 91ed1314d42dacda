//! Skip: the cursor below it without its first n items. Carried over from core::iter's skip.rs.

#![tactic(auto, using(crate::proofs::Skips::skips, cursor::proofs::Costs::costs, cursor::proofs::Laws::places, cursor::proofs::Laws::cuts))]

ghost use Rattle.std.specs.Prelude.{◌≡◌, ◌-◌, ◌*◌};
ghost use Rattle.cursor.specs.Rows.{Length, after, size};
ghost use Rattle.cursor.specs.Closing.{closed_after};
ghost use Rattle.skip.specs.Skips.{skip_row, skip_home};

use cursor::shortfall::Shortfall;
use cursor::shortfall::making::{lacking, short_by};
use cursor::{Cursor, Homing, TwoEnded};

/// The items of `iter` without the first n.
#[derive(Drop)]
pub struct Skip<C> {
    iter: C,
    /// how many items below are still to be left out
    n: u64,
    /// the same for the home
    home: u64,
}

impl<C: Cursor> Skip<C> {
    /// The items of `iter` without the first n.
    pub fn new(iter: C, n: u64) -> Skip<C>
        ensures row { skip_row C.Cursor.row result ≡ after n (C.Cursor.row iter) }
        ensures home { skip_home C.Cursor.home result ≡ after n (C.Cursor.home iter) }
        ensures tally { C.Cursor.tally result.iter ≡ C.Cursor.tally iter }
    {
        Skip { iter, n, home: n }
    }
}

impl<C: Cursor> Cursor for Skip<C> {
    type Item = C::Item;

    ghost row = { skip_row C.Cursor.row };

    ghost home = { skip_home C.Cursor.home };

    ghost tally = { λ s. C.Cursor.tally s.iter };

    ghost weight = { 2 * C.Cursor.weight };

    ghost closed = { λ s. closed_after s.n (C.Cursor.row s.iter) (C.Cursor.closed s.iter) };

    ghost enclosed = { λ s. closed_after s.home (C.Cursor.home s.iter) (C.Cursor.enclosed s.iter) };

    fn next(&mut self) -> Option<C::Item> {
        if self.n > 0 {
            let skip = self.n;
            self.n = 0;
            self.iter.nth(skip)
        } else {
            self.iter.next()
        }
    }

    fn nth(&mut self, n: u64) -> Option<C::Item> {
        let skip = self.n;
        self.n = 0;
        if n <= u64::MAX - skip {
            self.iter.nth(skip + n)
        } else {
            // the sum passes the largest count: first the skip, then n
            let _ = self.iter.advance(skip);
            self.iter.nth(n)
        }
    }

    fn advance(&mut self, n: u64) -> Result<(), Shortfall> {
        let skip = self.n;
        let both = skip.saturating_add(n);
        let lack = lacking(self.iter.advance(both));
        let advanced = both - lack;
        let left = n - advanced.saturating_sub(skip);
        self.n = skip.saturating_sub(advanced);
        // the sum may have stopped at the largest count
        if lack == 0 && left > 0 {
            self.iter.advance(left)
        } else {
            short_by(left)
        }
    }

    fn tally(&self) -> u64 {
        self.iter.tally()
    }

    fn weight(&self) -> u64 {
        self.iter.weight().saturating_mul(2)
    }
}

impl<C: TwoEnded> Skip<C> {
    /// How many items are shown; a function beside `len`, since the calls from the back also need that the row below ends.
    fn shown(&self) -> u64
        ensures value { result ≡ size (C.Cursor.row self.now.iter) - self.now.n }
        ensures whole { Length (C.Cursor.row self.now.iter) (size (C.Cursor.row self.now.iter)) }
    {
        self.iter.len().saturating_sub(self.n)
    }
}

impl<C: TwoEnded> TwoEnded for Skip<C> {
    fn len(&self) -> u64 {
        self.shown()
    }

    fn next_back(&mut self) -> Option<C::Item> {
        if self.shown() > 0 {
            self.iter.next_back()
        } else {
            None
        }
    }

    fn nth_back(&mut self, n: u64) -> Option<C::Item> {
        let len = self.shown();
        if n < len {
            self.iter.nth_back(n)
        } else if len > 0 {
            let _ = self.iter.advance_back(len);
            None
        } else {
            None
        }
    }

    fn advance_back(&mut self, n: u64) -> Result<(), Shortfall> {
        let most = self.shown().min(n);
        let _ = self.iter.advance_back(most);
        short_by(n - most)
    }
}

impl<C: Homing> Homing for Skip<C> {
    fn mark(&mut self) {
        self.home = self.n;
        self.iter.mark();
    }

    fn restart(&mut self) {
        self.n = self.home;
        self.iter.restart();
    }
}
