//! Chain: one cursor's items, then another's, the first 2^64 - 1 in all. Carried over from core::iter's chain.rs.
//!
//! The cut at 2^64 - 1 items is made once: `left` counts the items that are still to be shown, so what was cut off does not
//! come back when others have been taken. A back call leaves what it takes behind the last item that is shown.

#![tactic(auto, using(crate::proofs::Chains::chains, cursor::proofs::Costs::costs, cursor::proofs::Laws::places, cursor::proofs::Laws::cuts))]

ghost use Rattle.std.specs.Prelude.{◌≡◌, ◌+◌, ◌-◌, ◌^◌};
ghost use Rattle.cursor.specs.Rows.{first, join};
ghost use Rattle.cursor.specs.Closing.{closed_first, closed_join};
ghost use Rattle.chain.specs.Chains.{chain_row, chain_home};

use cursor::shortfall::Shortfall;
use cursor::shortfall::making::{lacking, short_by};
use cursor::{Cursor, Homing, TwoEnded};

/// The items of `a`, then those of `b`.
#[derive(Drop)]
pub struct Chain<L, R> {
    a: L,
    b: R,
    /// how many items are still to be shown, as far as there are so many
    left: u64,
    /// the same for the home
    home: u64,
}

impl<L: TwoEnded, R: TwoEnded<Item = L::Item>> Chain<L, R> {
    /// The items of `a`, then those of `b`.
    pub fn new(a: L, b: R) -> Chain<L, R>
        ensures row { chain_row L.Cursor.row R.Cursor.row result ≡ first (2 ^ 64 - 1) (join (L.Cursor.row a) (R.Cursor.row b)) }
        ensures home { chain_home L.Cursor.home R.Cursor.home result ≡ first (2 ^ 64 - 1) (join (L.Cursor.home a) (R.Cursor.home b)) }
        ensures tally { L.Cursor.tally result.a + R.Cursor.tally result.b ≡ L.Cursor.tally a + R.Cursor.tally b }
    {
        Chain {
            a,
            b,
            left: u64::MAX,
            home: u64::MAX,
        }
    }
}

impl<L: TwoEnded, R: TwoEnded<Item = L::Item>> Cursor for Chain<L, R> {
    type Item = L::Item;

    ghost row = { chain_row L.Cursor.row R.Cursor.row };

    ghost home = { chain_home L.Cursor.home R.Cursor.home };

    ghost tally = { λ s. L.Cursor.tally s.a + R.Cursor.tally s.b };

    ghost weight = { L.Cursor.weight + R.Cursor.weight };

    ghost closed = { λ s. closed_first _ _ (closed_join _ _ (L.Cursor.closed s.a) (R.Cursor.closed s.b)) };

    ghost enclosed = { λ s. closed_first _ _ (closed_join _ _ (L.Cursor.enclosed s.a) (R.Cursor.enclosed s.b)) };

    fn next(&mut self) -> Option<L::Item> {
        if self.left == 0 {
            return None;
        }
        self.left -= 1;
        // a `match` and no `or_else`: adapters are asked to have no closures
        match self.a.next() {
            Some(item) => Some(item),
            None => self.b.next(),
        }
    }

    fn nth(&mut self, n: u64) -> Option<L::Item> {
        if n >= self.left {
            self.left = 0;
            return None;
        }
        self.left -= n + 1;
        let len = self.a.len();
        if n < len {
            self.a.nth(n)
        } else {
            let _ = self.a.advance(len);
            self.b.nth(n - len)
        }
    }

    fn advance(&mut self, n: u64) -> Result<(), Shortfall> {
        let most = n.min(self.left);
        self.left -= most;
        let len = self.a.len();
        let here = most.min(len);
        let _ = self.a.advance(here);
        if most <= len {
            short_by(n - most)
        } else {
            let lack = lacking(self.b.advance(most - len));
            short_by(n - (most - lack))
        }
    }

    fn tally(&self) -> u64 {
        self.a.tally().saturating_add(self.b.tally())
    }

    fn weight(&self) -> u64 {
        self.a.weight().saturating_add(self.b.weight())
    }
}

impl<L: TwoEnded, R: TwoEnded<Item = L::Item>> TwoEnded for Chain<L, R> {
    fn len(&self) -> u64 {
        let a = self.a.len().min(self.left);
        a + self.b.len().min(self.left - a)
    }

    fn next_back(&mut self) -> Option<L::Item> {
        self.nth_back(0)
    }

    fn nth_back(&mut self, n: u64) -> Option<L::Item> {
        // what `len` adds up, but each part by itself
        let a_len = self.a.len();
        let b_len = self.b.len();
        let a_shown = a_len.min(self.left);
        let b_shown = b_len.min(self.left - a_shown);
        let total = a_shown + b_shown;
        if n >= total {
            self.left = 0;
            return None;
        }
        self.left = total - (n + 1);
        if n < b_shown {
            self.b.nth_back(b_len - b_shown + n)
        } else {
            self.a.nth_back(a_len - a_shown + (n - b_shown))
        }
    }

    fn advance_back(&mut self, n: u64) -> Result<(), Shortfall> {
        let len = self.len();
        let most = n.min(len);
        self.left = len - most;
        short_by(n - most)
    }
}

impl<L: Homing, R: Homing<Item = L::Item>> Homing for Chain<L, R> {
    fn mark(&mut self) {
        self.home = self.left;
        self.a.mark();
        self.b.mark();
    }

    fn restart(&mut self) {
        self.left = self.home;
        self.a.restart();
        self.b.restart();
    }
}
