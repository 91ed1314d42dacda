//! Cursors: rows of items that are walked from one end or from both, each call within a fixed number of touches.
//!
//! A row has at each place 0, 1, 2 and on an item or nothing, and after the first nothing only nothing. A leaf is a cursor
//! with no cursor below it; an adapter stands over others; a pile is a cursor with all that lies below it. A touch is one
//! call of a leaf other than `len`, `tally` and `weight`. The interfaces have no bodies: an implementation says what it
//! means by the ghost members, and writes every call.

#![tactic(auto)]

ghost use Rattle.std.specs.Prelude.{◌≡◌, ℕ, ◌+◌, ◌-◌};
ghost use Rattle.cursor.specs.Rows.{Row, Closed, Length, bare, after, first, taken, size, back};
ghost use Rattle.cursor.specs.Calls.{Free, Spent, Spends, capped, lack};

pub mod count;
pub mod shortfall;
pub mod slice;
mod span;
pub mod stride;

use shortfall::Shortfall;

/// A cursor that is walked from its front.
pub trait Cursor {
    type Item;

    // the items that are still to come
    ghost row: { Self → Row Self.Item };

    // the row that a restart brings back; only a homing cursor has one of its own, and it stands here so that every call can
    // promise to keep it
    ghost home: { Self → Row Self.Item } = { λ _. bare };

    // how many touches the leaves have had, with no limit
    ghost tally: { Self → ℕ };

    // how many touches one call may cost
    ghost weight: { ℕ };

    // how a touch changes the tally: a leaf says exactly, an adapter leaves it free
    ghost touch: { ℕ → ℕ → Type 0 } = { Free };

    /// The first item.
    fn next(&mut self) -> Option<Self::Item>
        ensures value { result ≡ row self.old 0 }
        ensures rest { row self.new ≡ after 1 (row self.old) }
        ensures spent { Spends weight touch tally home self.old self.new };

    /// The item at place n; it and all before it are taken.
    fn nth(&mut self, n: u64) -> Option<Self::Item>
        ensures value { result ≡ row self.old n }
        ensures rest { row self.new ≡ after (n + 1) (row self.old) }
        ensures spent { Spends weight touch tally home self.old self.new };

    /// Takes the first n items, or all; answers how many there were too few.
    fn advance(&mut self, n: u64) -> Result<(), Shortfall>
        ensures value { lack result ≡ n - taken (row self.old) n }
        ensures rest { row self.new ≡ after n (row self.old) }
        ensures spent { Spends weight touch tally home self.old self.new };

    /// The tally, or the largest count if it is larger.
    fn tally(&self) -> u64
        ensures { result ≡ capped (tally self.now) };

    /// The weight, or the largest count if it is larger.
    fn weight(&self) -> u64
        ensures { result ≡ capped weight };

    // After the first nothing only nothing.
    ghost closed: { (c : Self) → Closed (row c) };

    ghost enclosed: { (c : Self) → Closed (home c) };
}

/// A cursor that is walked from both ends. Its row has at most 2^64 - 1 items: `len` says so.
pub trait TwoEnded: Cursor {
    /// The number of items.
    fn len(&self) -> u64
        ensures value { result ≡ size (Self.Cursor.row self.now) }
        ensures whole { Length (Self.Cursor.row self.now) result };

    /// The last item.
    fn next_back(&mut self) -> Option<Self::Item>
        ensures value { result ≡ back (Self.Cursor.row self.old) 0 }
        ensures rest { Self.Cursor.row self.new ≡ first (size (Self.Cursor.row self.old) - 1) (Self.Cursor.row self.old) }
        ensures spent { Spends Self.weight Self.touch Self.tally Self.home self.old self.new };

    /// The item at place n from the back; it and all behind it are taken.
    fn nth_back(&mut self, n: u64) -> Option<Self::Item>
        ensures value { result ≡ back (Self.Cursor.row self.old) n }
        ensures rest { Self.Cursor.row self.new ≡ first (size (Self.Cursor.row self.old) - (n + 1)) (Self.Cursor.row self.old) }
        ensures spent { Spends Self.weight Self.touch Self.tally Self.home self.old self.new };

    /// Takes the last n items, or all; answers how many there were too few.
    fn advance_back(&mut self, n: u64) -> Result<(), Shortfall>
        ensures value { lack result ≡ n - size (Self.Cursor.row self.old) }
        ensures rest { Self.Cursor.row self.new ≡ first (size (Self.Cursor.row self.old) - n) (Self.Cursor.row self.old) }
        ensures spent { Spends Self.weight Self.touch Self.tally Self.home self.old self.new };
}

/// A cursor that can be sent back to a row that it was marked at.
pub trait Homing: TwoEnded {
    /// The present row becomes the home.
    fn mark(&mut self)
        ensures rest { Self.Cursor.row self.new ≡ Self.Cursor.row self.old }
        ensures spent { Spent Self.weight Self.touch (Self.tally self.old) (Self.tally self.new) (Self.Cursor.row self.old) (Self.home self.new) };

    /// The home becomes the present row.
    fn restart(&mut self)
        ensures rest { Self.Cursor.row self.new ≡ Self.home self.old }
        ensures spent { Spends Self.weight Self.touch Self.tally Self.home self.old self.new };
}
