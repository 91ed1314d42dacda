//! What both leaves are made of: their bounds, and the count of their touches.
ghost use Rattle.std.specs.Prelude.{◌≡◌, ◌+◌, ◌-◌, ◌^◌, ◌<◌};
ghost use Rattle.cursor.specs.Calls.{capped, lack};
ghost use Rattle.cursor.specs.Spans.{place_at, place_back, cut_front, cut_back};

use crate::shortfall::Shortfall;
use crate::shortfall::making::short_by;

/// The bounds of a leaf: the places from lo up to hi - 1 are still to come, none unless hi is above lo.
#[derive(Clone, Copy)]
pub(crate) struct Span {
    pub(crate) lo: u64,
    pub(crate) hi: u64,
}

impl Span {
    pub(crate) fn len(&self) -> u64
        ensures { result ≡ self.now.hi - self.now.lo }
    {
        self.hi.saturating_sub(self.lo)
    }

    /// The place n of it; that and all before it are cut off.
    pub(crate) fn nth(&mut self, n: u64) -> Option<u64>
        ensures value { result ≡ place_at self.old n }
        ensures rest { self.new ≡ cut_front (n + 1) self.old }
    {
        let left = self.len();
        if n < left {
            let place = self.lo + n;
            self.lo = place + 1;
            Some(place)
        } else {
            self.lo += left;
            None
        }
    }

    pub(crate) fn advance(&mut self, n: u64) -> Result<(), Shortfall>
        ensures value { lack result ≡ n - (self.old.hi - self.old.lo) }
        ensures rest { self.new ≡ cut_front n self.old }
    {
        let left = self.len();
        self.lo += n.min(left);
        short_by(n.saturating_sub(left))
    }

    /// The place n from the back; that and all behind it are cut off.
    pub(crate) fn nth_back(&mut self, n: u64) -> Option<u64>
        ensures value { result ≡ place_back self.old n }
        ensures bound { self.old.hi < 2 ^ 64 }
        ensures rest { self.new ≡ cut_back (n + 1) self.old }
    {
        let left = self.len();
        if n < left {
            let place = self.hi - (n + 1);
            self.hi = place;
            Some(place)
        } else {
            self.hi -= left;
            None
        }
    }

    pub(crate) fn advance_back(&mut self, n: u64) -> Result<(), Shortfall>
        ensures value { lack result ≡ n - (self.old.hi - self.old.lo) }
        ensures bound { self.old.hi < 2 ^ 64 }
        ensures rest { self.new ≡ cut_back n self.old }
    {
        let left = self.len();
        self.hi -= n.min(left);
        short_by(n.saturating_sub(left))
    }
}

/// A leaf's tally after one touch more; it stops at the largest count.
pub(crate) fn touched(tally: u64) -> u64
    ensures { result ≡ capped (tally + 1) }
{
    tally.saturating_add(1)
}
