//! The making of a shortfall: none is made of 0.
ghost use Rattle.std.specs.Prelude.{◌≡◌};
ghost use Rattle.cursor.specs.Calls.{lack};
ghost use Rattle.cursor.specs.NonZero.{shortfall_of};

use crate::shortfall::Shortfall;

impl Shortfall {
    /// A shortfall of so many places, or none if nothing is missing.
    pub fn new(places: u64) -> Option<Shortfall>
        ensures { result ≡ shortfall_of places }
    {
        if places == 0 {
            None
        } else {
            Some(Shortfall { places })
        }
    }

    /// The number of places.
    // Named as in NonZero, so no `From`.
    pub fn get(self) -> u64
        ensures { result ≡ self.places }
    {
        self.places
    }
}

/// What an advance answers that lacks so many places: done, if it lacks none.
// This and its reverse are functions: neither of the two types is this crate's, so it can give them no `From`.
pub fn short_by(places: u64) -> Result<(), Shortfall>
    ensures { lack result ≡ places }
{
    if places == 0 {
        Ok(())
    } else {
        Err(Shortfall { places })
    }
}

/// By how many places an advance fell short; 0 if it is done.
pub fn lacking(answer: Result<(), Shortfall>) -> u64
    ensures { result ≡ lack answer }
{
    answer.err().map_or(0, Shortfall::get)
}
