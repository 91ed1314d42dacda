//! The bus: three parties ask for items of their piles, and the valve goes first.
//!
//! A bus owns a pile for each party: two-ended for the valve board and the label printer, a front cursor for the stirrer.
//! Each party has one waiting place. `put` places a request there, `exchange` serves the lowest party that waits and writes
//! one frame. Both take a bounded number of steps and no heap.
//!
//! What holds over a bus's whole past, `Lawful` of specs/Law.antt, stands on `new`, `put` and `exchange`.

#![tactic(auto)]

ghost use Rattle.std.specs.Prelude.{◌≡◌};
ghost use Rattle.cursor.specs.Calls.{capped};
ghost use Rattle.bus.specs.State.{meant};
ghost use Rattle.bus.specs.Law.{tallies};
ghost use Rattle.bus.specs.Promises.{fresh, NewLaw, PutSays, PutLaw, ExchangeSays, ExchangeLaw};

mod answer;
pub mod fault;
mod kinds;
pub mod line;
pub mod party;
pub mod receipt;
pub mod request;
pub mod script;
mod waits;

use answer::{ask, ask_front};
use cursor::{Cursor, TwoEnded};
use fault::Fault;
use frame::framed::Framed;
use kinds::Kind;
use line::Line;
use party::Party;
use request::{Call, Request};
use waits::{Turn, Waits};

/// The least room for a frame: the longest has so many bytes.
pub const ROOM: usize = 10;

/// A pile and a waiting place for each of the three parties.
#[derive(Drop)]
pub struct Bus<V, L, S> {
    waits: Waits,
    valve: V,
    label: L,
    stir: S,
}

// Each clause names the ghost members of the three piles and of their items. A model of the bus would save that; it was tried
// and is refused, since a pile's row is a function, which the value of a model cannot hold.
impl<V: TwoEnded<Item: Framed>, L: TwoEnded<Item: Framed>, S: Cursor<Item: Framed>> Bus<V, L, S> {
    /// A bus of three piles, with nobody waiting.
    pub fn new(valve: V, label: L, stir: S) -> Bus<V, L, S>
        ensures made { result ≡ fresh valve label stir }
        ensures law { NewLaw V.Cursor L.Cursor S.Cursor V.Item.Framed L.Item.Framed S.Item.Framed result }
    {
        // That a two-ended row ends is what `len` promises; asking is no touch.
        let _ = valve.len();
        let _ = label.len();
        Bus {
            waits: Waits::default(),
            valve,
            label,
            stir,
        }
    }

    /// Places a request, and answers the party that now waits. Next and next_back ignore n.
    // The three are numbers as they come from outside, each with a refusal of its own, so they are not yet a `Request`.
    pub fn put(&mut self, party: u8, call: u8, n: u64) -> Result<Party, Fault>
        ensures done { PutSays V.Cursor L.Cursor S.Cursor self.old party call n result self.new }
        ensures law { PutLaw V.Cursor L.Cursor S.Cursor V.Item.Framed L.Item.Framed S.Item.Framed self.old party call n result self.new }
    {
        self.place(party, call, n)
    }

    /// Serves the lowest party that waits: frees its place, makes its call, writes the frame at the start of out, leaves the
    /// rest, and answers the frame's length.
    // That the line is as before is said by each function that is lent it: no invariant can speak of two moments.
    pub fn exchange(&mut self, line: &mut Line, out: &mut [u8]) -> Result<usize, Fault>
        ensures line { line.new ≡ line.old }
        ensures done { ExchangeSays V.Cursor L.Cursor S.Cursor V.Item.Framed L.Item.Framed S.Item.Framed self.old out.old result out.new self.new }
        ensures law { ExchangeLaw V.Cursor L.Cursor S.Cursor V.Item.Framed L.Item.Framed S.Item.Framed self.old out.old result out.new self.new }
    {
        self.serve(line, out)
    }

    /// How often the leaves of the three piles have been touched, or the largest count if that is more.
    pub fn tally(&self) -> u64
        ensures { result ≡ capped (tallies (meant V.Cursor L.Cursor S.Cursor self.now)) }
    {
        let two = self.valve.tally().saturating_add(self.label.tally());
        two.saturating_add(self.stir.tally())
    }

    /// The code of `put`; the law is shown once, of its one answer there.
    fn place(&mut self, party: u8, call: u8, n: u64) -> Result<Party, Fault>
        ensures { PutSays V.Cursor L.Cursor S.Cursor self.old party call n result self.new }
    {
        let party = Party::try_from(party)?;
        let call = Call::try_from(call)?;
        self.waits.seat(party, Request { call, n })
    }

    /// The code of `exchange`, likewise.
    fn serve(&mut self, line: &mut Line, out: &mut [u8]) -> Result<usize, Fault>
        ensures line { line.new ≡ line.old }
        ensures done { ExchangeSays V.Cursor L.Cursor S.Cursor V.Item.Framed L.Item.Framed S.Item.Framed self.old out.old result out.new self.new }
    {
        if out.len() < ROOM {
            return Err(Fault::Short);
        }
        let Some(turn) = self.waits.next() else {
            out[0] = Kind::Idle as u8;
            return Ok(1);
        };
        match turn {
            Turn::Valve(request) => Ok(ask(&mut self.valve, request).show(Party::Valve, line, out)),
            Turn::Label(request) => Ok(ask(&mut self.label, request).show(Party::Label, line, out)),
            Turn::Stir(request) => Ok(ask_front(&mut self.stir, request).show(
                Party::Stir,
                line,
                out,
            )),
        }
    }
}
