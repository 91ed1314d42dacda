//! What a pile answers, and the frame that shows it.
ghost use Rattle.std.specs.Prelude.{◌≡◌, ◌≤◌, length};
ghost use Rattle.frame.specs.Bytes.{over};
ghost use Rattle.bus.specs.Numbers.{number};
ghost use Rattle.bus.specs.Waiting.{widened};
ghost use Rattle.bus.specs.Frames.{answer, frame};
ghost use Rattle.bus.specs.State.{Called, pile_of};

use crate::kinds::Kind;
use crate::line::{Held, Line};
use crate::party::Party;
use crate::request::{Call, FrontCall, Request};
use cursor::shortfall::making::lacking;
use cursor::{Cursor, TwoEnded};
use frame::framed::Framed;
use std::mem;

pub(crate) enum Answer<T> {
    /// an item, or none
    Item(Option<T>),
    /// by how many places an advance fell short, 0 if it is done
    // (what the frame carries, so no `Result`)
    Advanced(u64),
}

/// Makes one call of a pile that has two ends.
// Which call it is comes from outside as a number, so a `match` and no closure.
pub(crate) fn ask<C: TwoEnded>(pile: &mut C, request: Request<Call>) -> Answer<C::Item>
    ensures value { result ≡ answer request (C.Cursor.row pile.old) }
    ensures called { Called C.Cursor.weight request (pile_of C.Cursor pile.old) (pile_of C.Cursor pile.new) }
{
    match request.call {
        Call::Next => Answer::Item(pile.next()),
        Call::Nth => Answer::Item(pile.nth(request.n)),
        Call::Advance => Answer::Advanced(lacking(pile.advance(request.n))),
        Call::NextBack => Answer::Item(pile.next_back()),
        Call::NthBack => Answer::Item(pile.nth_back(request.n)),
        Call::AdvanceBack => Answer::Advanced(lacking(pile.advance_back(request.n))),
    }
}

/// Makes one call of a pile that has a front alone.
// Not one function with `ask`: the bounds differ, and so do the calls. A trait over both would only move these two bodies into
// its impls, and a `Call` made of a front and a back part would hide the six calls, which definitions and callers name.
pub(crate) fn ask_front<C: Cursor>(pile: &mut C, request: Request<FrontCall>) -> Answer<C::Item>
    ensures value { result ≡ answer (widened request) (C.Cursor.row pile.old) }
    ensures called { Called C.Cursor.weight (widened request) (pile_of C.Cursor pile.old) (pile_of C.Cursor pile.new) }
{
    match request.call {
        FrontCall::Next => Answer::Item(pile.next()),
        FrontCall::Nth => Answer::Item(pile.nth(request.n)),
        FrontCall::Advance => Answer::Advanced(lacking(pile.advance(request.n))),
    }
}

#[tactic(auto, using(crate::proofs::Bytes::two_then))]
impl<T: Framed> Answer<T> {
    /// Writes the frame at the start of out, and answers its length.
    fn write(self, line: u8, out: &mut [u8]) -> usize
        requires { 10 ≤ length out.old }
        ensures bytes { out.new ≡ over (frame T.Framed line self) out.old }
        ensures count { result ≡ length (frame T.Framed line self) }
    {
        out[1] = line;
        match self {
            Answer::Item(Some(item)) => {
                out[0] = T::KIND;
                item.write(&mut out[2..]);
                2 + T::BODY
            }
            Answer::Item(None) => {
                out[0] = Kind::Nothing as u8;
                2
            }
            Answer::Advanced(short) => {
                out[0] = Kind::Advance as u8;
                short.write(&mut out[2..]);
                2 + u64::BODY
            }
        }
    }

    /// The same with the line switched to the party while the frame is written.
    pub(crate) fn show(self, party: Party, line: &mut Line, out: &mut [u8]) -> usize
        requires { 10 ≤ length out.old }
        ensures line { line.new ≡ line.old }
        ensures bytes { out.new ≡ over (frame T.Framed (number party) self) out.old }
        ensures count { result ≡ length (frame T.Framed (number party) self) }
    {
        let former = mem::replace(&mut line.on, party);
        let held = Held { line, former };
        self.write(held.device().into(), out)
    }
}
