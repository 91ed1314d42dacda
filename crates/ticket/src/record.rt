//! A ticket's records.
ghost use Rattle.std.specs.Prelude.{◌≡◌};
ghost use Rattle.ticket.specs.Records.{kind};

use crate::kinds::{END, FIRST, HEAD, LIMIT, PURGE, RESUME, STRIDE, TINT};
use cursor::stride::Stride;
use frame::stroke::Stroke;

/// One record, as its author means it.
#[derive(Clone, Copy, Debug, PartialEq, Eq)]
pub enum Record {
    /// the can's number, and its size in ml
    Head(u32, u16),
    Tint(Stroke),
    Purge(Stroke),
    /// how many strokes to pass over
    Resume(u64),
    /// how many strokes to pour at most
    Limit(u64),
    /// which strokes the label shows
    Every(Stride),
    /// the first canister to stir
    First(u8),
    /// the number of strokes before it
    End(u16),
}

impl Record {
    /// The byte that the record begins with.
    pub fn kind(self) -> u8
        ensures { result ≡ kind self }
    {
        match self {
            Record::Head(_, _) => HEAD,
            Record::Tint(_) => TINT,
            Record::Purge(_) => PURGE,
            Record::Resume(_) => RESUME,
            Record::Limit(_) => LIMIT,
            Record::Every(_) => STRIDE,
            Record::First(_) => FIRST,
            Record::End(_) => END,
        }
    }
}
