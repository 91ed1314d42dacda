//! The strokes in the bytes of a lawful ticket.
use crate::checks::stroke;
use crate::kinds::{BODIES, PURGE, TINT, body_len};
use crate::record::Record;

/// The strokes that are still to come, each as its record, in ticket order.
// Of both kinds, so that the bytes are walked once for both tables.
#[derive(Drop)]
pub struct Strokes<'a> {
    pub rest: &'a [u8],
}

impl Iterator for Strokes<'_> {
    ghost use Rattle.std.specs.Iterator.{YieldsFirst, item_count};
    ghost use Rattle.ticket.specs.Reading.{strokes_in, Whole};
    ghost use Rattle.ticket.specs.declared.kinds.TheConstants.{BODIES};

    type Item = Record;

    ghost can_next = { λ s. Whole s.rest.now };

    ghost next_gives = { YieldsFirst (λ s. strokes_in BODIES s.rest.now) };

    ghost remaining = { item_count (λ s. strokes_in BODIES s.rest.now) };

    fn next(&mut self) -> Option<Record> {
        while let Some((&kind, tail)) = self.rest.split_first() {
            let (body, rest) = tail.split_at(body_len(kind) as usize);
            self.rest = rest;
            match kind {
                TINT => return Some(Record::Tint(stroke(body))),
                PURGE => return Some(Record::Purge(stroke(body))),
                _ => {}
            }
        }
        None
    }
}
