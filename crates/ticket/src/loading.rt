//! Loads a ticket entire, or refuses it and leaves everything as it was.
ghost use Rattle.std.specs.Prelude.{◌≡◌, ◌≤◌, length};
ghost use Rattle.ticket.specs.Records.{Unambiguous};
ghost use Rattle.ticket.specs.Samples.{Samples};
ghost use Rattle.ticket.specs.Lists.{strokes};
ghost use Rattle.ticket.specs.Reading.{strokes_in, Whole};
ghost use Rattle.frame.specs.Bytes.{over};
ghost use Rattle.ticket.specs.Loading.{Loading, Judged};

use crate::faults::CanFault;
use crate::kinds::{BODIES, PURGE, TINT, body_len};
use crate::loaded::Loaded;
use crate::record::Record;
use crate::seen::{Room, Seen};
use crate::strokes::Strokes;
use frame::stroke::Stroke;

/// A ticket has at most so many bytes.
pub const LONGEST: usize = 32768;

/// What a ticket says, or its first fault. Writes nothing.
fn judge(bytes: &[u8], room: Room) -> Result<Loaded, CanFault>
    ensures { Judged BODIES room bytes.now result }
{
    if bytes.len() > LONGEST {
        return Err(CanFault::TooLong(LONGEST));
    }
    let mut seen = Seen::new(room);
    let mut rest = bytes;
    while let Some((&kind, tail)) = rest.split_first() {
        let record = seen.next(kind, tail)?;
        seen.note(record);
        rest = &tail[body_len(kind) as usize..];
        if let Record::End(_) = record {
            if !rest.is_empty() {
                return Err(CanFault::After(seen.place));
            }
            return Ok(seen.loaded());
        }
    }
    Err(CanFault::NoEnd(bytes.len()))
}

/// Writes the strokes of a lawful ticket to the starts of their tables.
// One walk for both: with a function for one kind, called for each, `load` took up to 1.3 times as long (docs/LOOK-BACK.md).
fn fill(bytes: &[u8], purges: &mut [Stroke], tints: &mut [Stroke])
    requires whole { Whole bytes.now }
    requires purges { length (strokes PURGE (strokes_in BODIES bytes.now)) ≤ length purges.old }
    requires tints { length (strokes TINT (strokes_in BODIES bytes.now)) ≤ length tints.old }
    ensures purges { purges.new ≡ over (strokes PURGE (strokes_in BODIES bytes.now)) purges.old }
    ensures tints { tints.new ≡ over (strokes TINT (strokes_in BODIES bytes.now)) tints.old }
{
    let (mut p, mut t) = (0, 0);
    for record in (Strokes { rest: bytes }) {
        match record {
            Record::Purge(stroke) => {
                purges[p] = stroke;
                p += 1;
            }
            Record::Tint(stroke) => {
                tints[t] = stroke;
                t += 1;
            }
            _ => {}
        }
    }
}

/// Loads a ticket: its purges and tints go to the starts of their tables, in ticket order, and the answer is what else it
/// says. A ticket that is not lawful is refused, and both tables stay as they were.
pub fn load(bytes: &[u8], purges: &mut [Stroke], tints: &mut [Stroke]) -> Result<Loaded, CanFault>
    ensures { Loading BODIES bytes.now
        purges.old purges.new tints.old tints.new result }
{
    let room = Room {
        purges: purges.len(),
        tints: tints.len(),
    };
    let loaded = judge(bytes, room)?;
    fill(bytes, purges, tints);
    Ok(loaded)
}

/// Two lists of records with the same writing are the same list.
// It and the next are functions so that contracts promise what they say.
pub fn unambiguous()
    ensures { Unambiguous }
{}

/// The worked examples of the format's pages, on the definitions.
pub fn samples_stand()
    ensures { Samples BODIES }
{}
