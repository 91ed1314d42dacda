//! What a request's sender is told at once: that it waits, or why not.
ghost use Rattle.bus.specs.Receipts.{notice, Told};

use crate::ROOM;
use crate::fault::Fault;
use crate::kinds::Kind;
use crate::party::Party;
use refusal::Refusal;

/// Writes the frame of a put's answer at the start of out, leaves the rest, and answers the frame's length. The refusal is the
/// bus's, or that of whatever stands before it.
pub fn write_receipt<R: Refusal>(answer: Result<Party, R>, out: &mut [u8]) -> Result<usize, Fault>
    ensures { Told (notice R.number answer) out.old result out.new }
{
    // The room is tested before anything else; it is told only below, since the answer must be used up first: a refusal's type
    // need not be one that can be let go.
    let is_short = out.len() < ROOM;
    let (kind, byte) = match answer {
        Ok(party) => (Kind::Accepted, party.into()),
        Err(refusal) => (Kind::Refused, refusal.number()),
    };
    if is_short {
        return Err(Fault::Short);
    }
    out[0] = kind as u8;
    out[1] = byte;
    Ok(2)
}
