//! The checks of one record, in their order.
ghost use Rattle.std.specs.Prelude.{◌≡◌, ◌+◌, ◌^◌, ◌<◌, length};
ghost use Rattle.std.specs.Int.Digits.{number_from_digits};
ghost use Rattle.ticket.specs.declared.faults.RecordFault.TheVariants.{Field};
ghost use Rattle.ticket.specs.Numbers.{map_err};
ghost use Rattle.ticket.specs.Kinds.{body_in};
ghost use Rattle.ticket.specs.Reading.{tally, framed, ordered, stroke_in, fielded, admitted, stepped};

use crate::faults::{CanFault, FieldFault, RecordFault};
use crate::kinds::{
    BODIES, END, FIRST, HEAD, LIMIT, PURGE, RESUME, STRIDE, TINT, UNKNOWN, body_len,
};
use crate::record::Record;
use crate::seen::Seen;
use cursor::stride::Stride;
use frame::stroke::Stroke;

/// The machine has canisters 0 to 15, with a valve each.
const TOP: u8 = 15;

/// Numbers stand in tickets with the most significant byte first.
// This and the next two are proved here, over std alone: the kit's `byteorder` would have to be trusted too.
fn be16(bytes: &[u8]) -> u16
    requires { length bytes.now ≡ 2 }
    ensures { result ≡ number_from_digits 256 bytes.now }
{
    u16::from_be_bytes([bytes[0], bytes[1]])
}

fn be32(bytes: &[u8]) -> u32
    requires { length bytes.now ≡ 4 }
    ensures { result ≡ number_from_digits 256 bytes.now }
{
    u32::from_be_bytes([bytes[0], bytes[1], bytes[2], bytes[3]])
}

fn be64(bytes: &[u8]) -> u64
    requires { length bytes.now ≡ 8 }
    ensures { result ≡ number_from_digits 256 bytes.now }
{
    u64::from_be_bytes([
        bytes[0], bytes[1], bytes[2], bytes[3], bytes[4], bytes[5], bytes[6], bytes[7],
    ])
}

/// A stroke's body.
pub fn stroke(body: &[u8]) -> Stroke
    requires { length body.now ≡ 3 }
    ensures { result ≡ stroke_in body.now }
{
    Stroke {
        valve: body[0],
        volume: be16(&body[1..3]),
    }
}

/// How long the body is, of a record that is known and whole; `tail` is all that stands behind the kind byte.
fn frame(kind: u8, tail: &[u8]) -> Result<usize, RecordFault>
    ensures { result ≡ framed BODIES kind tail.now }
{
    match body_len(kind) {
        UNKNOWN => Err(RecordFault::Unknown),
        len if tail.len() < len as usize => Err(RecordFault::Cut),
        len => Ok(len as usize),
    }
}

/// What a whole record says.
// Kind and body are two parameters and no struct: one would be built in `next` only to be taken apart here.
fn field(kind: u8, body: &[u8]) -> Result<Record, FieldFault>
    requires body_value { length body.now ≡ body_in BODIES kind }
    requires body_nonzero { 0 < length body.now }
    ensures { result ≡ fielded kind body.now }
{
    match kind {
        TINT..=PURGE | FIRST if body[0] > TOP => Err(FieldFault::High),
        HEAD => Ok(Record::Head(be32(&body[0..4]), be16(&body[4..6]))),
        TINT => Ok(Record::Tint(stroke(body))),
        PURGE => Ok(Record::Purge(stroke(body))),
        RESUME => Ok(Record::Resume(be64(body))),
        LIMIT => Ok(Record::Limit(be64(body))),
        STRIDE => Ok(Record::Every(Stride::new(be64(body))?)),
        FIRST => Ok(Record::First(body[0])),
        _ => Ok(Record::End(be16(body))),
    }
}

/// The same with the fault as a record's: `?` wraps it.
fn content(kind: u8, body: &[u8]) -> Result<Record, RecordFault>
    requires body_value { length body.now ≡ body_in BODIES kind }
    requires body_nonzero { 0 < length body.now }
    ensures { result ≡ map_err Field (fielded kind body.now) }
{
    Ok(field(kind, body)?)
}

impl Seen {
    /// Whether a record of this kind may stand here: a head first and only there, and each setting once.
    fn order(&self, kind: u8) -> Result<(), CanFault>
        ensures { result ≡ ordered (tally self.now) self.now.place kind }
    {
        match kind {
            HEAD if self.count(HEAD) == 0 => Ok(()),
            HEAD => Err(CanFault::Misplaced(self.place)),
            _ if self.count(HEAD) == 0 => Err(CanFault::Misplaced(self.place)),
            RESUME..=FIRST if self.count(kind) > 0 => Err(CanFault::Twice(self.place)),
            _ => Ok(()),
        }
    }

    /// The record, if a stroke's table has room for it, and an end's number is that of the strokes so far.
    fn admit(&self, record: Record) -> Result<Record, CanFault>
        requires { tally self.now TINT + tally self.now PURGE < 2 ^ 32 }
        ensures { result ≡ admitted self.now.room (tally self.now) self.now.place «record» }
    {
        let (tints, purges) = (self.count(TINT), self.count(PURGE));
        match record {
            Record::Tint(_) if tints >= self.room.tints => Err(CanFault::Full(self.place)),
            Record::Purge(_) if purges >= self.room.purges => Err(CanFault::Full(self.place)),
            Record::End(n) if n as usize != tints + purges => Err(CanFault::Count(self.place)),
            _ => Ok(record),
        }
    }

    /// The record that stands behind those seen so far, or its first fault.
    pub fn next(&self, kind: u8, tail: &[u8]) -> Result<Record, CanFault>
        requires { tally self.now TINT + tally self.now PURGE < 2 ^ 32 }
        ensures { result ≡ stepped BODIES self.now.room (tally self.now) self.now.place kind tail.now }
    {
        let placed = |fault: RecordFault| (fault, self.place);
        let len = frame(kind, tail).map_err(placed)?;
        self.order(kind)?;
        let record = content(kind, &tail[..len]).map_err(placed)?;
        self.admit(record)
    }
}
