//! What the reader has seen of a ticket so far.
ghost use Rattle.std.specs.Prelude.{◌≡◌, ◌^◌, ◌<◌};
ghost use Rattle.ticket.specs.Records.{kind};
ghost use Rattle.ticket.specs.Reading.{tally, nothing, noted, answered};

use crate::kinds::{BODIES, END, PURGE, TINT, body_len};
use crate::loaded::Loaded;
use crate::record::Record;
use cursor::stride::Stride;

/// One more than the largest kind.
const KINDS: usize = END as usize + 1;

/// How many entries the two tables have.
#[derive(Clone, Copy, Debug, PartialEq, Eq)]
pub struct Room {
    pub purges: usize,
    pub tints: usize,
}

/// What the records so far say, and the room that they are loaded into.
// That the counts are small is said by clauses and no ghost field: definitions build a `Seen` too, and would have to prove it.
#[derive(Clone, Copy, Debug)]
pub struct Seen {
    pub room: Room,
    /// where the next record begins
    pub place: usize,
    /// how many there are of each kind
    // an array and no map: loading takes no heap
    counts: [usize; KINDS],
    /// what they say, but for the number of strokes, which is in the counts
    said: Loaded,
}

impl Seen {
    /// No record yet: each setting is what a ticket without it means.
    pub fn new(room: Room) -> Seen
        ensures { result ≡ nothing room }
    {
        Seen {
            room,
            place: 0,
            counts: [0; KINDS],
            said: Loaded {
                purges: 0,
                tints: 0,
                can: 0,
                size: 0,
                resume: 0,
                limit: u64::MAX,
                stride: Stride::one(),
                first: 0,
            },
        }
    }

    /// How many records there are of this kind.
    pub fn count(&self, kind: u8) -> usize
        requires { kind < KINDS }
        ensures { result ≡ tally self.now kind }
    {
        self.counts[kind as usize]
    }

    /// One record more.
    pub fn note(&mut self, record: Record)
        requires few { tally self.old (kind «record») < 2 ^ 32 }
        requires near { self.old.place < 2 ^ 32 }
        ensures { self.new ≡ noted BODIES self.old «record» }
    {
        self.place += 1 + body_len(record.kind()) as usize;
        self.counts[record.kind() as usize] += 1;
        match record {
            Record::Head(can, size) => {
                self.said.can = can;
                self.said.size = size;
            }
            Record::Resume(n) => self.said.resume = n,
            Record::Limit(n) => self.said.limit = n,
            Record::Every(stride) => self.said.stride = stride,
            Record::First(n) => self.said.first = n,
            Record::Tint(_) | Record::Purge(_) | Record::End(_) => {}
        }
    }

    pub fn loaded(self) -> Loaded
        ensures { result ≡ answered self }
    {
        Loaded {
            purges: self.count(PURGE),
            tints: self.count(TINT),
            ..self.said
        }
    }
}
