//! Loads each ticket of tickets.bin and prints the answer, one line a ticket. What it must print was written by another
//! reading of the format, in Python: tools/README.md says how.

#![tactic(auto)]

ghost use Rattle.std.specs.Prelude.{length};
ghost use Rattle.std.specs.Iterator.{at_most};

use frame::stroke::Stroke;
use refusal::Refusal;
use std::io::Print;
use std::{fs, io};
use ticket::loaded::Loaded;
use ticket::loading::load;

const TABLE_ENTRIES: usize = 8192;

/// Before a case: six bytes, the entries of the two tables and the ticket's length.
const CASE_HEAD: usize = 6;

/// A ticket, and how many entries of the tables it is loaded into.
#[derive(Clone, Copy)]
struct Case<'a> {
    ticket: &'a [u8],
    purge_entries: usize,
    tint_entries: usize,
}

/// The cases that stand in these bytes, one behind the other.
#[derive(Drop)]
struct Cases<'a> {
    rest: &'a [u8],
}

impl<'a> Iterator for Cases<'a> {
    type Item = Case<'a>;

    ghost remaining = { λ s. at_most (length s.rest.now) };

    fn next(&mut self) -> Option<Case<'a>> {
        let (head, rest) = self.rest.split_at_checked(CASE_HEAD)?;
        let len = u16::from_be_bytes([head[4], head[5]]) as usize;
        let (ticket, rest) = rest.split_at_checked(len)?;
        self.rest = rest;
        Some(Case {
            ticket,
            purge_entries: u16::from_be_bytes([head[0], head[1]]) as usize,
            tint_entries: u16::from_be_bytes([head[2], head[3]]) as usize,
        })
    }
}

/// What entry i of a table holds before a ticket is loaded: no ticket has such a valve.
fn mark(i: usize) -> Stroke {
    Stroke {
        valve: 200,
        volume: (i % 65536) as u16,
    }
}

fn reset(table: &mut [Stroke]) {
    for (i, entry) in table.iter_mut().enumerate() {
        *entry = mark(i);
    }
}

/// Whether all entries from `start` on are as `reset` left them.
fn is_kept(table: &[Stroke], start: usize) -> bool {
    table
        .iter()
        .enumerate()
        .skip(start)
        .all(|(i, entry)| *entry == mark(i))
}

/// A number that tells the first `count` strokes of a table and their order.
fn hash(table: &[Stroke], count: usize) -> u64 {
    table.iter().take(count).fold(0u64, |hash, stroke| {
        let entry = u64::from(stroke.valve) * 65536 + u64::from(stroke.volume);
        hash.wrapping_mul(31).wrapping_add(entry)
    })
}

/// The two tables that a ticket is loaded into.
#[derive(Drop)]
struct Tables<'a> {
    purges: &'a mut [Stroke],
    tints: &'a mut [Stroke],
}

impl Tables<'_> {
    /// Loads one ticket and prints the answer; true if it was loaded.
    fn replay(&mut self, rt: &impl Print, ticket: &[u8]) -> io::Result<bool> {
        reset(self.purges);
        reset(self.tints);
        match load(ticket, self.purges, self.tints) {
            Ok(loaded) => {
                self.show_loaded(rt, &loaded)?;
                Ok(true)
            }
            Err(fault) => {
                let tables = self.later(0, 0);
                println!(rt;
                    "refused {} at {}, tables {tables}",
                    fault.number(),
                    fault.place()
                )?;
                Ok(false)
            }
        }
    }

    fn show_loaded(&self, rt: &impl Print, loaded: &Loaded) -> io::Result<()> {
        print!(rt;
            "loaded can {} size {} resume {} limit {} stride {} first {} ",
            loaded.can,
            loaded.size,
            loaded.resume,
            loaded.limit,
            loaded.stride.get(),
            loaded.first
        )?;
        println!(rt;
            "purges {} hash {} tints {} hash {}, later entries {}",
            loaded.purges,
            hash(self.purges, loaded.purges),
            loaded.tints,
            hash(self.tints, loaded.tints),
            self.later(loaded.purges, loaded.tints)
        )
    }

    /// What became of the entries behind the first ones of each table.
    fn later(&self, purges: usize, tints: usize) -> &'static str {
        if is_kept(self.purges, purges) && is_kept(self.tints, tints) {
            "kept"
        } else {
            "changed"
        }
    }
}

fn main(rt: HostRuntime) -> io::Result<()> {
    let list = fs::read(&rt, "tickets.bin")?;
    let mut purges = [mark(0); TABLE_ENTRIES];
    let mut tints = [mark(0); TABLE_ENTRIES];
    let mut loaded = 0u64;
    let mut refused = 0u64;
    for case in (Cases { rest: &list }) {
        let mut tables = Tables {
            purges: &mut purges[..case.purge_entries.min(TABLE_ENTRIES)],
            tints: &mut tints[..case.tint_entries.min(TABLE_ENTRIES)],
        };
        if tables.replay(&rt, case.ticket)? {
            loaded = loaded.saturating_add(1);
        } else {
            refused = refused.saturating_add(1);
        }
    }
    let cases = loaded.saturating_add(refused);
    println!(rt; "{cases} tickets: {loaded} loaded, {refused} refused")
}
