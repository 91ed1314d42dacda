//! Reads ticket.bin in the folder where it is started, loads it, and says in plain words what it holds or why it is refused.

#![tactic(auto)]

ghost use Rattle.std.specs.Prelude.{◌≤◌, length, IfOk};

use frame::stroke::Stroke;
use std::fs::File;
use std::io;
use std::io::Read;
use std::process::ExitCode;
use ticket::loading::{LONGEST, load};

mod words;

/// One byte more than a ticket may have shows that there are more.
const TICKET_BYTES: usize = LONGEST + 1;

const TABLE_ENTRIES: usize = 8192;

/// Reads a file into the buffer, until the one ends or the other is full, and answers the bytes that came.
// A loop and no `io::copy`: that tries again where a read is interrupted, which is told here, and reads by pieces of 8 KB through
// a buffer of its own.
fn read_into<'a>(file: &mut File, buf: &'a mut [u8]) -> io::Result<&'a [u8]>
    ensures { IfOk result (λ bytes. length bytes.now ≤ length buf.old) }
{
    let mut n = 0;
    while n < buf.len() {
        let got = file.read(&mut buf[n..])?;
        if got == 0 {
            break;
        }
        n += got;
    }
    Ok(&buf[..n])
}

fn main(rt: HostRuntime) -> io::Result<ExitCode> {
    let mut ticket = [0u8; TICKET_BYTES];
    let read = File::open(&rt, "ticket.bin").and_then(|mut file| read_into(&mut file, &mut ticket));
    let bytes = match read {
        Ok(bytes) => bytes,
        Err(e) => {
            eprintln!(rt; "tintbus: cannot read ticket.bin: {e}")?;
            return Ok(ExitCode::FAILURE);
        }
    };
    let mut purges = [Stroke::default(); TABLE_ENTRIES];
    let mut tints = [Stroke::default(); TABLE_ENTRIES];
    match load(bytes, &mut purges, &mut tints) {
        Ok(loaded) => {
            words::show_settings(&rt, &loaded)?;
            words::show_strokes(&rt, "Purges", &purges[..loaded.purges])?;
            words::show_strokes(&rt, "Tints", &tints[..loaded.tints])?;
        }
        Err(fault) => words::show_refusal(&rt, fault)?,
    }
    Ok(ExitCode::SUCCESS)
}
