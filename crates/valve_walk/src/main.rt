//! Loads a sample ticket, and walks its valve row from both ends.

#![tactic(auto)]

use frame::stroke::Stroke;
use std::io;
use ticket::loading::load;

mod walk;

/// Can 7 of 1000 ml; one purge, two tints.
const SAMPLE: &[u8] =
    b"\x01\x00\x00\x00\x07\x03\xE8\x03\x05\x00\x0A\x02\x01\x00\x64\x02\x02\x00\xC8\x06\x00\x00\x00\x00\x00\x00\x00\x02\x0F\x00\x03";

fn main(rt: HostRuntime) -> io::Result<()> {
    let mut purges = [Stroke::default(); 4];
    let mut tints = [Stroke::default(); 4];
    match load(SAMPLE, &mut purges, &mut tints) {
        Ok(loaded) => {
            let purges = &purges[..loaded.purges];
            let tints = &tints[..loaded.tints];
            walk::show_valve_row(&rt, purges, tints, loaded.resume, loaded.limit)
        }
        Err(_) => println!(rt; "The sample is refused."),
    }
}
