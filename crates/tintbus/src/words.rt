//! What a ticket holds, and why it is refused, in plain words.
use frame::stroke::Stroke;
use refusal::Refusal;
use std::io::Print;
use std::{fmt, io};
use ticket::faults::{CanFault, RecordFault};
use ticket::loaded::Loaded;

/// A volume in hundredths of a ml, shown in ml.
#[derive(Clone, Copy)]
struct Ml(u16);

impl fmt::Display for Ml {
    fn fmt<W: fmt::Write>(&self, f: &mut fmt::Formatter<W>) -> fmt::Result {
        write!(f, "{}.{:02} ml", self.0 / 100, self.0 % 100)
    }
}

pub(crate) fn show_settings(rt: &impl Print, loaded: &Loaded) -> io::Result<()> {
    println!(rt; "Can {}, {} ml.", loaded.can, loaded.size)?;
    println!(rt; "Resume: strokes left out at the start: {}.", loaded.resume)?;
    println!(rt; "Limit: strokes poured at most: {}.", loaded.limit)?;
    println!(rt; "Label stride: {}.", loaded.stride.get())?;
    println!(rt; "First canister to stir: {}.", loaded.first)
}

/// One table's strokes, in ticket order.
pub(crate) fn show_strokes(rt: &impl Print, title: &str, strokes: &[Stroke]) -> io::Result<()> {
    println!(rt; "{title}: {}.", strokes.len())?;
    for stroke in strokes {
        println!(rt; "  canister {}, {}", stroke.valve, Ml(stroke.volume))?;
    }
    Ok(())
}

pub(crate) fn show_refusal(rt: &impl Print, fault: CanFault) -> io::Result<()> {
    println!(rt;
        "Refused with {} at byte {}.",
        fault.number(),
        fault.place()
    )?;
    println!(rt; "Layers: {}.", layers(fault))?;
    println!(rt; "{fault}.")
}

/// The layers that a fault goes through, the outermost first.
// A function, since `Display` of a fault shows its meaning.
fn layers(fault: CanFault) -> &'static str {
    match fault {
        CanFault::Record(RecordFault::Field(_), _) => "can, record, field",
        CanFault::Record(_, _) => "can, record",
        _ => "can",
    }
}
