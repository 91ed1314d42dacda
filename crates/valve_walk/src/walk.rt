//! The valve row of a loaded ticket: what the valve board will be given, in order.
use chain::Chain;
use cursor::slice::SliceLeaf;
use cursor::{Cursor, Homing, TwoEnded};
use frame::stroke::Stroke;
use skip::Skip;
use std::io;
use std::io::Print;
use take::Take;

/// Shows the purges and then the tints, without the first `resume`, at most `limit`: from the front, and from the back.
pub(crate) fn show_valve_row(
    rt: &impl Print,
    purges: &[Stroke],
    tints: &[Stroke],
    resume: u64,
    limit: u64,
) -> io::Result<()> {
    let strokes = Chain::new(SliceLeaf::new(purges), SliceLeaf::new(tints));
    let mut pile = Take::new(Skip::new(strokes, resume), limit);
    show_from_front(rt, &mut pile)?;
    pile.restart();
    show_from_back(rt, &mut pile)
}

// This and the next are two functions and not one that is given the call: each loop ends because its own call takes an item,
// which a closure's contract would have to say.
#[tactic(auto, using(cursor::proofs::Laws::sizes, cursor::proofs::Laws::places))]
fn show_from_front<C: TwoEnded<Item = Stroke>>(rt: &impl Print, pile: &mut C) -> io::Result<()> {
    println!(rt; "Valve row, from the front: {}.", pile.len())?;
    while let Some(stroke) = pile.next() {
        show_stroke(rt, stroke)?;
    }
    Ok(())
}

#[tactic(auto, using(cursor::proofs::Laws::sizes, cursor::proofs::Laws::places))]
fn show_from_back<C: TwoEnded<Item = Stroke>>(rt: &impl Print, pile: &mut C) -> io::Result<()> {
    println!(rt; "Valve row, from the back: {}.", pile.len())?;
    while let Some(stroke) = pile.next_back() {
        show_stroke(rt, stroke)?;
    }
    Ok(())
}

fn show_stroke(rt: &impl Print, stroke: Stroke) -> io::Result<()> {
    println!(rt;
        "  canister {}, {} hundredths of a ml",
        stroke.valve, stroke.volume
    )
}
