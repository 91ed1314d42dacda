//! A caller of the bus: it makes a new bus of any three piles, and then all the calls of a list, one after the other.
ghost use Rattle.std.specs.Prelude.{◌≡◌};
ghost use Rattle.bus.specs.Promises.{fresh};
ghost use Rattle.bus.specs.Scripts.{StepSays, RunSays};

use crate::Bus;
use crate::line::Line;
use cursor::{Cursor, TwoEnded};
use frame::framed::Framed;

/// One call of a bus.
// A value and no closure: the promise speaks of each step, and a list of closures would each hold the bus.
#[derive(Clone, Copy, Debug, PartialEq, Eq)]
pub enum Step {
    Put { party: u8, call: u8, n: u64 },
    Exchange,
}

/// Makes one call.
fn make<V: TwoEnded<Item: Framed>, L: TwoEnded<Item: Framed>, S: Cursor<Item: Framed>>(
    bus: &mut Bus<V, L, S>,
    line: &mut Line,
    out: &mut [u8],
    step: Step,
)
    ensures line { line.new ≡ line.old }
    ensures done { StepSays V.Cursor L.Cursor S.Cursor V.Item.Framed L.Item.Framed S.Item.Framed bus.old out.old step bus.new out.new }
{
    match step {
        Step::Put { party, call, n } => {
            let _ = bus.put(party, call, n);
        }
        Step::Exchange => {
            let _ = bus.exchange(line, out);
        }
    }
}

/// Makes a new bus and all the calls; each exchange writes its frame to the same buffer, over the one before. Answers the bus as
/// it then is.
pub fn run<V: TwoEnded<Item: Framed>, L: TwoEnded<Item: Framed>, S: Cursor<Item: Framed>>(
    valve: V,
    label: L,
    stir: S,
    line: &mut Line,
    out: &mut [u8],
    steps: &[Step],
) -> Bus<V, L, S>
    ensures line { line.new ≡ line.old }
    ensures law { RunSays V.Cursor L.Cursor S.Cursor V.Item.Framed L.Item.Framed S.Item.Framed (fresh valve label stir) out.old steps.now result out.new }
{
    let mut bus = Bus::new(valve, label, stir);
    for step in steps {
        make(&mut bus, line, out, *step);
    }
    bus
}
