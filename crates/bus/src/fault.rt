//! Why the bus refuses.
ghost use Rattle.bus.specs.Numbers.{fault_number};

use refusal::Refusal;

/// Why the bus refuses. Each refusal leaves the bus, the line and the buffer as they were.
#[derive(Clone, Copy, Debug, PartialEq, Eq)]
pub enum Fault {
    /// the party is not 1 to 3
    UnknownParty = 21,
    /// the call is not 1 to 6
    UnknownCall = 22,
    /// the stirrer asks from the back, which its row does not have
    NoBack = 23,
    /// the party's waiting place is taken
    Taken = 24,
    /// the buffer has fewer than 10 bytes
    Short = 25,
}

impl Refusal for Fault {
    ghost number = { fault_number };

    fn number(self) -> u8 {
        self as u8
    }
}
