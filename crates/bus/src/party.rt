//! Who asks on the bus.
ghost use Rattle.std.specs.Prelude.{◌≡◌, ok_or};
ghost use Rattle.bus.specs.declared.fault.Fault.TheVariants.{UnknownParty};
ghost use Rattle.bus.specs.Numbers.{number, party_of};

use crate::fault::Fault;

/// The three devices, in the order in which they are served.
#[derive(Clone, Copy, Debug, PartialEq, Eq)]
pub enum Party {
    Valve = 1,
    Label = 2,
    Stir = 3,
}

impl From<Party> for u8 {
    ghost from_gives = { λ party n. n ≡ number party };

    fn from(party: Party) -> u8 {
        party as u8
    }
}

impl TryFrom<u8> for Party {
    type Error = Fault;

    ghost try_from_gives = { λ n r. r ≡ ok_or (party_of n) UnknownParty };

    fn try_from(number: u8) -> Result<Party, Fault> {
        match number {
            1 => Ok(Party::Valve),
            2 => Ok(Party::Label),
            3 => Ok(Party::Stir),
            _ => Err(Fault::UnknownParty),
        }
    }
}
