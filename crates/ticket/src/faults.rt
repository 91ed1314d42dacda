//! Why a ticket is refused: three layers, each held whole by the next, and the number of each refusal.
ghost use Rattle.std.specs.Prelude.{◌≡◌};
ghost use Rattle.ticket.specs.declared.faults.FieldFault.TheVariants.{ZeroStride};
ghost use Rattle.ticket.specs.declared.faults.RecordFault.TheVariants.{Field};
ghost use Rattle.ticket.specs.declared.faults.CanFault.TheVariants.{Record};
ghost use Rattle.ticket.specs.Numbers.{field_number, record_number, can_number, can_place, Numbered};

use cursor::stride::StrideFault;
use refusal::Refusal;
use thiserror::Error;

/// A field holds what the machine does not have.
#[derive(Clone, Copy, Debug, PartialEq, Eq, Error)]
pub enum FieldFault {
    #[error("The label stride is 0")]
    ZeroStride = 1,
    #[error("A valve or canister is above 15")]
    High = 7,
}

/// One record cannot be read.
#[derive(Clone, Copy, Debug, PartialEq, Eq, Error)]
pub enum RecordFault {
    #[error("No record has this kind")]
    Unknown,
    #[error("The record's body runs past the end of the ticket")]
    Cut,
    #[error(transparent)]
    Field(FieldFault),
}

/// The ticket is no can's. Each case holds its place in the ticket: of the faulty record's kind byte if nothing else is said.
// The place stands in each case and in no struct around them, so that what it is the place of is told where the case is made.
#[derive(Clone, Copy, Debug, PartialEq, Eq, Error)]
pub enum CanFault {
    /// the place is the limit
    #[error("A ticket has at most {0} bytes")]
    TooLong(usize),
    #[error("The first record is not a head, or a later one is")]
    Misplaced(usize),
    #[error("A setting stands a second time")]
    Twice(usize),
    #[error("The stroke's table has no free entry")]
    Full(usize),
    #[error("The end's number is not the number of strokes before it")]
    Count(usize),
    /// the place is that of the first byte after the end
    #[error("There are bytes after the end record")]
    After(usize),
    /// the place is the ticket's length
    #[error("There is no end record")]
    NoEnd(usize),
    #[error("{0}")]
    Record(RecordFault, usize),
}

impl From<StrideFault> for FieldFault {
    ghost from_gives = { λ _ r. r ≡ ZeroStride };

    fn from(stride: StrideFault) -> FieldFault {
        match stride {
            StrideFault::Zero => FieldFault::ZeroStride,
        }
    }
}

impl From<FieldFault> for RecordFault {
    ghost from_gives = { λ f r. r ≡ Field f };

    fn from(field: FieldFault) -> RecordFault {
        RecordFault::Field(field)
    }
}

/// A record's fault comes with the record's place.
impl From<(RecordFault, usize)> for CanFault {
    ghost from_gives = { λ f r. r ≡ Record f.0 f.1 };

    fn from((fault, place): (RecordFault, usize)) -> CanFault {
        CanFault::Record(fault, place)
    }
}

impl Refusal for FieldFault {
    ghost number = { field_number };

    fn number(self) -> u8 {
        self as u8
    }
}

// Here and below a `match`: cases that hold values have no discriminants.
impl Refusal for RecordFault {
    ghost number = { record_number };

    fn number(self) -> u8 {
        match self {
            RecordFault::Unknown => 3,
            RecordFault::Cut => 4,
            RecordFault::Field(fault) => fault.number(),
        }
    }
}

impl Refusal for CanFault {
    ghost number = { can_number };

    fn number(self) -> u8 {
        match self {
            CanFault::TooLong(_) => 2,
            CanFault::Misplaced(_) => 5,
            CanFault::Twice(_) => 6,
            CanFault::Full(_) => 8,
            CanFault::Count(_) => 9,
            CanFault::After(_) => 10,
            CanFault::NoEnd(_) => 11,
            CanFault::Record(fault, _) => fault.number(),
        }
    }
}

impl CanFault {
    /// Where in the ticket.
    pub fn place(self) -> usize
        ensures { result ≡ can_place self }
    {
        match self {
            CanFault::TooLong(place)
            | CanFault::Misplaced(place)
            | CanFault::Twice(place)
            | CanFault::Full(place)
            | CanFault::Count(place)
            | CanFault::After(place)
            | CanFault::NoEnd(place)
            | CanFault::Record(_, place) => place,
        }
    }
}

/// A fault's number and place give back the fault: no two faults have both in common.
// It is a function so that a contract promises it.
pub fn numbers_stand()
    ensures { Numbered }
{}
