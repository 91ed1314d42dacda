//! What a party may ask of its pile.
ghost use Rattle.std.specs.Prelude.{◌≡◌, ok_or};
ghost use Rattle.bus.specs.declared.fault.Fault.TheVariants.{UnknownCall, NoBack};
ghost use Rattle.bus.specs.Numbers.{call_of, front_of};

use crate::fault::Fault;

/// The calls of a two-ended cursor.
#[derive(Clone, Copy, Debug, PartialEq, Eq)]
pub enum Call {
    Next,
    Nth,
    Advance,
    NextBack,
    NthBack,
    AdvanceBack,
}

/// The calls of a front cursor: a back call cannot be written.
#[derive(Clone, Copy)]
pub(crate) enum FrontCall {
    Next,
    Nth,
    Advance,
}

/// A call of a pile, of either kind, with its count, which next and next_back ignore.
#[derive(Clone, Copy, Debug, PartialEq, Eq)]
pub struct Request<C> {
    pub call: C,
    pub n: u64,
}

impl TryFrom<u8> for Call {
    type Error = Fault;

    ghost try_from_gives = { λ n r. r ≡ ok_or (call_of n) UnknownCall };

    fn try_from(number: u8) -> Result<Call, Fault> {
        match number {
            1 => Ok(Call::Next),
            2 => Ok(Call::Nth),
            3 => Ok(Call::Advance),
            4 => Ok(Call::NextBack),
            5 => Ok(Call::NthBack),
            6 => Ok(Call::AdvanceBack),
            _ => Err(Fault::UnknownCall),
        }
    }
}

/// The same call of a front cursor, if that has it.
impl TryFrom<Call> for FrontCall {
    type Error = Fault;

    ghost try_from_gives = { λ call r. r ≡ ok_or (front_of call) NoBack };

    fn try_from(call: Call) -> Result<FrontCall, Fault> {
        match call {
            Call::Next => Ok(FrontCall::Next),
            Call::Nth => Ok(FrontCall::Nth),
            Call::Advance => Ok(FrontCall::Advance),
            Call::NextBack | Call::NthBack | Call::AdvanceBack => Err(Fault::NoBack),
        }
    }
}
