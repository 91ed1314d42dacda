//! How many places of a row lie from one item that is shown to the next: never 0, as NonZero.
//! A kind of number apart from counts, so that the one is not taken for the other.
ghost use Rattle.std.specs.Prelude.{◌<◌};

pub mod making;

/// A number of places that is never 0.
#[derive(Clone, Copy, Debug, PartialEq, Eq)]
pub struct Stride {
    steps: u64,
    ghost some: { 0 < steps },
}

/// Why a stride is not made, by the number of the refusal.
#[derive(Clone, Copy, Debug, PartialEq, Eq)]
pub enum StrideFault {
    Zero = 1,
}
