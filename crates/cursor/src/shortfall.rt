//! By how many places an advance fell short of what was asked: never 0, as NonZero.
ghost use Rattle.std.specs.Prelude.{◌<◌};

pub mod making;

/// A number of missing places that is never 0.
#[derive(Clone, Copy, Debug, PartialEq, Eq)]
pub struct Shortfall {
    places: u64,
    ghost some: { 0 < places },
}
