//! The line: which device is switched on.
ghost use Rattle.std.specs.Prelude.{◌≡◌};
ghost use Rattle.bus.specs.declared.party.Party.TheVariants.{Valve};

use crate::party::Party;

/// Which device is switched on.
#[derive(Debug, PartialEq, Eq, Drop)]
pub struct Line {
    pub(crate) on: Party,
}

impl Line {
    /// A new line has the valve board switched on.
    pub fn new() -> Line
        ensures { result.on ≡ Valve }
    {
        Line { on: Party::Valve }
    }

    /// The party whose device is switched on.
    pub fn device(&self) -> Party
        ensures { result ≡ self.now.on }
    {
        self.on
    }
}

/// Holds the line alone while a frame is written; its end puts the line back where it was.
pub(crate) struct Held<'a> {
    pub(crate) line: &'a mut Line,
    pub(crate) former: Party,
}

impl Drop for Held<'_> {
    fn drop(self)
        ensures { self.exit.0.now.on ≡ self.entry.former }
    {
        let Held { line, former } = self;
        line.on = former;
    }
}

impl Held<'_> {
    pub(crate) fn device(&self) -> Party
        ensures { result ≡ self.now.line.now.on }
    {
        self.line.on
    }
}
