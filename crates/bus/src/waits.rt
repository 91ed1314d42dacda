//! The waiting places, one for each party.
ghost use Rattle.std.specs.Prelude.{◌≡◌};
ghost use Rattle.bus.specs.Waiting.{Reserved, Seated, waiting, turn, turn_of, freed};

use crate::fault::Fault;
use crate::party::Party;
use crate::request::{Call, FrontCall, Request};

#[derive(Clone, Copy, Default)]
pub(crate) struct Waits {
    valve: Option<Request<Call>>,
    label: Option<Request<Call>>,
    stir: Option<Request<FrontCall>>,
}

/// A request whose turn it is.
// Not a `Party` beside a request, since a stirrer's request has another type.
#[derive(Clone, Copy)]
pub(crate) enum Turn {
    Valve(Request<Call>),
    Label(Request<Call>),
    Stir(Request<FrontCall>),
}

/// Puts a request into a place, unless one waits there.
fn reserve<C: Copy>(place: &mut Option<Request<C>>, request: Request<C>) -> Result<(), Fault>
    ensures { Reserved request place.old result place.new }
{
    if place.is_some() {
        return Err(Fault::Taken);
    }
    *place = Some(request);
    Ok(())
}

impl Waits {
    /// Puts a request into its party's place, and answers the party.
    pub(crate) fn seat(&mut self, party: Party, request: Request<Call>) -> Result<Party, Fault>
        ensures { Seated party request self.old result self.new }
    {
        match party {
            Party::Valve => reserve(&mut self.valve, request)?,
            Party::Label => reserve(&mut self.label, request)?,
            Party::Stir => {
                let call = request.call.try_into()?;
                reserve(&mut self.stir, Request { call, n: request.n })?;
            }
        }
        Ok(party)
    }

    /// Takes out the request of the lowest party that waits.
    pub(crate) fn next(&mut self) -> Option<Turn>
        ensures value { turn_of result ≡ turn (waiting self.old) }
        ensures rest { waiting self.new ≡ freed (turn_of result) (waiting self.old) }
    {
        if let Some(request) = self.valve.take() {
            return Some(Turn::Valve(request));
        }
        if let Some(request) = self.label.take() {
            return Some(Turn::Label(request));
        }
        let request = self.stir.take()?;
        Some(Turn::Stir(request))
    }
}
