//! Strokes, as frames carry them.
ghost use Rattle.std.specs.Prelude.{◌∷◌};
ghost use Rattle.frame.specs.Bytes.{be};
ghost use Rattle.std.proofs.Common.{rules};

use crate::framed::Framed;

/// One stroke: how much paint one valve lets out.
#[derive(Clone, Copy, Debug, Default, PartialEq, Eq)]
pub struct Stroke {
    /// the canister's valve, 0 to 15 in every ticket that loads
    pub valve: u8,
    /// in hundredths of a ml
    pub volume: u16,
}

impl Framed for Stroke {
    const KIND: u8 = 0x23;

    const BODY: usize = 3;

    ghost KIND = { 0x23 };

    ghost BODY = { 3 };

    ghost body = { λ s. s.valve ∷ be 2 s.volume };

    ghost free = { Prim.search rules };

    ghost least = { Prim.search rules };

    ghost most = { Prim.search rules };

    ghost sized = { Prim.search rules };

    ghost told = { Prim.search rules };

    fn write(self, out: &mut [u8]) {
        let [high, low] = self.volume.to_be_bytes();
        out[0] = self.valve;
        out[1] = high;
        out[2] = low;
    }
}
