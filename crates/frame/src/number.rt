//! Numbers, as frames carry them: a canister to stir, for one.
ghost use Rattle.frame.specs.Bytes.{be};
ghost use Rattle.std.proofs.Common.{rules};

use crate::framed::Framed;

impl Framed for u64 {
    const KIND: u8 = 0x24;

    const BODY: usize = 8;

    ghost KIND = { 0x24 };

    ghost BODY = { 8 };

    ghost body = { be 8 };

    ghost free = { Prim.search rules };

    ghost least = { Prim.search rules };

    ghost most = { Prim.search rules };

    ghost sized = { Prim.search rules };

    ghost told = { Prim.search rules };

    fn write(self, out: &mut [u8]) {
        out[..8].copy_from_slice(&self.to_be_bytes());
    }
}
