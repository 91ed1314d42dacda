//! Framed items: what a frame can carry, each kind of item with a frame kind and a body length of its own.
ghost use Rattle.std.specs.Prelude.{◌≡◌, List, ℕ, ◌≤◌, length};
ghost use Rattle.frame.specs.Bytes.{over};
ghost use Rattle.frame.specs.Kinds.{Free};

/// A frame is a kind byte, a line byte and the item's body.
pub trait Framed {
    /// the frame's first byte; none of 20, 21, 22, 25 and 26 (hexadecimal), which are the bus's own
    const KIND: u8;

    /// the body's length, 1 to 8 bytes
    const BODY: usize;

    // The same two, as clauses name them.
    ghost KIND: { ℕ };

    ghost BODY: { ℕ };

    ghost body: { Self → List ℕ };

    /// Sets the body's bytes at the start of out, and no others.
    fn write(self, out: &mut [u8])
        requires { BODY ≤ length out.old }
        ensures { out.new ≡ over (body self) out.old };

    ghost free: { Free KIND };

    ghost least: { 1 ≤ BODY };

    ghost most: { BODY ≤ 8 };

    ghost sized: { (x : Self) → length (body x) ≡ BODY };

    ghost told: { (x y : Self) → body x ≡ body y → x ≡ y };
}
