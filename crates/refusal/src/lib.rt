//! Refusals: whatever is refused is refused by a number, in one byte, which a frame can carry.

#![tactic(auto)]

ghost use Rattle.std.specs.Prelude.{◌≡◌, ℕ};

/// Why something is refused.
pub trait Refusal {
    ghost number: { Self → ℕ };

    /// The refusal's number.
    fn number(self) -> u8
        ensures { result ≡ number self };
}

/// A refusal of which no more is known than its number.
impl Refusal for u8 {
    ghost number = { λ n. n };

    fn number(self) -> u8 {
        self
    }
}
