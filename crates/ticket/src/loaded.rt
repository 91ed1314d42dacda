//! What loading answers.
use cursor::stride::Stride;

/// What a ticket says, but for its strokes, which are in the tables.
#[derive(Clone, Copy, Debug, PartialEq, Eq)]
pub struct Loaded {
    pub purges: usize,
    pub tints: usize,
    /// the can's number, and its size in ml
    pub can: u32,
    pub size: u16,
    pub resume: u64,
    pub limit: u64,
    pub stride: Stride,
    /// the first canister to stir
    pub first: u8,
}
