//! The count leaf: numbers in their order.
use crate::span::Span;

pub mod cursor;

/// The numbers from lo up to hi - 1; none unless hi is above lo.
#[derive(Drop)]
pub struct CountLeaf {
    bounds: Span,
    /// the bounds that a restart brings back
    home: Span,
    tally: u64,
}
