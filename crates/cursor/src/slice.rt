//! The slice leaf: a part of a lent slice, item after item. Nothing of the slice is copied but the items that are handed out.
ghost use Rattle.std.specs.Prelude.{◌≤◌, length};

use crate::span::Span;

pub mod cursor;

/// The items of the slice at the places within the bounds.
// Not one generic leaf with the count leaf: this struct, over the borrowed slice itself, is the form that was asked for here.
#[derive(Drop)]
pub struct SliceLeaf<'a, T: Copy> {
    items: &'a [T],
    bounds: Span,
    /// the bounds that a restart brings back
    home: Span,
    tally: u64,
    ghost within: { bounds.hi ≤ length items.now },
    ghost fenced: { home.hi ≤ length items.now },
}
