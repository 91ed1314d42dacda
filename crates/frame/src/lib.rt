//! What goes over the bus: strokes and numbers, and how an item of each kind stands in a frame.

#![tactic(auto)]

pub mod framed;
pub mod number;
pub mod stroke;
