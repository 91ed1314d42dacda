//! Tickets: loaded entire, or refused by a number with everything left as it was.

#![tactic(auto)]

mod checks;
pub mod faults;
pub mod kinds;
pub mod loaded;
pub mod loading;
pub mod record;
mod seen;
mod strokes;
