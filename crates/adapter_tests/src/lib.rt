//! Take, Skip and Chain, as a newcomer would try them.

#![tactic(auto)]

#[cfg(test)]
mod chains;
#[cfg(test)]
mod cuts;
#[cfg(test)]
mod piles;
