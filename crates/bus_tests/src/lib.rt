//! The bus over piles of leaves, as a newcomer would try it.

#![tactic(auto)]

#[cfg(test)]
mod calls;
#[cfg(test)]
mod edges;
#[cfg(test)]
mod refusals;
#[cfg(test)]
mod samples;
