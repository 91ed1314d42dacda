//! The two leaves, the stride and the shortfall, as a newcomer would try them.

#![tactic(auto)]

#[cfg(test)]
mod count;
#[cfg(test)]
mod slice;
#[cfg(test)]
mod walk;
