//! Tickets as a newcomer would try them. Many more are replayed by the crate ticket_replay.

#![tactic(auto)]

#[cfg(test)]
mod tests;
