//! Tests of conversations, of the link, of replayed runs and of the turn.
#![tactic(auto)]

#[cfg(test)]
mod asking;
#[cfg(test)]
mod links;
#[cfg(test)]
mod replays;
#[cfg(test)]
mod sessions;
#[cfg(test)]
mod turns;
