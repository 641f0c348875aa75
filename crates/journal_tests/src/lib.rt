//! Tests of the journal on a disk in memory: the images of its format, and a stop at each call.
#![tactic(auto)]

#[cfg(test)]
mod adding;
#[cfg(test)]
mod files;
#[cfg(test)]
mod groups;
#[cfg(test)]
mod images;
#[cfg(test)]
mod stops;
#[cfg(test)]
mod support;
