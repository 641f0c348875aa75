//! Tests of the generator of drills: its files, and the plans that they build to.
#![tactic(auto)]

#[cfg(test)]
mod plans;
