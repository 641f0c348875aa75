//! Tests of drills that are run.
#![tactic(auto)]

#[cfg(test)]
mod runs;
