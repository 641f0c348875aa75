//! Tests of the small types, of files, texts, trees and plans.
#![tactic(auto)]

#[cfg(test)]
mod lists;
#[cfg(test)]
mod plans;
#[cfg(test)]
mod shelves;
#[cfg(test)]
mod texts;
#[cfg(test)]
mod trees;
