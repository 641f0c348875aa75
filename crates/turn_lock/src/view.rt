//! What a seat at the table knows. No value of these types is ever made.
use std::collections::LinkedList;

/// What the pass of a seat does at present.
pub enum Stage {
    /// It was joined into another.
    Gone,
    Idle,
    /// It has drawn a ticket.
    Waiting,
    /// It has the value.
    Holding,
}

/// A split and a join are two steps each. Between the two, `unseated` and `shown` say what the second has still to do.
pub struct View<O, E> {
    /// Whether it is the seat of the first pass.
    pub first: bool,
    pub stage: Stage,
    /// Without modulo, so it has no bound.
    pub ticket: u64,
    /// For the first pass, how many others there are.
    pub others: u64,
    /// For the first pass, how many of the counted passes have no seat.
    pub unseated: u64,
    pub opening: Option<O>,
    pub seen: LinkedList<E>,
    /// What a pass that was joined in had seen, until it is compared.
    pub shown: LinkedList<E>,
    /// The positions of its own entries.
    pub own: LinkedList<u64>,
}
