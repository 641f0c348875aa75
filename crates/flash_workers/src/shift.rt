//! What the workers of one round share, beside the turn and the plan.
use crate::bell::Bell;
use std::alloc::Global;

/// The gate before each step, the watcher after it, the bell that calls all together, and the memory for requests.
#[derive(Drop)]
pub struct Shift<'a, G, W> {
    pub gate: &'a G,
    pub watcher: &'a W,
    pub bell: Bell,
    pub alloc: Global,
}
