//! How far a run has come, as one line on standard error.
//!
//! [`Progress`] is told of the units of a run by the workers, while none of them holds the bay for it, and draws
//! its line where standard error is a terminal: not before a second has passed, at most ten times a second, and
//! it clears the line when the last unit has come to its end. Where there is no terminal nothing is written, and
//! no clock is read.
//!
//! Nothing is proved of what is drawn, and no contract speaks of it.
#![tactic(auto)]

mod line;
mod progress;

pub use line::Line;
pub use progress::Progress;
