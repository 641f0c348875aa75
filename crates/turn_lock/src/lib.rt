//! A ticket lock whose value carries a log, so that each holder knows what became of the value since it had it last.
//!
//! A [`Turn`] has one value. A thread that wants it has a [`Pass`], takes the value out, adds entries to its log, and
//! gives it back. It goes by tickets, as at a counter: [`Turn::take`] draws the next number and waits until that number
//! is served, and [`Turn::give`] puts the value back and serves the next.
//!
//! # What a holder knows
//!
//! The value is [`Logged`]: it stands for an opening, which never changes, and for a list of entries, which only grows.
//! Each pass knows the opening, the entries that its holder has seen so far, and at which positions of the list its own
//! entries stand. An entry is the pass's own if it was added while the pass held the value.
//!
//! - A taken value is of the same opening. Its list begins with all that the pass had seen, and has the pass's own
//!   entries at their positions, each once. So no other holder can have put another value in its place, and nobody can
//!   have lost, moved or changed an entry.
//! - A value is given back only with the opening and the list that it had, and what was added behind it.
//! - A pass that is joined into another leaves what it had seen and its own entries to that pass.
//! - The value that [`Turn::close`] gives has exactly the entries that the first pass has seen, for by then it has seen
//!   what all others had.
//!
//! # Passes, tickets and the number that is served
//!
//! The lock is a table of three words and one slot. The words are the number of passes, the next ticket and the ticket
//! that is served; the slot has the value. Each pass is a seat at that table, and what it knows is the seat's view.
//! Between any two steps this holds:
//!
//! - The number of passes is one more than the first pass's number of others. Only the first pass changes it.
//! - The tickets that are out run from the one that is served to the next. There are at most as many as passes, and each
//!   is one pass's, so no two passes have the same.
//! - The slot is empty only while the pass whose ticket is served holds the value.
//! - The value that was put into the slot last has the opening that every pass knows, and its list begins with what any
//!   pass has seen. One pass has seen all of it.
//! - Each position of the list is the own one of one pass at most.
//!
//! The two ticket words wrap round at 2^64. The rule counts tickets without bound, and since at most 65,536 are out at
//! once, no two of them are equal in the word.
//!
//! # What is not claimed
//!
//! Nothing here says that a call returns: not that a holder gives the value back, nor that a waiting pass is served, nor
//! when. Tickets are served in the order in which they were drawn, but no contract speaks of that order, and none says
//! that two threads ran at once. A pass that is dropped stays counted, so its turn can no longer be closed; dropped while
//! it holds the value or a ticket, it lets all others wait for ever.
#![tactic(auto)]

mod logged;
mod pass;
mod rule;
mod steps;
mod turn;
mod view;

pub use logged::Logged;
pub use pass::Pass;
pub use turn::Turn;
